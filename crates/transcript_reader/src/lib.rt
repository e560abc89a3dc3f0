//! Reading of transcripts, line by line: which line each is, and the first that cannot stand where it stands.
//!
//! A `Reader` gives one line after the other and does not allocate. `read_transcript` collects the lines. Where it is known which line has
//! to come next, a `Reader` tells whether it does, and it skips lines of which only the place matters, without making values of them.
//!
//! # What is proved
//! `read_transcript` gives lines exactly where the text is the spelling of these lines in the order of a transcript, and else names a line
//! exactly where it is the first that cannot stand in its place: the one behind the last where the text ends too soon, or where it is not
//! finished. A `Reader` does not allocate; it gives these lines one after the other, and what it read last, as far as the next line depends
//! on it. A line of an entry or of a step that is expected is read where it comes next, once what stands behind its text was found in
//! place: behind a step, a packet, or a call, which is then told. A line is skipped exactly where it would be given, and the same follows.
//! What a text tells is what its lines tell, and a text that tells something
//! is the transcript of that.
//! By clauses `found`, `only`, `fault`, `only_fault` and `exact` of `read_transcript`, the clauses of `Reader::next_line`,
//! `Reader::skip_line`, `Reader::pass_line`, `Reader::peek`, `behind_step`, `behind_packet` and `read_leading_call`, `Reader::lines`, `Reader::version` and
//! `Reader::place`; the laws `told_is_written` and `lines_are_told`; `AreLines` and `IsBadLine` in `specs/Text.antt`.
#![tactic(auto)]

mod behind;
mod fault;
mod law;
mod line;
mod packet;
mod place;
mod read;
mod reader;
mod step;

pub use fault::LineFault;
pub use law::{lines_are_told, told_is_written};
pub use leading_lines::{Ahead, CallAhead, PacketAhead, read_leading_call};
pub use line::Line;
pub use packet::behind_packet;
pub use place::Place;
pub use read::read_transcript;
pub use reader::Reader;
pub use step::behind_step;
pub use transcript_reading::{LineKind, ServiceLine};
