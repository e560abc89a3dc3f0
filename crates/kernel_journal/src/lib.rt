//! Entries, transcripts, and the replay of transcripts.
//!
//! The first two are those of `journal_text` and `transcript_reader`, re-exported. `Replay` takes the lines of a transcript one after the
//! other and runs the kernels beside them, and reads one itself where it is just what they expect; `replay` hands it all lines.
//!
//! # What is proved
//! `replay` answers the last line exactly where the lines are a valid transcript, and else, unless memory runs out, the first line that
//! differs; and what it accepts is one lawful run of the link service. A `Replay` takes a line exactly where the lines up to it are a
//! prefix of a valid transcript, and else, unless memory runs out, names the first line that differs: the lines before it are such a
//! prefix, and with it they are not. It takes the next line of a reader unread, where that is just the line that the kernels give there.
//! Once it took the last line, just these lines are such a transcript, with that last line.
//! By clauses `found`, `lawful`, `only` and `fault` of `replay`, the clauses of `Replay::take` and `Replay::take_expected`; `IsAt` in
//! `specs/At.antt`, `IsReplay` and `IsDifference` in `transcript_replay/specs/Replay.antt`.
#![tactic(auto)]

mod body;
mod due;
mod expected;
mod fault;
mod lines;
mod whole;

pub use fault::ReplayFault;
pub use journal_text::{
    Entry, Happened, Last, Placed, ScriptNote, print_entry, print_header, print_picture,
    print_transcript,
};
pub use lines::Replay;
pub use transcript_reader::{Line, LineFault, LineKind, Reader, ServiceLine, read_transcript};
pub use whole::replay;
