//! Reading of the line, the call or the packet that a text begins with, at once and without cutting it into words.
//!
//! Only the most common forms are read so. `None` promises nothing: what was not read may be of another form, or none. No memory is taken.
//!
//! # What is proved
//! What was read has a place in its type, and the text is its spelling and what stands behind it. A line is one of an entry or of a step, which may
//! stand behind another such line, or a note.
//! What stands behind a line that is not read is found where one of its type is spelled there.
//! By the clauses of `leading_line`, `past_line`, `leading_note`, `look_ahead`, `read_leading_call` and `leading_number`.
#![tactic(auto)]

mod behind;
mod call;
mod enclosed;
mod guess;
mod line;
mod number;
mod packet;
mod passing;
mod step;
mod values;

pub use behind::{behind_byte, behind_short, behind_word};
pub use call::read_leading_call;
pub use guess::{Ahead, CallAhead, PacketAhead, look_ahead};
pub use line::{leading_line, leading_note};
pub use number::leading_number;
pub use passing::past_line;
