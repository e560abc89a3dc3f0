//! The frame of commands: a file is read, what is found in it is put line by line, and a failure is told by its line.
//!
//! It knows the faults of scripts and of modules (`lynx_plan`, `lynx_source`), so that each failure has its status and text in one place.
//!
//! # What is proved
//! A command that reads one file reads it once, and gives its result of just the bytes that this read answered. Standard output gets one
//! put for each line of its text, and nothing is put anywhere after a put that failed. A failure is told by its one line, in place of a text or
//! behind one; each failure has its status and text. Where memory runs out in the middle of a text, standard output keeps the lines before it. A text that is held as
//! bytes is given by its lines, which together are the text.
//! By `IsOfFile`, `Took`, `Ends`, `Tells` and `lines_of` in `specs/`; clauses of `perform_file`, `end_with`, `put_text`, `tell`,
//! `read_file`, `HeldText`; the law `lines_are_the_text`.
#![tactic(auto)]

mod ending;
mod failure;
mod file_command;
mod held_text;
mod law;
mod lines;
mod putting;
mod reading;
mod telling;
mod text;

pub use ending::{End, Output, end_with};
pub use failure::Failure;
pub use file_command::{FileCommand, perform_file};
pub use held_text::HeldText;
pub use law::lines_are_the_text;
pub use lines::Lines;
pub use putting::{PutFault, put_text};
pub use reading::{MOST_BYTES, MOST_TRANSCRIPT_BYTES, read_file};
pub use telling::{tell, tell_text};
pub use text::Text;
