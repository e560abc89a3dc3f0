//! The text of entries and the transcript of a run; the order of a merge.
//!
//! # What is proved
//! Of the first entries of two journals the one with the smaller stamp comes first in a merge. Each print call gives exactly the lines of
//! its definition, and so do the writers of calls, packets and steps.
//! By `earlier_head`; `transcript_lines` of the crate of that name, and what cites it; the clauses of `push_*`.
#![tactic(auto)]

mod call;
mod end_lines;
mod entry_lines;
mod happened;
mod header_lines;
mod merging;
mod packet;
mod print;
mod step;

pub use end_lines::{push_last_line, push_note_line};
pub use entry_lines::push_head;
pub use happened::{push_asked, push_step_line, push_taking, push_took};
pub use header_lines::{push_number_line, push_process_line, push_wire_line};
pub use kernel_entries::{Entry, Happened, Placed};
pub use merging::{Head, earlier};
pub use print::{print_entry, print_header, print_picture, print_transcript};
pub use transcript_lines::{Last, ScriptNote};
