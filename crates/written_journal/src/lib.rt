//! What happens at kernels, written as text when it happens; the merge of such texts, and the transcript of a run.
//!
//! Beside its text an event has 32 bytes, and each of its lines two. A merge leaves the texts where they are and keeps the order alone, one
//! byte an event: the kernel whose event comes next.
//!
//! # What is proved
//! A journal has the entries of the events that were noted, in order, though it keeps only their text, and some lines of that packed; after
//! want of memory it has those that it had, and `note` succeeds without memory too. `entry` gives the lines that `print_entry` gives, `len`
//! the number of entries, and `cut` keeps the first. `Merged::of_journals` gives the merge of at most eight journals, and there is one.
//! `TranscriptLines` gives exactly the lines of the transcript of that merge, one after the other.
//! By `entries` of `WrittenJournal::asked`, `took`, `note` and `cut`, `IsStored` in `specs/Kept.antt` and `with_late` in `Late.antt`; the
//! clauses of `len` and `entry`, of `EntryLines::from`, `push_picture` and `lines`, and `given` of `LinesLeft::next_line`; `merge` and
//! `only` of `Merged::of_journals` (`IsMerge`); the clause of `TranscriptLines::of` (`transcript_lines`), and `given` of `next_line`
//! (`GivesFirst`).
#![tactic(auto)]

mod entry_lines;
mod history;
mod journal;
mod lines;
mod merged;
mod merging;
mod order;
mod reader;
mod reading;
mod stored;
mod transcript;
mod written;

pub use entry_lines::{EntryLines, LinesLeft};
pub use journal::WrittenJournal;
pub use merged::Merged;
pub use transcript::TranscriptLines;
