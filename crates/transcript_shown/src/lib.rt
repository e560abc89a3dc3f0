//! Lines of any text as they stand, shown as lines of printable ASCII; texts of several items.
//!
//! # What is proved
//! The line of a number is shown byte by byte, with a mark where no line feed ends it, and so is a text behind a label, each as one line. The items of a
//! `Listing` stand in their order, with its mark between each two.
//! By the clauses of `line_at`, `standing_line` (`first_text` in `specs/Standing.antt`) and `labelled_line` (`labelled` in
//! `specs/Shown.antt`), and those of `Listing`.
#![tactic(auto)]

mod listing;
mod shown;
mod standing;

pub use listing::Listing;
pub use shown::labelled_line;
pub use standing::{Standing, line_at, standing_line};
