//! What the lines of a transcript are and what a text of such lines tells: the forms of lines as a reader sees them, as definitions, and
//! the law that a text is the transcript of one run alone.
//!
//! # What is proved
//! A text is the transcript of one setting, one list of entries, notes and one last line at most, apart from the stamps of packets. How
//! each line is read, and what lines tell together, are definitions.
//! By the law `one_reading`; `told_by` and `kind_of` in `specs/`; `read_again` in `proofs/Wholes.antt`.
#![tactic(auto)]

mod law;
mod line;

pub use law::one_reading;
pub use line::{LineKind, ServiceLine};
