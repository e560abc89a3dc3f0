//! Calls, packets and service steps that take only the memory of what they say: a message of five bytes takes five, a Wait none.
//!
//! # What is proved
//! Each value, which takes only the memory of what it says, tells what it was made of, gives it back, and lends the form in which it is
//! kept.
//! By clauses of `of`, `copy`, `call`, `picture`, `step` and `stored`.
#![tactic(auto)]

mod call;
mod packet;
mod report;
mod step;
mod trimmed;

pub use call::{CompactCall, Message, StoredCall};
pub use packet::{Carried, CompactPicture, StoredWhat};
pub use report::StoredReport;
pub use step::{CompactStep, StoredStep};
pub use trimmed::Trimmed;
