//! Whether the next line of a transcript is the one that a kernel gives: it is compared with the text of that, and no value is made of it.
//!
//! # What is proved
//! Where `reads_step`, `reads_packet` or `reads_call` answers `true`, the next line was read, and it is that of the step, of the packet, or of the call
//! that was put into its place. Else nothing was read, and the line may be any.
//! By the clauses of these functions; `told_packet` in `specs/Told.antt`.
#![tactic(auto)]

mod reads;
mod shown;

pub use reads::{reads_call, reads_packet, reads_step};
