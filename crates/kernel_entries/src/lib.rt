//! The entries in which the events of kernels are noted, their order, and that values are in the range of their types.
//!
//! That values are within their types is found by reading them: `tell_call` and the like read and do nothing else, so that no part of the
//! kernel step has to mention bounds.
//!
//! # What is proved
//! What an entry is made of are values of their types, and so is any call, packet, picture and step. The order of entries and the merge
//! of journals are definitions.
//! By clauses `in_range` of `Happened::asked`, `Happened::took` and `Entry::of`; those of `tell_*`.
#![tactic(auto)]

mod entry;
mod packet_ranges;
mod ranges;

pub use entry::{Entry, Happened, Placed};
pub use packet_ranges::tell_packet;
pub use ranges::{tell_call, tell_picture, tell_pid, tell_step, tell_steps, tell_u8, tell_u64};
