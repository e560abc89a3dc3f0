//! The packets from one kernel to another that were not taken yet. The oldest lie as they were sent; those behind them take only the memory of
//! what they say, and are put together again before they are taken.
//!
//! # What is proved
//! A `PacketQueue` is the list of its packets, oldest first: one joins it behind the others, a whole list takes the place of none, the first is
//! lent and taken, and it tells whether it is empty. Want of memory aside, nothing is lost, changed or moved before another.
//! By the clauses of `PacketQueue`.
#![tactic(auto)]

mod packed;
mod queue;
mod text;

pub use queue::{MOST_IN_FRONT, OpenQueue, PacketQueue};
