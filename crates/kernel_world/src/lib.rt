//! What several kernels do together: worlds, their events and runs, as definitions.
//!
//! # What is proved
//! The packets of a world after an event, list by list.
//! By the law `packets_after_an_event`.
#![tactic(auto)]

mod law;

pub use law::packets_after_an_event;
