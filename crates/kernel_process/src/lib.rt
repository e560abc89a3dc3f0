//! The processes of one kernel: what each is doing, its reports and its answer, and the ends on which it has started an activity.
//!
//! # What is proved
//! Lending and changing the control block of a process; the sets of ends with a started activity; how an event is closed: reports go to
//! their processes, and the first one answers a Wait.
//! By the clauses of `Processes`, `close` and the others.
#![tactic(auto)]

mod activity;
mod closing;
mod event;
mod owners;
mod process;

pub use activity::clear;
pub use closing::{close, exit, stand, turn, wait};
pub use event::Event;
pub use owners::{owner, owner_in, refresh_owner};
pub use process::{ControlBlock, Processes};
