//! Names and calls of kernels with movable links, settings, and what a program is.
//!
//! # What is proved
//! The opposite of an end. Lists of at most N items, which take no memory; `copy` gives an equal value. `Setting::valid` is exact. The trait
//! `Program` says what a program is: a state, a step function, a version, and which answers fit which call.
//! By the `ensures` of each call; `IsValid` in `specs/`.
#![tactic(auto)]

mod calls;
mod items;
mod memory;
mod names;
mod program;
mod setting;
mod short;

pub use calls::{Answer, Bytes, Call, Cause, Ends, Report, ServiceStep};
pub use items::Items;
pub use memory::NoMemory;
pub use names::{EndId, LINK_LIMIT, LinkId, Outcome, Pid, Side, Way};
pub use program::{Next, Program};
pub use setting::Setting;
pub use short::Short;
