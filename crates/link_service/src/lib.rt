//! The link service: the plain meaning of what kernels do together. It is one table of all ends with their messages, and a
//! list of processes. Nothing here knows where an end is, but for the maker of a link and the home of a process.
//!
//! `start` gives the state before any step of a setting, `apply` makes one of the sixteen steps where it is allowed, `place` tells where an
//! end is.
//!
//! # What is proved
//! `start` gives the start state of a valid setting. `apply` makes the step of the service where it is allowed, and answers `NotAllowed`
//! with the step's number exactly where it is not; after that, and when memory runs out, the state is unchanged. `place` is the end's place
//! in the state, and `Unmade` exactly for an end of no made link. That each end which a process owns is known to be its own holds of every
//! service (`IsWellKept`).
//! By the clause of `start` and of `place`; `ok`, `fault` and `same` of `apply`.
#![tactic(auto)]

mod activity;
mod conditions;
mod linking;
mod making;
mod reports;
mod service;
mod steps;
mod wires;
mod writers;

pub use service::{ApplyFault, Service};
pub use service_step::Place;
