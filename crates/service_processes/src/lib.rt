//! The processes of the link service: what each is doing, the reports that it was not given yet, and the ends that it is known to
//! have.
//!
//! An end is forgotten where a process loses it and goes on, by a Destroy or by a Send that encloses it. An Exit forgets nothing: a process
//! that ended has no step any more that would ask.
//!
//! # What is proved
//! What a process is doing, its oldest report, and whether it has one. Each writer does to the processes exactly what the word of a step
//! does. An end that is learned is then known to be the process's, and what was known before still is; an end that is forgotten is known no
//! more, and every other as before; `forget_last_active` takes the last end out of those with an activity, and no other.
//! By clauses of `phase`, `has_report`, `oldest`, `held`, `last_active`; `process`, `ok`, `err` of the writers; `known`, `grows`,
//! `forgets`, `loses`.
#![tactic(auto)]

mod known;
mod processes;
mod report;
mod writers;

pub use processes::{ControlBlock, Processes};
pub use report::KeptReport;
