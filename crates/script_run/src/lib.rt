//! Performing a script: the run of kernels that its lines name, and what is noted of it.
//!
//! The lines belong to what performs them, and each goes as it is done, so that their memory serves the events.
//!
//! # What is proved
//! Performing a script is the run that its lines name, in their order: which events, which notes, and whether a packet is left at the end.
//! The result is the record of a run in the order of a merge, which at each kernel has the same events in the same order, and leaves the
//! same world. It can be told by a transcript: all are values of their types, and the lines show all of it but the stamps of packets.
//! By clauses `performed` and `told` of `perform`; `specs/Performing.antt`.
#![tactic(auto)]

mod lines;
mod performance;
mod recorded;
mod undone;

pub use performance::{Performance, perform};
