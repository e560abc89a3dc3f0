//! The service theorem: every run of kernels is a lawful run of the link service. Laws, and the proof of each event and of the induction
//! over them.
//!
//! # What is proved
//! The service theorem. However calls and packets interleave and ends move, a run of a valid setting is one lawful run of the link service:
//! the service steps of its events are allowed one after the other, after each event the kernels stand for the state of the service, and
//! that service run is lawful. The same for the entries of a run in the order of a merge, as they are printed (docs/THEOREM.md).
//! By the laws `every_run_is_lawful` and `every_record_is_lawful`; `specs/Law.antt`, `specs/Record.antt`; `starts-well`, `takes-goes`,
//! `goes-event` in `proofs/`.
#![tactic(auto)]

mod law;

pub use law::{every_record_is_lawful, every_run_is_lawful};
