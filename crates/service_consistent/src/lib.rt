//! Every state that a run of the link service reaches is consistent: the state at the start of a setting is, and each of the sixteen
//! steps keeps that. Laws, and the lemmas that they stand on.
//!
//! # What is proved
//! The state at the start of a valid setting is consistent (`IsConsistent` of `service_lawful`), and each of the sixteen steps of the
//! service leaves a consistent state consistent. So each state of each service run is consistent.
//! By the laws `the_start_is_consistent` and `every_step_is_consistent`.
#![tactic(auto)]

mod law;

pub use law::{every_step_is_consistent, the_start_is_consistent};
