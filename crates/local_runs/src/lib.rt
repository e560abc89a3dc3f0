//! Laws: kernels that run concurrently, each of which made a local run, made one run of the world where their packets fit together, and so
//! one lawful run of the link service.
//!
//! # What is proved
//! Kernels that run concurrently have no common list of events: each made a local run, its own events from its start, with the packets that
//! it took. Where what each took of another is a prefix of what this one sent to it, their entries in the order of a merge are the record
//! of one run of the world, which leaves each kernel as its local run does, and the packets that were not taken under way; and they are one lawful run of
//! the link service. The premises: a packet that is taken carries at most eight values, before a taking neither the kernel's stamp nor the
//! packet's is the greatest number, and there are at most 2^31 entries. Every run of the world is so. The command
//! `run` uses it.
//! By laws `local_runs_are_one_run`, `local_runs_are_lawful`, `run_is_local_runs`; `FitTogether`, `IsOneRun`, `AreLocalRuns` in
//! `specs/Local.antt`.
#![tactic(auto)]

mod law;

pub use law::{local_runs_are_lawful, local_runs_are_one_run, run_is_local_runs};
