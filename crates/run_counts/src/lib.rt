//! How many calls, events and service lines a run has, and the summary of `bench`: these counts over the run of the script of a seed.
//!
//! # What is proved
//! `summary_of` gives the nine lines of the seed and of eight counts over the run of the script that `make_script` makes of it: the calls, what the
//! lines of the script did not do, the events, and the service lines of four kinds. The entries are not counted by what the kernels did but in
//! their lines, each of which is read by its form.
//! By the clause of `summary_of`; `IsSummary` in `specs/Summary.antt`, `counts_of` in `specs/Counts.antt`.
#![tactic(auto)]

mod counts;
mod lines;
mod summary;

pub use summary::summary_of;
