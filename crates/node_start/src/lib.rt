//! The nodes of a setting before their first turns, each with the programs of its processes.
//!
//! # What is proved
//! There is a node for each kernel, in order, each of the setting's kernel of that number at its start, with the port, the orders and the watch
//! of its place, and with the programs of those processes whose home is there, by their numbers. They are the nodes of that setting, after no
//! events (`AreNodes` of `node_runs`), so they can run.
//! By clauses of `start_nodes`; `programs_on` in `specs/Homes.antt`.
#![tactic(auto)]

mod homes;
mod start;

pub use start::start_nodes;
