//! The definitions of the link service, the plain meaning of what kernels do together: it is one table of all ends with their
//! messages, and a list of processes. Nothing here knows where an end is, but for the maker of a link and the home of a process.
//!
//! `specs/` has the states, when a call is refused, the sixteen steps, runs, and which runs are lawful. The types of a state
//! stand in `state.rt`, with what a step asks of them.
//!
//! # What is proved
//! The link service, as definitions: states, causes, the sixteen steps, runs, lawful runs. They are the statement, not a result. How they
//! were tried is in docs/SERVICE.md. Proved is what a step asks of an end, an activity and a phase.
//! By `IsServiceStep`, `IsServiceRun`, `IsLawful` in `specs/`; clauses of the methods in `state.rt`.
#![tactic(auto)]

mod state;

pub use state::{End, Inward, Message, Outward, Phase, Place};
