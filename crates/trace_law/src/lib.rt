//! Tables without traces, of every run: once all packets were taken, no kernel keeps a trace of a link that moved on. A law, and its proof.
//!
//! # What is proved
//! In every world of a run of a valid setting in which no packet is under way, each kernel's table has no forwarding entry and no mark of a destroyed
//! end: only ends that its own processes own, or have enclosed in a message that waits (`no_trace_is_left`; `IsBareAfter` in `specs/Law.antt`). It is an
//! induction over the events: each preserves the clauses on traces of `trace_meaning`, given the invariant of the service theorem (`takes-traced` and
//! `calls-traced` in `proofs/`).
#![tactic(auto)]

mod law;

pub use law::no_trace_is_left;
