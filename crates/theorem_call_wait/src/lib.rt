//! Calls by which a process only learns something: one that is refused, a Print, and a Wait, with or without a report. Lemmas alone.
//!
//! # What is proved
//! The service simulates the event, and the invariant of worlds is preserved (`Goes`), with a call that its kernel refuses, by the step
//! refuse, for just the cause for which the service refuses it; with a Print by no step; with a Wait by the step wait, and by report where
//! a report is pending.
//! By `refused-for`, `answered-invariant`, `waits-invariant`, `reports-goes` in `proofs/`.
#![tactic(auto)]
