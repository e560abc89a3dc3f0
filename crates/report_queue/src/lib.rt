//! The reports of a process that were not asked for yet. They lie in the memory of what they say, and are put together again when they are taken.
//!
//! # What is proved
//! A `ReportQueue` is the list of its reports, oldest first, and how many more fit without memory: room is made for so many, a report joins the
//! others behind them, the oldest one is taken, or the oldest for one that joins. Nothing is lost, changed or moved before another, also after want
//! of memory.
//! By the clauses of `ReportQueue`.
#![tactic(auto)]

mod queue;
mod run;

pub use queue::ReportQueue;
