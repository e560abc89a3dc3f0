//! The service steps of each entry of a run. A law, and the lemmas that it stands on.
//!
//! # What is proved
//! Of the entries of a run of kernels, in the order of a merge, each with its part of the service's run: those of a call are its refusal, or the step of
//! the call and what comes of it; those of a packet that is taken are no process's call; and the processes of other kernels stay in their phase
//! (`AreEntries` in `specs/Entries.antt`).
#![tactic(auto)]

mod law;

pub use law::entries_have_steps;
