//! Each step of a LYNX process keeps the invariant of a run. Lemmas alone.
//!
//! # What is proved
//! With the deeds of the step the invariant stands; the process does them at ends that it owns, and the end on which it sends, or which it destroys, is its own
//! (`step_stands` in `proofs/ProcessSteps.antt`; `IsStepped` of `run_invariant`).
#![tactic(auto)]
