//! What a world of kernels means to the link service: when it stands for a state of the service, the invariant of reachable worlds, and
//! that the steps of a run are a lawful run of the service. Definitions and lemmas alone.
//!
//! # What is proved
//! When a world stands for a state of the service, and the invariant of the worlds of a run, as definitions. Its clauses on a link are
//! preserved while nothing of the link changes.
//! By `specs/StandsFor.antt`, `specs/Invariant.antt`; `proofs/Frame.antt`.
#![tactic(auto)]
