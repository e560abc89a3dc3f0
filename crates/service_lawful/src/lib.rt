//! That every run of the link service is lawful: the invariant of its states, and that of the steps so far on the ends. Definitions and
//! lemmas alone; nothing here knows of kernels.
//!
//! # What is proved
//! The invariant of the states of the service, as a definition, and that it holds before any step. A refusal, and a step that changes no
//! end and no reports, leaves a lawful run lawful, step by step; of all steps this is proved in `service_runs`.
//! By `specs/Consistent.antt`, `specs/History.antt`; `fresh-consistent`, `turned-consistent`, `history-refused`, `history-calm` in
//! `proofs/`.
#![tactic(auto)]
