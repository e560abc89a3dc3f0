//! Traces of ends at the start: lemmas alone.
//!
//! # What is proved
//! The world with which a run of a valid setting starts is traced: no packet is under way, and each end is where it was made.
//! By `starts-traced` in `proofs/Start.antt`.
#![tactic(auto)]
