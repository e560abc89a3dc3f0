//! Ends that are destroyed where they are keep all that is true of the traces of ends. Definitions and lemmas alone.
//!
//! # What is proved
//! An event in which ends are destroyed that are here: a chain that led to such an end leads to its mark, and the gone that is sent to its hint is on the
//! track of the opposite; what an open opposite sends goes to the mark, and what it is asked for was asked from there. Such are a Destroy and an Exit.
//! By `ending-traced` in `proofs/Ending.antt`, of events that destroy ends as `theorem_ends_destroyed` says and tell so (`specs/Telling.antt`); and
//! `destroy-traced`, `exit-traced` in `proofs/Calls.antt`.
#![tactic(auto)]
