//! A back whose end is destroyed keeps all that is true of the traces of ends. Lemmas alone.
//!
//! # What is proved
//! The ends that it carries are destroyed where it comes: a chain that led to such an end leads to its mark, and the gone that is sent is on the track of
//! its opposite (`dropped-traced` in `proofs/Dropped.antt`). By `ending-traced` of `trace_ending`.
#![tactic(auto)]
