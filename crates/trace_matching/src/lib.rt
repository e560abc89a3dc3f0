//! A MATCH keeps all that is true of the traces of ends. Lemmas alone.
//!
//! # What is proved
//! A Send whose message is matched at once (`matched-traced` in `proofs/Sends.antt`), and a want that meets a send (`want-matched-traced` in
//! `proofs/Wants.antt`): the ends that the message carries leave with it, and what is told on the track of their opposites is so still.
//! By `IsMoving` of `trace_moving`.
#![tactic(auto)]
