//! What an event gives once it closes: what each rule and each call does with a table that is sound, the state of each process
//! afterwards, and the report that answers a Wait. Definitions and lemmas alone.
//!
//! # What is proved
//! In a table that is sound (`IsSound`), what `take_step` and `call_step` give by these effects: the state of each process, the entry of
//! each end, the packets sent, the answers that came to stand, the service steps. A report that answers a Wait, and an answer to a Cancel,
//! are in it.
//! By `take-gives`, `take-dropped` (`proofs/Events.antt`), `call-gives`, `call-refused` (`proofs/Called.antt`).
#![tactic(auto)]
