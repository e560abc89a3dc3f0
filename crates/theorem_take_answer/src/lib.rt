//! Takings of packets that answer an end: that its message was taken, or that its receive was withdrawn. Lemmas alone.
//!
//! # What is proved
//! The service simulates the event, and the invariant of worlds is preserved (`Goes`), with the taking of any taken: where its end lives,
//! by the step complete, and by report where its owner is in a Wait; else by no step. And of any unwanted: where it meets the receive that
//! is being withdrawn, by the step free; else by no step. Also: where an answer is replaced by the news that came with it, and its end
//! settles, all clauses on links are true (`settled-right`).
//! By `taken-goes`, `unwanted-goes` (`proofs/Takings.antt`), `taken-completes` (`proofs/Completed.antt`), `unwanted-frees`
//! (`proofs/Freed.antt`), `taken-dropped`, `unwanted-dropped` (`proofs/Dropped.antt`), `settled-right` (`proofs/Settled.antt`).
#![tactic(auto)]
