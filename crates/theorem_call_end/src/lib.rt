//! Destroy and Exit, where they are granted: the service simulates them, and the invariant of worlds is preserved. Lemmas alone.
//!
//! # What is proved
//! The service simulates a Destroy that its kernel does not refuse by the step destroy, and an Exit by the step exit; the
//! invariant of worlds is preserved (`Goes`). The premises are those of `theorem_call_begin`. Also: what the service makes of each end
//! where a process destroys ends one after another.
//! By `destroy-goes` (`proofs/Destroys.antt`), `exit-goes` (`proofs/Exits.antt`), `destroys_each-is` (`proofs/Destroyed.antt`).
#![tactic(auto)]
