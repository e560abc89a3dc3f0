//! A back is taken at the end whose message comes back. Definitions and lemmas alone.
//!
//! # What is proved
//! The service simulates the event, and the invariant of worlds is preserved (`Goes`), with the taking of each back whose end is here and
//! has that send matched, whatever ends it carries: by the step back, which also notices the death of the link where the end did not know
//! of it, and by report where the owner is in a Wait.
//! By `back-given-goes`, `back-awaited-goes` (`proofs/Takings.antt`); `returned-links`, `returned-right` (`proofs/Returned.antt`).
#![tactic(auto)]
