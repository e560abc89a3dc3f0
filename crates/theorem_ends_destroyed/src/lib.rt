//! Events in which ends are destroyed, a call or the taking of a message that comes back: what such an event changes of links, and that the
//! invariant of worlds is preserved. Definitions and lemmas alone.
//!
//! # What is proved
//! Of an event in which some ends are destroyed, each with what its waiting message encloses, or with the packet that brings it
//! (`IsEnding`): every clause on links, and of `StandsFor`, is preserved, where in the service those ends are destroyed too.
//! By `ended-right` (`proofs/Clauses.antt`), `ended-links` (`proofs/Placed.antt`); `specs/Ending.antt`.
#![tactic(auto)]
