//! A parcel that meets no receive goes back to where it came from, with the ends that it carries: the invariant of worlds is preserved.
//! Definitions and lemmas alone.
//!
//! # What is proved
//! The service simulates the event by no step, and the invariant of worlds is preserved (`Goes`), with the taking of a parcel where its
//! receive is not started at the end that it is addressed to, whatever that end's entry is: all its values leave again with one hop more,
//! in a back to the kernel that sent it. The premise is that fewer than 2^31 events went before. Also: where a parcel to an end that is not
//! open goes back so, all clauses on links are preserved.
//! By `parcel-back-goes` (`proofs/Backs.antt`), `right-returned`, `links-returned` (`proofs/Returning.antt`).
#![tactic(auto)]
