//! Events by which an open end learns that a receive of its opposite is wanted, or withdrawn: the invariant of worlds is preserved.
//! Definitions and lemmas alone.
//!
//! # What is proved
//! At an end that is here, does not know of the death of its link, and did not serve the receive that a packet is about: the service
//! simulates the taking of an unwant (`Goes`) by the step withdraw of the opposite end, and an unwanted goes back; it simulates the taking of
//! a want, where no send of the end waits, by no step, and the want is kept. In both the end learns too where its opposite
//! is. Also: an event comes in two parts, one after the other; and where what an end keeps of the receives of its opposite changes, and at
//! most unwanteds are sent, the clauses on links that are not about those stay (`IsAnew`). Of a want at an end whose send waits, which is
//! matched, parts alone: the service may match that send, whatever ends it carries, and where the opposite end lives the message meets its
//! receive; the ends of the service after that; and where the end counts the receive as served, the clauses on links are preserved. That
//! the parcel goes, with or without ends, and that the service simulates such a taking, is in `theorem_match`.
//! By `unwant-goes` (`proofs/Unwanting.antt`), `want-kept-goes` (`proofs/Wanting.antt`), `right-void`, `may-withdraw` (`proofs/Void.antt`),
//! `right-kept` (`proofs/Kept.antt`), `may-match`, `meets` (`proofs/Matching.antt`), `matched-own`, `matched-other`
//! (`proofs/Matched.antt`), `right-cleared` (`proofs/Cleared.antt`), `first-part`, `last-part` (`proofs/Parts.antt`).
#![tactic(auto)]
