//! Events that mean nothing to the link service, though packets come and go: the invariant of worlds is preserved, with the same state of
//! the service. Definitions and lemmas alone.
//!
//! # What is proved
//! The service simulates the event by no step, and the invariant of worlds is preserved (`Goes`), with the taking of: a known, a forget and
//! a goneseen, wherever it comes; a want, unwant, gone or moved at an end that is not here (forwarded, dropped, or answered by the mark of
//! a destroyed end), or that knows of the death of its link (`IsSilentAt`); a moved at any other end that is here, and a want or unwant
//! there of a receive that was served already (`IsLearnedAt`). Also: of any event that leaves all of an end's entry but hint and trail, and
//! takes and sends no parcel, back, taken or unwanted (`IsQuiet`), every clause on links is preserved, if what is known is true and what is
//! wanted is still valid (`right-still`). And a packet that brings different ends, whatever it is, preserves the invariant of the table of
//! its kernel. Not in it: an unwanted or a taken that meets nothing, and a back without ends.
//! By `taking-goes` (`proofs/Taking.antt`), `hearing-goes` (`proofs/Hearing.antt`), `right-still` (`proofs/Clauses.antt`),
//! `invariant-still` (`proofs/World.antt`), `takes-sound` (`proofs/Sound.antt`).
#![tactic(auto)]
