//! A gone by which an end first learns of the death of its link: the service simulates it, and the invariant of worlds is preserved. Lemmas
//! alone.
//!
//! # What is proved
//! The service simulates the event, and the invariant of worlds is preserved (`Goes`), with the taking of any gone: where the end is here
//! and does not know of the death of its link yet, owned or enclosed, by the step notice, and by report where its owner is in a Wait and a
//! send or a receive of the end was over by that; else by no step. Also: what NOTICE makes of entries, at any end that is here and whose
//! opposite is destroyed, is one part of an event, which sends and takes nothing: after it all clauses on links are true of the state after
//! the step notice, that step is allowed, and the table of its kernel is sound. That a process in a Wait is given a report is such a part
//! too, whichever of its reports is pending.
//! By `gone-goes`, `gone-noticed` (`proofs/Gone.antt`), `notice-links`, `notice-right`, `notice-step`, `notice-sound`
//! (`proofs/Notices.antt`), `told-links`, `told-right` (`proofs/Told.antt`).
#![tactic(auto)]
