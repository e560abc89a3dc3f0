//! Receive and Make, where they are granted: the service simulates them, and the invariant of worlds is preserved. Lemmas alone.
//!
//! # What is proved
//! The service simulates a Receive that its kernel does not refuse by the step receive, and a Make that its kernel does not
//! refuse by the step make; the invariant of worlds is preserved (`Goes`). The premises are that the invariant holds before, that the
//! processes have the homes of the setting, that the event is allowed, and that no cause of the call holds. Also, of any call: where it is
//! not refused, and its part touches ends as `Covers` says, the table that it leaves is sound; and where it is answered at once and the
//! service changes no process, processes and kernels are afterwards as the service has them. Of any event that replaces the view of one
//! end, by one with the same holder and send, and sends one packet without values: ends are where they were (`IsOneView`).
//! By `receive-goes` (`proofs/Receives.antt`), `make-goes` (`proofs/Makes.antt`), `call-sound`, `processes-after`, `setting-after`
//! (`proofs/Answered.antt`), `standing-same`, `in_message-same` (`proofs/OneView.antt`).
#![tactic(auto)]
