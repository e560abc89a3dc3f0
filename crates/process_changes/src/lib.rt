//! A step of a LYNX process, end by end: its ends change one after the other, by what may happen at an end of a link, and its deeds are those of the
//! changes. Definitions and lemmas alone.
//!
//! # What is proved
//! It is known where each end is: held, carried for a message, in hand within the step, or to be destroyed (`Ledger` in `specs/Ledgers.antt`). First comes what
//! the answer tells, at one end at most and by that answer (`Telling` in `specs/Telling.antt`), then what comes of that and what the threads do: at ends that the
//! process holds, allows that are due, ends at rest that go with a message, and ends that are destroyed, held again or got (`Change` in `specs/Changes.antt`):
//! `step_changes` in `proofs/Steps.antt`, for processes that are sound. Nobody connects on a dead end, and each request and reply has an end for each link among
//! its values, eight at most. An end that goes has no request in part, unless it is dead (`rest_whole` in `proofs/Due.antt`).
//!
//! Seen at one end (`ToldAt` and `ChangeAt` in `specs/AtEnd.antt`): `told_at` in `proofs/ToldAt.antt`, `changes_at` in `proofs/AtEnd.antt`. No change, and nothing
//! that is told, puts an end into more places (`less_after`, by `total`; counted in `proofs/Counting.antt`), so an end that is in one place at most stays so. At an
//! end that is neither held nor in hand nothing is done (`all_away` and `told_away` in `proofs/Away.antt`).
#![tactic(auto)]
