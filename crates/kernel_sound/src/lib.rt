//! The invariant of the table of one kernel, under arbitrary calls and packets: who holds each end, what a waiting message encloses, and
//! which links are made. Definitions and lemmas alone, so that what stands on them stands on no code.
//!
//! # What is proved
//! The invariant of the table of one kernel, under arbitrary calls and packets, as a definition (`IsSound`), and the lemmas that each part
//! of the kernel step preserves it. What a contract cites of it is the invariant of `Kernel`.
//! By `specs/Sound.antt`; the lemmas in `proofs/`.
#![tactic(auto)]
