//! Tables without traces, as definitions: what is true of forwarding entries, of marks and of the packets that take them away, beside the
//! invariant of worlds of `theorem_meaning`. Definitions and lemmas alone.
//!
//! # What is proved
//! Where these clauses hold and no packet is under way, no table has a forwarding entry or a mark: each entry is of an end that is here.
//! The clauses on a link are preserved while nothing of the link changes. That every run has them is not proved here. In two worked
//! runs, in which an end moves and in which it is destroyed, what is left of it is computed event by event.
//! By `AreTraced` and `AreBare` in `specs/Traces.antt`; `bare-when-quiet` in `proofs/Quiet.antt`,
//! `frame-traced` in `proofs/Frame.antt`; `proofs/Worked.antt`.
#![tactic(auto)]
