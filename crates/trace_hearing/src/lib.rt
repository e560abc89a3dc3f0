//! Events by which an end may hear where its opposite is keep all that is true of the traces of ends. Definitions and lemmas alone.
//!
//! # What is proved
//! In such an event entries keep all that the clauses on traces speak of, but that the hint of an end rises to what the packet tells that was taken;
//! then what an end with a trail tells, and what a mark tells, goes to the new hint. It keeps all clauses. Such is a moved that comes to a mark.
//! By `IsHearing` in `specs/Hearing.antt`; `hearing-traced` in `proofs/Hearing.antt`, `moved-mark-traced` in `proofs/Marks.antt`.
#![tactic(auto)]
