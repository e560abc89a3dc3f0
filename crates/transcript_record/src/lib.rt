//! What is true of each run of kernels, as laws: its events can be put in the order of a merge, and a transcript can tell them.
//!
//! That the merge is a run rests on an exchange: an event that stands before the one performed just before it, by stamp and kernel, is of
//! another kernel and took nothing that the other sent, since a packet's taker has a greater stamp than the packet. So both may happen in
//! either order, with the same entries and the same world after them (`proofs/Exchange.antt`); sorting by insertion does the rest
//! (`proofs/Sorted.antt`).
//!
//! # What is proved
//! The events of each run can be put in the order of a merge, with the same entries at each kernel and the same last world. Entries in that
//! order which are those of a run at each kernel are its record. The lines of a record show all of it but the stamps of packets. Computed
//! by the checker: of nine worked runs on one to five kernels, the definitions give just the entries, stamps, service steps and lines that
//! are written there.
//! By the laws `run_has_a_record`, `merge_is_a_record` and `record_is_shown`; `proofs/Rows.antt`, `RowLines.antt`.
#![tactic(auto)]

mod law;

pub use law::{merge_is_a_record, record_is_shown, run_has_a_record};
