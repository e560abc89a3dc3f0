//! What each word of the kernel step does: the entry of every end afterwards, and what is added to the lists of packets, reports,
//! answers and service steps. Definitions and lemmas alone.
//!
//! # What is proved
//! For each word of the kernel step, each of the eleven rules and each of the eight calls its effect as plain data: the entry of every end
//! by its entry before, and the packets, reports, answers and service steps that it adds; and that the word does just this (`Does`), where
//! the entries are of their ends and the ends of a list differ.
//! By `specs/Effect.antt`, `specs/Actions.antt`, `specs/Rows.antt`, `specs/Calls.antt`; the lemmas named `..-does` in `proofs/`.
#![tactic(auto)]
