//! Each step of the link service keeps the invariant of a run of LYNX processes. Lemmas alone.
//!
//! # What is proved
//! Of a step that is no process's call (`uncalled_stands` in `proofs/ServiceSteps.antt`), of the refusal or the own step of a call that a process asked
//! (`own_stands` in `proofs/CallSteps.antt`), and of a print, which has no step (`print_stands` in `proofs/Printing.antt`).
#![tactic(auto)]
