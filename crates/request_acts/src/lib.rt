//! The deeds of a run whose processes are LYNX programs. Laws, and their proofs.
//!
//! # What is proved
//! Where each process of a run replays a LYNX program on the entries of its kernel, as the clauses of runs have it, there is one replay of all processes over
//! the merged entries (`Acts` of `language_links`), in which each makes as many steps: so the run has deeds, each just before its process's next call or at
//! the end (`a_run_has_deeds`). In it each process makes just its own replay (`each_replays_its_program`), and what it does is a process run: its calls and its
//! deeds are those of its program's steps (`each_makes_a_process_run`). The deeds are a function of the entries and of how many steps each process made
//! (`deeds_are_determined`). `AreReplayed`, `AreActed`, `deeds_of` and `IsRunBy` in `specs/Acted.antt`.
//!
//! That the deeds are as `language_links` claims is `ActsAreLinked` in `specs/Claimed.antt`: `followed_links` proves it of requests and replies, and
//! `carried_ends` of the ends that they carry, and so of each run.
#![tactic(auto)]

mod law;

pub use law::{
    a_run_has_deeds, deeds_are_determined, each_makes_a_process_run, each_replays_its_program,
};
