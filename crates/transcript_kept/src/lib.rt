//! The kernels and the link service beside the lines of a transcript, and by them why a line is not that of a run.
//!
//! An audit went over the lines before. They are not tested again here, so that a `Run` needs no part of a replay.
//!
//! # What is proved
//! What a `Run` keeps is what the definition says: its kernels are the world of the events of the lines that it followed, the last entry and the
//! steps that are due are those of the last event, and its service made the steps that were shown. It follows a line exactly where that is possible,
//! and so the next line of a text: where that is just what the kernels expect, it is compared with the text, and no value is made of it.
//! `explain` gives the three lines of `transcript_why`.
//! By `IsRun` and `kept_of` in `specs/Run.antt`; the clauses of `Kernels` at `Run`, and of `explain`.
#![tactic(auto)]

mod expected;
mod explaining;
mod run;

pub use explaining::explain;
pub use run::Run;
