//! Laws of replayed transcripts: each is one lawful run of the link service, and its events happen at kernels that exist.
//!
//! # What is proved
//! A transcript that is the transcript of a run (`IsReplay` in `transcript_replay/specs/Replay.antt`: its entries are a run of the kernels
//! in the order of a merge, its service lines the steps of these events, its last line true) shows one lawful run of the link service; and where
//! no packet is under way at its end, no kernel keeps a trace of a link that moved on. The events of a run happen at kernels that exist.
//! By laws `every_replay_is_lawful` and `every_run_is_within`.
#![tactic(auto)]

mod law;

pub use law::{every_replay_is_lawful, every_run_is_within};
