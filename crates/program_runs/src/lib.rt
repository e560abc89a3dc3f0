//! Replay of a program on the entries of its kernel: its asks are the calls of its process, and what its steps are given is what the
//! entries determine. Laws: a replay can be continued over further entries, a part of it is one, and what it gives a program fits what that
//! asked.
//!
//! # What is proved
//! Replay of a program on entries: its asks are the calls of its process in order, and what its steps are given is what the entries
//! determine. A replay can be continued over the entries that come after, that of a prefix of the entries is a part of it, and what it
//! gives a program may follow what that asked.
//! By laws `replays_chain`, `replays_split`, `replay_hears_entries`, `program_is_given_what_fits`; `Replays` in `specs/Replay.antt`.
#![tactic(auto)]

mod law;

pub use law::{program_is_given_what_fits, replay_hears_entries, replays_chain, replays_split};
