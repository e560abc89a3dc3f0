//! Where each end is and what comes to it, step by step of the link service. Laws, and the lemmas that they stand on.
//!
//! # What is proved
//! Of each step of the service, in a state that is consistent (`service_consistent`) and in which a message that is matched is so with the receive of its
//! opposite (`AreMatched`, which the step keeps): what comes to an end (`ComesSo` in `specs/Coming.antt`), where an end is brought and with which report
//! (`Moves` in `specs/Moves.antt`), in which phase each process is left (`ArePhases` in `specs/Phases.antt`), that a death that is told is true, and when a
//! receive starts and is over (`specs/Deaths.antt`).
#![tactic(auto)]

mod law;

pub use law::{
    deaf_ends_get_nothing, deaths_are_true, each_end_moves, matches_stay, messages_come_in_order,
    processes_go_on, receives_are_told, start_is_matched,
};
