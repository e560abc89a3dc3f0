//! Threads of a machine mean their sources: what a thread did in a history of a machine, and that it is what its code and its source mean.
//! And how many actions the runs of a history stop for. Definitions and laws.
#![tactic(auto)]

mod law;

pub use law::{
    actions_are_bounded, actions_begin_or_close, all_actions_are_bounded, runs_are_moves,
    threads_mean_their_code, threads_mean_their_sources,
};
