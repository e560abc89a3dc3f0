//! Laws: in each run of LYNX processes requests and replies are in order, and the ends that these carry are where they should be.
//!
//! # What is proved
//! The processes of a plan that was loaded begin with their own ends, each once, and with code that can be run (`loaded_plans_are_sound`). So of each run
//! of them there is one replay of all processes over its entries, in which each makes as many steps as it made there; and of the deeds in it all claims
//! hold: each request is accepted at most once, in order, and each reply goes to its request; who gets one of them owns the living ends in it, and until a
//! request is accepted its ends are with either side or between them (`runs_of_plans_are_linked`; `HasLinks` of `request_acts`). So it is of nodes that
//! were run with such processes (`nodes_of_processes_are_linked`). A run has at most eight times 100,000 entries, and so the laws of `carried_ends` hold.
#![tactic(auto)]

mod law;

pub use law::{loaded_plans_are_sound, nodes_of_processes_are_linked, runs_of_plans_are_linked};
