//! Threads of shaped code that take turns: each that goes on finds its operands, and asks for what its module allows. Definitions and lemmas.
#![tactic(auto)]

mod law;

pub use law::{beat_lowers_what_is_left, run_ends_within_its_beats};
