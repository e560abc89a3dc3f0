//! The machine that runs the code of LYNX modules: threads that take turns.
#![tactic(auto)]

mod machine;
mod outside;
mod slot;
mod starts;
mod stop;
mod turns;

pub use machine::Machine;
pub use machine_thread::{Action, Given};
pub use machine_values::{LinkRef, Value};
pub use stop::Stop;
