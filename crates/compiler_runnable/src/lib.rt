//! The law that the code of every module can be run by a machine.
#![tactic(auto)]

mod law;

pub use law::checked_code_is_runnable;
