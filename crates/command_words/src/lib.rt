//! The words of the command line of `lynx`.
#![tactic(auto)]

mod words;

pub use words::{Command, command_of, one_name};
