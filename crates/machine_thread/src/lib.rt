//! One thread of a LYNX process: its operands and variables, what each instruction does with them, and the actions that it asks for.
#![tactic(auto)]

mod action;
mod actions;
mod exceptions;
mod jumps;
mod operators;
mod outcomes;
mod registers;
mod requests;
mod slots;
mod step;
mod thread;

pub use action::{Action, Given, Move, Wanted};
pub use thread::Thread;
