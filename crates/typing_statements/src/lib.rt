//! Typing of the statements of LYNX modules: `statements` goes over them, and finds the first of their faults.
#![tactic(auto)]

mod action;
mod list;
mod request;
mod statement;

pub use list::behind_first;
pub use request::{Request, is_number_of, known};
pub use statement::statements;
