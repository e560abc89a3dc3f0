//! The parser: tokens are read as the one tree of the grammar, or the first fault is told.
//!
//! Room for brackets and statements is counted down, and a loop makes at most one turn for each token that is left, so that only a bracket
//! or a statement recurs. A refusal inside counts the tokens from the fault to the end, and `parse` turns it into a place. Statements that
//! hold no other are read outside of the functions that call one another, and what makes an expression answers a `Refusal`, so that it ends
//! a function: both keep proofs small.
#![tactic(auto)]

mod item;
mod make_expression;
mod make_statement;
mod parsing;
mod read_expression;
mod read_list;
mod read_module;
mod read_statement;
mod reader;
mod spare;

pub use parsing::{parse, parse_lexemes};
