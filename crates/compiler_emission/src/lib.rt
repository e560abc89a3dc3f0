//! The code of the parts of a module, emitted from its tree: expressions, statements, parts, and the places of variables.
//!
//! Each function that adds code says two things: that the list is what it was, and behind that the code of its part; and that the code is
//! too long only where these are more than 65,535 together. So both add up along the tree, and no size is counted beforehand, but that a
//! body of 65,535 statements or more, each of which has an instruction, is refused at once.
//!
//! # What is proved
//! The parts of a module and their instructions are those of the definitions; the answer is that the code is too long exactly where it has
//! more than 65,535 instructions.
//! By clauses of `compile_parts`; `module_code` in `lynx_code/specs/Modules.antt`.
//! Want of memory is the one cause of `NoMemory`: of a module of the grammar with fewer than 2^32 tokens, no number is too large for its type,
//! but for that of the values of a `reply` in code that is too long. By the conditions of `Places`, the ghost field of `Tables` and the clauses of `short`.
#![tactic(auto)]

mod emit;
mod emit_expression;
mod emit_statement;
mod fault;
mod naming;
mod parts;
mod places;
mod scope;
mod tables;

pub use fault::CompileFault;
pub use parts::{Emitted, compile_parts, push_kinds};
