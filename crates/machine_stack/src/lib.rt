//! The operands and the variables of a thread. A number costs no more than its eight bytes and a word; texts and rows stand apart.
//!
//! A variable of a text or a row has a box from the start, and a store goes into it: no store takes memory. A row is kept as `Numbers`,
//! since a number of a `Row16` can't be changed in its place.
#![tactic(auto)]

mod operands;
mod variables;

pub use operands::Operands;
pub use variables::Variables;
