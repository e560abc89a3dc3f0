//! The printer: a tree is printed as text, whose tokens are those of the tree.
#![tactic(auto)]

mod print_all;
mod print_declaration;
mod print_expression;
mod print_list;
mod print_statement;
mod print_token;
mod printing;

pub use printing::print;
