//! The syntax of LYNX modules: `parse` reads tokens as the one tree of the grammar, `print` gives a tree's text.
#![tactic(auto)]

pub use lynx_grammar::one_tree;
pub use lynx_parser::{parse, parse_lexemes};
pub use lynx_printer::print;
pub use lynx_tree::{
    EntryDecl, Expr, Handler, Module, OpDecl, Stmt, SyntaxFault, TermSign, TypeName, VarDecl,
};
