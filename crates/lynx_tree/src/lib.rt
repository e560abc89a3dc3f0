//! Trees of LYNX modules, which borrow names and texts from the source, and the grammar: which tokens a tree has.
#![tactic(auto)]

mod declaration;
mod expression;
mod fault;
mod module;
mod statement;

pub use declaration::{EntryDecl, OpDecl, TypeName, VarDecl};
pub use expression::{Expr, TermSign};
pub use fault::SyntaxFault;
pub use module::Module;
pub use statement::{Handler, Stmt};
