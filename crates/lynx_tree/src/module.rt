//! The tree of a module.

use crate::declaration::{EntryDecl, OpDecl, VarDecl};
use crate::statement::Stmt;
use lynx_lexer::IdentRef;

/// A module: its declarations in their order, and the body of its first thread.
#[derive(Drop)]
pub struct Module<'a> {
    pub name: IdentRef<'a>,
    pub ops: Vec<OpDecl<'a>>,
    pub params: Vec<VarDecl<'a>>,
    pub vars: Vec<VarDecl<'a>>,
    pub entries: Vec<EntryDecl<'a>>,
    pub body: Vec<Stmt<'a>>,
}
