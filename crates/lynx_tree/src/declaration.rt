//! Trees of declarations.

use crate::statement::Stmt;
use lynx_lexer::IdentRef;

/// A type. A row's number is its length.
#[derive(Clone, Copy, Debug, PartialEq, Eq)]
pub enum TypeName {
    Int,
    Bool,
    Text,
    Link,
    Row(i64),
}

/// An operation with the types of its arguments and results.
#[derive(Drop)]
pub struct OpDecl<'a> {
    pub name: IdentRef<'a>,
    pub arguments: Vec<TypeName>,
    pub results: Vec<TypeName>,
}

/// A param or a variable.
#[derive(Drop)]
pub struct VarDecl<'a> {
    pub name: IdentRef<'a>,
    pub kind: TypeName,
}

/// An entry, which serves requests of an operation.
#[derive(Drop)]
pub struct EntryDecl<'a> {
    pub name: IdentRef<'a>,
    pub op: IdentRef<'a>,
    pub parameters: Vec<IdentRef<'a>>,
    pub vars: Vec<VarDecl<'a>>,
    pub body: Vec<Stmt<'a>>,
}
