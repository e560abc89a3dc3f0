//! The code of a module.

use crate::instruction::Instruction;
use lynx_lexer::Ident;
use lynx_tree::TypeName;

/// What a module is compiled to. Addresses run through all its parts, from 0, and an operation's number is its place in the module.
#[derive(Drop)]
pub struct Code {
    pub name: Ident,
    /// The types of the params, then of the variables.
    pub globals: Vec<TypeName>,
    /// How many of these are params.
    pub params: u32,
    pub ops: Vec<CodeOp>,
    /// The body of the module, then the entries in their order.
    pub parts: Vec<Part>,
    pub instructions: Vec<Instruction>,
}

/// An operation.
#[derive(Drop)]
pub struct CodeOp {
    /// As `add(int,int):(int)`.
    pub signature: Vec<u8>,
    pub arguments: Vec<TypeName>,
    pub results: Vec<TypeName>,
}

/// The body of a module, or an entry.
#[derive(Drop)]
pub struct Part {
    /// The entry's name; the body has the name `main`.
    pub name: Ident,
    /// The number of the operation that an entry serves.
    pub op: Option<u32>,
    /// The address of its first instruction.
    pub start: u16,
    /// The types of an entry's parameters, then of its variables.
    pub locals: Vec<TypeName>,
}
