//! Trees of statements.

use crate::expression::Expr;
use lynx_lexer::IdentRef;

/// A statement.
#[cycle(statement)]
#[derive(Drop)]
pub enum Stmt<'a> {
    Assign {
        name: IdentRef<'a>,
        index: Option<Box<Expr<'a>>>,
        value: Expr<'a>,
    },
    If {
        condition: Box<Expr<'a>>,
        then: Vec<Stmt<'a>>,
        otherwise: Option<Vec<Stmt<'a>>>,
    },
    While {
        condition: Expr<'a>,
        body: Vec<Stmt<'a>>,
    },
    Write(Expr<'a>),
    Await(Expr<'a>),
    Stop,
    Raise(IdentRef<'a>),
    New {
        first: IdentRef<'a>,
        second: IdentRef<'a>,
    },
    Destroy(IdentRef<'a>),
    Bind {
        link: IdentRef<'a>,
        entry: IdentRef<'a>,
    },
    Unbind {
        link: IdentRef<'a>,
        entry: IdentRef<'a>,
    },
    Connect {
        op: IdentRef<'a>,
        link: IdentRef<'a>,
        values: Vec<Expr<'a>>,
        results: Vec<IdentRef<'a>>,
    },
    Accept {
        op: IdentRef<'a>,
        link: IdentRef<'a>,
        names: Vec<IdentRef<'a>>,
        body: Vec<Stmt<'a>>,
    },
    Reply(Vec<Expr<'a>>),
    Try {
        body: Vec<Stmt<'a>>,
        handlers: Vec<Handler<'a>>,
    },
}

/// What a `try` does at an exception.
#[cycle(statement)]
#[derive(Drop)]
pub struct Handler<'a> {
    pub name: IdentRef<'a>,
    pub body: Vec<Stmt<'a>>,
}
