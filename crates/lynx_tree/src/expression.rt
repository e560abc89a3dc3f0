//! Trees of expressions.

use lynx_lexer::{IdentRef, Sign, TextRef};

/// An expression. A chain of operators of one rank has at least two members. A sign stands first in its variant, where it lies
/// beside the tag, so that an expression takes 24 bytes.
#[derive(Drop)]
pub enum Expr<'a> {
    Or(Box<Vec<Expr<'a>>>),
    And(Box<Vec<Expr<'a>>>),
    /// `first` and `second` are compared: `=`, `<>`, `<`, `<=`, `>` or `>=`.
    Relation {
        sign: Sign,
        first: Box<Expr<'a>>,
        second: Box<Expr<'a>>,
    },
    /// `first`, and one member behind `+` or `-`.
    Sum {
        sign: Sign,
        first: Box<Expr<'a>>,
        second: Box<Expr<'a>>,
    },
    /// `first`, and more members, each behind `+` or `-`.
    Sums {
        first: Box<Expr<'a>>,
        rest: Box<Vec<(Sign, Expr<'a>)>>,
    },
    /// `first`, and one member behind `*`, `/` or `mod`.
    Term {
        sign: TermSign,
        first: Box<Expr<'a>>,
        second: Box<Expr<'a>>,
    },
    /// `first`, and more members, each behind `*`, `/` or `mod`.
    Terms {
        first: Box<Expr<'a>>,
        rest: Box<Vec<(TermSign, Expr<'a>)>>,
    },
    Minus(Box<Expr<'a>>),
    Not(Box<Expr<'a>>),
    Number(i64),
    Text(TextRef<'a>),
    True,
    False,
    /// A variable.
    Name(IdentRef<'a>),
    /// A member of a row.
    Member {
        name: Box<IdentRef<'a>>,
        index: Box<Expr<'a>>,
    },
    /// An expression in brackets.
    Bracket(Box<Expr<'a>>),
}

/// An operator of the rank of `*`.
#[derive(Clone, Copy, Debug, PartialEq, Eq)]
pub enum TermSign {
    Times,
    Over,
    Mod,
}
