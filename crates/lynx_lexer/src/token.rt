//! Tokens and where they stand.

use crate::ident::IdentRef;
use crate::keyword::Keyword;
use crate::sign::Sign;
use crate::text::TextRef;

/// What a token is, and its value. Names and texts stand where they are in the source.
#[derive(Debug, Drop)]
pub enum Kind<'a> {
    Keyword(Keyword),
    Sign(Sign),
    Name(IdentRef<'a>),
    /// A number in decimal, from 0.
    Number(i64),
    /// The bytes between the quotes.
    Text(TextRef<'a>),
}

/// A token, and the bytes where it stands: those at `from` and after it, up to `to` and without it.
#[derive(Debug, Drop)]
pub struct Token<'a> {
    pub kind: Kind<'a>,
    pub from: u32,
    pub to: u32,
}
