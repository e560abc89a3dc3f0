//! A token by its place. What it says stands in the source, and is held there alone.

ghost use Rattle.std.specs.Prelude.{◌≡◌, ◌<◌, ◌≤◌, ◌^◌, length, pos, IsTrue};
ghost use Rattle.std.specs.List.{list_all};
ghost use Rattle.lynx_lexer.specs.Pieces.{is_digit, decimal};
ghost use Rattle.lynx_lexer.specs.Lexemes.{shape_of, lexeme_of, kind_spelled, bytes_between, token_of, StandsIn};

use crate::front::number;
use crate::ident::IdentRef;
use crate::keyword::Keyword;
use crate::sign::Sign;
use crate::text::TextRef;
use crate::token::{Kind, Token};

/// What a token is, without what it says.
#[derive(Clone, Copy, Debug, PartialEq, Eq)]
pub enum Shape {
    Keyword(Keyword),
    Sign(Sign),
    Name,
    Number,
    Text,
}

/// A token of a source by its place: the bytes at `from` and after it, up to `to` and without it.
#[derive(Clone, Copy, Debug)]
pub struct Lexeme {
    pub shape: Shape,
    pub from: u32,
    pub to: u32,
}

/// The shape of a token of the kind.
pub fn shape_of(kind: &Kind) -> Shape
    ensures { result ≡ shape_of kind.now }
{
    match kind {
        Kind::Keyword(keyword) => Shape::Keyword(*keyword),
        Kind::Sign(sign) => Shape::Sign(*sign),
        Kind::Name(_) => Shape::Name,
        Kind::Number(_) => Shape::Number,
        Kind::Text(_) => Shape::Text,
    }
}

/// The place and shape of a token.
pub fn lexeme_of(token: &Token) -> Lexeme
    ensures { result ≡ lexeme_of token.now }
{
    Lexeme {
        shape: shape_of(&token.kind),
        from: token.from,
        to: token.to,
    }
}

/// The number that digits stand for, where it is within the limit.
fn number_within(digits: &[u8]) -> i64
    requires digits { IsTrue (list_all is_digit digits.now) }
    requires fits { decimal digits.now < 2 ^ 63 }
    ensures { result ≡ pos (decimal digits.now) }
{
    match number(digits) {
        Some(value) => value,
        None => unreachable!(),
    }
}

/// The bytes from one place up to another.
fn bytes_between(source: &[u8], from: u32, to: u32) -> &[u8]
    requires { from ≤ to × to ≤ length source.now }
    ensures { result.now ≡ bytes_between source.now from to }
{
    &source[from as usize..to as usize]
}

/// The kind of token that stands there, with what it says.
pub fn kind_at(source: &[u8], lexeme: Lexeme) -> Kind<'_>
    requires { StandsIn source.now (token_of source.now lexeme) }
    ensures { result ≡ kind_spelled lexeme.shape (bytes_between source.now lexeme.from lexeme.to) }
{
    let text = bytes_between(source, lexeme.from, lexeme.to);
    match lexeme.shape {
        Shape::Keyword(keyword) => Kind::Keyword(keyword),
        Shape::Sign(sign) => Kind::Sign(sign),
        Shape::Name => Kind::Name(IdentRef::within(text)),
        Shape::Number => Kind::Number(number_within(text)),
        Shape::Text => Kind::Text(TextRef::within(&text[1..text.len() - 1])),
    }
}
