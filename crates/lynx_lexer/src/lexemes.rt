//! The tokens of a source by their places.

ghost use Rattle.std.specs.Prelude.{◌≡◌, map, drop, length, option_map, slice_get, IfOk};
ghost use Rattle.std.specs.List.{All};
ghost use Rattle.lynx_lexer.specs.Lexemes.{shape_of, token_of, StandsIn};
ghost use Rattle.lynx_lexer.specs.Source.{Spell, AreWithinLimits};

use crate::lexeme::{Lexeme, Shape, kind_at, lexeme_of};
use crate::token::{Kind, Token};
use std::alloc::{AllocError, Global};
use std::marker::Model;

/// The tokens of a source. Contracts see their list; what is held of each is its place and shape.
#[derive(Drop)]
pub struct Lexemes<'a> {
    source: &'a [u8],
    all: Vec<Lexeme>,
}

impl<'a> Model for Lexemes<'a> {
    ghost use Rattle.std.specs.Prelude.{List, map};
    ghost use Rattle.std.specs.List.{All};
    ghost use Rattle.lynx_lexer.specs.Lexemes.{token_of, StandsIn};
    ghost use Rattle.lynx_lexer.specs.declared.token.Token.{Token};

    ghost Value = { List Token };

    ghost view = { λ a. map (token_of a.source.now) a.all.items };

    ghost invariant = { λ a. All (StandsIn a.source.now) (map (token_of a.source.now) a.all.items) };
}

impl<'a> Lexemes<'a> {
    /// The tokens of these places in the source.
    pub(crate) fn of(source: &'a [u8], all: Vec<Lexeme>) -> Lexemes<'a>
        requires { All (StandsIn source.now) (map (token_of source.now) all.items) }
        ensures { result ≡ map (token_of source.now) all.items }
    {
        Lexemes { source, all }
    }

    /// The same tokens, which are those of the source, within the lexer's limits.
    pub fn of_tokens(
        alloc: Global,
        source: &'a [u8],
        tokens: &[Token<'a>],
    ) -> Result<Lexemes<'a>, AllocError>
        requires spell { Spell tokens.now source.now }
        requires limits { AreWithinLimits tokens.now }
        ensures { IfOk result (λ lexemes. lexemes ≡ tokens.now) }
    {
        let mut all = Vec::new(alloc);
        for token in tokens {
            all.push(lexeme_of(token))?;
        }
        Ok(Lexemes::of(source, all))
    }

    /// How many tokens there are.
    pub fn len(&self) -> usize
        ensures { result ≡ length self.now }
    {
        self.all.len()
    }

    /// The place of the first byte of the token of this number, counted from 0.
    pub fn place(&self, token: usize) -> Option<u32>
        ensures { result ≡ option_map (λ t. t.from) (slice_get self.now token) }
    {
        self.all.get(token).map(|lexeme| lexeme.from)
    }

    /// All tokens, to be gone through.
    pub fn left(&self) -> Left<'_, 'a>
        ensures { result ≡ map (λ t. t.kind) self.now }
    {
        Left {
            source: self.source,
            rest: self.all.as_slice(),
        }
    }

    /// The tokens with what they say.
    pub fn tokens(&self, alloc: Global) -> Result<Vec<Token<'a>>, AllocError>
        ensures { IfOk result (λ tokens. tokens.items ≡ self.now) }
    {
        let source = self.source;
        let all = self.all.as_slice();
        let mut tokens = Vec::new(alloc);
        for lexeme in all {
            tokens.push(Token {
                kind: kind_at(source, *lexeme),
                from: lexeme.from,
                to: lexeme.to,
            })?;
        }
        Ok(tokens)
    }
}

/// The tokens of a source from one of them to the end. Contracts see the list of their kinds.
#[derive(Drop)]
pub struct Left<'t, 'a> {
    source: &'a [u8],
    rest: &'t [Lexeme],
}

impl<'t, 'a> Model for Left<'t, 'a> {
    ghost use Rattle.std.specs.Prelude.{List, map};
    ghost use Rattle.std.specs.List.{All};
    ghost use Rattle.lynx_lexer.specs.Lexemes.{token_of, StandsIn};
    ghost use Rattle.lynx_lexer.specs.declared.token.Kind.{Kind};

    ghost Value = { List Kind };

    ghost view = { λ a. map (λ t. t.kind) (map (token_of a.source.now) a.rest.now) };

    ghost invariant = { λ a. All (StandsIn a.source.now) (map (token_of a.source.now) a.rest.now) };
}

impl<'t, 'a> Left<'t, 'a> {
    /// How many tokens are left.
    pub fn len(&self) -> usize
        ensures { result ≡ length self.now }
    {
        self.rest.len()
    }

    /// What the next token is, without what it says.
    pub fn shape(&self) -> Option<Shape>
        ensures { result ≡ option_map shape_of (slice_get self.now 0) }
    {
        self.rest.first().map(|lexeme| lexeme.shape)
    }

    /// The kind of the next token, with what it says.
    pub fn kind(&self) -> Option<Kind<'a>>
        ensures { result ≡ slice_get self.now 0 }
    {
        match self.rest.first() {
            Some(lexeme) => Some(kind_at(self.source, *lexeme)),
            None => None,
        }
    }

    /// Goes past the next token, if there is one.
    pub fn advance(&mut self)
        ensures { self.new ≡ drop 1 self.old }
    {
        if !self.rest.is_empty() {
            self.rest = &self.rest[1..];
        }
    }
}
