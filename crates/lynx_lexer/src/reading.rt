//! The tokens of a source.

ghost use Rattle.std.specs.Prelude.{◌≡◌, ℕ, ◌<◌, ◌≤◌, ◌++◌, List, length, IfOk, IfErr, OnOk};
ghost use Rattle.lynx_lexer.specs.declared.fault.FaultKind.{FaultKind};
ghost use Rattle.lynx_lexer.specs.declared.token.Token.{Token};
ghost use Rattle.lynx_lexer.specs.Source.{Spell, AreWithinLimits, IsFirstFault};
ghost use Rattle.lynx_lexer.specs.Lexemes.{lexeme_at};
ghost use Rattle.lynx_lexer.specs.Answers.{GivesTokens, GivesFault, IsFaultOf};

use crate::class::is_blank;
use crate::fault::LexFault;
use crate::front::{behind, front_at};
use crate::lexeme::{Lexeme, Shape};
use crate::lexemes::Lexemes;
use crate::token::Token;
use std::alloc::{AllocError, Global};

/// Adds the place and shape of a piece, if it is a token.
fn push_shape(
    all: &mut Vec<Lexeme>,
    shape: Option<Shape>,
    from: u32,
    to: u32,
) -> Result<(), AllocError>
    ensures { OnOk result (all.new.items ≡ all.old.items ++ lexeme_at from to shape) }
{
    if let Some(shape) = shape {
        all.push(Lexeme { shape, from, to })?;
    }
    Ok(())
}

/// The tokens of a source by their places, or its first fault: `tokens` says when each comes.
pub fn read_lexemes(alloc: Global, source: &[u8]) -> Result<Lexemes<'_>, LexFault>
    requires { length source.now < 4294967295 }
    ensures found { IfOk result (λ lexemes. Spell lexemes source.now × AreWithinLimits lexemes) }
    ensures fault { IfErr result (IsFaultOf source.now) }
{
    let mut all = Vec::new(alloc);
    let mut at = 0;
    while at < source.len() {
        let rest = behind(source, at);
        if is_blank(rest[0]) {
            at += 1;
            continue;
        }
        let front = match front_at(rest) {
            Ok(front) => front,
            Err(kind) => {
                return Err(LexFault::At {
                    place: at as u32,
                    no: kind.number(),
                });
            }
        };
        let to = at + front.length;
        push_shape(&mut all, front.shape, at as u32, to as u32)?;
        at = to;
    }
    Ok(Lexemes::of(source, all))
}

/// The tokens of a source with their places, or its first fault.
///
/// A token is as long as possible. Blanks, tabs, line feeds, carriage returns and comments, from `--` to
/// the line's end, separate tokens.
pub fn tokens(alloc: Global, source: &[u8]) -> Result<Vec<Token<'_>>, LexFault>
    requires { length source.now < 4294967295 }

    // The tokens spell the source, each within its limit, and such a list is given.
    ensures found { IfOk result (λ v. Spell v.items source.now × AreWithinLimits v.items) }
    ensures only { (tokens : List Token) → Spell tokens source.now → AreWithinLimits tokens → GivesTokens tokens result }

    // The fault is the first of the source, and such a fault is given.
    ensures fault { IfErr result (IsFaultOf source.now) }
    ensures only_fault { (place : ℕ) (kind : FaultKind) → IsFirstFault place kind source.now → GivesFault place kind result }
{
    match read_lexemes(alloc, source) {
        Ok(lexemes) => Ok(lexemes.tokens(alloc)?),
        Err(fault) => Err(fault),
    }
}
