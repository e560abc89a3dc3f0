//! The module of a source.

ghost use Rattle.std.specs.Prelude.{◌≡◌, ◌<◌, ◌^◌, Ok, Err, length, IfOk};
ghost use Rattle.std.specs.List.{AllByRecursion};
ghost use Rattle.lynx_lexer.specs.Answers.{IsFaultOf as IsLexFaultOf};
ghost use Rattle.lynx_tree.specs.Answers.{kinds, IsFaultOf};
ghost use Rattle.lynx_tree.specs.Grammar.{HasTokens, kinds_of};
ghost use Rattle.lynx_tree.specs.Printing.{IsPrintable};
ghost use Rattle.lynx_tree.specs.Trees.{module_tree};
ghost use Rattle.lynx_source.specs.Places.{place_of};
ghost use Rattle.lynx_source.specs.Sources.{IsReadAs, AreTokensOf, first_byte, token_place, reading_of, source_reading};

use crate::fault::SourceFault;
use crate::place::{Place, place_of};
use lynx_lexer::{LexFault, Lexemes, read_lexemes};
use lynx_syntax::{Module, SyntaxFault, parse_lexemes};
use std::alloc::Global;

/// A module and the tokens that spell it.
#[derive(Drop)]
pub struct Reading<'a> {
    pub module: Module<'a>,
    pub tokens: Lexemes<'a>,
}

/// Where a lexical fault stands.
fn lexical(source: &[u8], fault: LexFault) -> SourceFault
    requires fits { length source.now < 4294967295 }
    requires fault { IsLexFaultOf source.now fault }
    ensures { IsReadAs source.now (Err result) }
{
    match fault {
        LexFault::At { place, no } => SourceFault::Lex {
            at: place_of(source, place as usize),
            no,
        },
        LexFault::NoMemory => SourceFault::NoMemory,
    }
}

/// The first byte of the token of this number; behind the last token, the end of the source.
fn first_byte(source: &[u8], tokens: &Lexemes, token: u32) -> usize
    ensures { result ≡ first_byte source.now tokens.now token }
{
    tokens
        .place(token as usize)
        .map_or(source.len(), |from| from as usize)
}

/// Where the token of this number, counted from 0, stands; behind the last token, the end of the source.
pub fn token_place(source: &[u8], tokens: &Lexemes, token: u32) -> Place
    requires { length source.now < 4294967295 }
    ensures { result ≡ token_place source.now tokens.now token }
{
    place_of(source, first_byte(source, tokens, token))
}

/// Where a fault of the grammar or of nesting stands.
fn syntactic(source: &[u8], tokens: &Lexemes, fault: SyntaxFault) -> SourceFault
    requires fits { length source.now < 4294967295 }
    requires lexed { AreTokensOf source.now tokens.now }
    requires fault { IsFaultOf (kinds tokens.now) fault }
    ensures { IsReadAs source.now (Err result) }
{
    match fault {
        SyntaxFault::At { token } => SourceFault::Syntax {
            at: token_place(source, tokens, token),
        },
        SyntaxFault::TooDeep { token } => SourceFault::Deep {
            at: token_place(source, tokens, token),
        },
        SyntaxFault::NoMemory => SourceFault::NoMemory,
    }
}

/// The module that a source spells, with its tokens, or its first fault: that of the tokens, and where there is none that of the
/// grammar and its nesting. It can be printed, and its typing can be looked at: the place of a fault there is that of a token.
pub fn read_source<'a>(alloc: Global, source: &'a [u8]) -> Result<Reading<'a>, SourceFault>
    requires { length source.now < 4294967295 }
    ensures read { IsReadAs source.now (source_reading result) }
    ensures tokens { IfOk result (λ r. AreTokensOf source.now r.tokens) }

    // The tree has these tokens, fewer than 4,294,967,295, and each is one within the lexer's limits.
    ensures tree { IfOk result (λ r. HasTokens (module_tree r.module)) }
    ensures kinds { IfOk result (λ r. kinds r.tokens ≡ kinds_of (module_tree r.module)) }
    ensures printable { IfOk result (λ r. AllByRecursion IsPrintable (kinds_of (module_tree r.module))) }
    ensures few { IfOk result (λ r. length (kinds_of (module_tree r.module)) < 4294967295) }
{
    let tokens = match read_lexemes(alloc, source) {
        Ok(tokens) => tokens,
        Err(fault) => return Err(lexical(source, fault)),
    };
    match parse_lexemes(alloc, source, &tokens) {
        Ok(module) => Ok(Reading { module, tokens }),
        Err(fault) => Err(syntactic(source, &tokens, fault)),
    }
}

/// The module that a source spells, or its first fault.
pub fn read_module<'a>(alloc: Global, source: &'a [u8]) -> Result<Module<'a>, SourceFault>
    requires { length source.now < 4294967295 }
    ensures { IsReadAs source.now (reading_of result) }
{
    match read_source(alloc, source) {
        Ok(reading) => Ok(reading.module),
        Err(fault) => Err(fault),
    }
}
