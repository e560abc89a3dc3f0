//! Modules from tokens.

ghost use Rattle.std.specs.Prelude.{◌≡◌, ℕ, ◌<◌, ◌^◌, ◌-◌, length, IfOk, IfErr};
ghost use Rattle.lynx_lexer.specs.Source.{Spell, AreWithinLimits};
ghost use Rattle.std.specs.List.{AllByRecursion};
ghost use Rattle.lynx_tree.specs.Answers.{kinds, IsTreeOf, GivesTree, GivesFault, IsFaultOf};
ghost use Rattle.lynx_tree.specs.Faults.{LeavesGrammar, IsTooDeep, IsNowhereTooDeep};
ghost use Rattle.lynx_tree.specs.Grammar.{kinds_of};
ghost use Rattle.lynx_tree.specs.Printing.{IsPrintable};
ghost use Rattle.lynx_tree.specs.Trees.{ModuleTree, module_tree};
ghost use Rattle.lynx_tree.specs.declared.fault.SyntaxFault.TheVariants as faults;

use crate::reader::Reader;
use lynx_descent::Refusal;
use lynx_lexer::{Lexemes, Token};
use lynx_tree::{Module, SyntaxFault};
use std::alloc::Global;

/// How many brackets and statements may be open.
const MOST_OPEN: usize = 64;

/// The number of the token from which so many are left.
fn place(count: usize, left: usize) -> u32
    requires { count < 2 ^ 32 }
    ensures { result ≡ count - left }
{
    count.saturating_sub(left) as u32
}

fn read<'a>(alloc: Global, tokens: &Lexemes<'a>) -> Result<Module<'a>, SyntaxFault>
    requires { length tokens.now < 2 ^ 32 }
    ensures found { IfOk result (λ m. IsTreeOf (kinds tokens.now) (module_tree m)) }
    ensures only { (m : ModuleTree) → IsTreeOf (kinds tokens.now) m → GivesTree m result }
    ensures fault { IfErr result (IsFaultOf (kinds tokens.now)) }
{
    let mut reader = Reader::new(alloc, tokens);
    match reader.whole(MOST_OPEN) {
        Ok(found) => Ok(found),
        Err(Refusal::At(left)) => Err(SyntaxFault::At {
            token: place(tokens.len(), left),
        }),
        Err(Refusal::TooDeep(left)) => Err(SyntaxFault::TooDeep {
            token: place(tokens.len(), left),
        }),
        Err(Refusal::NoMemory) => Err(SyntaxFault::NoMemory),
    }
}

/// The tree of the module that tokens spell, or the first fault.
///
/// The tokens are those of the source, within the lexer's limits. Reading takes stack for each level of nesting: up to
/// 192 KiB at 64 open brackets, and 96 KiB at 64 open statements (measured).
pub fn parse_lexemes<'a>(
    alloc: Global,
    source: &'a [u8],
    tokens: &Lexemes<'a>,
) -> Result<Module<'a>, SyntaxFault>
    requires fits { length source.now < 4294967295 }
    requires spell { Spell tokens.now source.now }
    requires limits { AreWithinLimits tokens.now }

    // The tree has these tokens and is nested no deeper than may be, and where there is such a tree it is given.
    ensures found { IfOk result (λ m. IsTreeOf (kinds tokens.now) (module_tree m)) }
    ensures only { (m : ModuleTree) → IsTreeOf (kinds tokens.now) m → GivesTree m result }
    // The tree can be printed.
    ensures printable { IfOk result (λ m. AllByRecursion IsPrintable (kinds_of (module_tree m))) }

    // The fault is the token at which the list leaves the grammar, or before that the first one that opens too much. Where there is such
    // a fault it is given.
    ensures fault { IfErr result (IsFaultOf (kinds tokens.now)) }
    ensures only_fault { (at : ℕ) → LeavesGrammar at (kinds tokens.now) → IsNowhereTooDeep (kinds tokens.now) → GivesFault (faults.At at) result }
    ensures only_too_deep { (at : ℕ) → IsTooDeep at (kinds tokens.now) → GivesFault (faults.TooDeep at) result }
{
    let _source = source;
    read(alloc, tokens)
}

/// The tree of the module that a list of tokens spells, or the first fault, as `parse_lexemes` gives it.
pub fn parse<'a>(
    alloc: Global,
    source: &'a [u8],
    tokens: &[Token<'a>],
) -> Result<Module<'a>, SyntaxFault>
    requires fits { length source.now < 4294967295 }
    requires spell { Spell tokens.now source.now }
    requires limits { AreWithinLimits tokens.now }
    ensures found { IfOk result (λ m. IsTreeOf (kinds tokens.now) (module_tree m)) }
    ensures only { (m : ModuleTree) → IsTreeOf (kinds tokens.now) m → GivesTree m result }
    ensures printable { IfOk result (λ m. AllByRecursion IsPrintable (kinds_of (module_tree m))) }
    ensures fault { IfErr result (IsFaultOf (kinds tokens.now)) }
    ensures only_fault { (at : ℕ) → LeavesGrammar at (kinds tokens.now) → IsNowhereTooDeep (kinds tokens.now) → GivesFault (faults.At at) result }
    ensures only_too_deep { (at : ℕ) → IsTooDeep at (kinds tokens.now) → GivesFault (faults.TooDeep at) result }
{
    match Lexemes::of_tokens(alloc, source, tokens) {
        Ok(lexemes) => parse_lexemes(alloc, source, &lexemes),
        Err(_) => Err(SyntaxFault::NoMemory),
    }
}
