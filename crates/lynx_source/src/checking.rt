//! The module of a source that breaks no typing rule.

ghost use Rattle.std.specs.Prelude.{◌≡◌, ◌<◌, Ok, Err, length};
ghost use Rattle.lynx_tree.specs.Answers.{kinds, IsTreeOf};
ghost use Rattle.lynx_tree.specs.Trees.{ModuleTree};
ghost use Rattle.lynx_types.specs.Answers.{IsFaultOf};
ghost use Rattle.lynx_source.specs.Sources.{AreTokensOf, IsCheckedAs, checked_reading};

use crate::fault::SourceFault;
use crate::reading::{Reading, read_source, token_place};
use lynx_lexer::Lexemes;
use lynx_types::{Checked, TypeFault, check};
use std::alloc::Global;

/// Where a fault of typing stands.
fn typed(source: &[u8], tokens: &Lexemes, fault: TypeFault) -> SourceFault
    requires fits { length source.now < 4294967295 }
    requires lexed { AreTokensOf source.now tokens.now }
    requires fault { (m : ModuleTree) × IsTreeOf (kinds tokens.now) m × IsFaultOf m fault }
    ensures { IsCheckedAs source.now (Err result) }
{
    match fault {
        TypeFault::At { place, rule } => SourceFault::Rule {
            at: token_place(source, tokens, place),
            rule,
        },
        TypeFault::NoMemory => SourceFault::NoMemory,
    }
}

/// The module that a source spells, where it breaks no typing rule, or its first fault: that of the tokens, where there is none that of
/// the grammar and its nesting, and where there is none of these that of the typing rules.
pub fn check_source<'a>(alloc: Global, source: &'a [u8]) -> Result<Checked<'a>, SourceFault>
    requires { length source.now < 4294967295 }
    ensures { IsCheckedAs source.now (checked_reading result) }
{
    let Reading { module, tokens } = read_source(alloc, source)?;
    match check(alloc, module) {
        Ok(checked) => Ok(checked),
        Err(fault) => Err(typed(source, &tokens, fault)),
    }
}
