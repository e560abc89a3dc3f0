//! Modules as text.

ghost use Rattle.std.specs.Prelude.{◌≡◌, ℕ, List, map, IfOk, OnOk};
ghost use Rattle.std.specs.List.{AllByRecursion};
ghost use Rattle.lynx_lexer.specs.declared.token.Token.{Token};
ghost use Rattle.lynx_lexer.specs.Source.{Spell, AreWithinLimits};
ghost use Rattle.lynx_tree.specs.Grammar.{module_marks, kinds_of, HasTokens};
ghost use Rattle.lynx_tree.specs.Trees.{module_tree};
ghost use Rattle.lynx_tree.specs.Printing.{Prints, IsPrintable, printed};

use crate::print_all::push_all;
use crate::print_declaration::push_body;
use crate::print_statement::push_named;
use crate::print_token::push_sign;
use lynx_lexer::{Keyword, NoMemory, Sign};
use lynx_tree::Module;
use std::alloc::Global;

fn push_module(tree: &Module, out: &mut Vec<u8>) -> Result<(), NoMemory>
    ensures { OnOk result (Prints out.old.items out.new.items (module_marks (module_tree tree.now))) }
{
    push_named(Keyword::Module, &tree.name, out)?;
    push_sign(Sign::Semicolon, out)?;
    push_all(&tree.ops, Keyword::Op, out)?;
    push_all(&tree.params, Keyword::Param, out)?;
    push_all(&tree.vars, Keyword::Var, out)?;
    push_all(&tree.entries, Keyword::Entry, out)?;
    push_body(&tree.body, Sign::Dot, out)
}

/// The text of a module: its tokens with one blank between them, a line feed in its place after each `;`,
/// and a line feed at the end.
pub fn print(alloc: Global, tree: &Module) -> Result<Vec<u8>, NoMemory>
    requires grammar { HasTokens (module_tree tree.now) }
    requires tokens { AllByRecursion IsPrintable (kinds_of (module_tree tree.now)) }

    ensures text { IfOk result (λ v. v.items ≡ printed (kinds_of (module_tree tree.now))) }
    // The tokens of the text are those of the module.
    ensures spelled { IfOk result (λ v. (tokens : List Token) × Spell tokens v.items × AreWithinLimits tokens × (map (λ t. t.kind) tokens ≡ kinds_of (module_tree tree.now))) }
{
    let mut out = Vec::new(alloc);
    push_module(tree, &mut out)?;
    Ok(out)
}
