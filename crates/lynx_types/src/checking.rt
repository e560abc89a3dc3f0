//! The rules of typing, tried on a module.

ghost use Rattle.std.specs.Prelude.{◌≡◌, ℕ, List, None, ◌<◌, length, IfOk, IfErr};
ghost use Rattle.std.specs.List.{AllByRecursion};
ghost use Rattle.lynx_tree.specs.Grammar.{HasTokens, kinds_of, module_marks};
ghost use Rattle.lynx_tree.specs.Printing.{IsPrintable};
ghost use Rattle.lynx_tree.specs.Trees.{module_tree};
ghost use Rattle.typing_rules.specs.Found.{first_found};
ghost use Rattle.typing_rules.specs.Meanings.{look};
ghost use Rattle.typing_rules.specs.Modules.{IsWellTyped, IsFirstFault, first_fault, module_faults};
ghost use Rattle.typing_rules.specs.Rules.{Fault};
ghost use Rattle.lynx_types.specs.Answers.{GivesModule, GivesFault, IsFaultOf};

use crate::checked::Checked;
use crate::declaration::{ops, params, vars};
use crate::entry::{declare_entries, entries};
use crate::fault::TypeFault;
use lynx_lexer::NoMemory;
use lynx_tree::Module;
use std::alloc::Global;
use typing_rules::rule::MODULE_NAME_IS_NEW;
use typing_rules::{Found, Names, Scope, Walk};
use typing_statements::{Request, statements};

/// How many names a module has.
fn count_names(tree: &Module) -> usize {
    tree.ops
        .len()
        .saturating_add(tree.params.len())
        .saturating_add(tree.vars.len())
        .saturating_add(tree.entries.len())
}

/// The first fault of a module, by a table in which no name stands yet.
fn fault_in<'m>(
    alloc: Global,
    tree: &'m Module,
    names: &mut Names<'m>,
) -> Result<Option<Found>, NoMemory>
    requires fits { length (module_marks (module_tree tree.now)) < 4294967296 }
    requires empty { (name : List ℕ) → look names.old name ≡ None }
    ensures { IfOk result (λ found. first_found found ≡ first_fault (module_faults (module_tree tree.now))) }
{
    let mut walk = Walk::start();
    walk.skip(3);
    ops(&tree.ops, &mut walk, names)?;
    params(&tree.params, &mut walk, names)?;
    vars(&tree.vars, MODULE_NAME_IS_NEW, &mut walk, names)?;
    let news = declare_entries(alloc, &tree.entries, names)?;
    entries(alloc, &tree.entries, &news, &mut walk, names)?;
    walk.skip(1);
    let scope = Scope::outside(names);
    statements(&tree.body, Request::Outside, &mut walk, &scope);
    Ok(walk.first())
}

/// The first fault of a module.
fn first_fault(alloc: Global, tree: &Module) -> Result<Option<Found>, NoMemory>
    requires { length (module_marks (module_tree tree.now)) < 4294967296 }
    ensures { IfOk result (λ found. first_found found ≡ first_fault (module_faults (module_tree tree.now))) }
{
    let mut names = Names::with_capacity(alloc, count_names(tree))?;
    fault_in(alloc, tree, &mut names)
}

/// Tries the 24 typing rules on a module, and answers it as one that breaks none; else the first place at which a rule fails, and the least
/// rule that fails there.
pub fn check<'a>(alloc: Global, tree: Module<'a>) -> Result<Checked<'a>, TypeFault>
    requires grammar { HasTokens (module_tree tree) }
    requires printable { AllByRecursion IsPrintable (kinds_of (module_tree tree)) }
    requires fits { length (module_marks (module_tree tree)) < 4294967296 }

    // A module is found to break no rule exactly where it breaks none.
    ensures same { IfOk result (λ checked. checked ≡ tree.entry) }
    ensures well_typed { IfOk result (λ _. IsWellTyped (module_tree tree.entry)) }
    ensures only { IsWellTyped (module_tree tree.entry) → GivesModule (module_tree tree.entry) result }

    // A fault is the first one, and where there is a first one it is the answer.
    ensures fault { IfErr result (IsFaultOf (module_tree tree.entry)) }
    ensures only_fault { (first : Fault) → IsFirstFault (module_tree tree.entry) first → GivesFault first result }
{
    match first_fault(alloc, &tree)? {
        None => Ok(Checked::new(tree)),
        Some(found) => Err(TypeFault::At {
            place: found.place,
            rule: found.rule,
        }),
    }
}
