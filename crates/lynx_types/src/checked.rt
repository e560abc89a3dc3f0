//! Modules that break no rule.

ghost use Rattle.std.specs.Prelude.{◌≡◌};
ghost use Rattle.lynx_tree.specs.Trees.{module_tree};
ghost use Rattle.typing_signatures.specs.Checked.{IsChecked};

use lynx_tree::Module;
use std::marker::Model;

/// A module that breaks no typing rule, which `check` alone makes. Contracts see it as the module.
#[derive(Drop)]
pub struct Checked<'a> {
    tree: Module<'a>,
}

impl<'a> Model for Checked<'a> {
    ghost use Rattle.lynx_tree.specs.declared.module.Module.{Module};
    ghost use Rattle.lynx_tree.specs.contracts.statement.Stmt as statements;
    ghost use Rattle.std.specs.Coded.{codes};
    ghost use Rattle.std.specs.Prelude.{[]};
    ghost use mir.Syntax.{named};

    ghost Value = { Module };

    ghost coded = { Prim.hlevel (codes, (statements.the_row (record { mir = named 0; lft = [] })).coded) };

    ghost use Rattle.lynx_tree.specs.Trees.{module_tree};
    ghost use Rattle.typing_signatures.specs.Checked.{IsChecked};

    ghost view = { λ a. a.tree };

    ghost invariant = { λ a. IsChecked (module_tree a.tree) };
}

impl<'a> Checked<'a> {
    /// The module, of which this was found.
    pub(crate) fn new(tree: Module<'a>) -> Checked<'a>
        requires { IsChecked (module_tree tree) }
        ensures { result ≡ tree.entry }
    {
        Checked { tree }
    }

    /// The module. It has a list of tokens by the grammar, fewer than 2^32, can be printed, and breaks no rule.
    pub fn module(&self) -> &Module<'a>
        ensures module { result.now ≡ self.now }
        ensures checked { IsChecked (module_tree self.now) }
    {
        &self.tree
    }
}
