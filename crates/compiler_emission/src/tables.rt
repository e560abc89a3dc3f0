//! The tables of a module's names.

ghost use Rattle.std.specs.Prelude.{◌≡◌, ◌<◌, ℕ, List, Some};
ghost use Rattle.compiler_emission.specs.Places.{found};

use crate::places::Places;
use crate::scope::Scope;

/// The places of the variables, operations and entries of a module, whose entries have numbers of 16 bits.
#[derive(Drop)]
pub struct Tables<'m> {
    pub globals: Places<'m>,
    pub ops: Places<'m>,
    pub entries: Places<'m>,
    pub ghost short: { (name : List ℕ) (place : ℕ) → found entries name ≡ Some place → place < 65536 },
}

impl<'m> Tables<'m> {
    ghost use Rattle.lynx_tree.specs.Trees.{ModuleTree};
    ghost use Rattle.lynx_code.specs.Modules.{names_of};
    ghost use Rattle.compiler_emission.specs.Places.{IsTableOf};
    ghost use Rattle.compiler_emission.specs.Tables.{AreTablesOf, names_in};

    /// What names stand for in a part with these locals.
    pub fn scope<'s>(&'s self, locals: &'s Places<'m>) -> Scope<'s, 'm>
        ensures { (m : ModuleTree) (names : List (List ℕ)) → AreTablesOf m self.now → IsTableOf names locals.now → names_in result ≡ names_of m names }
    {
        Scope {
            locals,
            tables: self,
        }
    }
}
