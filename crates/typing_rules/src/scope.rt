//! The names that stand at a place.

ghost use Rattle.std.specs.Prelude.{◌≡◌, ℕ, List};
ghost use Rattle.typing_rules.specs.Meanings.{meaning_known, scope_of, look};
ghost use Rattle.typing_rules.specs.Names.{or_outside};

use crate::names::{Named, Names};
use lynx_lexer::IdentRef;

/// The names of an entry, in its body and nowhere else, and those of the module.
#[derive(Clone, Copy)]
pub struct Scope<'s, 'm> {
    locals: Option<&'s Names<'m>>,
    module: &'s Names<'m>,
}

impl<'s, 'm> Scope<'s, 'm> {
    /// The names of a module, outside of its entries.
    pub fn outside(module: &'s Names<'m>) -> Scope<'s, 'm>
        ensures { (name : List ℕ) → scope_of result name ≡ look module.now name }
    {
        Scope {
            locals: None,
            module,
        }
    }

    /// The names of an entry, and those of its module.
    pub fn inside(locals: &'s Names<'m>, module: &'s Names<'m>) -> Scope<'s, 'm>
        ensures { (name : List ℕ) → scope_of result name ≡ or_outside (look locals.now name) (look module.now name) }
    {
        let locals = Some(locals);
        Scope { locals, module }
    }

    /// What a name means: the local of that name, else what it means in the module.
    pub fn look(&self, name: &IdentRef) -> Option<Named<'m>>
        ensures { meaning_known result ≡ scope_of self.now name.now }
    {
        if let Some(locals) = self.locals
            && let Some(meaning) = locals.look(name)
        {
            return Some(meaning);
        }
        self.module.look(name)
    }
}
