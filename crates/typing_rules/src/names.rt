//! Tables of names.

ghost use Rattle.std.specs.Prelude.{◌≡◌, ℕ, List, not, is_some, None, Some, IfOk, OnOk, if◌then◌else◌};
ghost use Rattle.std.specs.Str.{bytes_eq};
ghost use Rattle.typing_rules.specs.Names.{or_outside, type_of_variable, arguments_of, results_of, is_entry};
ghost use Rattle.typing_rules.specs.Meanings.{meaning_of, meaning_known, look, types_known};

use crate::held::Held;
use crate::key::Key;
use indexmap::IndexMap;
use lynx_lexer::{IdentRef, NoMemory};
use lynx_tree::TypeName;
use std::alloc::Global;

/// What a name means.
#[derive(Clone, Copy)]
pub enum Named<'m> {
    Variable(TypeName),
    Operation {
        arguments: &'m [TypeName],
        results: &'m [TypeName],
    },
    Entry,
}

/// The names of a module or of an entry, each with what its first declaration makes of it.
#[derive(Drop)]
pub struct Names<'m> {
    meanings: IndexMap<Key<'m>, Named<'m>>,
}

impl<'m> Names<'m> {
    /// A table without names.
    pub fn new(alloc: Global) -> Names<'m>
        ensures { (name : List ℕ) → look result name ≡ None }
    {
        Names {
            meanings: IndexMap::new(alloc),
        }
    }

    /// A table without names, with room for so many.
    pub fn with_capacity(alloc: Global, names: usize) -> Result<Names<'m>, NoMemory>
        ensures { IfOk result (λ made. (name : List ℕ) → look made name ≡ None) }
    {
        Ok(Names {
            meanings: IndexMap::with_capacity(alloc, names)?,
        })
    }

    /// What a name means. None exactly where it is not declared.
    pub fn look(&self, name: &IdentRef) -> Option<Named<'m>>
        ensures { meaning_known result ≡ look self.now name.now }
    {
        let bytes = name.as_slice();
        self.meanings.get(&Key { bytes }).copied()
    }

    /// Declares a name, and tells whether it is new. Where it is not, it keeps its meaning.
    pub fn declare(&mut self, name: &IdentRef<'m>, meaning: Named<'m>) -> Result<bool, NoMemory>
        ensures new { IfOk result (λ new. new ≡ not (is_some (look self.old name.now))) }
        ensures means { OnOk result ((q : List ℕ) → look self.new q ≡ or_outside (look self.old q) (if bytes_eq name.now q then Some (meaning_of meaning.entry) else None)) }
    {
        let bytes = name.as_slice();
        match self.meanings.insert(Key { bytes }, meaning)? {
            None => Ok(true),
            Some(first) => {
                self.meanings.insert(Key { bytes }, first)?;
                Ok(false)
            }
        }
    }
}

/// The type of a variable; None where the name is none of a variable.
pub fn type_of_variable(meaning: Option<Named>) -> Held
    ensures { result ≡ type_of_variable (meaning_known meaning.entry) }
{
    match meaning {
        Some(Named::Variable(kind)) => Some(kind),
        Some(Named::Operation { .. } | Named::Entry) | None => None,
    }
}

/// The types of an operation's arguments; None where the name is none of an operation.
pub fn arguments_of(meaning: Option<Named<'_>>) -> Option<&[TypeName]>
    ensures { types_known result ≡ arguments_of (meaning_known meaning.entry) }
{
    match meaning {
        Some(Named::Operation { arguments, .. }) => Some(arguments),
        Some(Named::Variable(_) | Named::Entry) | None => None,
    }
}

/// The types of an operation's results; None where the name is none of an operation.
pub fn results_of(meaning: Option<Named<'_>>) -> Option<&[TypeName]>
    ensures { types_known result ≡ results_of (meaning_known meaning.entry) }
{
    match meaning {
        Some(Named::Operation { results, .. }) => Some(results),
        Some(Named::Variable(_) | Named::Entry) | None => None,
    }
}

/// Whether a name is one of an entry.
pub fn is_entry(meaning: Option<Named>) -> bool
    ensures { result ≡ is_entry (meaning_known meaning.entry) }
{
    matches!(meaning, Some(Named::Entry))
}
