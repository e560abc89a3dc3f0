//! Tables of places.

ghost use Rattle.std.specs.Prelude.{◌≡◌, ◌<◌, ◌+◌, ℕ, ◌∷◌, [], ◌++◌, List, length, map, unwrap_or, None, Some, OnOk, if◌then◌else◌};
ghost use Rattle.std.specs.Str.{bytes_eq};
ghost use Rattle.lynx_tree.specs.Trees.{var_tree, op_tree, entry_tree};
ghost use Rattle.compiler_emission.specs.Places.{found, first_of, IsTableOf};

use indexmap::IndexMap;
use lynx_lexer::{IdentRef, NoMemory};
use lynx_tree::{EntryDecl, OpDecl, VarDecl};
use std::alloc::Global;
use typing_rules::Key;

/// The places of names in a list, from 0. A name that stands there twice has its first place.
#[derive(Drop)]
pub struct Places<'m> {
    places: IndexMap<Key<'m>, u32>,
    count: u32,
}

impl<'m> Places<'m> {
    /// Those of a list without names.
    pub fn new(alloc: Global) -> Places<'m>
        ensures { IsTableOf [] result }
    {
        Places {
            places: IndexMap::new(alloc),
            count: 0,
        }
    }

    /// The place of a name. None exactly where it is not in the list.
    pub fn look(&self, name: &IdentRef) -> Option<u32>
        ensures { result ≡ found self.now name.now }
    {
        let bytes = name.as_slice();
        self.places.get(&Key { bytes }).copied()
    }

    /// The place of a name, and 0 of one that has none.
    pub fn place(&self, name: &IdentRef) -> u32
        ensures { result ≡ unwrap_or (found self.now name.now) 0 }
    {
        self.look(name).unwrap_or(0)
    }

    /// Gives a name the next place, where it has none.
    fn keep(&mut self, name: &IdentRef<'m>) -> Result<(), NoMemory>
        ensures count { self.new.count ≡ self.old.count }
        ensures found { OnOk result ((q : List ℕ) → found self.new q ≡ first_of (found self.old q) (if bytes_eq name.now q then Some self.old.count else None)) }
    {
        let bytes = name.as_slice();
        if let Some(first) = self.places.insert(Key { bytes }, self.count)? {
            self.places.insert(Key { bytes }, first)?;
        }
        Ok(())
    }

    /// Adds a name at the end of the list, where its place can be counted.
    fn add(&mut self, name: &IdentRef<'m>) -> Result<(), NoMemory>
        requires { self.old.count + 1 < 4294967296 }
        ensures count { OnOk result (self.new.count ≡ self.old.count + 1) }
        ensures table { (names : List (List ℕ)) → IsTableOf names self.old → OnOk result (IsTableOf (names ++ name.now ∷ []) self.new) }
    {
        self.keep(name)?;
        self.count += 1;
        Ok(())
    }

    /// Makes room for so many names more, so that the table does not grow name by name.
    fn make_room(&mut self, more: usize) -> Result<(), NoMemory>
        ensures count { self.new.count ≡ self.old.count }
        ensures table { (names : List (List ℕ)) → IsTableOf names self.old → OnOk result (IsTableOf names self.new) }
    {
        self.places.reserve(more)?;
        Ok(())
    }

    /// Adds names.
    pub fn add_names(&mut self, list: &[IdentRef<'m>]) -> Result<(), NoMemory>
        requires { self.old.count + length list.now < 4294967296 }
        ensures { (names : List (List ℕ)) → IsTableOf names self.old → OnOk result (IsTableOf (names ++ list.now) self.new) }
    {
        self.make_room(list.len())?;
        for name in list {
            self.add(name)?;
        }
        Ok(())
    }

    /// Adds those of variables.
    pub fn add_vars(&mut self, list: &[VarDecl<'m>]) -> Result<(), NoMemory>
        requires { self.old.count + length list.now < 4294967296 }
        ensures { (names : List (List ℕ)) → IsTableOf names self.old → OnOk result (IsTableOf (names ++ map (λ v. v.name) (map var_tree list.now)) self.new) }
    {
        self.make_room(list.len())?;
        for var in list {
            self.add(&var.name)?;
        }
        Ok(())
    }

    /// Adds those of operations.
    pub fn add_ops(&mut self, list: &[OpDecl<'m>]) -> Result<(), NoMemory>
        requires { self.old.count + length list.now < 4294967296 }
        ensures { (names : List (List ℕ)) → IsTableOf names self.old → OnOk result (IsTableOf (names ++ map (λ op. op.name) (map op_tree list.now)) self.new) }
    {
        self.make_room(list.len())?;
        for op in list {
            self.add(&op.name)?;
        }
        Ok(())
    }
}

/// Adds the names of entries.
pub fn add_entries<'t, 'm>(
    entries: &'t [EntryDecl<'m>],
    table: &mut Places<'m>,
) -> Result<(), NoMemory>
    requires { table.old.count + length entries.now < 4294967296 }
    ensures { (names : List (List ℕ)) → IsTableOf names table.old → OnOk result (IsTableOf (names ++ map (λ e. e.name) (map entry_tree entries.now)) table.new) }
{
    table.make_room(entries.len())?;
    for entry in entries {
        table.add(&entry.name)?;
    }
    Ok(())
}
