ghost use Rattle.std.specs.Prelude.{◌≡◌, ◌<◌, ◌≤◌, ◌+◌, length, is_some, [], None, Some, OnOk, option_copied};
ghost use Rattle.std.specs.List.{IsDistinct};
ghost use Rattle.std.specs.Map.{lookup, keys_of};
ghost use Rattle.end_table.specs.Place.{end_eq};
ghost use Rattle.end_table.specs.Kept.{HasAt, HasRoom};

use charlotte_calls::{EndId, NoMemory};
use indexmap::IndexMap;
use std::alloc::Global;
use std::marker::Model;

/// What is kept of ends, one item each at most. An item stays until the next one of its end, or until it is forgotten. Room for
/// more is not touched before it is needed.
#[derive(Drop)]
pub(crate) struct Kept<M> {
    kept: IndexMap<EndId, M>,
}

impl<M> Model for Kept<M> {
    ghost use Rattle.std.specs.Prelude.{length, ◌+◌};
    ghost use Rattle.std.specs.HashMap.{spare};
    ghost use Rattle.end_table.specs.Kept.{KeptView};

    ghost Value = { KeptView M };

    ghost view = { λ m. record { kept = m.kept.entries; most = length m.kept.entries + spare m.kept } };
}

impl<M: Drop> Kept<M> {
    /// Nothing.
    pub(crate) fn new(alloc: Global) -> Kept<M>
        ensures { result.kept ≡ [] }
    {
        Kept {
            kept: IndexMap::new(alloc),
        }
    }

    /// Makes room for this many ends, and where nothing is kept for `few` at least.
    #[inline(always)]
    pub(crate) fn reserve(&mut self, most: usize, few: usize) -> Result<(), NoMemory>
        ensures room { OnOk result (most ≤ self.new.most) }
        ensures same { self.new.kept ≡ self.old.kept }
        ensures kept { self.old.most ≤ self.new.most }
    {
        if most <= self.kept.capacity() {
            return Ok(());
        }
        self.grow(most, few)
    }

    /// The same where there is less room. A small block is copied whole when it grows, also where nothing is in it, and a large one
    /// grows without a copy, but one that is let go costs memory later. So with `few` the first is large already.
    #[inline(never)]
    fn grow(&mut self, most: usize, few: usize) -> Result<(), NoMemory>
        requires { self.old.most < most }
        ensures room { OnOk result (most ≤ self.new.most) }
        ensures same { self.new.kept ≡ self.old.kept }
        ensures kept { self.old.most ≤ self.new.most }
    {
        if self.kept.is_empty() {
            if self.kept.capacity() < few {
                self.kept = IndexMap::with_capacity(*self.kept.allocator(), most.max(few))?;
                return Ok(());
            }
        }
        self.kept.reserve(most - self.kept.len())?;
        Ok(())
    }

    /// Keeps what is new of an end, in place of what was kept of it. There is room for it where it is the first.
    #[inline(always)]
    pub(crate) fn put(&mut self, end: EndId, item: M)
        requires { HasRoom self.old end }
        ensures put { HasAt self.old self.new end (Some item) }
        ensures room { self.old.most ≤ self.new.most }
    {
        match self.kept.get_mut(&end) {
            Some(place) => *place = item,
            None => self.add(end, item),
        }
    }

    /// Keeps the first of an end.
    #[inline(never)]
    fn add(&mut self, end: EndId, item: M)
        requires room { IsDistinct end_eq (keys_of self.old.kept) → length self.old.kept < self.old.most }
        requires absent { lookup (end_eq end) self.old.kept ≡ None }
        ensures put { HasAt self.old self.new end (Some item) }
        ensures room { self.old.most ≤ self.new.most }
    {
        match self.kept.insert(end, item) {
            Ok(_) => {}
            Err(_) => unreachable!(),
        }
    }

    /// Lets go what is kept of an end.
    #[inline(always)]
    pub(crate) fn forget(&mut self, end: EndId)
        ensures none { HasAt self.old self.new end None }
        ensures absent { lookup (end_eq end) self.old.kept ≡ None → self.old.most ≤ self.new.most }
        ensures room { self.old.most ≤ self.new.most + 1 }
    {
        if self.has(end) {
            drop(self.kept.swap_remove(&end));
        }
    }

    /// Whether something is kept of an end. Where nothing is kept at all, as mostly, the index is not read.
    #[inline(always)]
    pub(crate) fn has(&self, end: EndId) -> bool
        ensures { result ≡ is_some (lookup (end_eq end) self.now.kept) }
    {
        if self.kept.is_empty() {
            return false;
        }
        self.kept.contains_key(&end)
    }

    /// What is kept of an end.
    #[inline(always)]
    pub(crate) fn get(&self, end: EndId) -> Option<&M>
        ensures { option_copied result ≡ lookup (end_eq end) self.now.kept }
    {
        if self.kept.is_empty() {
            return None;
        }
        self.kept.get(&end)
    }
}
