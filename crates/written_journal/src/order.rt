ghost use Rattle.std.specs.Prelude.{◌≡◌, ◌∷◌, ◌++◌, [], IfOk, List, OnOk, drop, map, slice_get};
ghost use Rattle.journal_text.specs.Journal.{placed_at};
ghost use Rattle.kernel_entries.specs.declared.entry.Entry.{Entry};

use crate::history::{History, Note};
use crate::stored::Stored;
use charlotte_calls::NoMemory;
use std::alloc::Global;
use std::collections::VecDeque;
use std::marker::Model;

/// The kernels of entries that stand in the order of all. Contracts see the entries.
#[derive(Drop)]
pub(crate) struct Order {
    kernels: VecDeque<u8>,
    history: History,
}

impl Model for Order {
    ghost use Rattle.std.specs.Prelude.{◌≡◌, List, map};
    ghost use Rattle.kernel_entries.specs.declared.entry.Placed.{Placed};

    ghost Value = { List Placed };

    ghost view = { λ o. o.history.told.placed };

    ghost invariant = { λ o. o.kernels.items ≡ map (λ p. p.kernel) o.history.told.placed };
}

impl Order {
    /// No entries, and room for so many.
    pub(crate) fn with_room(alloc: Global, entries: usize) -> Result<Order, NoMemory>
        ensures { IfOk result (λ order. order ≡ []) }
    {
        Ok(Order {
            kernels: VecDeque::with_capacity(alloc, entries)?,
            history: History::new(),
        })
    }

    /// Places the entry of a number of a kernel's journal behind the others.
    pub(crate) fn push(
        &mut self,
        kernel: u8,
        journal: &Stored,
        number: usize,
    ) -> Result<(), NoMemory>
        requires { (e : Entry) × (es : List Entry) × (drop number journal.now.entries ≡ e ∷ es) }
        ensures { OnOk result ((e : Entry) (es : List Entry) → drop number journal.now.entries ≡ e ∷ es → self.new ≡ self.old ++ placed_at kernel e ∷ []) }
    {
        self.kernels.push_back(kernel)?;
        let next = Note::Next(kernel, &journal.history, number);
        self.history = self.history.then(&next);
        Ok(())
    }

    /// The kernel of the first entry.
    pub(crate) fn first(&self) -> Option<u8>
        ensures { result ≡ slice_get (map (λ p. p.kernel) self.now) 0 }
    {
        self.kernels.front().copied()
    }

    /// Takes out the first entry.
    pub(crate) fn pop(&mut self)
        ensures { self.new ≡ drop 1 self.old }
    {
        self.kernels.pop_front();
        self.history = self.history.then(&Note::Taken);
    }
}
