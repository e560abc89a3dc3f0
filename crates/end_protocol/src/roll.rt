//! Lists that are gone through.

ghost use Rattle.std.specs.Prelude.{◌≡◌, ◌++◌, [], ◌∷◌, OnOk, filter, not, ◌==◌};
ghost use Rattle.end_protocol.specs.Lists.{is_nil};

use crate::kept::{Accept, Binding};
use charlotte_calls::NoMemory;
use std::alloc::Global;
use std::marker::Model;

/// A list that grows at its end. Contracts see its items, in order.
#[derive(Drop)]
pub struct Roll<T> {
    pub(crate) items: Vec<T>,
}

impl<T> Model for Roll<T> {
    ghost use Rattle.std.specs.Prelude.{List};

    ghost Value = { List T };

    ghost view = { λ s. s.items.items };
}

impl<T: Drop> Roll<T> {
    /// No items. It takes no memory.
    pub fn new(alloc: Global) -> Self
        ensures { result ≡ [] }
    {
        Roll {
            items: Vec::new(alloc),
        }
    }

    /// Whether there are no items.
    pub fn is_empty(&self) -> bool
        ensures { result ≡ is_nil self.now }
    {
        self.items.is_empty()
    }

    /// The items, in order.
    pub fn as_slice(&self) -> &[T]
        ensures { result.now ≡ self.now }
    {
        self.items.as_slice()
    }

    /// An item joins the others, behind them.
    pub fn push(&mut self, item: T) -> Result<(), NoMemory>
        ensures { OnOk result (self.new ≡ self.old ++ item ∷ []) }
    {
        self.items.push(item)?;
        Ok(())
    }
}

impl Roll<Accept> {
    /// A thread accepts no longer.
    pub(crate) fn leave(&mut self, thread: u8)
        ensures { self.new ≡ filter (λ a. not (a.thread == thread)) self.old }
    {
        self.items.retain(|accept| accept.thread != thread);
    }
}

impl Roll<Binding> {
    /// An entry is bound no longer.
    pub(crate) fn remove(&mut self, entry: u16)
        ensures { self.new ≡ filter (λ b. not (b.entry == entry)) self.old }
    {
        self.items.retain(|binding| binding.entry != entry);
    }
}
