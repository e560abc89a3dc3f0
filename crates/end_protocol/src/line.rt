//! Lists that are taken from at their fronts.

ghost use Rattle.std.specs.Prelude.{◌≡◌, ◌++◌, [], ◌∷◌, OnOk, option_copied};
ghost use Rattle.end_protocol.specs.Lists.{head, tail, is_nil};

use charlotte_calls::NoMemory;
use std::alloc::Global;
use std::collections::VecDeque;
use std::marker::Model;

/// A list that grows at its end and is taken from its front. Contracts see its items, in order.
#[derive(Drop)]
pub struct Line<T> {
    items: VecDeque<T>,
}

impl<T> Model for Line<T> {
    ghost use Rattle.std.specs.Prelude.{List};

    ghost Value = { List T };

    ghost view = { λ s. s.items.items };
}

impl<T: Drop> Line<T> {
    /// No items. It takes no memory.
    pub fn new(alloc: Global) -> Self
        ensures { result ≡ [] }
    {
        Line {
            items: VecDeque::new(alloc),
        }
    }

    /// Whether there are no items.
    pub fn is_empty(&self) -> bool
        ensures { result ≡ is_nil self.now }
    {
        self.items.is_empty()
    }

    /// The first item, lent.
    pub fn first(&self) -> Option<&T>
        ensures { option_copied result ≡ head self.now }
    {
        self.items.front()
    }

    /// An item joins the others, behind them.
    pub fn push(&mut self, item: T) -> Result<(), NoMemory>
        ensures { OnOk result (self.new ≡ self.old ++ item ∷ []) }
    {
        self.items.reserve(1)?;
        self.items.push_back_reserved(item);
        Ok(())
    }

    /// Takes out the first item.
    pub fn take(&mut self) -> Option<T>
        ensures first { result ≡ head self.old }
        ensures left { self.new ≡ tail self.old }
    {
        self.items.pop_front()
    }
}
