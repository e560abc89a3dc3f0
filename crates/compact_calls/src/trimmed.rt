ghost use Rattle.std.specs.Prelude.{◌≡◌, ◌≤◌, length, IfOk};

use charlotte_calls::{NoMemory, Short};
use std::alloc::Global;
use std::marker::Model;

/// A list of at most `CAP` items, which takes the memory of those that it has.
#[derive(Debug, Drop)]
pub struct Trimmed<T, const CAP: usize> {
    items: Vec<T>,
}

impl<T, const CAP: usize> Model for Trimmed<T, CAP> {
    ghost use Rattle.std.specs.Prelude.{List, ◌≤◌, length};

    ghost Value = { List T };

    ghost view = { λ t. t.items.items };

    ghost invariant = { λ t. length t.items.items ≤ CAP };
}

impl<T: Copy + Default, const CAP: usize> Trimmed<T, CAP> {
    /// The same items.
    pub(crate) fn of(alloc: Global, list: &Short<T, CAP>) -> Result<Self, NoMemory>
        ensures { IfOk result (λ t. t ≡ list.now) }
    {
        let items = Vec::from_slice(alloc, list.as_slice())?;
        Ok(Trimmed { items })
    }

    /// The same items, in the value itself.
    pub(crate) fn short(&self) -> Short<T, CAP>
        ensures { result ≡ self.now }
    {
        match Short::from_slice(self.items.as_slice()) {
            Some(list) => list,
            None => unreachable!(),
        }
    }
}

impl<T, const CAP: usize> Trimmed<T, CAP> {
    /// The items, lent.
    pub fn as_slice(&self) -> &[T]
        ensures { result.now ≡ self.now }
    {
        self.items.as_slice()
    }
}
