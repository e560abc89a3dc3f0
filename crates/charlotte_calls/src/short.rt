ghost use Rattle.std.specs.Prelude.{◌≡◌, ◌<◌, ◌≤◌, ◌↔◌, length, IsNone, IfSome};

use arrayvec::ArrayVec;
use std::marker::Model;

/// A list of at most `CAP` items, which lie in the value itself, so that it takes no memory.
#[derive(Debug, Drop)]
pub struct Short<T, const CAP: usize> {
    items: ArrayVec<T, CAP>,
}

impl<T, const CAP: usize> Model for Short<T, CAP> {
    ghost use Rattle.std.specs.Prelude.{List};

    ghost Value = { List T };

    ghost view = { λ s. s.items.items };
}

impl<T: Copy + Default, const CAP: usize> Short<T, CAP> {
    /// The list of these items; `None` exactly where there are more than `CAP`.
    pub fn from_slice(items: &[T]) -> Option<Self>
        ensures long { IsNone result ↔ (CAP < length items.now) }
        ensures same { IfSome result (λ s. s ≡ items.now) }
    {
        let mut kept = ArrayVec::new();
        match kept.try_extend_from_slice(items) {
            Ok(()) => Some(Short::of(kept)),
            Err(_) => None,
        }
    }

    /// An equal list.
    pub fn copy(&self) -> Self
        ensures { result ≡ self.now }
    {
        let mut kept = ArrayVec::new();
        match kept.try_extend_from_slice(self.as_slice()) {
            Ok(()) => Short::of(kept),
            Err(_) => unreachable!(),
        }
    }
}

impl<T, const CAP: usize> Short<T, CAP> {
    /// The list of the items of a vector that has room for as many.
    #[inline(always)]
    pub fn of(items: ArrayVec<T, CAP>) -> Self
        ensures { result ≡ items.items }
    {
        Short { items }
    }

    /// The items, in order.
    pub fn as_slice(&self) -> &[T]
        ensures same { result.now ≡ self.now }
        ensures within { length result.now ≤ CAP }
    {
        self.items.as_slice()
    }
}
