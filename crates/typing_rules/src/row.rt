//! Values of the row types.

ghost use Rattle.std.specs.Prelude.{◌≡◌, ◌≤◌, ◌<◌, ◌↔◌, length, IsSome, IfSome};

use arrayvec::ArrayVec;
use std::marker::Model;

/// The value of a row: from 1 to 16 numbers.
#[derive(Debug, Drop)]
pub struct Row16 {
    numbers: ArrayVec<i64, 16>,
}

impl Model for Row16 {
    ghost use Rattle.std.specs.Prelude.{ℤ, List, length, ◌<◌};

    ghost Value = { List ℤ };

    ghost view = { λ a. a.numbers.items };

    ghost invariant = { λ a. 0 < length a.numbers.items };
}

impl Row16 {
    /// The row of these numbers. None exactly where they are none or more than 16.
    pub fn from_slice(numbers: &[i64]) -> Option<Row16>
        ensures variant { IsSome result ↔ ((0 < length numbers.now) × (length numbers.now ≤ 16)) }
        ensures value { IfSome result (λ row. row ≡ numbers.now) }
    {
        if numbers.is_empty() {
            return None;
        }
        let mut kept = ArrayVec::new();
        kept.try_extend_from_slice(numbers).ok()?;
        Some(Row16 { numbers: kept })
    }

    /// The numbers.
    pub fn as_slice(&self) -> &[i64]
        ensures value { result.now ≡ self.now }
        ensures fits { length result.now ≤ 16 }
        ensures some { 0 < length result.now }
    {
        self.numbers.as_slice()
    }

    /// A row that is equal.
    pub fn copy(&self) -> Row16
        ensures { result ≡ self.now }
    {
        let mut kept = ArrayVec::new();
        let _ = kept.try_extend_from_slice(self.numbers.as_slice());
        Row16 { numbers: kept }
    }
}
