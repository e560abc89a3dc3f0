//! Rows as they are kept.

ghost use Rattle.std.specs.Prelude.{◌≡◌, ◌≤◌, length, OnErr};
ghost use Rattle.lynx_meaning.specs.Values as meaning;
ghost use Rattle.machine_values.specs.Told.{told, stored};

use arrayvec::ArrayVec;
use std::marker::Model;
use typing_rules::{Exception, Row16};

/// The numbers of a row, from 1 to 16. Each can be changed in its place.
#[derive(Debug, Drop)]
pub struct Numbers {
    numbers: ArrayVec<i64, 16>,
}

impl Model for Numbers {
    ghost use Rattle.std.specs.Prelude.{ℤ, List, length, ◌<◌};

    ghost Value = { List ℤ };

    ghost view = { λ a. a.numbers.items };

    ghost invariant = { λ a. 0 < length a.numbers.items };
}

impl Numbers {
    /// The numbers of a row.
    pub fn of(row: &Row16) -> Numbers
        ensures { result ≡ row.now }
    {
        let mut numbers = ArrayVec::new();
        let _ = numbers.try_extend_from_slice(row.as_slice());
        Numbers { numbers }
    }

    /// The row of these numbers.
    pub fn row(&self) -> Row16
        ensures { result ≡ self.now }
    {
        match Row16::from_slice(self.numbers.as_slice()) {
            Some(row) => row,
            None => unreachable!(),
        }
    }

    /// Numbers that are equal.
    pub fn copy(&self) -> Numbers
        ensures { result ≡ self.now }
    {
        let mut numbers = ArrayVec::new();
        let _ = numbers.try_extend_from_slice(self.numbers.as_slice());
        Numbers { numbers }
    }

    /// The number at this place, from 0. RANGE where there is none.
    pub fn member(&self, index: i64) -> Result<i64, Exception>
        ensures { told result ≡ meaning.member self.now index }
    {
        let place = usize::try_from(index).ok().ok_or(Exception::Range)?;
        self.numbers
            .as_slice()
            .get(place)
            .copied()
            .ok_or(Exception::Range)
    }

    /// Changes the number at this place, from 0. RANGE where there is none; then nothing is changed.
    pub fn set_member(&mut self, index: i64, number: i64) -> Result<(), Exception>
        ensures changed { stored result self.old self.new ≡ meaning.with_member self.old index number }
        ensures kept { OnErr result (self.new ≡ self.old) }
    {
        let Ok(place) = usize::try_from(index) else {
            return Err(Exception::Range);
        };
        if self.numbers.len() <= place {
            return Err(Exception::Range);
        }
        self.numbers.as_mut_slice()[place] = number;
        Ok(())
    }
}
