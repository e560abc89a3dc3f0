ghost use Rattle.std.specs.Prelude.{◌≡◌, ◌<◌, ◌≤◌, [], ◌∷◌, ◌++◌, length, IfNone};
ghost use Rattle.std.specs.List.{list_all};
ghost use Rattle.std.specs.Option.{option_to_list};

use crate::{CargoPicture, Moving, MovingPicture};
use arrayvec::ArrayVec;
use charlotte_calls::Short;
use std::marker::Model;

/// The values of ends that a packet carries, in order, at most eight. It has to be emptied before it is closed.
///
/// Inside it a value is kept as its fields: `add` takes it apart, and `next` puts it together again.
#[derive(Debug)]
pub struct Cargo {
    values: ArrayVec<MovingPicture, 8>,
}

impl Model for Cargo {
    ghost use Rattle.std.specs.Prelude.{List};
    ghost use Rattle.charlotte_packets.specs.declared.picture.MovingPicture.{MovingPicture};

    ghost Value = { List MovingPicture };

    ghost view = { λ c. c.values.items };
}

impl Cargo {
    ghost use Rattle.charlotte_packets.specs.Packets.{names_kernels_below};

    /// A cargo without values.
    pub fn empty() -> Cargo
        ensures { result ≡ [] }
    {
        Cargo {
            values: ArrayVec::new(),
        }
    }

    /// Adds a value at the end.
    pub fn add(&mut self, moving: Moving)
        requires { length self.old < 8 }
        ensures { self.new ≡ self.old ++ moving ∷ [] }
    {
        self.values.push(moving.into_fields());
    }

    /// Takes out the first value; `None` exactly where there is none.
    pub fn next(&mut self) -> Option<Moving>
        ensures rest { self.old ≡ option_to_list result ++ self.new }
        ensures none { IfNone result (self.old ≡ []) }
    {
        if self.values.is_empty() {
            return None;
        }
        Some(Moving::from_fields(self.values.remove(0)))
    }

    /// How many values there are, at most eight.
    pub fn len(&self) -> usize
        ensures count { result ≡ length self.now }
        ensures within { result < 9 }
    {
        self.values.len()
    }

    /// The fields of the values, in order, lent.
    pub fn values(&self) -> &[MovingPicture]
        ensures same { result.now ≡ self.now }
        ensures within { length result.now ≤ 8 }
    {
        self.values.as_slice()
    }

    /// The fields of the values, in order.
    pub fn picture(&self) -> CargoPicture
        ensures { result ≡ self.now }
    {
        match Short::from_slice(self.values()) {
            Some(values) => values,
            None => unreachable!(),
        }
    }

    /// Whether each kernel that a value names is below `kernels`.
    pub fn addressed(&self, kernels: u8) -> bool
        ensures { result ≡ list_all (names_kernels_below kernels) self.now }
    {
        self.values()
            .iter()
            .all(|value| value.names_kernels_below(kernels))
    }

    /// Lets go of a cargo without values.
    pub fn close(self)
        requires { self ≡ [] }
    {
        let Cargo { values: _ } = self;
    }

    /// Spends every value.
    pub(crate) fn spend(self) {
        let Cargo { values: _ } = self;
    }
}
