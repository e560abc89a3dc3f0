//! The ends that a process got, in the order of their numbers, and how many of them are of a kind.

ghost use Rattle.std.specs.Prelude.{◌≡◌, ◌<◌, ◌≤◌, ◌+◌, ◌-◌, ◌^◌, ◌++◌, ◌∷◌, [], length, map, sum_by, slice_get, option_copied, option_map, Some, OnOk, OnErr};
ghost use Rattle.std.specs.List.{list_any};
ghost use Rattle.process_run.specs.Ends.{place_at, with_holding, set_holding, coming_to};
ghost use Rattle.end_protocol.specs.Kept.{fresh};
ghost use Rattle.process_run.specs.States.{Keeps};
ghost use Rattle.process_run.specs.Runs.{is_in_use};
ghost use Rattle.process_ends.specs.Ends.{kept_at};
ghost use Rattle.process_ends.specs.Seen.{seen};

use crate::place::{Holding, Place};
use charlotte_calls::{EndId, NoMemory};
use end_protocol::Kept;
use std::alloc::Global;
use std::marker::Model;

/// The ends, each at its number, from 1.
#[derive(Drop)]
pub(crate) struct Roster {
    list: Vec<Place>,
    /// On how many of them a request is in part for an entry.
    coming: usize,
    /// How many of them are in use: an entry is bound, or a packet is queued or started.
    used: usize,
}

impl Model for Roster {
    ghost use Rattle.std.specs.Prelude.{List};
    ghost use Rattle.process_run.specs.States.{Place as Seen};
    ghost use Rattle.process_ends.specs.Counted.{IsCounted};

    ghost Value = { List Seen };

    ghost view = { λ r. r.list.items };

    ghost invariant = { λ r. IsCounted r.list.items r.coming r.used };
}

impl Roster {
    pub(crate) fn new(alloc: Global) -> Roster
        ensures { result ≡ [] }
    {
        Roster {
            list: Vec::new(alloc),
            coming: 0,
            used: 0,
        }
    }

    /// How many ends there are.
    pub(crate) fn count(&self) -> u32
        ensures { result ≡ length self.now }
    {
        self.list.len() as u32
    }

    /// On how many ends a request is in part for an entry.
    pub(crate) fn coming(&self) -> usize
        ensures { result ≡ sum_by (λ p. coming_to p.holding) self.now }
    {
        self.coming
    }

    /// Whether an entry is bound to an end, or a packet is queued or started on one.
    pub(crate) fn is_in_use(&self) -> bool
        ensures { result ≡ list_any (λ p. is_in_use p.holding) self.now }
    {
        self.used != 0
    }

    /// The place of a number.
    pub(crate) fn at(&self, number: u32) -> Option<&Place>
        ensures { option_copied result ≡ place_at number self.now }
    {
        if number == 0 {
            return None;
        }
        self.list.get(number as usize - 1)
    }

    /// What is kept for the end of a number, where it is held.
    pub(crate) fn kept(&self, number: u32) -> Option<&Kept>
        ensures { option_copied result ≡ kept_at number self.now }
    {
        match self.at(number) {
            Some(place) => place.kept(),
            None => None,
        }
    }

    /// One more end is held, anew. After want of memory nothing has changed.
    pub(crate) fn push(&mut self, end: EndId, kept: Box<Kept>) -> Result<(), NoMemory>
        requires fresh { kept.value ≡ fresh }
        requires few { length self.old + 1 < 2 ^ 32 }
        ensures more { OnOk result (self.new ≡ self.old ++ record { end = end; holding = Keeps fresh } ∷ []) }
        ensures same { OnErr result (self.new ≡ self.old) }
    {
        self.list.push(Place::new(end, Holding::Keeps(kept)))?;
        Ok(())
    }

    /// The end of this number is held in this way from now on. Gives what was kept for it.
    pub(crate) fn exchange(&mut self, number: u32, holding: Holding) -> Option<Box<Kept>>
        ensures left { self.new ≡ with_holding number (seen holding) self.old }
        ensures kept { option_map (λ kept. kept.value) result ≡ kept_at number self.old }
    {
        if number == 0 || self.list.len() < number as usize {
            return None;
        }
        let (coming, used) = (holding.coming(), holding.used());
        let was = exchange_at(&mut self.list, number as usize - 1, holding);
        self.coming = self.coming + coming - was.coming();
        self.used = self.used + used - was.used();
        was.into_kept()
    }
}

/// The end at this index is held in this way from now on. Gives how it was held.
fn exchange_at(list: &mut Vec<Place>, index: usize, holding: Holding) -> Holding
    requires { index < length list.old.items }
    ensures left { list.new.items ≡ set_holding index (seen holding) (slice_get list.old.items index) list.old.items }
    ensures old { option_map (λ p. p.holding) (slice_get list.old.items index) ≡ Some (seen result) }
{
    let place = &mut list[index];
    place.exchange(holding)
}
