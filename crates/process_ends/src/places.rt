//! The ends of a process, by number.

ghost use Rattle.std.specs.Prelude.{◌≡◌, ◌≤◌, ◌+◌, ◌++◌, ◌∷◌, [], true, false, cond, Some, map, sum_by, length, option_copied, option_map, OnOk, IfOk};
ghost use Rattle.std.specs.List.{list_any};
ghost use Rattle.std.specs.Map.{lookup};
ghost use Rattle.charlotte_calls.specs.declared.names.EndId.{EndId};
ghost use Rattle.charlotte_calls.specs.EndEq.{end_eq};
ghost use Rattle.indexmap.specs.IndexMap.{spare};
ghost use Rattle.end_protocol.specs.Kept.{fresh};
ghost use Rattle.process_run.specs.States.{Keeps, Gone};
ghost use Rattle.process_run.specs.Ends.{coming_to, get_all, gets_one, hold_all, let_go, number_of, with_holding};
ghost use Rattle.process_run.specs.Runs.{is_in_use, settled_at};
ghost use Rattle.process_ends.specs.Ends.{end_at, kept_at, owns_at, with_places};
ghost use Rattle.process_ends.specs.Found.{IsFirst};

use crate::board::Board;
use charlotte_calls::{EndId, NoMemory};
use end_protocol::{Due, Kept};
use indexmap::IndexMap;
use std::alloc::Global;
use std::marker::Model;

/// The ends that a process got, each under its number, from 1, and what is kept for those that it holds. Contracts see the places of the definition
/// of a process run, and whether there was room for a thread as the ends were last looked at.
#[derive(Drop)]
pub struct Places {
    alloc: Global,
    board: Board,
    /// The number of each end. Where the process got it more than once, the last one.
    numbers: IndexMap<EndId, u32>,
}

impl Model for Places {
    ghost use Rattle.process_ends.specs.Ends.{Ends};
    ghost use Rattle.process_ends.specs.Kept.{IsKept};

    ghost Value = { Ends };

    ghost view = { λ p. record { places = p.board.roster; room = p.board.room } };

    ghost invariant = { λ p. IsKept p.board p.numbers.entries };
}

impl Places {
    pub fn new(alloc: Global) -> Places
        ensures none { result.places ≡ [] }
        ensures room { result.room ≡ true }
    {
        Places {
            alloc,
            board: Board::new(alloc),
            numbers: IndexMap::new(alloc),
        }
    }

    /// How many ends were got.
    pub fn count(&self) -> u32
        ensures { result ≡ length self.now.places }
    {
        self.board.roster.count()
    }

    /// On how many ends a request is in part for an entry. Each counts as a thread that stands.
    pub fn coming(&self) -> usize
        ensures { result ≡ sum_by (λ p. coming_to p.holding) self.now.places }
    {
        self.board.roster.coming()
    }

    /// Whether an entry is bound to an end, or a packet is queued or started on one.
    pub fn is_in_use(&self) -> bool
        ensures { result ≡ list_any (λ p. is_in_use p.holding) self.now.places }
    {
        self.board.roster.is_in_use()
    }

    /// The number of an end; 0 where the process never had it.
    #[tactic(auto, unfolding(charlotte_calls::specs::EndEq::end_eq))]
    pub fn number(&self, end: EndId) -> u32
        ensures { result ≡ number_of end self.now.places }
    {
        match self.numbers.get(&end) {
            Some(number) => *number,
            None => 0,
        }
    }

    /// The end of a number.
    pub fn end(&self, number: u32) -> Option<EndId>
        ensures { result ≡ end_at number self.now.places }
    {
        match self.board.roster.at(number) {
            Some(place) => Some(place.end()),
            None => None,
        }
    }

    /// What is kept for the end of a number, where it is held.
    pub fn kept(&self, number: u32) -> Option<&Kept>
        ensures { option_copied result ≡ kept_at number self.now.places }
    {
        self.board.roster.kept(number)
    }

    /// Whether the ends that a report of a send returns were the process's own, where the end of this number is not held.
    pub fn owns(&self, number: u32) -> bool
        ensures { result ≡ owns_at number self.now.places }
    {
        match self.board.roster.at(number) {
            Some(place) => place.owns(),
            None => false,
        }
    }

    /// What is kept for the end is taken out, to be changed and put back.
    pub fn take(&mut self, number: u32) -> Option<Box<Kept>>
        ensures left { self.new ≡ with_places (with_holding number (Gone false) self.old.places) self.old }
        ensures kept { option_map (λ kept. kept.value) result ≡ kept_at number self.old.places }
    {
        self.board.take(number)
    }

    /// The end is held no longer. Gives what was kept for it.
    pub fn let_go(&mut self, number: u32, own: bool) -> Option<Box<Kept>>
        ensures left { self.new ≡ with_places (with_holding number (Gone own) self.old.places) self.old }
        ensures kept { option_map (λ kept. kept.value) result ≡ kept_at number self.old.places }
    {
        self.board.let_go(number, own)
    }

    /// This is kept for the end from now on, which is held.
    pub fn put(&mut self, number: u32, kept: Box<Kept>) -> Result<(), NoMemory>
        ensures { OnOk result (self.new ≡ with_places (with_holding number (Keeps kept.value) self.old.places) self.old) }
    {
        self.board.put(number, kept)?;
        Ok(())
    }

    /// These ends are held no longer.
    pub fn let_go_all(&mut self, numbers: &[u32])
        ensures { self.new ≡ with_places (let_go numbers.now self.old.places) self.old }
    {
        let mut left = numbers;
        while let Some((first, others)) = left.split_first() {
            self.let_go(*first, false);
            left = others;
        }
    }

    /// The process gets an end, under the next number. It gets no more than 4,294,967,295.
    pub fn get(&mut self, end: EndId) -> Result<(), NoMemory>
        ensures { OnOk result (self.new ≡ with_places (gets_one end self.old.places) self.old) }
    {
        let number = self.count();
        if number >= u32::MAX {
            return Err(NoMemory);
        }
        let kept = Box::new(self.alloc, Kept::new(self.alloc))?;
        self.enter(end, number + 1, kept)?;
        Ok(())
    }

    /// An end comes with this number, the next one, and is held anew.
    fn enter(&mut self, end: EndId, number: u32, kept: Box<Kept>) -> Result<(), NoMemory>
        requires fresh { kept.value ≡ fresh }
        requires next { number ≡ length self.old.places + 1 }
        ensures { OnOk result (self.new ≡ with_places (self.old.places ++ record { end = end; holding = Keeps fresh } ∷ []) self.old) }
    {
        self.numbers.reserve(1)?;
        self.board.push(end, kept)?;
        note_number(&mut self.numbers, end, number);
        Ok(())
    }

    /// The process gets these ends, in order.
    pub fn get_all(&mut self, ends: &[EndId]) -> Result<(), NoMemory>
        ensures { OnOk result (self.new ≡ with_places (get_all ends.now self.old.places) self.old) }
    {
        let mut left = ends;
        while let Some((first, others)) = left.split_first() {
            self.get(*first)?;
            left = others;
        }
        Ok(())
    }

    /// An end is held again, anew, under its number. Where the process never had it nothing changes.
    pub fn hold_again(&mut self, end: EndId) -> Result<(), NoMemory>
        ensures { OnOk result (self.new ≡ with_places (with_holding (number_of end self.old.places) (Keeps fresh) self.old.places) self.old) }
    {
        let number = self.number(end);
        let kept = Box::new(self.alloc, Kept::new(self.alloc))?;
        self.board.hold(number, kept);
        Ok(())
    }

    /// These ends are held again, in order.
    pub fn hold_all(&mut self, ends: &[EndId]) -> Result<(), NoMemory>
        ensures { OnOk result (self.new ≡ with_places (hold_all ends.now self.old.places) self.old) }
    {
        let mut left = ends;
        while let Some((first, others)) = left.split_first() {
            self.hold_again(*first)?;
            left = others;
        }
        Ok(())
    }

    /// There is room for a thread, or not, and each allow that is due is queued.
    fn look(&mut self, room: bool) -> Result<(), NoMemory>
        ensures room { OnOk result (self.new.room ≡ room) }
        ensures settled { OnOk result (self.new.places ≡ map (settled_at room) self.old.places) }
    {
        self.board.see_room(room)?;
        self.board.settle()?;
        Ok(())
    }

    /// Queues each allow that is due, and gives the first call that is due, with the number of its end. `room` says whether there is room for a
    /// thread.
    pub fn due(&mut self, room: bool) -> Result<Option<(u32, Due)>, NoMemory>
        ensures room { OnOk result (self.new.room ≡ room) }
        ensures settled { OnOk result (self.new.places ≡ map (settled_at room) self.old.places) }
        ensures first { IfOk result (IsFirst room self.new.places) }
    {
        self.look(room)?;
        Ok(self.board.due())
    }
}

/// An end has this number from now on.
#[tactic(auto, unfolding(charlotte_calls::specs::EndEq::end_eq))]
fn note_number(numbers: &mut IndexMap<EndId, u32>, end: EndId, number: u32)
    requires { 1 ≤ spare numbers.old }
    ensures { (x : EndId) → lookup (end_eq x) numbers.new.entries ≡ cond (end_eq end x) (Some number) (lookup (end_eq x) numbers.old.entries) }
{
    match numbers.insert(end, number) {
        Ok(_) => {}
        Err(_) => unreachable!(),
    }
}
