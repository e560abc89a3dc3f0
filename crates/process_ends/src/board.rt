//! The ends of a process, and which of them are to be looked at.

ghost use Rattle.std.specs.Prelude.{◌≡◌, ◌<◌, ◌+◌, ◌^◌, ◌++◌, ◌∷◌, [], ℕ, true, false, not, is_some, Some, IsSome, IfSome, map, option_map, length, IfOk, OnOk, OnErr};
ghost use Rattle.std.specs.BTreeSet.{btree_set_len};
ghost use Rattle.end_protocol.specs.Going.{due_call, settled};
ghost use Rattle.end_protocol.specs.Kept.{fresh};
ghost use Rattle.end_protocol.specs.Lists.{is_nil};
ghost use Rattle.process_run.specs.States.{Keeps, Gone};
ghost use Rattle.process_run.specs.Ends.{place_at, with_holding};
ghost use Rattle.process_run.specs.Runs.{settled_at};
ghost use Rattle.process_ends.specs.Ends.{kept_at};
ghost use Rattle.process_ends.specs.Noted.{AllAt, IsCalm, IsMarked, IsNoted, StaysSo, due_in, is_among, is_due};
ghost use Rattle.process_ends.specs.Numbered.{KeepNumbers};
ghost use Rattle.process_ends.specs.Found.{IsFirst, forbids};

use crate::place::Holding;
use crate::roster::Roster;
use crate::sets::{add, add_if, discard, discard_unless, join, least};
use charlotte_calls::{EndId, NoMemory};
use end_protocol::{Due, Kept};
use std::alloc::Global;
use std::collections::BTreeSet;

/// The ends that a process got, and sets of their numbers, so that no call looks at all ends.
#[derive(Drop)]
pub(crate) struct Board {
    pub(crate) roster: Roster,
    /// Each end to which an entry is bound is among these.
    bound: BTreeSet<u32>,
    /// On all others no allow is due.
    unsettled: BTreeSet<u32>,
    /// On all others no call is due.
    agenda: BTreeSet<u32>,
    /// Whether there was room for a thread, as the ends were last looked at.
    pub(crate) room: bool,
}

impl Board {
    pub(crate) fn new(alloc: Global) -> Board
        ensures noted { IsNoted result }
        ensures none { result.roster ≡ [] }
        ensures room { result.room ≡ true }
    {
        Board {
            roster: Roster::new(alloc),
            bound: BTreeSet::new(alloc),
            unsettled: BTreeSet::new(alloc),
            agenda: BTreeSet::new(alloc),
            room: true,
        }
    }

    /// The end of this number joins those to which an entry is bound, on which a request was forbidden, or on which a call is due.
    fn mark(
        &mut self,
        number: u32,
        is_bound: bool,
        has_forbidden: bool,
        has_call: bool,
    ) -> Result<(), NoMemory>
        requires { IsNoted self.old }
        ensures noted { IsNoted self.new }
        ensures same { StaysSo self.old self.new }
        ensures marked { OnOk result (IsMarked number is_bound has_forbidden has_call self.new) }
    {
        add_if(&mut self.unsettled, number, has_forbidden)?;
        add_if(&mut self.agenda, number, has_call)?;
        add_if(&mut self.bound, number, is_bound)
    }

    /// This is kept for the end, which is marked.
    fn place(&mut self, number: u32, kept: Box<Kept>)
        requires noted { IsNoted self.old }
        requires marked { IsMarked number (not (is_nil kept.value.bindings)) (is_some kept.value.forbade) (is_due (due_call self.old.room kept.value)) self.old }
        ensures noted { IsNoted self.new }
        ensures room { self.new.room ≡ self.old.room }
        ensures kept { self.new.roster ≡ with_holding number (Keeps kept.value) self.old.roster }
    {
        let is_bound = !kept.bindings.is_empty();
        discard_unless(&mut self.bound, number, is_bound);
        self.roster.exchange(number, Holding::Keeps(kept));
    }

    /// Whether a call is due on an end for which this is kept.
    fn has_call(&self, kept: &Kept) -> bool
        ensures { result ≡ is_due (due_call self.now.room kept.now) }
    {
        is_due(kept.due(self.room))
    }

    /// This is kept for the end from now on.
    pub(crate) fn put(&mut self, number: u32, kept: Box<Kept>) -> Result<(), NoMemory>
        requires { IsNoted self.old }
        ensures noted { IsNoted self.new }
        ensures room { self.new.room ≡ self.old.room }
        ensures kept { OnOk result (self.new.roster ≡ with_holding number (Keeps kept.value) self.old.roster) }
        ensures same { OnErr result (self.new.roster ≡ self.old.roster) }
    {
        let is_bound = !kept.bindings.is_empty();
        let has_forbidden = kept.forbade.is_some();
        let has_call = self.has_call(&kept);
        self.mark(number, is_bound, has_forbidden, has_call)?;
        self.place(number, kept);
        Ok(())
    }

    /// What is kept for the end is taken out, to be changed and put back. An end to which an entry is bound stays among those.
    pub(crate) fn take(&mut self, number: u32) -> Option<Box<Kept>>
        requires { IsNoted self.old }
        ensures noted { IsNoted self.new }
        ensures room { self.new.room ≡ self.old.room }
        ensures left { self.new.roster ≡ with_holding number (Gone false) self.old.roster }
        ensures kept { option_map (λ kept. kept.value) result ≡ kept_at number self.old.roster }
    {
        self.roster.exchange(number, Holding::Gone(false))
    }

    /// The end is held no longer. Gives what was kept for it.
    pub(crate) fn let_go(&mut self, number: u32, own: bool) -> Option<Box<Kept>>
        requires { IsNoted self.old }
        ensures noted { IsNoted self.new }
        ensures room { self.new.room ≡ self.old.room }
        ensures left { self.new.roster ≡ with_holding number (Gone own) self.old.roster }
        ensures kept { option_map (λ kept. kept.value) result ≡ kept_at number self.old.roster }
    {
        discard(&mut self.bound, number);
        self.roster.exchange(number, Holding::Gone(own))
    }

    /// The end is held anew.
    pub(crate) fn hold(&mut self, number: u32, kept: Box<Kept>)
        requires noted { IsNoted self.old }
        requires fresh { kept.value ≡ fresh }
        ensures noted { IsNoted self.new }
        ensures room { self.new.room ≡ self.old.room }
        ensures held { self.new.roster ≡ with_holding number (Keeps fresh) self.old.roster }
    {
        self.roster.exchange(number, Holding::Keeps(kept));
    }

    /// One more end is held, for which there is a place.
    pub(crate) fn push(&mut self, end: EndId, kept: Box<Kept>) -> Result<(), NoMemory>
        requires noted { IsNoted self.old }
        requires fresh { kept.value ≡ fresh }
        requires few { length self.old.roster + 1 < 2 ^ 32 }
        ensures noted { IsNoted self.new }
        ensures room { self.new.room ≡ self.old.room }
        ensures held { OnOk result (self.new.roster ≡ self.old.roster ++ record { end = end; holding = Keeps fresh } ∷ []) }
        ensures same { OnErr result (self.new.roster ≡ self.old.roster) }
    {
        self.roster.push(end, kept)?;
        Ok(())
    }

    /// There is room for a thread, or not.
    pub(crate) fn see_room(&mut self, room: bool) -> Result<(), NoMemory>
        requires { IsNoted self.old }
        ensures noted { IsNoted self.new }
        ensures same { self.new.roster ≡ self.old.roster }
        ensures room { OnOk result (self.new.room ≡ room) }
    {
        if is_same(self.room, room) {
            return Ok(());
        }
        join(&mut self.unsettled, &self.bound)?;
        join(&mut self.agenda, &self.bound)?;
        self.room = room;
        Ok(())
    }

    /// Each allow that is due is queued.
    pub(crate) fn settle(&mut self) -> Result<(), NoMemory>
        requires { IsNoted self.old }
        ensures noted { IsNoted self.new }
        ensures room { self.new.room ≡ self.old.room }
        ensures settled { OnOk result (self.new.roster ≡ map (settled_at self.old.room) self.old.roster) }
        ensures numbers { KeepNumbers self.old.roster self.new.roster }
    {
        while let Some(number) = least(&self.unsettled) {
            self.settle_next(number)?;
        }
        Ok(())
    }

    /// An allow that is due on this end, which is unsettled, is queued.
    fn settle_next(&mut self, number: u32) -> Result<(), NoMemory>
        requires noted { IsNoted self.old }
        requires unsettled { is_among number self.old.unsettled ≡ true }
        ensures noted { IsNoted self.new }
        ensures room { self.new.room ≡ self.old.room }
        ensures settled { OnOk result (map (settled_at self.old.room) self.new.roster ≡ map (settled_at self.old.room) self.old.roster) }
        ensures numbers { KeepNumbers self.old.roster self.new.roster }
        ensures fewer { OnOk result (btree_set_len self.new.unsettled < btree_set_len self.old.unsettled) }
    {
        self.settle_at(number)?;
        discard(&mut self.unsettled, number);
        Ok(())
    }

    /// Whether a request was forbidden on the end, and not yet allowed.
    fn forbids(&self, number: u32) -> bool
        ensures { result ≡ forbids (kept_at number self.now.roster) }
    {
        match self.roster.kept(number) {
            Some(kept) => kept.forbade.is_some(),
            None => false,
        }
    }

    /// The same, while the end stays unsettled.
    fn settle_at(&mut self, number: u32) -> Result<(), NoMemory>
        requires { IsNoted self.old }
        ensures noted { IsNoted self.new }
        ensures room { self.new.room ≡ self.old.room }
        ensures unsettled { self.new.unsettled ≡ self.old.unsettled }
        ensures settled { OnOk result (map (settled_at self.old.room) self.new.roster ≡ map (settled_at self.old.room) self.old.roster) }
        ensures numbers { KeepNumbers self.old.roster self.new.roster }
        ensures calm { OnOk result (AllAt (λ m h. m ≡ number → IsCalm self.old.room h) self.new.roster) }
    {
        if !self.forbids(number) {
            return Ok(());
        }
        self.settle_kept(number)
    }

    /// The same, for an end that is held.
    fn settle_kept(&mut self, number: u32) -> Result<(), NoMemory>
        requires noted { IsNoted self.old }
        requires held { IsSome (kept_at number self.old.roster) }
        ensures noted { IsNoted self.new }
        ensures room { self.new.room ≡ self.old.room }
        ensures unsettled { self.new.unsettled ≡ self.old.unsettled }
        ensures settled { OnOk result (map (settled_at self.old.room) self.new.roster ≡ map (settled_at self.old.room) self.old.roster) }
        ensures numbers { KeepNumbers self.old.roster self.new.roster }
        ensures calm { OnOk result (AllAt (λ m h. m ≡ number → IsCalm self.old.room h) self.new.roster) }
    {
        add(&mut self.agenda, number)?;
        let Some(kept) = self.roster.exchange(number, Holding::Gone(false)) else {
            unreachable!();
        };
        let kept = settled(kept, self.room)?;
        self.roster.exchange(number, Holding::Keeps(kept));
        Ok(())
    }

    /// The first end on which a call is due, by its number.
    pub(crate) fn due(&mut self) -> Option<(u32, Due)>
        requires { IsNoted self.old }
        ensures noted { IsNoted self.new }
        ensures same { StaysSo self.old self.new }
        ensures first { IsFirst self.new.room self.new.roster result }
    {
        while let Some(number) = least(&self.agenda) {
            let due = self.due_at(number);
            if is_due(due) {
                return Some((number, due));
            }
            self.strike(number);
        }
        None
    }

    /// The call that is due on an end.
    fn due_at(&self, number: u32) -> Due
        ensures { result ≡ due_in self.now.room (place_at number self.now.roster) }
    {
        match self.roster.kept(number) {
            Some(kept) => kept.due(self.room),
            None => Due::Nothing,
        }
    }

    /// No call is due on this end, which is on the agenda.
    fn strike(&mut self, number: u32)
        requires noted { IsNoted self.old }
        requires idle { is_due (due_in self.old.room (place_at number self.old.roster)) ≡ false }
        requires agenda { is_among number self.old.agenda ≡ true }
        ensures noted { IsNoted self.new }
        ensures same { StaysSo self.old self.new }
        ensures fewer { btree_set_len self.new.agenda < btree_set_len self.old.agenda }
    {
        discard(&mut self.agenda, number);
    }
}

fn is_same(room: bool, other: bool) -> bool
    ensures { result ≡ true → room ≡ other }
{
    room == other
}

/// What is kept for an end after an allow that is due was queued.
fn settled(mut kept: Box<Kept>, room: bool) -> Result<Box<Kept>, NoMemory>
    ensures { IfOk result (λ now. now.value ≡ settled room kept.value) }
{
    kept.settle(room)?;
    Ok(kept)
}

fn is_due(due: Due) -> bool
    ensures { result ≡ is_due due }
{
    !matches!(due, Due::Nothing)
}
