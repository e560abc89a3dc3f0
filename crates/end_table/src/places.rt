ghost use Rattle.std.specs.Prelude.{◌≡◌, ◌≤◌, ◌<◌, ◌+◌, ◌^◌, length, [], List, OnOk, OnErr, IfOk, IfErr, IsOk, IfSome, IsTrue, ◌↔◌};
ghost use Rattle.std.specs.Bool.{OnTrue, OnFalse};
ghost use Rattle.std.specs.List.{IsDistinct};
ghost use Rattle.std.specs.Map.{keys_of};
ghost use Rattle.charlotte_calls.specs.declared.names.EndId.{EndId};
ghost use Rattle.end_table.specs.Place.{end_eq};
ghost use Rattle.end_table.specs.Entries.{left_value, left_entry, ended_entry, learned, is_news, settled};
ghost use Rattle.end_table.specs.Message.{outward_of, HasNoMorePlaces};
ghost use Rattle.end_table.specs.Table.{entries, HasPlace, Puts, IsHere, IsHereAnd, IfHere, IsIdle, IsDestroyed, IfDestroyed, HasLeftUpTo, IsOfEnd, Clears};
ghost use Rattle.end_table.specs.Lent.{lent_entry};
ghost use Rattle.end_table.specs.Slot.{owned_ends};
ghost use Rattle.end_table.specs.declared.entry.Entry.TheVariants.{Nothing, Here, Left, Destroyed};

use crate::slot::Slot;
use crate::{Holder, Inward, Lent, Living, Sending};
use charlotte_calls::{EndId, NoMemory, Pid};
use charlotte_packets::{Mark, Moving, MovingPicture};
use indexmap::IndexMap;
use std::alloc::{AllocError, Global};
use std::marker::Model;

/// Room for so many ends is made at first. Then each block but that of an index is larger than 128 KiB: it grows without a copy, and of it
/// is touched only what is used.
pub(crate) const FEW: usize = 12288;

/// What one kernel keeps of each end, without the messages of sends that wait: of these it has what proofs see.
#[derive(Drop)]
pub(crate) struct Places {
    kernel: u8,
    slots: IndexMap<EndId, Slot>,
}

impl Model for Places {
    ghost use Rattle.std.specs.Prelude.{◌<◌};
    ghost use Rattle.end_table.specs.Table.{TableView, IsWellKept};

    ghost Value = { TableView };

    ghost view = { λ t. record { kernel = t.kernel; places = t.slots.entries } };

    ghost invariant = { λ t. IsWellKept (record { kernel = t.kernel; places = t.slots.entries }) };
}

impl Places {
    /// The places of a kernel without any entry.
    pub(crate) fn start(alloc: Global, kernel: u8) -> Places
        requires { kernel < 8 }
        ensures kernel { result.kernel ≡ kernel }
        ensures empty { entries result ≡ λ _. Nothing }
        ensures none { result.places ≡ [] }
    {
        Places {
            kernel,
            slots: IndexMap::new(alloc),
        }
    }

    /// The number of the kernel.
    pub(crate) fn kernel(&self) -> u8
        ensures kernel { result ≡ self.now.kernel }
        ensures below { result < 8 }
    {
        self.kernel
    }

    /// How many places there are.
    pub(crate) fn len(&self) -> usize
        ensures len { result ≡ length self.now.places }
        ensures small { result < 2 ^ 63 }
    {
        self.slots.len()
    }

    /// Gives an end without a place one with nothing in it.
    #[inline(never)]
    pub(crate) fn open(&mut self, end: EndId) -> Result<(), NoMemory>
        ensures ok { OnOk result (Puts self.old self.new end Nothing) }
        ensures same { OnErr result (self.new ≡ self.old) }
        ensures count { length self.new.places ≤ length self.old.places + 1 }
    {
        self.begin()?;
        self.add(end)
    }

    /// Makes room for the first places, where there is none at all.
    fn begin(&mut self) -> Result<(), NoMemory>
        ensures { self.new ≡ self.old }
    {
        if self.slots.capacity() == 0 {
            self.slots.reserve(FEW)?;
        }
        Ok(())
    }

    fn add(&mut self, end: EndId) -> Result<(), NoMemory>
        ensures ok { OnOk result (Puts self.old self.new end Nothing) }
        ensures same { OnErr result (self.new ≡ self.old) }
        ensures count { length self.new.places ≤ length self.old.places + 1 }
    {
        match self.slots.insert(end, Slot::nothing()) {
            Ok(_) => Ok(()),
            Err(_) => Err(NoMemory),
        }
    }

    /// Makes the end of a value Here, at the place that it has. The old entry is overwritten.
    pub(crate) fn settle(&mut self, end: EndId, moving: Moving, holder: Holder)
        requires place { HasPlace self.old end }
        requires own { moving.end ≡ end }
        ensures put { Puts self.old self.new end (Here (settled holder moving)) }
        ensures count { HasNoMorePlaces self.old self.new }
    {
        match self.slots.get_mut(&end) {
            Some(place) => *place = Slot::here(Living::settled(moving, holder)),
            None => unreachable!(),
        }
    }

    /// Takes the place of an end away. The last place comes into its stead, so no others move.
    pub(crate) fn remove(&mut self, end: EndId)
        ensures cleared { Clears self.old self.new end }
        ensures count { HasNoMorePlaces self.old self.new }
        ensures fewer { HasPlace self.old end → length self.new.places < length self.old.places }
    {
        self.slots.swap_remove(&end);
    }

    /// What the kernel keeps of an end, lent.
    #[inline(always)]
    pub(crate) fn lend(&self, end: EndId) -> Lent<'_>
        ensures entry { lent_entry result ≡ entries self.now end }
        ensures own { IsOfEnd end (lent_entry result) }
        ensures placed { (lent_entry result ≡ Nothing → ⊥) → HasPlace self.now end }
    {
        match self.slots.get(&end) {
            Some(slot) => slot.lend(),
            None => Lent::Nothing,
        }
    }

    /// Whether an end has a place.
    pub(crate) fn has_place(&self, end: EndId) -> bool
        ensures { IsTrue result ↔ HasPlace self.now end }
    {
        self.slots.contains_key(&end)
    }

    /// Takes out the value of an end that leaves to another kernel. It gains a hop and has this kernel in its trail.
    /// The entry becomes Left with these hops, or Nothing where the end is dead.
    pub(crate) fn take_out(&mut self, end: EndId, to: u8) -> Moving
        requires { IsHereAnd (entries self.old end) IsIdle }
        ensures own { IsOfEnd end (entries self.old end) }
        ensures value { IfHere (entries self.old end) (λ v. result ≡ left_value self.old.kernel v.value) }
        ensures left { IfHere (entries self.old end) (λ v. Puts self.old self.new end (left_entry to v.value)) }
        ensures count { HasNoMorePlaces self.old self.new }
    {
        let kernel = self.kernel();
        match self.slots.get_mut(&end) {
            Some(slot) => slot.leave(to, kernel),
            None => unreachable!(),
        }
    }

    /// Destroys an end that is here. The entry becomes Destroyed with its mark, or Nothing where the end is dead.
    pub(crate) fn end_here(&mut self, end: EndId) -> Mark
        requires { IsHere (entries self.old end) }
        ensures own { IsOfEnd end (entries self.old end) }
        ensures mark { IfHere (entries self.old end) (λ v. result ≡ v.value) }
        ensures ended { IfHere (entries self.old end) (λ v. Puts self.old self.new end (ended_entry v.value)) }
        ensures count { HasNoMorePlaces self.old self.new }
    {
        match self.slots.get_mut(&end) {
            Some(slot) => slot.end(),
            None => unreachable!(),
        }
    }

    /// Sets the hint of the mark of a destroyed end.
    pub(crate) fn hint_mark(&mut self, end: EndId, hint: (u8, u32))
        requires { IsDestroyed (entries self.old end) }
        ensures own { IsOfEnd end (entries self.old end) }
        ensures hinted { IfDestroyed (entries self.old end) (λ m. Puts self.old self.new end (Destroyed (record m { hint = hint }))) }
        ensures count { HasNoMorePlaces self.old self.new }
    {
        match self.slots.get_mut(&end) {
            Some(slot) => slot.set_hint(hint),
            None => unreachable!(),
        }
    }

    /// Whether an end has no entry.
    pub(crate) fn has_nothing(&self, end: EndId) -> bool
        ensures { IsTrue result ↔ (entries self.now end ≡ Nothing) }
    {
        match self.slots.get(&end) {
            Some(slot) => slot.is_nothing(),
            None => true,
        }
    }

    /// Whether an end has left, with at most these hops.
    pub(crate) fn has_left_up_to(&self, end: EndId, upto: u32) -> bool
        ensures { IsTrue result ↔ HasLeftUpTo upto (entries self.now end) }
    {
        match self.slots.get(&end) {
            Some(slot) => slot.is_left_up_to(upto),
            None => false,
        }
    }

    /// Sets the fields and the receive of an end that is here, and leaves its holder and its send.
    #[inline(always)]
    pub(crate) fn set_inward(&mut self, end: EndId, value: MovingPicture, inward: Inward)
        requires here { IsHere (entries self.old end) }
        requires same_end { value.end ≡ end }
        ensures set { IfHere (entries self.old end) (λ v. Puts self.old self.new end (Here (record v { value = value; inward = inward }))) }
        ensures count { HasNoMorePlaces self.old self.new }
    {
        match self.slots.get_mut(&end) {
            Some(slot) => slot.set_inward(value, inward),
            None => unreachable!(),
        }
    }

    /// Sets the fields and the send of an end that is here, and leaves its holder and its receive. It answers what the
    /// send was.
    #[inline(always)]
    pub(crate) fn set_outward(
        &mut self,
        end: EndId,
        value: MovingPicture,
        outward: Sending,
    ) -> Sending
        requires here { IsHere (entries self.old end) }
        requires same_end { value.end ≡ end }
        ensures was { IfHere (entries self.old end) (λ v. outward_of result ≡ v.outward) }
        ensures set { IfHere (entries self.old end) (λ v. Puts self.old self.new end (Here (record v { value = value; outward = outward_of outward }))) }
        ensures count { HasNoMorePlaces self.old self.new }
    {
        match self.slots.get_mut(&end) {
            Some(slot) => slot.set_outward(value, outward),
            None => unreachable!(),
        }
    }

    /// Sets the holder of an end that is here.
    pub(crate) fn set_holder(&mut self, end: EndId, holder: Holder)
        requires { IsHere (entries self.old end) }
        ensures own { IsOfEnd end (entries self.old end) }
        ensures set { IfHere (entries self.old end) (λ v. Puts self.old self.new end (Here (record v { holder = holder }))) }
        ensures count { HasNoMorePlaces self.old self.new }
    {
        match self.slots.get_mut(&end) {
            Some(slot) => slot.set_holder(holder),
            None => unreachable!(),
        }
    }

    /// Lets an end that is here hear that the opposite end is at a kernel with these hops, and answers whether that was news:
    /// the hint changes where the hops are more than those of the hint.
    pub(crate) fn hint(&mut self, end: EndId, kernel: u8, hops: u32) -> bool
        requires { IsHere (entries self.old end) }
        ensures own { IsOfEnd end (entries self.old end) }
        ensures news { IfHere (entries self.old end) (λ v. result ≡ is_news v.value hops) }
        ensures learned { IfHere (entries self.old end) (λ v. Puts self.old self.new end (Here (record v { value = learned kernel hops v.value }))) }
        ensures count { HasNoMorePlaces self.old self.new }
    {
        match self.slots.get_mut(&end) {
            Some(slot) => slot.learn(kernel, hops),
            None => unreachable!(),
        }
    }

    /// No end has two places. This only says so.
    #[tactic(auto, unfolding(crate::specs::Place::end_eq))]
    pub(crate) fn has_distinct_places(&self)
        ensures { IsDistinct end_eq (keys_of self.now.places) }
    {
        let _ = self.slots.len();
    }

    /// The ends that a process owns, in the order of their places.
    #[tactic(auto, unfolding(crate::specs::Place::end_eq))]
    pub(crate) fn owned_anyhow(&self, p: Pid) -> Result<Vec<EndId>, AllocError>
        ensures ends { IfOk result (λ ends. ends.items ≡ owned_ends p self.now.places) }
        ensures distinct { IsDistinct end_eq (keys_of self.now.places) }
    {
        self.slots
            .iter()
            .filter(|(_, slot)| slot.is_owned_by(p))
            .map(|(end, _)| *end)
            .collect(*self.slots.allocator())
    }
}
