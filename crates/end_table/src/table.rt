ghost use Rattle.std.specs.Prelude.{None, ◌≡◌, ◌<◌, false, List, OnOk, OnErr, IfOk, IfErr, IsOk, IfSome, IsTrue, ◌↔◌, option_copied};
ghost use Rattle.std.specs.Bool.{OnTrue, OnFalse};
ghost use Rattle.charlotte_calls.specs.declared.names.EndId.{EndId};
ghost use Rattle.end_table.specs.Place.{end_eq};
ghost use Rattle.end_table.specs.Message.{outward_of, message_of};
ghost use Rattle.end_table.specs.Entries.{left_value, left_entry, ended_entry, learned, is_news, settled};
ghost use Rattle.end_table.specs.Table.{entries, HasPlace, Puts, IsHere, IsHereAnd, IfHere, IsIdle, IsDestroyed, IfDestroyed, HasLeftUpTo, IsOfEnd, KeepsPlaces, Clears};
ghost use Rattle.end_table.specs.Owned.{AreEndsOf, owned};
ghost use Rattle.end_table.specs.Lent.{lent_entry};
ghost use Rattle.end_table.specs.declared.entry.Entry.TheVariants.{Nothing, Here, Left, Destroyed};
ghost use Rattle.end_table.specs.declared.entry.Outward.TheVariants.{Waiting};

use crate::message::{Message, MessageSeen};
use crate::messages::Messages;
use crate::places::Places;
use crate::{Entry, HereView, Holder, Inward, Lent, Living, Outward, Sending};
use charlotte_calls::{Bytes, EndId, Ends, NoMemory, Pid};
use charlotte_packets::{Mark, Moving, MovingPicture};
use std::alloc::Global;
use std::marker::Model;

/// What one kernel keeps of each end. Contracts see the number of the kernel and the entry at each place.
///
/// An end has one entry. A look-up costs one hash; nothing but `owned_by` goes over the table. Messages of sends that wait
/// are kept beside the places: most ends have none, and a place is small and moved at little cost.
#[derive(Drop)]
pub struct Table {
    places: Places,
    messages: Messages,
}

impl Model for Table {
    ghost use Rattle.end_table.specs.Table.{TableView};
    ghost use Rattle.end_table.specs.Message.{HoldsMessages};

    ghost Value = { TableView };

    ghost view = { λ t. t.places };

    ghost invariant = { λ t. HoldsMessages t.places t.messages };
}

/// The value that a table could not store for want of memory.
#[derive(Debug)]
pub struct NotStored {
    pub moving: Moving,
}

impl Table {
    /// The table of a kernel without any entry.
    pub fn start(alloc: Global, kernel: u8) -> Table
        requires { kernel < 8 }
        ensures kernel { result.kernel ≡ kernel }
        ensures empty { entries result ≡ λ _. Nothing }
    {
        Table {
            places: Places::start(alloc, kernel),
            messages: Messages::new(alloc),
        }
    }

    /// The number of the kernel.
    pub fn kernel(&self) -> u8
        ensures kernel { result ≡ self.now.kernel }
        ensures below { result < 8 }
    {
        self.places.kernel()
    }

    /// What the kernel keeps of an end. `Nothing` comes exactly where there is no entry.
    pub fn look(&self, end: EndId) -> Entry
        ensures entry { result ≡ entries self.now end }
        ensures own { IsOfEnd end result }
        ensures placed { (result ≡ Nothing → ⊥) → HasPlace self.now end }
    {
        match self.places.lend(end) {
            Lent::Nothing => Entry::Nothing,
            Lent::Here(_) => Entry::Here(self.view(end)),
            Lent::Left { to, hops } => Entry::Left { to, hops },
            Lent::Destroyed(mark) => Entry::Destroyed(mark),
        }
    }

    /// What the kernel keeps of an end, lent: nothing is copied of an end that is here.
    #[inline(always)]
    pub fn lend(&self, end: EndId) -> Lent<'_>
        ensures entry { lent_entry result ≡ entries self.now end }
        ensures own { IsOfEnd end (lent_entry result) }
    {
        self.places.lend(end)
    }

    /// An end that is here, lent.
    #[inline(always)]
    pub fn here(&self, end: EndId) -> &Living
        requires { IsHere (entries self.now end) }
        ensures view { entries self.now end ≡ Here result.now }
        ensures own { result.now.value.end ≡ end }
    {
        match self.lend(end) {
            Lent::Here(living) => living,
            _ => unreachable!(),
        }
    }

    /// An end that a process owns, lent.
    #[inline(always)]
    pub fn owned(&self, p: Pid, end: EndId) -> Option<&Living>
        ensures owned { option_copied result ≡ owned p (entries self.now end) }
        ensures here { IfSome result (λ l. entries self.now end ≡ Here l.now) }
    {
        match self.lend(end) {
            Lent::Here(living) if living.is_owned_by(p) => Some(living),
            _ => None,
        }
    }

    /// An end that is here, as plain data.
    pub fn view(&self, end: EndId) -> HereView
        requires { IsHere (entries self.now end) }
        ensures view { entries self.now end ≡ Here result }
        ensures own { result.value.end ≡ end }
    {
        let living = self.here(end);
        HereView {
            value: living.value(),
            holder: living.holder(),
            outward: self.outward(end),
            inward: living.inward(),
        }
    }

    /// The send of an end that is here, with its message.
    pub fn outward(&self, end: EndId) -> Outward
        requires { IsHere (entries self.now end) }
        ensures { IfHere (entries self.now end) (λ v. result ≡ v.outward) }
    {
        match self.here(end).outward() {
            Sending::Idle => Outward::Idle,
            Sending::Waiting { n, .. } => self.messages.waiting(end, *n),
            Sending::Matched { n } => Outward::Matched { n: *n },
            Sending::Unreported => Outward::Unreported,
        }
    }

    /// Gives an end a place, so that an `install` there takes no memory.
    pub fn reserve(&mut self, end: EndId) -> Result<(), NoMemory>
        ensures place { OnOk result (HasPlace self.new end) }
        ensures entries { entries self.new ≡ entries self.old }
        ensures places { KeepsPlaces self.old self.new }
        ensures kernel { self.new.kernel ≡ self.old.kernel }
        ensures err { OnErr result (self.new ≡ self.old) }
        ensures succeeds { HasPlace self.old end → IsOk result }
    {
        if self.places.has_place(end) {
            return Ok(());
        }
        self.messages.reserve(self.places.len() + 1)?;
        match self.places.open(end) {
            Ok(()) => Ok(()),
            Err(_) => Err(NoMemory),
        }
    }

    /// Makes the end of a value Here: with that value and holder, and both activities idle. The old entry is overwritten.
    /// At an end with a place it takes no memory; the value comes back for want of memory alone.
    pub fn install(&mut self, moving: Moving, holder: Holder) -> Result<(), NotStored>
        requires { IsHere (entries self.old moving.end) → ⊥ }
        ensures ok { OnOk result (Puts self.old self.new moving.end (Here (settled holder moving))) }
        ensures same { OnErr result (self.new ≡ self.old) }
        ensures back { IfErr result (λ n. n.moving ≡ moving) }
        ensures succeeds { HasPlace self.old moving.end → IsOk result }
    {
        let end = moving.end();
        match self.reserve(end) {
            Ok(()) => {
                self.places.settle(end, moving, holder);
                Ok(())
            }
            Err(NoMemory) => Err(NotStored { moving }),
        }
    }

    /// Takes out the value of an end that leaves to another kernel. It gains a hop and has this kernel in its trail.
    /// The entry becomes Left with these hops, or Nothing where the end is dead.
    pub fn take_out(&mut self, end: EndId, to: u8) -> Moving
        requires { IsHereAnd (entries self.old end) IsIdle }
        ensures own { IsOfEnd end (entries self.old end) }
        ensures value { IfHere (entries self.old end) (λ v. result ≡ left_value self.old.kernel v.value) }
        ensures left { IfHere (entries self.old end) (λ v. Puts self.old self.new end (left_entry to v.value)) }
    {
        self.places.take_out(end, to)
    }

    /// Destroys an end that is here. The entry becomes Destroyed with its mark, or Nothing where the end is dead.
    pub fn end_here(&mut self, end: EndId) -> Mark
        requires { IsHere (entries self.old end) }
        ensures own { IsOfEnd end (entries self.old end) }
        ensures mark { IfHere (entries self.old end) (λ v. result ≡ v.value) }
        ensures ended { IfHere (entries self.old end) (λ v. Puts self.old self.new end (ended_entry v.value)) }
    {
        self.places.end_here(end)
    }

    /// Sets the hint of the mark of a destroyed end.
    pub fn hint_mark(&mut self, end: EndId, hint: (u8, u32))
        requires { IsDestroyed (entries self.old end) }
        ensures own { IsOfEnd end (entries self.old end) }
        ensures hinted { IfDestroyed (entries self.old end) (λ m. Puts self.old self.new end (Destroyed (record m { hint = hint }))) }
    {
        self.places.hint_mark(end, hint)
    }

    /// Takes the place of an end away, and what is kept of its messages.
    fn remove(&mut self, end: EndId)
        ensures { Clears self.old self.new end }
    {
        self.messages.forget(end);
        self.places.remove(end);
    }

    /// Makes the entry of a destroyed end Nothing.
    pub fn erase(&mut self, end: EndId)
        requires { IsDestroyed (entries self.old end) }
        ensures { Clears self.old self.new end }
    {
        self.remove(end);
    }

    /// Gives back the place of an end that has no entry.
    pub fn release(&mut self, end: EndId)
        ensures released { entries self.old end ≡ Nothing → HasPlace self.new end → ⊥ }
        ensures entries { entries self.new ≡ entries self.old }
        ensures places { (q : EndId) → end_eq end q ≡ false → HasPlace self.old q → HasPlace self.new q }
        ensures kernel { self.new.kernel ≡ self.old.kernel }
    {
        if self.places.has_nothing(end) {
            self.remove(end);
        }
    }

    /// Removes a Left entry whose hops are at most `upto`, and answers whether there was one.
    pub fn retire(&mut self, end: EndId, upto: u32) -> bool
        ensures found { IsTrue result ↔ HasLeftUpTo upto (entries self.old end) }
        ensures retired { OnTrue result (Clears self.old self.new end) }
        ensures kept { OnFalse result (self.new ≡ self.old) }
    {
        if self.places.has_left_up_to(end, upto) {
            self.remove(end);
            return true;
        }
        false
    }

    /// Makes an end that is here exactly this view, which is of that end.
    pub fn change(&mut self, end: EndId, view: HereView)
        requires here { IsHere (entries self.old end) }
        requires same_end { view.value.end ≡ end }
        ensures { Puts self.old self.new end (Here view) }
    {
        let HereView {
            value,
            holder,
            outward,
            inward,
        } = view;
        self.set_outward(end, value, outward);
        self.set_inward(end, value, inward);
        self.set_holder(end, holder);
    }

    /// Sets the fields and the receive of an end that is here, and leaves its holder and its send.
    #[inline(always)]
    pub fn set_inward(&mut self, end: EndId, value: MovingPicture, inward: Inward)
        requires here { IsHere (entries self.old end) }
        requires same_end { value.end ≡ end }
        ensures { IfHere (entries self.old end) (λ v. Puts self.old self.new end (Here (record v { value = value; inward = inward }))) }
    {
        self.places.set_inward(end, value, inward)
    }

    /// Sets the fields and the send of an end that is here, and leaves its holder and its receive.
    fn set_outward(&mut self, end: EndId, value: MovingPicture, outward: Outward)
        requires here { IsHere (entries self.old end) }
        requires same_end { value.end ≡ end }
        ensures { IfHere (entries self.old end) (λ v. Puts self.old self.new end (Here (record v { value = value; outward = outward }))) }
    {
        match outward {
            Outward::Idle => self.set_sending(end, value, Sending::Idle),
            Outward::Waiting { n, bytes, enclosed } => self.wait(end, value, n, bytes, enclosed),
            Outward::Matched { n } => self.set_sending(end, value, Sending::Matched { n }),
            Outward::Unreported => self.set_sending(end, value, Sending::Unreported),
        }
    }

    /// Sets the fields and the send of an end that is here, where no message waits afterwards.
    #[inline(always)]
    pub fn set_sending(&mut self, end: EndId, value: MovingPicture, sending: Sending)
        requires here { IsHere (entries self.old end) }
        requires same_end { value.end ≡ end }
        requires no_message { message_of (outward_of sending) ≡ None }
        ensures { IfHere (entries self.old end) (λ v. Puts self.old self.new end (Here (record v { value = value; outward = outward_of sending }))) }
    {
        self.places.set_outward(end, value, sending);
    }

    /// Sets the fields and the send of an end that is here: the send n waits with this message.
    pub fn wait(&mut self, end: EndId, value: MovingPicture, n: u32, bytes: Bytes, enclosed: Ends)
        requires here { IsHere (entries self.old end) }
        requires same_end { value.end ≡ end }
        ensures { IfHere (entries self.old end) (λ v. Puts self.old self.new end (Here (record v { value = value; outward = Waiting n bytes enclosed }))) }
    {
        let message = Message { bytes, enclosed };
        let waiting = Sending::Waiting {
            n,
            message: MessageSeen::of(&message),
        };
        self.places.set_outward(end, value, waiting);
        self.messages.put(end, message);
    }

    /// Sets the holder of an end that is here.
    pub fn set_holder(&mut self, end: EndId, holder: Holder)
        requires { IsHere (entries self.old end) }
        ensures own { IsOfEnd end (entries self.old end) }
        ensures set { IfHere (entries self.old end) (λ v. Puts self.old self.new end (Here (record v { holder = holder }))) }
    {
        self.places.set_holder(end, holder)
    }

    /// Lets an end that is here hear that the opposite end is at a kernel with these hops, and answers whether that was news:
    /// the hint changes where the hops are more than those of the hint.
    pub fn hint(&mut self, end: EndId, kernel: u8, hops: u32) -> bool
        requires { IsHere (entries self.old end) }
        ensures own { IsOfEnd end (entries self.old end) }
        ensures news { IfHere (entries self.old end) (λ v. result ≡ is_news v.value hops) }
        ensures learned { IfHere (entries self.old end) (λ v. Puts self.old self.new end (Here (record v { value = learned kernel hops v.value }))) }
    {
        self.places.hint(end, kernel, hops)
    }

    /// The ends that a process owns, each once, in order of maker, count and side.
    pub fn owned_by(&self, p: Pid) -> Result<Vec<EndId>, NoMemory>
        ensures { IfOk result (λ ends. AreEndsOf p (entries self.now) ends.items) }
    {
        let mut ends = self.places.owned_anyhow(p)?;
        ends.sort_unstable();
        Ok(ends)
    }

    /// The ends that a process owns can be listed. This only says so, and makes no list.
    pub fn has_list_of(&self, p: Pid)
        ensures { (mine : List EndId) × AreEndsOf p (entries self.now) mine }
    {
        self.places.has_distinct_places();
    }
}
