ghost use Rattle.std.specs.Prelude.{◌≡◌, is_some, ◌<◌, ◌↔◌, IsTrue};
ghost use Rattle.end_table.specs.Entries.{gains_one, left_value, left_entry, ended_entry, learned, is_news};
ghost use Rattle.end_table.specs.Lent.{lent_entry};
ghost use Rattle.end_table.specs.Table.{IsHere, IfHere, IsDestroyed, IfDestroyed, HasLeftUpTo};
ghost use Rattle.end_table.specs.Message.{outward_of};
ghost use Rattle.end_table.specs.Owned.{owned};
ghost use Rattle.end_table.specs.declared.entry.Entry.TheVariants.{Nothing, Here, Left, Destroyed};

use crate::living::Living;
use crate::{Holder, Inward, Lent, Sending};
use charlotte_calls::Pid;
use charlotte_packets::{Mark, Moving, MovingPicture};
use std::marker::Model;
use std::mem;

/// One more, but for the greatest number, which stays.
fn gains_one(number: u32) -> u32
    ensures { result ≡ gains_one number }
{
    number.saturating_add(1)
}

/// What happens to the value of an end that leaves this kernel.
fn leave(moving: &mut Moving, kernel: u8)
    requires { kernel < 8 }
    ensures { moving.new ≡ left_value kernel moving.old }
{
    moving.set_hops(gains_one(moving.hops()));
    moving.set_trail(moving.trail() | 1 << kernel);
}

/// What stands in a slot.
enum Content {
    /// Nothing yet: the place is reserved.
    Nothing,
    Here(Living),
    Left { to: u8, hops: u32 },
    Destroyed(Mark),
}

impl Content {
    fn spend(self) {
        match self {
            Content::Here(living) => {
                living.into_moving().destroy();
            }
            Content::Nothing | Content::Left { to: _, hops: _ } | Content::Destroyed(_) => {}
        }
    }
}

/// The place of one end. Contracts see it as its entry. A slot that is let go spends the value in it.
pub(crate) struct Slot {
    content: Content,
}

impl Model for Slot {
    ghost use Rattle.end_table.specs.declared.entry.Entry.{Entry};

    ghost Value = { Entry };

    ghost use Rattle.end_table.specs.Slot.{entry_of};

    ghost view = { λ s. entry_of s.content };
}

impl Drop for Slot {
    fn drop(self) {
        let Slot { content } = self;
        content.spend();
    }
}

impl Slot {
    pub(crate) fn nothing() -> Slot
        ensures { result ≡ Nothing }
    {
        Slot {
            content: Content::Nothing,
        }
    }

    #[inline(always)]
    pub(crate) fn here(living: Living) -> Slot
        ensures { result ≡ Here living }
    {
        Slot {
            content: Content::Here(living),
        }
    }

    /// What an end with this value leaves behind when it goes to a kernel.
    fn left(to: u8, moving: &Moving) -> Slot
        ensures { result ≡ left_entry to moving.now }
    {
        if moving.dead() {
            return Slot::nothing();
        }
        Slot {
            content: Content::Left {
                to,
                hops: gains_one(moving.hops()),
            },
        }
    }

    /// What an end with this mark leaves behind when it is destroyed.
    fn ended(mark: Mark) -> Slot
        ensures { result ≡ ended_entry mark }
    {
        if mark.dead() {
            return Slot::nothing();
        }
        Slot {
            content: Content::Destroyed(mark),
        }
    }

    pub(crate) fn lend(&self) -> Lent<'_>
        ensures { lent_entry result ≡ self.now }
    {
        match &self.content {
            Content::Nothing => Lent::Nothing,
            Content::Here(living) => Lent::Here(living),
            Content::Left { to, hops } => Lent::Left {
                to: *to,
                hops: *hops,
            },
            Content::Destroyed(mark) => Lent::Destroyed(*mark),
        }
    }

    /// Takes out the end that is here, and leaves nothing.
    #[inline(always)]
    fn take(&mut self) -> Living
        requires { IsHere self.old }
        ensures living { self.old ≡ Here result }
        ensures nothing { self.new ≡ Nothing }
    {
        match mem::replace(&mut self.content, Content::Nothing) {
            Content::Here(living) => living,
            Content::Nothing | Content::Left { to: _, hops: _ } | Content::Destroyed(_) =>
                unreachable!(),
        }
    }

    /// Takes out the value of an end that leaves this kernel, and leaves what it leaves behind.
    #[inline(always)]
    pub(crate) fn leave(&mut self, to: u8, kernel: u8) -> Moving
        requires here { IsHere self.old }
        requires kernel { kernel < 8 }
        ensures value { IfHere self.old (λ v. result ≡ left_value kernel v.value) }
        ensures left { IfHere self.old (λ v. self.new ≡ left_entry to v.value) }
    {
        let mut moving = self.take().into_moving();
        *self = Slot::left(to, &moving);
        leave(&mut moving, kernel);
        moving
    }

    /// Destroys the end that is here, and leaves what it leaves behind. It answers the mark of the end.
    pub(crate) fn end(&mut self) -> Mark
        requires { IsHere self.old }
        ensures mark { IfHere self.old (λ v. result ≡ v.value) }
        ensures ended { IfHere self.old (λ v. self.new ≡ ended_entry v.value) }
    {
        let mark = self.take().into_moving().destroy();
        *self = Slot::ended(mark);
        mark
    }

    /// Sets value and receive of the end that is here.
    #[inline(always)]
    pub(crate) fn set_inward(&mut self, value: MovingPicture, inward: Inward)
        requires here { IsHere self.old }
        requires same_end { IfHere self.old (λ v. value.end ≡ v.value.end) }
        ensures { IfHere self.old (λ v. self.new ≡ Here (record v { value = value; inward = inward })) }
    {
        match &mut self.content {
            Content::Here(living) => living.set_inward(value, inward),
            _ => unreachable!(),
        }
    }

    /// Sets value and send of the end that is here, and answers what the send was.
    #[inline(always)]
    pub(crate) fn set_outward(&mut self, value: MovingPicture, outward: Sending) -> Sending
        requires here { IsHere self.old }
        requires same_end { IfHere self.old (λ v. value.end ≡ v.value.end) }
        ensures was { IfHere self.old (λ v. outward_of result ≡ v.outward) }
        ensures set { IfHere self.old (λ v. self.new ≡ Here (record v { value = value; outward = outward_of outward })) }
    {
        match &mut self.content {
            Content::Here(living) => living.set_outward(value, outward),
            _ => unreachable!(),
        }
    }

    /// Sets the holder of the end that is here.
    #[inline(always)]
    pub(crate) fn set_holder(&mut self, holder: Holder)
        requires { IsHere self.old }
        ensures { IfHere self.old (λ v. self.new ≡ Here (record v { holder = holder })) }
    {
        match &mut self.content {
            Content::Here(living) => living.set_holder(holder),
            _ => unreachable!(),
        }
    }

    /// Lets the end that is here hear of the opposite end, and answers whether that was news.
    pub(crate) fn learn(&mut self, kernel: u8, hops: u32) -> bool
        requires { IsHere self.old }
        ensures news { IfHere self.old (λ v. result ≡ is_news v.value hops) }
        ensures learned { IfHere self.old (λ v. self.new ≡ Here (record v { value = learned kernel hops v.value })) }
    {
        match &mut self.content {
            Content::Here(living) => living.learn(kernel, hops),
            _ => unreachable!(),
        }
    }

    /// Sets the hint of a mark.
    pub(crate) fn set_hint(&mut self, hint: (u8, u32))
        requires { IsDestroyed self.old }
        ensures { IfDestroyed self.old (λ m. self.new ≡ Destroyed (record m { hint = hint })) }
    {
        match &mut self.content {
            Content::Destroyed(mark) => mark.set_hint(hint),
            _ => unreachable!(),
        }
    }

    pub(crate) fn is_owned_by(&self, p: Pid) -> bool
        ensures { result ≡ is_some (owned p self.now) }
    {
        match &self.content {
            Content::Here(living) => living.is_owned_by(p),
            _ => false,
        }
    }

    pub(crate) fn is_nothing(&self) -> bool
        ensures { IsTrue result ↔ (self.now ≡ Nothing) }
    {
        match &self.content {
            Content::Nothing => true,
            _ => false,
        }
    }

    pub(crate) fn is_left_up_to(&self, upto: u32) -> bool
        ensures { IsTrue result ↔ HasLeftUpTo upto self.now }
    {
        match &self.content {
            Content::Left { hops, .. } => *hops <= upto,
            _ => false,
        }
    }

    /// The value of the end that is here.
    pub(crate) fn into_moving(mut self) -> Moving
        requires { IsHere self }
        ensures { IfHere self (λ v. result ≡ v.value) }
    {
        self.take().into_moving()
    }
}
