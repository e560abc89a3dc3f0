ghost use Rattle.std.specs.Prelude.{◌≡◌};
ghost use Rattle.end_table.specs.Entries.{settled, learned, is_news};
ghost use Rattle.end_table.specs.Message.{outward_of};
ghost use Rattle.end_table.specs.Owned.{is_owner};

use crate::held::Held;
use crate::{Holder, Inward, Sending};
use charlotte_calls::Pid;
use charlotte_packets::{Moving, MovingPicture};
use std::marker::Model;
use std::mem;

/// An end that is here, with its value, as a table lends it. Contracts see it as plain data.
pub struct Living {
    moving: Moving,
    outward: Sending,
    held: Held,
}

impl Model for Living {
    ghost use Rattle.end_table.specs.declared.entry.HereView.{HereView};
    ghost use Rattle.end_table.specs.Message.{outward_of};

    ghost Value = { HereView };

    ghost view = { λ l. record { value = l.moving; holder = l.held.holder; outward = outward_of l.outward; inward = l.held.inward } };
}

impl Living {
    /// An end that becomes Here.
    #[inline(always)]
    pub(crate) fn settled(moving: Moving, holder: Holder) -> Living
        ensures { result ≡ settled holder moving }
    {
        Living {
            moving,
            outward: Sending::Idle,
            held: Held::idle(holder),
        }
    }

    /// The fields of the end's value.
    pub fn value(&self) -> MovingPicture
        ensures { result ≡ self.now.value }
    {
        self.moving.picture()
    }

    /// Who holds the end.
    pub fn holder(&self) -> Holder
        ensures { result ≡ self.now.holder }
    {
        self.held.holder()
    }

    /// The send.
    pub fn outward(&self) -> &Sending
        ensures { outward_of result.now ≡ self.now.outward }
    {
        &self.outward
    }

    /// The receive.
    pub fn inward(&self) -> Inward
        ensures { result ≡ self.now.inward }
    {
        self.held.inward()
    }

    pub(crate) fn is_owned_by(&self, p: Pid) -> bool
        ensures { result ≡ is_owner p self.now.holder }
    {
        match self.held.holder() {
            Holder::Owner(owner) => p.0 == owner.0,
            Holder::EnclosedIn(_) => false,
        }
    }

    /// Sets value and receive.
    #[inline(always)]
    pub(crate) fn set_inward(&mut self, value: MovingPicture, inward: Inward)
        requires { value.end ≡ self.old.value.end }
        ensures { self.new ≡ record self.old { value = value; inward = inward } }
    {
        set_fields(&mut self.moving, value);
        self.held.set_inward(inward);
    }

    /// Sets value and send, and answers what the send was.
    #[inline(always)]
    pub(crate) fn set_outward(&mut self, value: MovingPicture, outward: Sending) -> Sending
        requires { value.end ≡ self.old.value.end }
        ensures was { outward_of result ≡ self.old.outward }
        ensures set { self.new ≡ record self.old { value = value; outward = outward_of outward } }
    {
        set_fields(&mut self.moving, value);
        mem::replace(&mut self.outward, outward)
    }

    /// Sets the holder.
    #[inline(always)]
    pub(crate) fn set_holder(&mut self, holder: Holder)
        ensures { self.new ≡ record self.old { holder = holder } }
    {
        self.held.set_holder(holder);
    }

    pub(crate) fn learn(&mut self, kernel: u8, hops: u32) -> bool
        ensures news { result ≡ is_news self.old.value hops }
        ensures same { self.new ≡ record self.old { value = learned kernel hops self.old.value } }
    {
        let (_, known) = self.moving.hint();
        if known < hops {
            self.moving.set_hint((kernel, hops));
            return true;
        }
        false
    }

    #[inline(always)]
    pub(crate) fn into_moving(self) -> Moving
        ensures { result ≡ self.value }
    {
        let Living {
            moving,
            outward: _,
            held: _,
        } = self;
        moving
    }
}

/// Gives the value these fields, all but the end.
fn set_fields(moving: &mut Moving, fields: MovingPicture)
    requires { fields.end ≡ moving.old.end }
    ensures { moving.new ≡ fields }
{
    moving.set_hops(fields.hops);
    moving.set_hint(fields.hint);
    moving.set_sent(fields.sent);
    moving.set_asked(fields.asked);
    moving.set_served(fields.served);
    moving.set_want(fields.want);
    moving.set_dead(fields.dead);
    moving.set_trail(fields.trail);
}
