ghost use Rattle.std.specs.Prelude.{◌≡◌};

use crate::MovingPicture;
use charlotte_calls::EndId;
use std::marker::Model;

/// What is left of a destroyed end: the fields that its value had. It is plain data.
#[derive(Clone, Copy, Debug, PartialEq, Eq, Hash)]
pub struct Mark {
    fields: MovingPicture,
}

impl Model for Mark {
    ghost use Rattle.charlotte_packets.specs.declared.picture.MovingPicture.{MovingPicture};

    ghost Value = { MovingPicture };

    ghost view = { λ m. m.fields };

    ghost inverse = { λ p. record { fields = p } };
}

impl Mark {
    pub(crate) fn of(fields: MovingPicture) -> Mark
        ensures { result ≡ fields }
    {
        Mark { fields }
    }

    /// All fields, as plain data.
    pub fn picture(&self) -> MovingPicture
        ensures { result ≡ self.now }
    {
        self.fields
    }

    /// The end that was destroyed.
    pub fn end(&self) -> EndId
        ensures { result ≡ self.now.end }
    {
        self.fields.end
    }

    /// How many times the end has left a kernel.
    pub fn hops(&self) -> u32
        ensures { result ≡ self.now.hops }
    {
        self.fields.hops
    }

    /// Kernel and hop count of the opposite end, as last heard.
    pub fn hint(&self) -> (u8, u32)
        ensures { result ≡ self.now.hint }
    {
        self.fields.hint
    }

    /// Sets kernel and hop count of the opposite end.
    pub fn set_hint(&mut self, hint: (u8, u32))
        ensures { self.new ≡ record self.old { hint = hint } }
    {
        self.fields.hint = hint;
    }

    /// The number of the last send started on the end.
    pub fn sent(&self) -> u32
        ensures { result ≡ self.now.sent }
    {
        self.fields.sent
    }

    /// The number of the last receive started on the end.
    pub fn asked(&self) -> u32
        ensures { result ≡ self.now.asked }
    {
        self.fields.asked
    }

    /// The greatest number of a receive of the opposite end that was matched or withdrawn here.
    pub fn served(&self) -> u32
        ensures { result ≡ self.now.served }
    {
        self.fields.served
    }

    /// The number of a receive of the opposite end that was asked for and not matched; 0 is none.
    pub fn want(&self) -> u32
        ensures { result ≡ self.now.want }
    {
        self.fields.want
    }

    /// Whether the death of the link was noticed at the end.
    pub fn dead(&self) -> bool
        ensures { result ≡ self.now.dead }
    {
        self.fields.dead
    }

    /// The kernels that may hold a forwarding entry of the end, one bit for each.
    pub fn trail(&self) -> u8
        ensures { result ≡ self.now.trail }
    {
        self.fields.trail
    }
}
