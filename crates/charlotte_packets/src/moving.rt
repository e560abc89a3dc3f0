ghost use Rattle.std.specs.Prelude.{◌≡◌};

use crate::{Mark, MovingPicture};
use charlotte_calls::{EndId, LinkId, Side};
use std::marker::Model;

/// The one value of a living end. It is no copy, cannot be let go, and so has to be spent.
///
/// Contracts see it as its fields.
#[derive(Debug)]
pub struct Moving {
    fields: MovingPicture,
}

impl Model for Moving {
    ghost use Rattle.charlotte_packets.specs.declared.picture.MovingPicture.{MovingPicture};

    ghost Value = { MovingPicture };

    ghost view = { λ m. m.fields };
}

impl Moving {
    ghost use Rattle.charlotte_packets.specs.Moving.{new_end};
    ghost use Rattle.charlotte_calls.specs.declared.names.Side.TheVariants.{A, B};

    /// Both ends of a link, end a at kernel `at_a` and end b at `at_b`. There is no other way to make a value.
    pub fn pair(link: LinkId, at_a: u8, at_b: u8) -> (Moving, Moving)
        ensures a { result.0 ≡ new_end (record { link = link; side = A }) at_b }
        ensures b { result.1 ≡ new_end (record { link = link; side = B }) at_a }
    {
        (
            Moving::first(
                EndId {
                    link,
                    side: Side::A,
                },
                at_b,
            ),
            Moving::first(
                EndId {
                    link,
                    side: Side::B,
                },
                at_a,
            ),
        )
    }

    fn first(end: EndId, opposite_at: u8) -> Moving
        ensures { result ≡ new_end end opposite_at }
    {
        Moving {
            fields: MovingPicture {
                end,
                hops: 0,
                hint: (opposite_at, 0),
                sent: 0,
                asked: 0,
                served: 0,
                want: 0,
                dead: false,
                trail: 0,
            },
        }
    }

    /// Spends the value. What is left of the end is its mark.
    pub fn destroy(self) -> Mark
        ensures { result ≡ self }
    {
        Mark::of(self.into_fields())
    }

    /// The value taken apart, to be kept in a cargo.
    pub(crate) fn into_fields(self) -> MovingPicture
        ensures { result ≡ self }
    {
        let Moving { fields } = self;
        fields
    }

    /// The value that was taken apart to be kept in a cargo.
    pub(crate) fn from_fields(fields: MovingPicture) -> Moving
        ensures { result ≡ fields }
    {
        Moving { fields }
    }

    /// All fields, as plain data.
    pub fn picture(&self) -> MovingPicture
        ensures { result ≡ self.now }
    {
        self.fields
    }

    /// The end whose value this is.
    pub fn end(&self) -> EndId
        ensures { result ≡ self.now.end }
    {
        self.fields.end
    }

    /// How many times the end has left a kernel.
    pub fn hops(&self) -> u32
        ensures { result ≡ self.now.hops }
    {
        self.fields.hops
    }

    /// Sets how many times the end has left a kernel.
    pub fn set_hops(&mut self, hops: u32)
        ensures { self.new ≡ record self.old { hops = hops } }
    {
        self.fields.hops = hops;
    }

    /// Kernel and hop count of the opposite end, as last heard.
    pub fn hint(&self) -> (u8, u32)
        ensures { result ≡ self.now.hint }
    {
        self.fields.hint
    }

    /// Sets kernel and hop count of the opposite end.
    pub fn set_hint(&mut self, hint: (u8, u32))
        ensures { self.new ≡ record self.old { hint = hint } }
    {
        self.fields.hint = hint;
    }

    /// The number of the last send started on the end.
    pub fn sent(&self) -> u32
        ensures { result ≡ self.now.sent }
    {
        self.fields.sent
    }

    /// Sets the number of the last send.
    pub fn set_sent(&mut self, sent: u32)
        ensures { self.new ≡ record self.old { sent = sent } }
    {
        self.fields.sent = sent;
    }

    /// The number of the last receive started on the end.
    pub fn asked(&self) -> u32
        ensures { result ≡ self.now.asked }
    {
        self.fields.asked
    }

    /// Sets the number of the last receive.
    pub fn set_asked(&mut self, asked: u32)
        ensures { self.new ≡ record self.old { asked = asked } }
    {
        self.fields.asked = asked;
    }

    /// The greatest number of a receive of the opposite end that was matched or withdrawn here.
    pub fn served(&self) -> u32
        ensures { result ≡ self.now.served }
    {
        self.fields.served
    }

    /// Sets the greatest number of a receive that was matched or withdrawn.
    pub fn set_served(&mut self, served: u32)
        ensures { self.new ≡ record self.old { served = served } }
    {
        self.fields.served = served;
    }

    /// The number of a receive of the opposite end that is asked for and not yet matched; 0 is none.
    pub fn want(&self) -> u32
        ensures { result ≡ self.now.want }
    {
        self.fields.want
    }

    /// Sets the number of a receive that is asked for.
    pub fn set_want(&mut self, want: u32)
        ensures { self.new ≡ record self.old { want = want } }
    {
        self.fields.want = want;
    }

    /// Whether the death of the link was noticed at the end.
    pub fn dead(&self) -> bool
        ensures { result ≡ self.now.dead }
    {
        self.fields.dead
    }

    /// Sets whether the death of the link was noticed.
    pub fn set_dead(&mut self, dead: bool)
        ensures { self.new ≡ record self.old { dead = dead } }
    {
        self.fields.dead = dead;
    }

    /// The kernels that may hold a forwarding entry of the end, one bit for each.
    pub fn trail(&self) -> u8
        ensures { result ≡ self.now.trail }
    {
        self.fields.trail
    }

    /// Sets the kernels that may hold a forwarding entry.
    pub fn set_trail(&mut self, trail: u8)
        ensures { self.new ≡ record self.old { trail = trail } }
    {
        self.fields.trail = trail;
    }
}
