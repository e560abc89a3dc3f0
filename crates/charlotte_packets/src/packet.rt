ghost use Rattle.std.specs.Prelude.{◌≡◌};

use crate::{Cargo, MovingPicture, Picture, PictureWhat};
use charlotte_calls::{Bytes, EndId};

/// What one kernel tells another.
///
/// `to` is the end addressed, `at` and `hops` are kernel and hop count of the opposite end that sent it.
/// It holds the values of ends, and so has to be spent.
#[derive(Debug)]
pub enum What {
    /// A receive, whose number is w, asks for a message.
    Want {
        to: EndId,
        w: u32,
        at: u8,
        hops: u32,
    },
    /// The receive w is to be withdrawn.
    Unwant {
        to: EndId,
        w: u32,
        at: u8,
        hops: u32,
    },
    /// The receive w is withdrawn.
    Unwanted {
        to: EndId,
        w: u32,
        at: u8,
        hops: u32,
    },
    /// The message n for the receive w, with the values of its ends.
    Parcel {
        to: EndId,
        n: u32,
        w: u32,
        at: u8,
        hops: u32,
        bytes: Bytes,
        moving: Cargo,
    },
    /// The message n was taken.
    Taken {
        to: EndId,
        n: u32,
        at: u8,
        hops: u32,
    },
    /// The message n comes back, with the values of its ends.
    Back {
        to: EndId,
        n: u32,
        moving: Cargo,
    },
    /// The opposite end, at this kernel, is destroyed.
    Gone {
        to: EndId,
        at: u8,
    },
    /// The opposite end has moved.
    Moved {
        to: EndId,
        at: u8,
        hops: u32,
    },
    /// That the end has moved is known.
    Known {
        to: EndId,
        hops: u32,
    },
    /// The forwarding entry of the end, up to these hops, is not needed any more.
    Forget {
        to: EndId,
        hops: u32,
    },
    /// That the end is destroyed is known.
    GoneSeen {
        to: EndId,
    },
}

impl What {
    ghost use Rattle.charlotte_packets.specs.Packets.{what_picture};

    /// A plain copy, with the fields of each value in its place.
    pub fn picture(&self) -> PictureWhat
        ensures { result ≡ what_picture self.now }
    {
        match self {
            &What::Want { to, w, at, hops } => PictureWhat::Want { to, w, at, hops },
            &What::Unwant { to, w, at, hops } => PictureWhat::Unwant { to, w, at, hops },
            &What::Unwanted { to, w, at, hops } => PictureWhat::Unwanted { to, w, at, hops },
            What::Parcel {
                to,
                n,
                w,
                at,
                hops,
                bytes,
                moving,
            } => PictureWhat::Parcel {
                to: *to,
                n: *n,
                w: *w,
                at: *at,
                hops: *hops,
                bytes: bytes.copy(),
                moving: moving.picture(),
            },
            &What::Taken { to, n, at, hops } => PictureWhat::Taken { to, n, at, hops },
            What::Back { to, n, moving } => PictureWhat::Back {
                to: *to,
                n: *n,
                moving: moving.picture(),
            },
            &What::Gone { to, at } => PictureWhat::Gone { to, at },
            &What::Moved { to, at, hops } => PictureWhat::Moved { to, at, hops },
            &What::Known { to, hops } => PictureWhat::Known { to, hops },
            &What::Forget { to, hops } => PictureWhat::Forget { to, hops },
            &What::GoneSeen { to } => PictureWhat::GoneSeen { to },
        }
    }

    fn spend(self) {
        match self {
            What::Parcel {
                to: _,
                n: _,
                w: _,
                at: _,
                hops: _,
                bytes: _,
                moving,
            } => moving.spend(),
            What::Back {
                to: _,
                n: _,
                moving,
            } => moving.spend(),
            What::Want {
                to: _,
                w: _,
                at: _,
                hops: _,
            }
            | What::Unwant {
                to: _,
                w: _,
                at: _,
                hops: _,
            }
            | What::Unwanted {
                to: _,
                w: _,
                at: _,
                hops: _,
            }
            | What::Taken {
                to: _,
                n: _,
                at: _,
                hops: _,
            }
            | What::Gone { to: _, at: _ }
            | What::Moved {
                to: _,
                at: _,
                hops: _,
            }
            | What::Known { to: _, hops: _ }
            | What::Forget { to: _, hops: _ }
            | What::GoneSeen { to: _ } => {}
        }
    }
}

/// A packet with the stamp of the event that sent it. A packet that is let go spends the values in it.
#[derive(Debug)]
pub struct Packet {
    pub stamp: u64,
    pub what: What,
}

impl Drop for Packet {
    fn drop(self) {
        let Packet { stamp: _, what } = self;
        what.spend();
    }
}

impl Packet {
    ghost use Rattle.charlotte_packets.specs.Packets.{packet_picture, what_picture, is_addressed};

    /// The stamp and what the packet tells.
    #[inline(always)]
    pub fn open(self) -> (u64, What)
        ensures stamp { result.0 ≡ self.stamp }
        ensures what { result.1 ≡ self.what }
    {
        let Packet { stamp, what } = self;
        (stamp, what)
    }

    /// A plain copy, with the fields of each value in its place.
    pub fn picture(&self) -> Picture
        ensures { result ≡ packet_picture self.now }
    {
        Picture {
            stamp: self.stamp,
            what: self.what.picture(),
        }
    }

    /// Whether each kernel that the packet names is below `kernels`.
    pub fn addressed(&self, kernels: u8) -> bool
        ensures { result ≡ is_addressed (what_picture self.now.what) kernels }
    {
        match &self.what {
            What::Want { at, .. }
            | What::Unwant { at, .. }
            | What::Unwanted { at, .. }
            | What::Taken { at, .. }
            | What::Gone { at, .. }
            | What::Moved { at, .. } => *at < kernels,
            What::Parcel { at, moving, .. } => *at < kernels && moving.addressed(kernels),
            What::Back { moving, .. } => moving.addressed(kernels),
            What::Known { .. } | What::Forget { .. } | What::GoneSeen { .. } => true,
        }
    }
}
