ghost use Rattle.std.specs.Prelude.{◌≡◌, ◌^◌, nat_lt};

use charlotte_calls::{Bytes, EndId, Short};

/// The fields of an end's value, as plain data.
#[derive(Clone, Copy, Debug, Default, PartialEq, Eq, Hash)]
pub struct MovingPicture {
    pub end: EndId,
    /// How many times the end has left a kernel.
    pub hops: u32,
    /// Kernel and hop count of the opposite end, as last heard.
    pub hint: (u8, u32),
    /// The number of the last send started on the end.
    pub sent: u32,
    /// The number of the last receive started on the end.
    pub asked: u32,
    /// The greatest number of a receive of the opposite end that was matched or withdrawn here.
    pub served: u32,
    /// The number of a receive of the opposite end that is asked for and not yet matched; 0 is none.
    pub want: u32,
    /// The death of the link was noticed at the end.
    pub dead: bool,
    /// The kernels that may hold a forwarding entry of the end: the bit of kernel k has the value 2 to the k.
    pub trail: u8,
}

/// The pictures of the values that a packet carries, in order, at most eight.
pub type CargoPicture = Short<MovingPicture, 8>;

impl MovingPicture {
    ghost use Rattle.charlotte_packets.specs.Packets.{names_kernels_below};

    /// Whether the hint's kernel and each kernel of the trail is below `kernels`.
    pub fn names_kernels_below(&self, kernels: u8) -> bool
        ensures { result ≡ names_kernels_below kernels self.now }
    {
        self.hint.0 < kernels && bits_are_below(self.trail, kernels)
    }
}

/// Whether no bit of a kernel from `kernels` on is set.
fn bits_are_below(bits: u8, kernels: u8) -> bool
    ensures { result ≡ nat_lt bits (2 ^ kernels) }
{
    if kernels >= 8 {
        return true;
    }
    bits < 1 << kernels
}

/// A plain copy of what one kernel tells another: the variants and fields of `What`, with the fields of each value in its place.
#[derive(Debug, Drop)]
pub enum PictureWhat {
    Want {
        to: EndId,
        w: u32,
        at: u8,
        hops: u32,
    },
    Unwant {
        to: EndId,
        w: u32,
        at: u8,
        hops: u32,
    },
    Unwanted {
        to: EndId,
        w: u32,
        at: u8,
        hops: u32,
    },
    Parcel {
        to: EndId,
        n: u32,
        w: u32,
        at: u8,
        hops: u32,
        bytes: Bytes,
        moving: CargoPicture,
    },
    Taken {
        to: EndId,
        n: u32,
        at: u8,
        hops: u32,
    },
    Back {
        to: EndId,
        n: u32,
        moving: CargoPicture,
    },
    Gone {
        to: EndId,
        at: u8,
    },
    Moved {
        to: EndId,
        at: u8,
        hops: u32,
    },
    Known {
        to: EndId,
        hops: u32,
    },
    Forget {
        to: EndId,
        hops: u32,
    },
    GoneSeen {
        to: EndId,
    },
}

impl PictureWhat {
    /// An equal value.
    pub fn copy(&self) -> PictureWhat
        ensures { result ≡ self.now }
    {
        match self {
            &PictureWhat::Want { to, w, at, hops } => PictureWhat::Want { to, w, at, hops },
            &PictureWhat::Unwant { to, w, at, hops } => PictureWhat::Unwant { to, w, at, hops },
            &PictureWhat::Unwanted { to, w, at, hops } => PictureWhat::Unwanted { to, w, at, hops },
            PictureWhat::Parcel {
                to,
                n,
                w,
                at,
                hops,
                bytes,
                moving,
            } => PictureWhat::Parcel {
                to: *to,
                n: *n,
                w: *w,
                at: *at,
                hops: *hops,
                bytes: bytes.copy(),
                moving: moving.copy(),
            },
            &PictureWhat::Taken { to, n, at, hops } => PictureWhat::Taken { to, n, at, hops },
            PictureWhat::Back { to, n, moving } => PictureWhat::Back {
                to: *to,
                n: *n,
                moving: moving.copy(),
            },
            &PictureWhat::Gone { to, at } => PictureWhat::Gone { to, at },
            &PictureWhat::Moved { to, at, hops } => PictureWhat::Moved { to, at, hops },
            &PictureWhat::Known { to, hops } => PictureWhat::Known { to, hops },
            &PictureWhat::Forget { to, hops } => PictureWhat::Forget { to, hops },
            &PictureWhat::GoneSeen { to } => PictureWhat::GoneSeen { to },
        }
    }
}

/// A plain copy of a packet.
#[derive(Debug, Drop)]
pub struct Picture {
    pub stamp: u64,
    pub what: PictureWhat,
}

impl Picture {
    /// An equal picture.
    pub fn copy(&self) -> Picture
        ensures { result ≡ self.now }
    {
        Picture {
            stamp: self.stamp,
            what: self.what.copy(),
        }
    }
}
