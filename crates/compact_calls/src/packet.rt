ghost use Rattle.std.specs.Prelude.{◌≡◌, IfOk};
ghost use Rattle.compact_calls.specs.Stored.{what_of};

use crate::trimmed::Trimmed;
use charlotte_calls::{Bytes, EndId, NoMemory};
use charlotte_packets::{CargoPicture, MovingPicture, Picture, PictureWhat};
use std::alloc::Global;
use std::marker::Model;

/// What a parcel carries: the bytes, and the values of the ends that move with them.
#[derive(Debug, Drop)]
pub struct Carried {
    bytes: Trimmed<u8, 256>,
    moving: Trimmed<MovingPicture, 8>,
}

impl Carried {
    fn of(alloc: Global, bytes: &Bytes, moving: &CargoPicture) -> Result<Box<Carried>, NoMemory>
        ensures bytes { IfOk result (λ c. c.value.bytes ≡ bytes.now) }
        ensures moving { IfOk result (λ c. c.value.moving ≡ moving.now) }
    {
        let carried = Carried {
            bytes: Trimmed::of(alloc, bytes)?,
            moving: Trimmed::of(alloc, moving)?,
        };
        Ok(Box::new(alloc, carried)?)
    }

    /// The bytes, lent.
    pub fn bytes(&self) -> &[u8]
        ensures { result.now ≡ self.now.bytes }
    {
        self.bytes.as_slice()
    }

    /// The values, lent.
    pub fn moving(&self) -> &[MovingPicture]
        ensures { result.now ≡ self.now.moving }
    {
        self.moving.as_slice()
    }
}

/// What a packet tells, as it is kept: what has no fixed length stands apart.
#[derive(Debug, Drop)]
pub enum StoredWhat {
    Want {
        to: EndId,
        w: u32,
        at: u8,
        hops: u32,
    },
    Unwant {
        to: EndId,
        w: u32,
        at: u8,
        hops: u32,
    },
    Unwanted {
        to: EndId,
        w: u32,
        at: u8,
        hops: u32,
    },
    Parcel {
        to: EndId,
        n: u32,
        w: u32,
        at: u8,
        hops: u32,
        carried: Box<Carried>,
    },
    Taken {
        to: EndId,
        n: u32,
        at: u8,
        hops: u32,
    },
    Back {
        to: EndId,
        n: u32,
        moving: Trimmed<MovingPicture, 8>,
    },
    Gone {
        to: EndId,
        at: u8,
    },
    Moved {
        to: EndId,
        at: u8,
        hops: u32,
    },
    Known {
        to: EndId,
        hops: u32,
    },
    Forget {
        to: EndId,
        hops: u32,
    },
    GoneSeen {
        to: EndId,
    },
}

/// The picture of a packet that takes only the memory of what it says. Contracts see the picture.
#[derive(Debug, Drop)]
pub struct CompactPicture {
    stamp: u64,
    stored: StoredWhat,
}

impl Model for CompactPicture {
    ghost use Rattle.charlotte_packets.specs.declared.picture.Picture.{Picture};

    ghost Value = { Picture };

    ghost use Rattle.compact_calls.specs.Stored.{what_of};

    ghost view = { λ c. record { stamp = c.stamp; what = what_of c.stored } };
}

impl CompactPicture {
    /// The same picture.
    pub fn of(alloc: Global, picture: &Picture) -> Result<CompactPicture, NoMemory>
        ensures { IfOk result (λ c. c ≡ picture.now) }
    {
        let stored = store(alloc, &picture.what)?;
        Ok(CompactPicture {
            stamp: picture.stamp,
            stored,
        })
    }

    /// The picture, with its bytes and values in the value itself.
    pub fn picture(&self) -> Picture
        ensures { result ≡ self.now }
    {
        Picture {
            stamp: self.stamp,
            what: restore(&self.stored),
        }
    }

    /// What the packet tells, as it is kept, lent.
    pub fn stored(&self) -> &StoredWhat
        ensures { what_of result.now ≡ self.now.what }
    {
        &self.stored
    }

    /// An equal picture.
    pub fn copy(&self, alloc: Global) -> Result<CompactPicture, NoMemory>
        ensures { IfOk result (λ c. c ≡ self.now) }
    {
        CompactPicture::of(alloc, &self.picture())
    }
}

fn store(alloc: Global, what: &PictureWhat) -> Result<StoredWhat, NoMemory>
    ensures { IfOk result (λ k. what_of k ≡ what.now) }
{
    let stored = match what {
        PictureWhat::Want { to, w, at, hops } => StoredWhat::Want {
            to: *to,
            w: *w,
            at: *at,
            hops: *hops,
        },
        PictureWhat::Unwant { to, w, at, hops } => StoredWhat::Unwant {
            to: *to,
            w: *w,
            at: *at,
            hops: *hops,
        },
        PictureWhat::Unwanted { to, w, at, hops } => StoredWhat::Unwanted {
            to: *to,
            w: *w,
            at: *at,
            hops: *hops,
        },
        PictureWhat::Parcel {
            to,
            n,
            w,
            at,
            hops,
            bytes,
            moving,
        } => StoredWhat::Parcel {
            to: *to,
            n: *n,
            w: *w,
            at: *at,
            hops: *hops,
            carried: Carried::of(alloc, bytes, moving)?,
        },
        PictureWhat::Taken { to, n, at, hops } => StoredWhat::Taken {
            to: *to,
            n: *n,
            at: *at,
            hops: *hops,
        },
        PictureWhat::Back { to, n, moving } => StoredWhat::Back {
            to: *to,
            n: *n,
            moving: Trimmed::of(alloc, moving)?,
        },
        PictureWhat::Gone { to, at } => StoredWhat::Gone { to: *to, at: *at },
        PictureWhat::Moved { to, at, hops } => StoredWhat::Moved {
            to: *to,
            at: *at,
            hops: *hops,
        },
        PictureWhat::Known { to, hops } => StoredWhat::Known {
            to: *to,
            hops: *hops,
        },
        PictureWhat::Forget { to, hops } => StoredWhat::Forget {
            to: *to,
            hops: *hops,
        },
        PictureWhat::GoneSeen { to } => StoredWhat::GoneSeen { to: *to },
    };
    Ok(stored)
}

fn restore(stored: &StoredWhat) -> PictureWhat
    ensures { result ≡ what_of stored.now }
{
    match stored {
        StoredWhat::Want { to, w, at, hops } => PictureWhat::Want {
            to: *to,
            w: *w,
            at: *at,
            hops: *hops,
        },
        StoredWhat::Unwant { to, w, at, hops } => PictureWhat::Unwant {
            to: *to,
            w: *w,
            at: *at,
            hops: *hops,
        },
        StoredWhat::Unwanted { to, w, at, hops } => PictureWhat::Unwanted {
            to: *to,
            w: *w,
            at: *at,
            hops: *hops,
        },
        StoredWhat::Parcel {
            to,
            n,
            w,
            at,
            hops,
            carried,
        } => PictureWhat::Parcel {
            to: *to,
            n: *n,
            w: *w,
            at: *at,
            hops: *hops,
            bytes: carried.bytes.short(),
            moving: carried.moving.short(),
        },
        StoredWhat::Taken { to, n, at, hops } => PictureWhat::Taken {
            to: *to,
            n: *n,
            at: *at,
            hops: *hops,
        },
        StoredWhat::Back { to, n, moving } => PictureWhat::Back {
            to: *to,
            n: *n,
            moving: moving.short(),
        },
        StoredWhat::Gone { to, at } => PictureWhat::Gone { to: *to, at: *at },
        StoredWhat::Moved { to, at, hops } => PictureWhat::Moved {
            to: *to,
            at: *at,
            hops: *hops,
        },
        StoredWhat::Known { to, hops } => PictureWhat::Known {
            to: *to,
            hops: *hops,
        },
        StoredWhat::Forget { to, hops } => PictureWhat::Forget {
            to: *to,
            hops: *hops,
        },
        StoredWhat::GoneSeen { to } => PictureWhat::GoneSeen { to: *to },
    }
}
