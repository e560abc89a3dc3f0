ghost use Rattle.std.specs.Prelude.{◌≡◌, ◌+◌, ◌<◌, ◌++◌, ◌∷◌, [], IfOk, IfSome, IsTrue, map};
ghost use Rattle.std.specs.VecDeque.{deque_capacity, deque_len};
ghost use Rattle.charlotte_packets.specs.Packets.{what_picture};
ghost use Rattle.packet_queue.specs.Queue.{letter_told, packed_picture, picture_in, what_told};

use crate::text::Text;
use charlotte_calls::{EndId, NoMemory};
use charlotte_packets::{Cargo, Packet, What};
use std::alloc::Global;
use std::collections::VecDeque;

/// A message that carries no ends.
#[derive(Drop)]
pub(crate) struct Letter {
    to: EndId,
    n: u32,
    w: u32,
    at: u8,
    hops: u32,
    bytes: Text,
}

/// What a packet tells, in the memory of what it says.
#[derive(Drop)]
pub(crate) enum Told {
    Want {
        to: EndId,
        w: u32,
        at: u8,
        hops: u32,
    },
    Unwant {
        to: EndId,
        w: u32,
        at: u8,
        hops: u32,
    },
    Unwanted {
        to: EndId,
        w: u32,
        at: u8,
        hops: u32,
    },
    Taken {
        to: EndId,
        n: u32,
        at: u8,
        hops: u32,
    },
    Gone {
        to: EndId,
        at: u8,
    },
    Moved {
        to: EndId,
        at: u8,
        hops: u32,
    },
    Known {
        to: EndId,
        hops: u32,
    },
    Forget {
        to: EndId,
        hops: u32,
    },
    GoneSeen {
        to: EndId,
    },
    Letter(Box<Letter>),
    /// A packet that carries values of ends, whole.
    Laden(Box<Packet>),
}

/// A packet in the memory of what it says.
#[derive(Drop)]
pub(crate) struct Packed {
    stamp: u64,
    told: Told,
}

impl Packed {
    /// The packet that is sent to a kernel.
    #[inline(always)]
    pub(crate) fn of(alloc: Global, sent: (u8, Packet)) -> Result<Packed, NoMemory>
        ensures { IfOk result (λ p. packed_picture p ≡ picture_in sent) }
    {
        let stamp = sent.1.stamp;
        match light(alloc, &sent.1.what)? {
            Some(told) => Ok(Packed { stamp, told }),
            None => Packed::laden(alloc, sent),
        }
    }

    /// The same, whole.
    #[inline(never)]
    fn laden(alloc: Global, sent: (u8, Packet)) -> Result<Packed, NoMemory>
        ensures { IfOk result (λ p. packed_picture p ≡ picture_in sent) }
    {
        let (_, packet) = sent;
        let stamp = packet.stamp;
        let told = Told::Laden(Box::new(alloc, packet)?);
        Ok(Packed { stamp, told })
    }

    /// The packet joins others that lie whole, behind them, put together again. Those of which most are sent at once are made where they come to lie.
    #[inline(never)]
    pub(crate) fn join(self, to: u8, front: &mut VecDeque<(u8, Packet)>)
        requires { deque_len front.old < deque_capacity front.old }
        ensures items { map picture_in front.new.items ≡ map picture_in front.old.items ++ packed_picture self ∷ [] }
        ensures len { deque_len front.new ≡ deque_len front.old + 1 }
        ensures capacity { deque_capacity front.new ≡ deque_capacity front.old }
    {
        let Packed { stamp, told } = self;
        match told {
            Told::Gone { to: end, at } => {
                let what = What::Gone { to: end, at };
                front.push_back_reserved((to, Packet { stamp, what }));
            }
            Told::GoneSeen { to: end } => {
                let what = What::GoneSeen { to: end };
                front.push_back_reserved((to, Packet { stamp, what }));
            }
            told => {
                let what = what_of(told);
                front.push_back_reserved((to, Packet { stamp, what }));
            }
        }
    }
}

/// What a packet tells that carries no values of ends; `None` where it may carry some.
fn light(alloc: Global, what: &What) -> Result<Option<Told>, NoMemory>
    ensures { IfOk result (λ found. IfSome found (λ t. what_told t ≡ what_picture what.now)) }
{
    let told = match what {
        &What::Want { to, w, at, hops } => Told::Want { to, w, at, hops },
        &What::Unwant { to, w, at, hops } => Told::Unwant { to, w, at, hops },
        &What::Unwanted { to, w, at, hops } => Told::Unwanted { to, w, at, hops },
        &What::Taken { to, n, at, hops } => Told::Taken { to, n, at, hops },
        &What::Gone { to, at } => Told::Gone { to, at },
        &What::Moved { to, at, hops } => Told::Moved { to, at, hops },
        &What::Known { to, hops } => Told::Known { to, hops },
        &What::Forget { to, hops } => Told::Forget { to, hops },
        &What::GoneSeen { to } => Told::GoneSeen { to },
        What::Parcel { .. } => return written(alloc, what),
        What::Back { .. } => return Ok(None),
    };
    Ok(Some(told))
}

/// A parcel that carries no values of ends.
fn written(alloc: Global, what: &What) -> Result<Option<Told>, NoMemory>
    ensures { IfOk result (λ found. IfSome found (λ t. what_told t ≡ what_picture what.now)) }
{
    match what {
        What::Parcel {
            to,
            n,
            w,
            at,
            hops,
            bytes,
            moving,
        } if moving.len() == 0 => {
            let letter = Letter {
                to: *to,
                n: *n,
                w: *w,
                at: *at,
                hops: *hops,
                bytes: Text::of(alloc, bytes)?,
            };
            Ok(Some(Told::Letter(Box::new(alloc, letter)?)))
        }
        _ => Ok(None),
    }
}

/// What was told.
fn what_of(told: Told) -> What
    ensures { what_picture result ≡ what_told told }
{
    match told {
        Told::Want { to, w, at, hops } => What::Want { to, w, at, hops },
        Told::Unwant { to, w, at, hops } => What::Unwant { to, w, at, hops },
        Told::Unwanted { to, w, at, hops } => What::Unwanted { to, w, at, hops },
        Told::Taken { to, n, at, hops } => What::Taken { to, n, at, hops },
        Told::Gone { to, at } => What::Gone { to, at },
        Told::Moved { to, at, hops } => What::Moved { to, at, hops },
        Told::Known { to, hops } => What::Known { to, hops },
        Told::Forget { to, hops } => What::Forget { to, hops },
        Told::GoneSeen { to } => What::GoneSeen { to },
        Told::Letter(letter) => parcel(&letter),
        Told::Laden(packet) => {
            let (_, what) = Box::into_inner(packet).open();
            what
        }
    }
}

/// The parcel of a message that carries no ends.
fn parcel(letter: &Letter) -> What
    ensures { what_picture result ≡ letter_told letter.now }
{
    What::Parcel {
        to: letter.to,
        n: letter.n,
        w: letter.w,
        at: letter.at,
        hops: letter.hops,
        bytes: letter.bytes.bytes(),
        moving: Cargo::empty(),
    }
}
