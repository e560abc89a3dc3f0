ghost use Rattle.std.specs.Prelude.{◌≡◌, ◌↔◌, ◌<◌, ◌≤◌, [], IfOk, IsTrue, IsFalse, length};
ghost use Rattle.kernel_net.specs.Letters.{MayBePut};
ghost use Rattle.kernel_net.specs.Rings.{IsFreshRing, Frees, Learns, Puts, Looks, capacity_of};

use crate::letter::{Letter, LetterRule};
use charlotte_calls::NoMemory;
use rtrb::{Consumer, Producer, RingBuffer};
use std::alloc::Global;
use std::marker::Model;

/// The end of a ring that puts. Contracts see the ring, what was put, and the free places that are known.
#[derive(Drop)]
pub(crate) struct Putter {
    ring: Producer<Letter, Global, LetterRule>,
}

impl Model for Putter {
    ghost use Rattle.kernel_net.specs.Rings.{Outlet, outlet_of};

    ghost Value = { Outlet };

    ghost view = { λ p. outlet_of p.ring };
}

/// The end of a ring that gets. Contracts see the ring, what was got, and the letters that are known to be there.
#[derive(Drop)]
pub(crate) struct Getter {
    pub(crate) ring: Consumer<Letter, Global, LetterRule>,
}

impl Model for Getter {
    ghost use Rattle.std.specs.Prelude.{◌≤◌};
    ghost use Rattle.rtrb.specs.Ring.{consumer_capacity};
    ghost use Rattle.kernel_net.specs.Rings.{Inlet, inlet_of};

    ghost Value = { Inlet };

    ghost view = { λ g. inlet_of g.ring };

    ghost invariant = { λ g. consumer_capacity g.ring ≤ 1024 };
}

/// Both ends of a new ring.
pub(crate) fn new_ring(alloc: Global, capacity: u16) -> Result<(Putter, Getter), NoMemory>
    requires { capacity ≤ 1024 }
    ensures { IfOk result (λ ends. IsFreshRing capacity ends.0 ends.1) }
{
    let (putter, getter) = RingBuffer::with_protocol::<Global, LetterRule>(
        alloc,
        usize::from(capacity),
    )?;
    Ok((Putter { ring: putter }, Getter { ring: getter }))
}

impl Putter {
    /// Whether no free place is known. Where none is, it first learns what the other end got.
    #[inline(always)]
    pub(crate) fn is_full(&mut self) -> bool
        ensures full { IsTrue result → (self.new ≡ self.old) × (self.new.places ≡ 0) }
        ensures free { IsFalse result → 0 < self.new.places }
        ensures frees { Frees self.old self.new }
    {
        self.ring.is_full()
    }

    /// Puts a letter, where a free place is known.
    #[inline(always)]
    pub(crate) fn put_known(&mut self, letter: Letter)
        requires place { 0 < self.old.places }
        requires letter { MayBePut self.old.put letter }
        ensures { Puts letter self.old self.new }
    {
        self.ring.push_reserved(letter);
    }
}

impl Getter {
    /// Whether no letter is known. Where none is, it first learns what the other end put.
    #[inline(always)]
    pub(crate) fn is_empty(&mut self) -> bool
        ensures known { IsTrue result ↔ (self.new.known ≡ []) }
        ensures learns { Learns self.old self.new }
    {
        self.ring.is_empty()
    }

    /// Brings both ends of the ring together: how many letters are there.
    pub(crate) fn meet(&mut self, putter: &mut Putter) -> u32
        requires { putter.old.ring ≡ self.old.ring }
        ensures looks { Looks putter.old putter.new self.old self.new }
        ensures count { (result ≡ length self.new.known) × (result ≤ 1024) }
    {
        putter.ring.slots_beside(&mut self.ring);
        self.ring.slots_beside(&mut putter.ring) as u32
    }
}
