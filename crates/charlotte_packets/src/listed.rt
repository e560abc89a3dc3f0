ghost use Rattle.std.specs.Prelude.{◌≡◌, ◌↔◌, ◌<◌, ◌≤◌, ◌^◌, ◌++◌, [], ◌∷◌, IfNone, IsTrue, OnOk, drop, length, option_to_list, take};

use crate::Packet;
use crate::brief::BriefPackets;
use charlotte_calls::NoMemory;
use std::alloc::Global;
use std::collections::VecDeque;
use std::marker::Model;
use std::mem;

/// So many packets of an event lie whole at most; only a process that exits sends more.
const MOST_WHOLE: usize = 64;

/// The packets of an event, each with the kernel that it goes to, in order. Contracts see their list, and for how many there is room.
#[derive(Drop)]
pub struct PacketList {
    /// The first ones, as they are sent.
    whole: Vec<(u8, Packet)>,
    /// Those behind them.
    behind: BriefPackets,
    /// For so many packets there is room.
    fits: usize,
}

impl Model for PacketList {
    ghost use Rattle.std.specs.Prelude.{◌++◌, vec_capacity};
    ghost use Rattle.charlotte_packets.specs.Sent.{ListView, IsListed};

    ghost Value = { ListView };

    ghost view = { λ p. record { items = p.whole.items ++ p.behind.items; fits = p.fits } };

    ghost invariant = { λ p. IsListed p.whole.items (vec_capacity p.whole) p.behind p.fits };
}

impl PacketList {
    ghost use Rattle.charlotte_packets.specs.Sent.{most_whole};

    /// No packets, and no room. It takes no memory.
    pub fn new(alloc: Global) -> PacketList
        ensures { result.items ≡ [] }
    {
        PacketList {
            whole: Vec::new(alloc),
            behind: BriefPackets::new(),
            fits: 0,
        }
    }

    /// No packets, in a list that held some.
    #[inline(always)]
    pub fn within(mut list: Vec<(u8, Packet)>) -> PacketList
        ensures { result.items ≡ [] }
    {
        list.clear();
        PacketList {
            whole: list,
            behind: BriefPackets::new(),
            fits: 0,
        }
    }

    /// No packets are left, and there is room for so many.
    #[inline(always)]
    pub fn renew(&mut self, most: usize) -> Result<(), NoMemory>
        ensures items { OnOk result (self.new.items ≡ []) }
        ensures room { OnOk result (most ≤ self.new.fits) }
    {
        self.fits = 0;
        self.whole.clear();
        self.behind = BriefPackets::new();
        if most > MOST_WHOLE {
            return self.reserve_many(most);
        }
        self.whole.reserve(most)?;
        self.fits = most;
        Ok(())
    }

    /// Room for many, where none are.
    #[inline(never)]
    fn reserve_many(&mut self, most: usize) -> Result<(), NoMemory>
        requires { self.old.items ≡ [] }
        ensures items { OnOk result (self.new.items ≡ []) }
        ensures room { OnOk result (most ≤ self.new.fits) }
    {
        self.fits = 0;
        self.whole.reserve(MOST_WHOLE)?;
        self.behind = BriefPackets::with_room(*self.whole.allocator(), most)?;
        self.fits = most;
        Ok(())
    }

    /// Takes the packets, and leaves none, without room, in their place.
    #[inline(always)]
    pub fn take(&mut self) -> PacketList
        ensures same { result ≡ self.old }
        ensures left { self.new.items ≡ [] }
    {
        let alloc = *self.whole.allocator();
        mem::replace(self, PacketList::new(alloc))
    }

    /// How many packets there are, where they are few.
    #[inline(always)]
    pub fn len(&self) -> usize
        requires { length self.now.items ≤ most_whole }
        ensures { result ≡ length self.now.items }
    {
        self.whole.len()
    }

    /// A packet joins the others, behind them.
    #[inline(always)]
    pub fn push_reserved(&mut self, sent: (u8, Packet))
        requires { length self.old.items < self.old.fits }
        ensures items { self.new.items ≡ self.old.items ++ sent ∷ [] }
        ensures fits { self.new.fits ≡ self.old.fits }
    {
        if self.whole.len() < MOST_WHOLE {
            self.whole.push_reserved(sent);
        } else {
            self.behind.push_reserved(sent);
        }
    }

    /// Of the packets before `upto`, the first ones go behind the others.
    pub fn put_behind(&mut self, first: usize, upto: usize)
        requires first { first ≤ upto }
        requires upto { upto ≤ length self.old.items }
        requires few { upto ≤ most_whole }
        ensures length { length self.new.items ≡ length self.old.items }
        ensures items { self.new.items ≡ (drop first (take upto self.old.items) ++ take first (take upto self.old.items)) ++ drop upto self.old.items }
        ensures fits { self.new.fits ≡ self.old.fits }
    {
        rotate_front(self.whole.as_mut_slice(), first, upto);
    }

    /// The first packets, as they are sent, and those behind them.
    #[inline(always)]
    pub fn open(self) -> (Vec<(u8, Packet)>, BriefPackets)
        ensures parts { self.items ≡ result.0.items ++ result.1.items }
        ensures few { length self.items < 2 ^ 63 }
    {
        let PacketList {
            whole,
            behind,
            fits: _,
        } = self;
        (whole, behind)
    }

    /// The first packets, lent: all, where they are few.
    pub fn lent(&self) -> &[(u8, Packet)]
        ensures { length self.now.items ≤ most_whole → result.now ≡ self.now.items }
    {
        self.whole.as_slice()
    }
}

/// Of the packets before `upto`, the first ones go behind the others.
fn rotate_front(packets: &mut [(u8, Packet)], first: usize, upto: usize)
    requires first { first ≤ upto }
    requires upto { upto ≤ length packets.old }
    ensures rotated { packets.new ≡ (drop first (take upto packets.old) ++ take first (take upto packets.old)) ++ drop upto packets.old }
    ensures length { length packets.new ≡ length packets.old }
{
    packets[..upto].rotate_left(first);
}

/// The packets of an event that are not sent yet, each with the kernel that it goes to. Contracts see their list.
#[derive(Drop)]
pub struct Unsent {
    front: VecDeque<(u8, Packet)>,
    behind: BriefPackets,
}

impl Model for Unsent {
    ghost use Rattle.std.specs.Prelude.{◌++◌};
    ghost use Rattle.charlotte_packets.specs.Sent.{UnsentView};

    ghost Value = { UnsentView };

    ghost view = { λ p. record { items = p.front.items ++ p.behind.items } };
}

impl Unsent {
    /// No packets. It takes no memory.
    pub fn new(alloc: Global) -> Unsent
        ensures { result.items ≡ [] }
    {
        Unsent {
            front: VecDeque::new(alloc),
            behind: BriefPackets::new(),
        }
    }

    /// These packets.
    #[inline(always)]
    pub fn of(packets: PacketList) -> Unsent
        ensures items { result.items ≡ packets.items }
        ensures few { length packets.items < 2 ^ 63 }
    {
        let (whole, behind) = packets.open();
        Unsent {
            front: VecDeque::from(whole),
            behind,
        }
    }

    /// Whether there are no packets.
    pub fn is_empty(&self) -> bool
        ensures { IsTrue result ↔ (self.now.items ≡ []) }
    {
        self.front.is_empty() && self.behind.is_empty()
    }

    /// Takes out the oldest packet.
    pub fn pop_front(&mut self) -> Option<(u8, Packet)>
        ensures items { self.old.items ≡ option_to_list result ++ self.new.items }
        ensures rest { self.new.items ≡ drop 1 self.old.items }
        ensures end { IfNone result (self.new.items ≡ []) }
    {
        match self.front.pop_front() {
            Some(sent) => Some(sent),
            None => self.behind.pop_front(),
        }
    }

    /// An emptied list, with the room of the first packets.
    pub fn emptied(self) -> PacketList
        ensures { result.items ≡ [] }
    {
        let Unsent { front, behind: _ } = self;
        PacketList::within(Vec::from(front))
    }
}
