ghost use Rattle.std.specs.Prelude.{◌≡◌, ◌↔◌, ◌<◌, ◌^◌, ◌++◌, [], ◌∷◌, IfNone, IfOk, IsTrue, drop, length, option_to_list};

use crate::{Packet, What};
use charlotte_calls::{EndId, NoMemory};
use std::alloc::Global;
use std::collections::VecDeque;
use std::marker::Model;

/// A packet in the memory of what it says, with the kernel that it goes to. A process that exits sends these.
#[derive(Drop)]
pub(crate) enum Brief {
    Gone {
        to: u8,
        at: u8,
        end: EndId,
        stamp: u64,
    },
    /// The next of the packets that lie whole.
    Whole {
        to: u8,
    },
}

/// The packets that lie so, in order.
#[derive(Drop)]
pub(crate) struct BriefList {
    briefs: VecDeque<Brief>,
    /// The packets of any other kind.
    whole: VecDeque<Packet>,
    /// For so many packets there is room.
    fits: usize,
}

impl Model for BriefList {
    ghost use Rattle.std.specs.VecDeque.{deque_capacity};
    ghost use Rattle.charlotte_packets.specs.Sent.{ListView, packets_of, AreBrief};

    ghost Value = { ListView };

    ghost view = { λ p. record { items = packets_of p.briefs.items p.whole.items; fits = p.fits } };

    ghost invariant = { λ p. AreBrief p.briefs.items p.whole.items (deque_capacity p.briefs) (deque_capacity p.whole) p.fits };
}

impl BriefList {
    /// No packets, and room for so many.
    fn with_room(alloc: Global, most: usize) -> Result<BriefList, NoMemory>
        ensures items { IfOk result (λ list. list.items ≡ []) }
        ensures room { IfOk result (λ list. list.fits ≡ most) }
        ensures few { IfOk result (λ _. most < 2 ^ 63) }
    {
        Ok(BriefList {
            briefs: VecDeque::with_capacity(alloc, most)?,
            whole: VecDeque::with_capacity(alloc, most)?,
            fits: most,
        })
    }

    /// Whether there are no packets.
    fn is_empty(&self) -> bool
        ensures { IsTrue result ↔ (self.now.items ≡ []) }
    {
        self.briefs.is_empty()
    }

    /// A packet joins the others, behind them.
    fn push_reserved(&mut self, sent: (u8, Packet))
        requires { length self.old.items < self.old.fits }
        ensures items { self.new.items ≡ self.old.items ++ sent ∷ [] }
        ensures fits { self.new.fits ≡ self.old.fits }
    {
        match &sent.1.what {
            &What::Gone { to: end, at } => {
                self.briefs.push_back_reserved(Brief::Gone {
                    to: sent.0,
                    at,
                    end,
                    stamp: sent.1.stamp,
                });
            }
            _ => {
                let (to, packet) = sent;
                self.whole.push_back_reserved(packet);
                self.briefs.push_back_reserved(Brief::Whole { to });
            }
        }
    }

    /// Takes out the oldest packet.
    fn pop_front(&mut self) -> Option<(u8, Packet)>
        ensures items { self.old.items ≡ option_to_list result ++ self.new.items }
        ensures rest { self.new.items ≡ drop 1 self.old.items }
        ensures end { IfNone result (self.new.items ≡ []) }
    {
        match self.briefs.pop_front() {
            None => None,
            Some(Brief::Gone { to, at, end, stamp }) => {
                let what = What::Gone { to: end, at };
                Some((to, Packet { stamp, what }))
            }
            Some(Brief::Whole { to }) => match self.whole.pop_front() {
                Some(packet) => Some((to, packet)),
                None => unreachable!(),
            },
        }
    }
}

/// Packets, each with the kernel that it goes to, which take little memory where they tell of destruction. Contracts see their list, and for how
/// many there is room.
#[derive(Drop)]
pub struct BriefPackets {
    /// Nothing where there never was room.
    list: Option<Box<BriefList>>,
}

impl Model for BriefPackets {
    ghost use Rattle.charlotte_packets.specs.Sent.{ListView, held};

    ghost Value = { ListView };

    ghost view = { λ p. held p.list };
}

impl BriefPackets {
    /// No packets, and no room. It takes no memory.
    #[inline(always)]
    pub fn new() -> BriefPackets
        ensures items { result.items ≡ [] }
        ensures fits { result.fits ≡ 0 }
    {
        BriefPackets { list: None }
    }

    /// No packets, and room for so many.
    pub fn with_room(alloc: Global, most: usize) -> Result<BriefPackets, NoMemory>
        ensures items { IfOk result (λ packets. packets.items ≡ []) }
        ensures room { IfOk result (λ packets. packets.fits ≡ most) }
        ensures few { IfOk result (λ _. most < 2 ^ 63) }
    {
        let list = BriefList::with_room(alloc, most)?;
        Ok(BriefPackets {
            list: Some(Box::new(alloc, list)?),
        })
    }

    /// Whether there are no packets.
    #[inline(always)]
    pub fn is_empty(&self) -> bool
        ensures { IsTrue result ↔ (self.now.items ≡ []) }
    {
        match &self.list {
            None => true,
            Some(list) => list.is_empty(),
        }
    }

    /// A packet joins the others, behind them.
    #[inline(never)]
    pub fn push_reserved(&mut self, sent: (u8, Packet))
        requires { length self.old.items < self.old.fits }
        ensures items { self.new.items ≡ self.old.items ++ sent ∷ [] }
        ensures fits { self.new.fits ≡ self.old.fits }
    {
        match &mut self.list {
            None => unreachable!(),
            Some(list) => list.push_reserved(sent),
        }
    }

    /// Takes out the oldest packet.
    pub fn pop_front(&mut self) -> Option<(u8, Packet)>
        ensures items { self.old.items ≡ option_to_list result ++ self.new.items }
        ensures rest { self.new.items ≡ drop 1 self.old.items }
        ensures end { IfNone result (self.new.items ≡ []) }
    {
        match &mut self.list {
            None => None,
            Some(list) => list.pop_front(),
        }
    }
}
