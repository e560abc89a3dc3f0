ghost use Rattle.std.specs.Prelude.{◌≡◌, ◌↔◌, ◌∷◌, ◌<◌, ◌^◌, ◌++◌, [], IfNone, IfSome, IsTrue, length, option_to_list};
ghost use Rattle.kernel_outbox.specs.Unsent.{GoesFirst};

use charlotte_packets::{BriefPackets, Packet, PacketList};
use std::alloc::Global;
use std::collections::VecDeque;
use std::marker::Model;

/// The packets of an event that are not sent yet, each with the kernel that it goes to. Contracts see their list, and how many of them, the
/// first ones, lie whole.
#[derive(Drop)]
pub(crate) struct Unsent {
    front: VecDeque<(u8, Packet)>,
    behind: BriefPackets,
}

impl Model for Unsent {
    ghost use Rattle.std.specs.Prelude.{◌++◌, length};
    ghost use Rattle.kernel_outbox.specs.Unsent.{UnsentView};

    ghost Value = { UnsentView };

    ghost view = { λ p. record { items = p.front.items ++ p.behind.items; whole = length p.front.items } };
}

impl Unsent {
    /// No packets. It takes no memory.
    pub(crate) fn new(alloc: Global) -> Unsent
        ensures { result.items ≡ [] }
    {
        Unsent {
            front: VecDeque::new(alloc),
            behind: BriefPackets::new(),
        }
    }

    /// These packets.
    #[inline(always)]
    pub(crate) fn of(packets: PacketList) -> Unsent
        ensures items { result.items ≡ packets.items }
        ensures few { length packets.items < 2 ^ 63 }
    {
        let (whole, behind) = packets.open();
        Unsent {
            front: VecDeque::from(whole),
            behind,
        }
    }

    /// Whether there are no packets.
    #[inline(always)]
    pub(crate) fn is_empty(&self) -> bool
        ensures { IsTrue result ↔ (self.now.items ≡ []) }
    {
        self.front.is_empty() && self.behind.is_empty()
    }

    /// The kernel to which the oldest packet goes, where that lies whole.
    #[inline(always)]
    pub(crate) fn target(&self) -> Option<u8>
        ensures { IfSome result (λ to. GoesFirst to self.now) }
    {
        if self.front.is_empty() {
            return None;
        }
        Some(self.front[0].0)
    }

    /// Takes out the oldest packet, which lies whole.
    #[inline(always)]
    pub(crate) fn pop_whole(&mut self) -> (u8, Packet)
        requires { 0 < self.old.whole }
        ensures { self.old.items ≡ result ∷ self.new.items }
    {
        match self.front.pop_front() {
            Some(sent) => sent,
            None => unreachable!(),
        }
    }

    /// Takes out the oldest packet.
    #[inline(never)]
    pub(crate) fn pop_front(&mut self) -> Option<(u8, Packet)>
        ensures items { self.old.items ≡ option_to_list result ++ self.new.items }
        ensures end { IfNone result (self.new.items ≡ []) }
    {
        match self.front.pop_front() {
            Some(sent) => Some(sent),
            None => self.behind.pop_front(),
        }
    }

    /// An emptied list, with the room of the first packets.
    pub(crate) fn emptied(self) -> PacketList
        ensures { result.items ≡ [] }
    {
        let Unsent { front, behind: _ } = self;
        PacketList::within(Vec::from(front))
    }
}
