ghost use Rattle.std.specs.Prelude.{◌≡◌, ◌↔◌, ◌++◌, [], ◌∷◌, ℕ, IfOk, IsTrue, OnOk, List, map, option_copied, option_map, slice_get};
ghost use Rattle.charlotte_packets.specs.Packets.{packet_picture};
ghost use Rattle.charlotte_packets.specs.declared.picture.Picture.{Picture};
ghost use Rattle.packet_queue.specs.Queue.{picture_in, pictures, waiting};

use crate::packed::Packed;
use charlotte_calls::NoMemory;
use charlotte_packets::Packet;
use std::alloc::Global;
use std::collections::VecDeque;
use std::marker::Model;
use std::mem;

/// So many packets at most lie as they were sent.
pub const MOST_IN_FRONT: usize = 64;

/// The packets from one kernel to another that were not taken yet. Contracts see their list, oldest first.
#[derive(Drop)]
pub struct PacketQueue {
    /// The oldest ones, as an event gave them.
    front: VecDeque<(u8, Packet)>,
    /// Those behind.
    behind: VecDeque<Packed>,
}

impl Model for PacketQueue {
    ghost use Rattle.std.specs.Prelude.{◌≡◌, [], List};
    ghost use Rattle.charlotte_packets.specs.declared.picture.Picture.{Picture};
    ghost use Rattle.packet_queue.specs.Queue.{pictures};

    ghost Value = { List Picture };

    ghost view = { λ q. pictures q.front.items q.behind.items };

    ghost invariant = { λ q. q.front.items ≡ [] → q.behind.items ≡ [] };
}

impl PacketQueue {
    /// No packets. It takes no memory.
    pub fn new(alloc: Global) -> PacketQueue
        ensures { result ≡ [] }
    {
        PacketQueue {
            front: VecDeque::new(alloc),
            behind: VecDeque::new(alloc),
        }
    }

    /// Whether there are no packets.
    #[inline(always)]
    pub fn is_empty(&self) -> bool
        ensures { IsTrue result ↔ (self.now ≡ []) }
    {
        self.front.is_empty()
    }

    /// The oldest packet, lent.
    #[inline(always)]
    pub fn first(&self) -> Option<&Packet>
        ensures { option_map packet_picture (option_copied result) ≡ slice_get self.now 0 }
    {
        match self.front.front() {
            Some((_, packet)) => Some(packet),
            None => None,
        }
    }

    /// A packet joins the others, behind them.
    pub fn push(&mut self, sent: (u8, Packet)) -> Result<(), NoMemory>
        ensures { OnOk result (self.new ≡ self.old ++ picture_in sent ∷ []) }
    {
        if self.behind.is_empty() && self.front.len() < MOST_IN_FRONT {
            self.front.reserve(1)?;
            self.front.push_back_reserved(sent);
            return Ok(());
        }
        self.push_behind(sent)
    }

    /// A packet joins those that are packed.
    #[inline(never)]
    fn push_behind(&mut self, sent: (u8, Packet)) -> Result<(), NoMemory>
        requires { (q : Picture) × (others : List Picture) × (self.old ≡ q ∷ others) }
        ensures { OnOk result (self.new ≡ self.old ++ picture_in sent ∷ []) }
    {
        let alloc = *self.behind.allocator();
        let packed = Packed::of(alloc, sent)?;
        self.behind.reserve(1)?;
        self.behind.push_back_reserved(packed);
        Ok(())
    }

    /// Packets come where there are none, as they lie. It gives an emptied list.
    #[inline(always)]
    pub fn put_all(&mut self, packets: Vec<(u8, Packet)>) -> Vec<(u8, Packet)>
        requires { self.old ≡ [] }
        ensures { self.new ≡ map picture_in packets.items }
    {
        Vec::from(mem::replace(&mut self.front, VecDeque::from(packets)))
    }

    /// Takes out the packets, so that those in front are in reach; none are left.
    #[inline(always)]
    pub fn open(&mut self) -> OpenQueue
        ensures same { waiting result ≡ self.old }
        ensures front { result.front.items ≡ [] → result.behind.items ≡ [] }
        ensures none { self.new ≡ [] }
    {
        let alloc = *self.front.allocator();
        OpenQueue {
            front: mem::replace(&mut self.front, VecDeque::new(alloc)),
            behind: mem::replace(&mut self.behind, VecDeque::new(alloc)),
        }
    }
}

/// A queue whose packets in front are in reach, to be taken where they lie.
#[derive(Drop)]
pub struct OpenQueue {
    /// The oldest packets, as an event gave them.
    pub front: VecDeque<(u8, Packet)>,
    /// Those behind.
    behind: VecDeque<Packed>,
}

impl OpenQueue {
    /// The queue of the packets that are left. They go to this kernel.
    #[inline(always)]
    pub fn close(self, to: u8) -> Result<PacketQueue, NoMemory>
        ensures { IfOk result (λ queue. queue ≡ waiting self) }
    {
        let OpenQueue {
            mut front,
            mut behind,
        } = self;
        if front.is_empty() && !behind.is_empty() {
            unpack(&mut front, &mut behind, to)?;
        }
        Ok(PacketQueue { front, behind })
    }
}

/// Packed packets to a kernel are put together again, as many as may lie in front, where none lies.
#[inline(never)]
fn unpack(
    front: &mut VecDeque<(u8, Packet)>,
    behind: &mut VecDeque<Packed>,
    to: u8,
) -> Result<(), NoMemory>
    requires { front.old.items ≡ [] }
    ensures same { pictures front.new.items behind.new.items ≡ pictures front.old.items behind.old.items }
    ensures front { OnOk result (front.new.items ≡ [] → behind.new.items ≡ []) }
{
    front.reserve(MOST_IN_FRONT)?;
    while front.len() < MOST_IN_FRONT && !behind.is_empty() {
        match behind.pop_front() {
            Some(packed) => packed.join(to, front),
            None => unreachable!(),
        }
    }
    if behind.is_empty() {
        *behind = VecDeque::new(*behind.allocator());
    }
    Ok(())
}
