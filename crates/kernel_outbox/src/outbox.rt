ghost use Rattle.std.specs.Prelude.{◌≡◌, ◌≢◌, ◌^◌, ◌<◌, ◌≤◌, ◌↔◌, ◌||◌, ◌++◌, [], ℕ, All, IfOk, IsTrue, IsFalse, OnOk, false, true, length, max};
ghost use Rattle.kernel_named.specs.Named.{GoWithin};
ghost use Rattle.kernel_net.specs.Letters.{MayBePut};
ghost use Rattle.kernel_net.specs.Ports.{HasLooked, kernels_of, place_of, places_to, put_to};
ghost use Rattle.kernel_outbox.specs.Letters.{Flushes, MayAllBePut, PutsFirst, PutsNext, PutsOne, if_to, letters_for, markers_to, outbox_to, waiting_to};

use crate::unsent::Unsent;
use charlotte_calls::NoMemory;
use charlotte_packets::PacketList;
use kernel_net::{Letter, Port};
use std::alloc::Global;
use std::collections::VecDeque;
use std::mem;

/// The letters of a node that its port did not put yet. Those to a kernel are the ones that wait for it, and behind them the unsent packets to
/// it.
#[derive(Drop)]
pub struct Outbox {
    /// The packets of the last event, each with its target, as the kernel gave them.
    unsent: Unsent,
    /// By target, the letters whose ring was full, or before which a letter or a marker stands. There are no lists before the first is needed.
    waiting: Vec<VecDeque<Letter>>,
    /// The kernels to which letters were put since this was last asked, one bit each. No clause speaks of it.
    reached: u8,
}

impl Outbox {
    /// Without letters.
    pub fn start(alloc: Global) -> Outbox
        ensures unsent { result.unsent.items ≡ [] }
        ensures waiting { result.waiting.items ≡ [] }
    {
        Outbox {
            unsent: Unsent::new(alloc),
            waiting: Vec::new(alloc),
            reached: 0,
        }
    }

    /// The packets of an event go out, where none is unsent.
    #[inline(always)]
    pub fn send(&mut self, packets: PacketList)
        ensures unsent { self.new.unsent.items ≡ packets.items }
        ensures waiting { self.new.waiting ≡ self.old.waiting }
        ensures few { length packets.items < 2 ^ 63 }
    {
        self.unsent = Unsent::of(packets);
    }

    /// The list of the unsent packets, of which there are none, for the next event to fill.
    #[inline(always)]
    pub fn emptied(&mut self) -> PacketList
        ensures unsent { self.new.unsent.items ≡ [] }
        ensures waiting { self.new.waiting ≡ self.old.waiting }
        ensures list { result.items ≡ [] }
    {
        let alloc = *self.waiting.allocator();
        mem::replace(&mut self.unsent, Unsent::new(alloc)).emptied()
    }

    /// Puts letters, to each kernel in order, while they are accepted. Whether one was put. No packet is unsent afterwards.
    #[inline(always)]
    pub fn put(&mut self, port: &mut Port) -> Result<bool, NoMemory>
        requires lists { length self.old.waiting.items ≤ kernels_of (place_of port.old) }
        requires within { GoWithin (kernels_of (place_of port.old)) self.old.unsent.items }
        requires letters { (to : ℕ) → MayAllBePut (put_to port.old to) (outbox_to self.old to) }
        ensures flushed { OnOk result (Flushes (outbox_to self.old) (outbox_to self.new) port.old port.new) }
        ensures unsent { OnOk result (self.new.unsent.items ≡ []) }
        ensures lists { OnOk result (length self.new.waiting.items ≤ kernels_of (place_of port.old)) }
        ensures some { IfOk result (λ some. some ≡ true → (to : ℕ) × (length (outbox_to self.new to) < length (outbox_to self.old to))) }
        ensures none { IfOk result (λ some. some ≡ false → (to : ℕ) → outbox_to self.new to ≡ outbox_to self.old to) }
        ensures port { IfOk result (λ some. some ≡ false → port.new ≡ port.old) }
        ensures place { place_of port.new ≡ place_of port.old }
    {
        let kernels = port.kernels();
        let waited = self.put_waiting(port);
        let sent = self.put_unsent(port, kernels)?;
        Ok(either(waited, sent))
    }

    /// Puts letters that wait, while they are accepted. Whether one was put.
    fn put_waiting(&mut self, port: &mut Port) -> bool
        requires lists { (length self.old.waiting.items ≤ kernels_of (place_of port.old)) × (length self.old.waiting.items ≤ 8) }
        requires letters { (to : ℕ) → MayAllBePut (put_to port.old to) (waiting_to self.old to) }
        ensures flushed { Flushes (waiting_to self.old) (waiting_to self.new) port.old port.new }
        ensures unsent { self.new.unsent ≡ self.old.unsent }
        ensures lists { length self.new.waiting.items ≡ length self.old.waiting.items }
        ensures some { result ≡ true → (to : ℕ) × (length (waiting_to self.new to) < length (waiting_to self.old to)) }
        ensures none { result ≡ false → (to : ℕ) → waiting_to self.new to ≡ waiting_to self.old to }
        ensures port { result ≡ false → port.new ≡ port.old }
    {
        let mut some = false;
        let mut reached = self.reached;
        for to in 0..self.waiting.len() {
            let put = put_first(&mut self.waiting[to], to as u8, port);
            reached |= bit_where(put, to as u8);
            some = either(some, put);
        }
        self.reached = reached;
        some
    }

    /// Puts each unsent packet, or lets it wait. Whether one was put.
    #[inline(always)]
    fn put_unsent(&mut self, port: &mut Port, kernels: u8) -> Result<bool, NoMemory>
        requires kernels { kernels ≡ kernels_of (place_of port.old) }
        requires lists { length self.old.waiting.items ≤ kernels }
        requires within { GoWithin kernels self.old.unsent.items }
        requires letters { (to : ℕ) → MayAllBePut (put_to port.old to) (outbox_to self.old to) }
        requires full { (to : ℕ) → 0 < length (waiting_to self.old to) → places_to port.old to ≡ 0 }
        ensures flushed { OnOk result (Flushes (outbox_to self.old) (outbox_to self.new) port.old port.new) }
        ensures unsent { OnOk result (self.new.unsent.items ≡ []) }
        ensures lists { OnOk result (length self.new.waiting.items ≤ kernels) }
        ensures some { IfOk result (λ some. some ≡ true → (to : ℕ) × (length (outbox_to self.new to) < length (outbox_to self.old to))) }
        ensures none { IfOk result (λ some. some ≡ false → (to : ℕ) → outbox_to self.new to ≡ outbox_to self.old to) }
        ensures port { IfOk result (λ some. some ≡ false → port.new ≡ port.old) }
        ensures place { place_of port.new ≡ place_of port.old }
    {
        let mut some = false;
        while !self.unsent.is_empty() {
            let put = self.put_next(port, kernels)?;
            some = either(some, put);
        }
        Ok(some)
    }

    /// Puts the first unsent packet, or lets it wait. Whether it was put. Where it can be put, it is moved straight into the ring.
    #[inline(always)]
    fn put_next(&mut self, port: &mut Port, kernels: u8) -> Result<bool, NoMemory>
        requires kernels { kernels ≡ kernels_of (place_of port.old) }
        requires lists { length self.old.waiting.items ≤ kernels }
        requires within { GoWithin kernels self.old.unsent.items }
        requires letters { (to : ℕ) → MayAllBePut (put_to port.old to) (outbox_to self.old to) }
        requires full { (to : ℕ) → 0 < length (waiting_to self.old to) → places_to port.old to ≡ 0 }
        requires some { self.old.unsent.items ≢ [] }
        ensures put { IfOk result (λ put. PutsNext put self.old self.new port.old port.new) }
        ensures port { IfOk result (λ put. put ≡ false → port.new ≡ port.old) }
        ensures place { place_of port.new ≡ place_of port.old }
        ensures lists { OnOk result (length self.new.waiting.items ≤ kernels) }
    {
        let Some(to) = self.unsent.target() else {
            return self.put_popped(port, kernels);
        };
        if self.must_wait(port, to) {
            return self.put_popped(port, kernels);
        }
        let (_, packet) = self.unsent.pop_whole();
        port.put_known(to, Letter::Packet(packet));
        self.reached |= bit_where(true, to);
        Ok(true)
    }

    /// Takes out the first unsent packet, and puts it or lets it wait. Whether it was put.
    #[inline(never)]
    fn put_popped(&mut self, port: &mut Port, kernels: u8) -> Result<bool, NoMemory>
        requires kernels { kernels ≡ kernels_of (place_of port.old) }
        requires lists { length self.old.waiting.items ≤ kernels }
        requires within { GoWithin kernels self.old.unsent.items }
        requires letters { (to : ℕ) → MayAllBePut (put_to port.old to) (outbox_to self.old to) }
        requires full { (to : ℕ) → 0 < length (waiting_to self.old to) → places_to port.old to ≡ 0 }
        requires some { self.old.unsent.items ≢ [] }
        ensures put { IfOk result (λ put. PutsNext put self.old self.new port.old port.new) }
        ensures port { IfOk result (λ put. put ≡ false → port.new ≡ port.old) }
        ensures place { place_of port.new ≡ place_of port.old }
        ensures lists { OnOk result (length self.new.waiting.items ≤ kernels) }
    {
        let Some((to, packet)) = self.unsent.pop_front() else {
            unreachable!()
        };
        self.put_one(port, kernels, to, Letter::Packet(packet))
    }

    /// Puts a letter where none waits and it is accepted, and else lets it wait. Whether it was put.
    fn put_one(
        &mut self,
        port: &mut Port,
        kernels: u8,
        to: u8,
        letter: Letter,
    ) -> Result<bool, NoMemory>
        requires kernels { kernels ≡ kernels_of (place_of port.old) }
        requires lists { length self.old.waiting.items ≤ kernels }
        requires there { to < kernels }
        requires letter { waiting_to self.old to ≡ [] → MayBePut (put_to port.old to) letter }
        requires full { 0 < length (waiting_to self.old to) → places_to port.old to ≡ 0 }
        ensures put { IfOk result (λ put. PutsOne put to letter (waiting_to self.old) (waiting_to self.new) port.old port.new) }
        ensures port { IfOk result (λ put. put ≡ false → port.new ≡ port.old) }
        ensures place { place_of port.new ≡ place_of port.old }
        ensures unsent { OnOk result (self.new.unsent ≡ self.old.unsent) }
        ensures lists { OnOk result (length self.new.waiting.items ≤ kernels) }
    {
        if self.must_wait(port, to) {
            self.wait(kernels, to, letter)?;
            return Ok(false);
        }
        port.put_known(to, letter);
        self.reached |= bit_where(true, to);
        Ok(true)
    }

    /// The kernels to which letters were put since this was last asked, one bit each, for those who have to know soon whom they can hear of.
    /// No clause speaks of the answer.
    pub fn reached(&mut self) -> u8
        ensures { self.new ≡ record self.old { reached = self.new.reached } }
    {
        mem::replace(&mut self.reached, 0)
    }

    /// Whether no letter is left to be put.
    #[inline(always)]
    pub fn is_empty(&self) -> bool
        ensures { IsTrue result ↔ ((to : ℕ) → outbox_to self.now to ≡ []) }
    {
        self.unsent.is_empty() && self.none_waits()
    }

    /// Whether no letter waits.
    #[inline(always)]
    fn none_waits(&self) -> bool
        ensures { IsTrue result ↔ All (λ list. list.items ≡ []) self.now.waiting.items }
    {
        self.waiting.iter().all(|list| list.is_empty())
    }

    /// Whether a letter to a kernel waits.
    #[inline(always)]
    fn waits(&self, to: u8) -> bool
        ensures { IsTrue result ↔ (0 < length (waiting_to self.now to)) }
    {
        match self.waiting.get(usize::from(to)) {
            Some(list) => !list.is_empty(),
            None => false,
        }
    }

    /// Whether a letter to a kernel has to wait: others do, or no free place of the ring is known.
    #[inline(always)]
    fn must_wait(&self, port: &mut Port, to: u8) -> bool
        requires there { to < kernels_of (place_of port.old) }
        requires waits { 0 < length (waiting_to self.now to) → places_to port.old to ≡ 0 }
        ensures full { IsTrue result → (port.new ≡ port.old) × (places_to port.new to ≡ 0) }
        ensures free { IsFalse result → (waiting_to self.now to ≡ []) × (0 < places_to port.new to) }
        ensures looked { HasLooked to port.old port.new }
        ensures into { port.new.into ≡ port.old.into }
        ensures place { place_of port.new ≡ place_of port.old }
    {
        if self.waits(to) {
            return true;
        }
        port.is_full(to)
    }

    /// A letter to a kernel waits, behind those that do.
    fn wait(&mut self, kernels: u8, to: u8, letter: Letter) -> Result<(), NoMemory>
        requires there { to < kernels }
        requires lists { length self.old.waiting.items ≤ kernels }
        ensures waiting { OnOk result ((q : ℕ) → waiting_to self.new q ≡ waiting_to self.old q ++ if_to q to letter) }
        ensures unsent { OnOk result (self.new.unsent ≡ self.old.unsent) }
        ensures lists { OnOk result (length self.new.waiting.items ≤ kernels) }
    {
        self.make_lists(kernels)?;
        let list = &mut self.waiting[usize::from(to)];
        list.push_back(letter)?;
        Ok(())
    }

    /// There is a list for each of so many kernels.
    fn make_lists(&mut self, kernels: u8) -> Result<(), NoMemory>
        requires { length self.old.waiting.items ≤ kernels }
        ensures waiting { OnOk result ((q : ℕ) → waiting_to self.new q ≡ waiting_to self.old q) }
        ensures unsent { OnOk result (self.new.unsent ≡ self.old.unsent) }
        ensures lists { OnOk result (length self.new.waiting.items ≡ kernels) }
    {
        let alloc = *self.waiting.allocator();
        while self.waiting.len() < usize::from(kernels) {
            self.waiting.push(VecDeque::new(alloc))?;
        }
        Ok(())
    }

    /// A marker goes out to each of so many kernels, behind all packets so far.
    pub fn mark(&mut self, kernels: u8) -> Result<(), NoMemory>
        requires lists { length self.old.waiting.items ≤ kernels }
        requires within { GoWithin kernels self.old.unsent.items }
        ensures letters { OnOk result ((to : ℕ) → outbox_to self.new to ≡ outbox_to self.old to ++ markers_to kernels to) }
        ensures unsent { OnOk result (self.new.unsent.items ≡ []) }
        ensures lists { OnOk result (length self.new.waiting.items ≡ kernels) }
    {
        self.make_lists(kernels)?;
        self.let_wait()?;
        self.mark_each()?;
        Ok(())
    }

    /// A marker waits behind the letters of each list.
    fn mark_each(&mut self) -> Result<(), NoMemory>
        ensures waiting { OnOk result ((to : ℕ) → waiting_to self.new to ≡ waiting_to self.old to ++ markers_to (length self.old.waiting.items) to) }
        ensures unsent { OnOk result (self.new.unsent ≡ self.old.unsent) }
        ensures lists { OnOk result (length self.new.waiting.items ≡ length self.old.waiting.items) }
    {
        for to in 0..self.waiting.len() {
            let list = &mut self.waiting[to];
            list.push_back(Letter::Marker)?;
        }
        Ok(())
    }

    /// Each unsent packet waits, where there is a list for each kernel.
    fn let_wait(&mut self) -> Result<(), NoMemory>
        requires within { GoWithin (length self.old.waiting.items) self.old.unsent.items }
        ensures letters { OnOk result ((to : ℕ) → outbox_to self.new to ≡ outbox_to self.old to) }
        ensures unsent { OnOk result (self.new.unsent.items ≡ []) }
        ensures lists { OnOk result (length self.new.waiting.items ≡ length self.old.waiting.items) }
    {
        while let Some((to, packet)) = self.unsent.pop_front() {
            let list = &mut self.waiting[usize::from(to)];
            list.push_back(Letter::Packet(packet))?;
        }
        Ok(())
    }
}

/// Puts the first letters of a list to a kernel, while they are accepted. Whether one was put.
#[inline(never)]
fn put_first(list: &mut VecDeque<Letter>, to: u8, port: &mut Port) -> bool
    requires kernel { to < kernels_of (place_of port.old) }
    requires letters { MayAllBePut (put_to port.old to) list.old.items }
    ensures puts { PutsFirst to list.old.items list.new.items port.old port.new }
    ensures some { result ≡ true → length list.new.items < length list.old.items }
    ensures none { result ≡ false → list.new.items ≡ list.old.items }
    ensures port { result ≡ false → port.new ≡ port.old }
{
    let mut some = false;
    while !list.is_empty() {
        if port.is_full(to) {
            return some;
        }
        let Some(letter) = list.pop_front() else {
            unreachable!()
        };
        port.put_known(to, letter);
        some = true;
    }
    some
}

/// The bit of a kernel to which a letter was put, if one was.
#[inline(always)]
fn bit_where(put: bool, to: u8) -> u8 {
    if put {
        1u8.wrapping_shl(u32::from(to))
    } else {
        0
    }
}

#[inline(always)]
fn either(a: bool, b: bool) -> bool
    ensures { result ≡ (a || b) }
{
    a || b
}
