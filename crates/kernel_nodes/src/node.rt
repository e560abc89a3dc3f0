ghost use Rattle.std.specs.Prelude.{◌≡◌, ◌≢◌, ◌↔◌, ◌<◌, ℕ, ◌++◌, [], ◌∷◌, All, IfOk, IfSome, IsTrue, OnOk, List, drop, length, map, option_copied, option_map, slice_get};
ghost use Rattle.charlotte_packets.specs.Packets.{packet_picture};
ghost use Rattle.charlotte_calls.specs.Setting.{IsValid};
ghost use Rattle.charlotte_calls.specs.declared.names.EndId.{EndId};
ghost use Rattle.charlotte_packets.specs.declared.packet.Packet.{Packet as APacket};
ghost use Rattle.end_table.specs.Table.{entries};
ghost use Rattle.kernel_core.specs.State.{ended, state_of};
ghost use Rattle.kernel_named.specs.Named.{GoWithin};
ghost use Rattle.kernel_step.specs.Calls.{IsCallWith};
ghost use Rattle.kernel_step.specs.Kernel.{call_step, take_step, process_of, without_answer};
ghost use Rattle.kernel_step.specs.Progress.{sent_picture};
ghost use Rattle.kernel_step.specs.Start.{start_kernel};
ghost use Rattle.kernel_step.specs.declared.phase.Phase.TheVariants.{Running};
ghost use Rattle.kernel_world.specs.World.{to_kernel};
ghost use Rattle.packet_queue.specs.Queue.{picture_in, waiting};
ghost use Rattle.kernel_nodes.specs.Nodes.{sent_to, IsNodeOf, IsAfter, IsNotedOf};

use crate::nodes::Noted;
use charlotte_calls::{NoMemory, ServiceStep, Setting};
use charlotte_packets::{BriefPackets, Effect, Packet, PacketList};
use kernel_core::{Kernel, Request};
use packet_queue::{MOST_IN_FRONT, OpenQueue, PacketQueue};
use std::alloc::Global;
use std::collections::VecDeque;

/// A kernel, and what it sent.
#[derive(Drop)]
pub(crate) struct Node {
    pub(crate) kernel: Kernel,
    /// The packets that were not taken yet: a queue for each kernel that there is.
    pub(crate) sent: Vec<PacketQueue>,
}

impl Node {
    /// A kernel of a setting before any event.
    pub(crate) fn start(alloc: Global, id: u8, setting: &Setting) -> Result<Node, NoMemory>
        requires valid { IsValid setting.now }
        requires below { id < setting.now.kernels }
        ensures state { IfOk result (λ node. state_of node.kernel ≡ start_kernel setting.now id) }
        ensures sent { IfOk result (λ node. (to : ℕ) → sent_to node to ≡ []) }
        ensures node { IfOk result (λ node. IsNodeOf setting.now node) }
    {
        Ok(Node {
            kernel: Kernel::start(alloc, id, setting)?,
            sent: empty_queues(alloc, setting.kernels)?,
        })
    }

    /// A process that runs makes a call; the answer that stood is let go.
    pub(crate) fn ask(&mut self, request: &Request) -> Result<Noted, NoMemory>
        requires process { request.now.p.0 < length self.old.kernel.processes }
        requires running { (process_of request.now.p (state_of self.old.kernel)).phase ≡ Running }
        requires lists { length self.old.sent.items ≡ self.old.kernel.kernels }
        ensures after { IfOk result (λ noted. (mine : List EndId) × IsCallWith request.now.p (entries self.old.kernel.table) mine request.now.call
            × IsNotedOf (call_step (without_answer request.now.p (state_of self.old.kernel)) request.now.p mine request.now.call) noted
            × IsAfter (call_step (without_answer request.now.p (state_of self.old.kernel)) request.now.p mine request.now.call) self.old self.new) }
    {
        let effect = self.kernel.ask_again(request)?;
        self.send(effect)
    }

    /// Takes the first of the packets that a kernel sent to this one, where it lies. What it brings is taken out of it.
    #[inline(always)]
    pub(crate) fn take(&mut self, from: u8, waiting: &mut OpenQueue) -> Result<Effect, NoMemory>
        requires from { from < self.old.kernel.kernels }
        requires some { (sent : ℕ × APacket) × (others : List (ℕ × APacket)) × (waiting.old.front.items ≡ sent ∷ others) }
        ensures step { IfOk result (λ effect. (sent : ℕ × APacket) (others : List (ℕ × APacket)) → waiting.old.front.items ≡ sent ∷ others
            → ended (state_of self.new.kernel) effect ≡ take_step (state_of self.old.kernel) from (picture_in sent)) }
        ensures left { OnOk result (waiting.new.front.items ≡ drop 1 waiting.old.front.items) }
        ensures behind { waiting.new.behind ≡ waiting.old.behind }
        ensures stamp { IfOk result (λ effect. effect.stamp ≡ self.new.kernel.stamp) }
        ensures there { IfOk result (λ effect. GoWithin self.new.kernel.kernels effect.packets.items) }
        ensures kernels { self.new.kernel.kernels ≡ self.old.kernel.kernels }
        ensures processes { length self.new.kernel.processes ≡ length self.old.kernel.processes }
        ensures sent { self.new.sent ≡ self.old.sent }
    {
        let effect = self.kernel.take_from(from, &mut waiting.front[0].1)?;
        let _taken = waiting.front.pop_front();
        Ok(effect)
    }

    /// Takes out the packets to a kernel.
    #[inline(always)]
    pub(crate) fn lift(&mut self, to: u8) -> OpenQueue
        requires { to < length self.old.sent.items }
        ensures queue { waiting result ≡ sent_to self.old to }
        ensures front { result.front.items ≡ [] → result.behind.items ≡ [] }
        ensures others { (q : ℕ) → q ≢ to → sent_to self.new q ≡ sent_to self.old q }
        ensures kernel { self.new.kernel ≡ self.old.kernel }
        ensures lists { length self.new.sent.items ≡ length self.old.sent.items }
    {
        self.sent[usize::from(to)].open()
    }

    /// Puts packets in the place of those to a kernel.
    #[inline(always)]
    pub(crate) fn lower(&mut self, to: u8, queue: OpenQueue) -> Result<(), NoMemory>
        requires { to < length self.old.sent.items }
        ensures queue { OnOk result (sent_to self.new to ≡ waiting queue) }
        ensures others { (q : ℕ) → q ≢ to → sent_to self.new q ≡ sent_to self.old q }
        ensures kernel { self.new.kernel ≡ self.old.kernel }
        ensures lists { length self.new.sent.items ≡ length self.old.sent.items }
    {
        let left = queue.close(to)?;
        self.sent[usize::from(to)] = left;
        Ok(())
    }

    /// Gives the list of the steps of an event that is over back to the kernel.
    pub(crate) fn reuse(&mut self, steps: Vec<ServiceStep>)
        ensures kernel { self.new.kernel ≡ self.old.kernel }
        ensures sent { self.new.sent ≡ self.old.sent }
    {
        self.kernel.reuse_steps(steps);
    }

    /// Sends the packets of an event, and gives the kernel its lists back, but for that of the steps.
    #[inline(always)]
    pub(crate) fn send(&mut self, effect: Effect) -> Result<Noted, NoMemory>
        requires { GoWithin (length self.old.sent.items) effect.packets.items }
        ensures noted { IfOk result (λ noted. (noted.stamp ≡ effect.stamp) × (noted.steps ≡ effect.steps)) }
        ensures kernel { self.new.kernel ≡ self.old.kernel }
        ensures sent { OnOk result ((to : ℕ) → sent_to self.new to ≡ sent_to self.old to ++ to_kernel to (map sent_picture effect.packets.items)) }
        ensures lists { length self.new.sent.items ≡ length self.old.sent.items }
    {
        let Effect {
            stamp,
            packets,
            answered,
            steps,
        } = effect;
        self.kernel.reuse_answered(answered);
        let sent = self.send_all(packets)?;
        if sent.capacity() <= MOST_IN_FRONT {
            self.kernel.reuse(PacketList::within(sent));
        }
        Ok(Noted { stamp, steps })
    }

    /// Sends packets, and gives the emptied list of the first ones back. Most events have none.
    #[inline(always)]
    fn send_all(&mut self, packets: PacketList) -> Result<Vec<(u8, Packet)>, NoMemory>
        requires { GoWithin (length self.old.sent.items) packets.items }
        ensures kernel { self.new.kernel ≡ self.old.kernel }
        ensures sent { OnOk result ((to : ℕ) → sent_to self.new to ≡ sent_to self.old to ++ to_kernel to (map sent_picture packets.items)) }
        ensures lists { length self.new.sent.items ≡ length self.old.sent.items }
    {
        let (first, behind) = packets.open();
        let sent = self.send_first(first)?;
        if !behind.is_empty() {
            self.send_behind(behind)?;
        }
        Ok(sent)
    }

    /// Sends the first packets of an event, and gives their emptied list back.
    #[inline(always)]
    fn send_first(&mut self, packets: Vec<(u8, Packet)>) -> Result<Vec<(u8, Packet)>, NoMemory>
        requires { GoWithin (length self.old.sent.items) packets.items }
        ensures kernel { self.new.kernel ≡ self.old.kernel }
        ensures sent { OnOk result ((to : ℕ) → sent_to self.new to ≡ sent_to self.old to ++ to_kernel to (map sent_picture packets.items)) }
        ensures lists { length self.new.sent.items ≡ length self.old.sent.items }
    {
        if packets.is_empty() {
            return Ok(packets);
        }
        self.send_some(packets)
    }

    /// Sends the packets behind them.
    #[inline(never)]
    fn send_behind(&mut self, mut packets: BriefPackets) -> Result<(), NoMemory>
        requires { GoWithin (length self.old.sent.items) packets.items }
        ensures kernel { self.new.kernel ≡ self.old.kernel }
        ensures sent { OnOk result ((to : ℕ) → sent_to self.new to ≡ sent_to self.old to ++ to_kernel to (map sent_picture packets.items)) }
        ensures lists { length self.new.sent.items ≡ length self.old.sent.items }
    {
        while let Some(sent) = packets.pop_front() {
            self.sent[usize::from(sent.0)].push(sent)?;
        }
        Ok(())
    }

    /// Sends packets, and gives an emptied list back. Those that all go where none waits are not moved: their list changes places with the empty one.
    #[inline(never)]
    fn send_some(&mut self, packets: Vec<(u8, Packet)>) -> Result<Vec<(u8, Packet)>, NoMemory>
        requires { GoWithin (length self.old.sent.items) packets.items }
        ensures kernel { self.new.kernel ≡ self.old.kernel }
        ensures sent { OnOk result ((to : ℕ) → sent_to self.new to ≡ sent_to self.old to ++ to_kernel to (map sent_picture packets.items)) }
        ensures lists { length self.new.sent.items ≡ length self.old.sent.items }
    {
        if packets.capacity() > MOST_IN_FRONT {
            return self.send_many(packets);
        }
        match target_of_all(packets.as_slice()) {
            Some(to) if self.sent[usize::from(to)].is_empty() => Ok(self.send_whole(to, packets)),
            _ => self.send_many(packets),
        }
    }

    /// Packets to one kernel are sent where none waits: their list is sent whole.
    fn send_whole(&mut self, to: u8, packets: Vec<(u8, Packet)>) -> Vec<(u8, Packet)>
        requires there { to < length self.old.sent.items }
        requires together { All (λ sent. sent.0 ≡ to) packets.items }
        requires none { sent_to self.old to ≡ [] }
        ensures kernel { self.new.kernel ≡ self.old.kernel }
        ensures sent { (q : ℕ) → sent_to self.new q ≡ sent_to self.old q ++ to_kernel q (map sent_picture packets.items) }
        ensures lists { length self.new.sent.items ≡ length self.old.sent.items }
    {
        self.sent[usize::from(to)].put_all(packets)
    }

    fn send_many(&mut self, packets: Vec<(u8, Packet)>) -> Result<Vec<(u8, Packet)>, NoMemory>
        requires { GoWithin (length self.old.sent.items) packets.items }
        ensures kernel { self.new.kernel ≡ self.old.kernel }
        ensures sent { OnOk result ((to : ℕ) → sent_to self.new to ≡ sent_to self.old to ++ to_kernel to (map sent_picture packets.items)) }
        ensures lists { length self.new.sent.items ≡ length self.old.sent.items }
    {
        let sent = self.send_each(VecDeque::from(packets))?;
        Ok(Vec::from(sent))
    }

    fn send_each(
        &mut self,
        mut packets: VecDeque<(u8, Packet)>,
    ) -> Result<VecDeque<(u8, Packet)>, NoMemory>
        requires { GoWithin (length self.old.sent.items) packets.items }
        ensures kernel { self.new.kernel ≡ self.old.kernel }
        ensures sent { OnOk result ((to : ℕ) → sent_to self.new to ≡ sent_to self.old to ++ to_kernel to (map sent_picture packets.items)) }
        ensures lists { length self.new.sent.items ≡ length self.old.sent.items }
    {
        while let Some(sent) = packets.pop_front() {
            self.sent[usize::from(sent.0)].push(sent)?;
        }
        Ok(packets)
    }

    /// The oldest packet to a kernel that was not taken yet, lent.
    pub(crate) fn first(&self, to: u8) -> Option<&Packet>
        ensures { option_map packet_picture (option_copied result) ≡ slice_get (sent_to self.now to) 0 }
    {
        if usize::from(to) >= self.sent.len() {
            return None;
        }
        self.sent[usize::from(to)].first()
    }

    /// Whether no packet of this node waits to be taken.
    pub(crate) fn is_quiet(&self) -> bool
        ensures { IsTrue result ↔ All (λ queue. queue ≡ []) self.now.sent.items }
    {
        self.sent.iter().all(|queue| queue.is_empty())
    }
}

/// The kernel to which these packets go, where all go to one.
fn target_of_all(packets: &[(u8, Packet)]) -> Option<u8>
    ensures all { IfSome result (λ to. All (λ sent. sent.0 ≡ to) packets.now) }
    ensures some { IfSome result (λ to. 0 < length packets.now) }
{
    let (first, _) = packets.first()?;
    if packets.iter().all(|(to, _)| to == first) {
        Some(*first)
    } else {
        None
    }
}

fn empty_queues(alloc: Global, kernels: u8) -> Result<Vec<PacketQueue>, NoMemory>
    ensures { IfOk result (λ queues. (length queues.items ≡ kernels) × All (λ queue. queue ≡ []) queues.items) }
{
    let mut queues = Vec::with_capacity(alloc, usize::from(kernels))?;
    for _ in 0..kernels {
        queues.push(PacketQueue::new(alloc))?;
    }
    Ok(queues)
}
