ghost use Rattle.std.specs.Prelude.{◌≡◌, ◌↔◌, ◌≤◌, ◌<◌, [], All, IfOk, IsTrue, List, MatchOption, Some, length, option_copied, option_map, slice_get};
ghost use Rattle.charlotte_packets.specs.Packets.{packet_picture};
ghost use Rattle.charlotte_calls.specs.Setting.{IsValid};
ghost use Rattle.charlotte_calls.specs.declared.names.EndId.{EndId};
ghost use Rattle.charlotte_packets.specs.declared.picture.Picture.{Picture as APicture};
ghost use Rattle.charlotte_calls.specs.declared.setting.Setting.{Setting as ASetting};
ghost use Rattle.kernel_step.specs.Calls.{IsCallWith};
ghost use Rattle.kernel_step.specs.Kernel.{process_of};
ghost use Rattle.kernel_step.specs.declared.phase.Phase.TheVariants.{Running};
ghost use Rattle.kernel_world.specs.Run.{AllTaken};
ghost use Rattle.kernel_world.specs.World.{Calls, Takes, start};
ghost use Rattle.kernel_nodes.specs.Nodes.{AreNodes, Happens, IsKernelAt, TakesTold, world_of};

use crate::node::Node;
use charlotte_calls::{NoMemory, Pid, ServiceStep, Setting};
use charlotte_packets::{Packet, PictureWhat};
use kernel_core::{Kernel, Request};
use std::alloc::Global;
use transcript_matching::is_told;

/// What is noted of an event, besides what happened.
#[derive(Debug, Drop)]
pub struct Noted {
    pub stamp: u64,
    /// What the event means to the link service, in order.
    pub steps: Vec<ServiceStep>,
}

/// The kernels of a setting, by their numbers, with the packets that were sent and not taken.
#[derive(Drop)]
pub struct Nodes {
    nodes: Vec<Node>,
}

impl Nodes {
    /// The kernels of a setting before any event.
    pub fn start(alloc: Global, setting: &Setting) -> Result<Nodes, NoMemory>
        requires { IsValid setting.now }
        ensures nodes { IfOk result (λ all. AreNodes setting.now all.nodes.items) }
        ensures start { IfOk result (λ all. world_of setting.now all.nodes.items ≡ start setting.now) }
    {
        let mut nodes = Vec::new(alloc);
        for id in 0..setting.kernels {
            nodes.push(Node::start(alloc, id, setting)?)?;
        }
        Ok(Nodes { nodes })
    }

    /// Whether a process runs at a kernel: it may make a call.
    pub fn running(&self, kernel: u8, p: Pid) -> bool
        requires { (s : ASetting) × AreNodes s self.now.nodes.items × (kernel < s.kernels) × (p.0 < length s.homes) }
        ensures { (s : ASetting) → IsTrue result ↔ ((process_of p ((world_of s self.now.nodes.items).kernel kernel)).phase ≡ Running) }
    {
        self.nodes[usize::from(kernel)].kernel.running(p)
    }

    /// A process that runs makes a call of its kernel; the answer that stood is let go. After want of memory no further call is made.
    pub fn ask(&mut self, kernel: u8, request: &Request) -> Result<Noted, NoMemory>
        requires { (s : ASetting) × AreNodes s self.old.nodes.items × (kernel < s.kernels) × (request.now.p.0 < length s.homes)
            × ((process_of request.now.p ((world_of s self.old.nodes.items).kernel kernel)).phase ≡ Running) }
        ensures { IfOk result (λ noted. (s : ASetting) → AreNodes s self.old.nodes.items → (mine : List EndId)
            × IsCallWith request.now.p ((world_of s self.old.nodes.items).kernel kernel).table mine request.now.call
            × Happens s (Calls kernel request.now.p request.now.call mine) noted self.old.nodes.items self.new.nodes.items) }
    {
        self.nodes[usize::from(kernel)].ask(request)
    }

    /// Takes the first packet from one kernel to another, which is there. After want of memory no further call is made.
    pub fn take_first(&mut self, from: u8, to: u8) -> Result<Noted, NoMemory>
        requires { (s : ASetting) × (q : APicture) × AreNodes s self.old.nodes.items × (from < s.kernels) × (to < s.kernels)
            × (slice_get ((world_of s self.old.nodes.items).packets from to) 0 ≡ Some q) }
        ensures { IfOk result (λ noted. (s : ASetting) → AreNodes s self.old.nodes.items → Happens s (Takes to from) noted self.old.nodes.items self.new.nodes.items) }
    {
        let sender = usize::from(from);
        let taker = usize::from(to);
        let mut waiting = self.nodes[sender].lift(to);
        let effect = self.nodes[taker].take(from, &mut waiting)?;
        self.nodes[sender].lower(to, waiting)?;
        self.nodes[taker].send(effect)
    }

    /// Takes the first packet from one kernel to another, if it tells this; `None` exactly where there is none, the first tells
    /// something else, or the other kernel is not there. After `None` and after want of memory no further call is made.
    pub fn take_told(
        &mut self,
        from: u8,
        to: u8,
        what: &PictureWhat,
    ) -> Result<Option<Noted>, NoMemory>
        requires { (s : ASetting) × AreNodes s self.old.nodes.items }
        ensures { IfOk result (λ noted. (s : ASetting) → AreNodes s self.old.nodes.items → TakesTold s from to what.now noted self.old.nodes.items self.new.nodes.items) }
    {
        if usize::from(to) >= self.nodes.len() {
            return Ok(None);
        }
        let Some(packet) = self.first(from, to) else {
            return Ok(None);
        };
        if !is_told(&packet.what, what) {
            return Ok(None);
        }
        let noted = self.take_first(from, to)?;
        Ok(Some(noted))
    }

    /// Gives the list of the steps of an event that is over back to a kernel, which empties it: its next event takes the room. A
    /// kernel that is not there lets it go.
    pub fn reuse(&mut self, kernel: u8, steps: Vec<ServiceStep>)
        ensures { (s : ASetting) → AreNodes s self.old.nodes.items → AreNodes s self.new.nodes.items × (world_of s self.new.nodes.items ≡ world_of s self.old.nodes.items) }
    {
        if usize::from(kernel) < self.nodes.len() {
            self.nodes[usize::from(kernel)].reuse(steps);
        }
    }

    /// The kernel of a number; `None` exactly where it is not there.
    pub fn kernel(&self, kernel: u8) -> Option<&Kernel>
        ensures { (s : ASetting) → AreNodes s self.now.nodes.items → MatchOption result (s.kernels ≤ kernel) (λ k. IsKernelAt s kernel self.now.nodes.items k.now) }
    {
        if usize::from(kernel) >= self.nodes.len() {
            return None;
        }
        Some(&self.nodes[usize::from(kernel)].kernel)
    }

    /// The oldest packet from one kernel to another that was not taken, lent; `None` exactly where there is none.
    pub fn first(&self, from: u8, to: u8) -> Option<&Packet>
        requires { (s : ASetting) × AreNodes s self.now.nodes.items }
        ensures { (s : ASetting) → option_map packet_picture (option_copied result) ≡ slice_get ((world_of s self.now.nodes.items).packets from to) 0 }
    {
        if usize::from(from) >= self.nodes.len() {
            return None;
        }
        self.nodes[usize::from(from)].first(to)
    }

    /// Whether no packet is under way.
    pub fn are_quiet(&self) -> bool
        ensures { (s : ASetting) → IsTrue result ↔ AllTaken (world_of s self.now.nodes.items) }
    {
        are_all_quiet(&self.nodes)
    }
}

/// Whether no packet of these nodes waits to be taken.
fn are_all_quiet(nodes: &[Node]) -> bool
    ensures { IsTrue result ↔ All (λ node. All (λ queue. queue ≡ []) node.sent.items) nodes.now }
{
    nodes.iter().all(|node| node.is_quiet())
}
