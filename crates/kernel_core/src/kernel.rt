ghost use Rattle.std.specs.Prelude.{◌≡◌, ◌<◌, ◌↔◌, List, length, None, IfOk, IfErr, OnErr, IsTrue, option_copied};
ghost use Rattle.charlotte_packets.specs.Packets.{packet_picture};
ghost use Rattle.charlotte_calls.specs.Setting.{IsValid};
ghost use Rattle.charlotte_calls.specs.declared.names.EndId.{EndId};
ghost use Rattle.end_table.specs.Table.{entries};
ghost use Rattle.kernel_named.specs.Named.{GoWithin};
ghost use Rattle.kernel_step.specs.Calls.{IsCallWith};
ghost use Rattle.kernel_step.specs.Kernel.{call_step, take_step, process_of, without_answer};
ghost use Rattle.kernel_step.specs.Start.{start_kernel};
ghost use Rattle.kernel_step.specs.declared.phase.Phase.TheVariants.{Running};
ghost use Rattle.kernel_core.specs.State.{state_of, is_pending, unanswered};
ghost use Rattle.kernel_process.specs.Parts.{ended, process_state};

use crate::deciding::call_event;
use crate::stamp::{greater, stamp_after, stamp_with};
use crate::state::{Request, State};
use crate::taking::{NotTaken, take_event};
use charlotte_calls::{Answer, Call, NoMemory, Pid, ServiceStep, Setting};
use charlotte_packets::{Effect, Packet, PacketList};
use end_table::Table;
use kernel_process::{ControlBlock, Event, Processes};
use kernel_start::wire_links;
use kernel_step::Phase;
use std::alloc::Global;
use std::marker::Model;

/// One kernel: its table of ends, and its processes.
#[derive(Drop)]
pub struct Kernel {
    alloc: Global,
    kernels: u8,
    version: u8,
    /// The processes are those of the setting, by number. Those of other kernels stay as they start.
    state: State,
    stamp: u64,
}

impl Model for Kernel {
    ghost use Rattle.std.specs.Prelude.{map};
    ghost use Rattle.kernel_core.specs.State.{KernelView};
    ghost use Rattle.kernel_process.specs.Parts.{process_state};
    ghost use Rattle.kernel_core.specs.Consistent.{IsConsistentOf};

    ghost Value = { KernelView };

    ghost view = { λ k. record { kernels = k.kernels; version = k.version; table = k.state.table; processes = map process_state k.state.processes; made = k.state.made; stamp = k.stamp } };

    ghost invariant = { λ k. IsConsistentOf k.kernels k.state };
}

impl Kernel {
    /// The kernel of a setting with this number, before any event. An `id` is below the number of the setting's kernels.
    pub fn start(alloc: Global, id: u8, setting: &Setting) -> Result<Kernel, NoMemory>
        requires valid { IsValid setting.now }
        requires below { id < setting.now.kernels }
        ensures state { IfOk result (λ k. state_of k ≡ start_kernel setting.now id) }
        ensures processes { IfOk result (λ k. length k.processes ≡ length setting.now.homes) }
        ensures kernels { IfOk result (λ k. k.kernels ≡ setting.now.kernels) }
    {
        let (table, made) = wire_links(alloc, id, setting)?;
        let processes = Processes::fresh(alloc, setting.homes.len())?;
        let state = State {
            table,
            processes,
            made,
            event: Event::unused(alloc),
        };
        Ok(Kernel {
            alloc,
            kernels: setting.kernels,
            version: setting.version,
            state,
            stamp: 0,
        })
    }

    /// A call of a process that runs and to which no answer stands: the kernel step decides it. A Send may enclose up to
    /// eight ends in either version; that in version 1 it encloses at most one is the caller's business.
    ///
    /// The answer stands afterwards, unless the call is a Wait that finds no report, or starts to cancel a receive: then
    /// a later event may bring it. After want of memory the kernel is as before.
    pub fn call(&mut self, p: Pid, call: Call) -> Result<Effect, NoMemory>
        requires process { p.0 < length self.old.processes }
        requires running { (process_of p (state_of self.old)).phase ≡ Running }
        requires answered { (process_of p (state_of self.old)).answer ≡ None }
        ensures step { IfOk result (λ effect. (mine : List EndId) × IsCallWith p (entries self.old.table) mine call
            × (ended (state_of self.new) effect ≡ call_step (state_of self.old) p mine call)) }
        ensures stamp { IfOk result (λ effect. effect.stamp ≡ self.new.stamp) }
        ensures there { IfOk result (λ effect. GoWithin self.new.kernels effect.packets.items) }
        ensures same { OnErr result (state_of self.new ≡ state_of self.old) }
        ensures kernels { self.new.kernels ≡ self.old.kernels }
        ensures processes { length self.new.processes ≡ length self.old.processes }
    {
        self.ask(&Request { p, call })
    }

    /// The same with a call that stays where it is.
    pub fn ask(&mut self, request: &Request) -> Result<Effect, NoMemory>
        requires process { request.now.p.0 < length self.old.processes }
        requires running { (process_of request.now.p (state_of self.old)).phase ≡ Running }
        requires answered { (process_of request.now.p (state_of self.old)).answer ≡ None }
        ensures step { IfOk result (λ effect. (mine : List EndId) × IsCallWith request.now.p (entries self.old.table) mine request.now.call
            × (ended (state_of self.new) effect ≡ call_step (state_of self.old) request.now.p mine request.now.call)) }
        ensures stamp { IfOk result (λ effect. effect.stamp ≡ self.new.stamp) }
        ensures there { IfOk result (λ effect. GoWithin self.new.kernels effect.packets.items) }
        ensures same { OnErr result (state_of self.new ≡ state_of self.old) }
        ensures kernels { self.new.kernels ≡ self.old.kernels }
        ensures processes { length self.new.processes ≡ length self.old.processes }
    {
        self.step(request)
    }

    /// The same of a process whose standing answer, if there is one, is let go. It moves nothing, which `forget_answer` does.
    #[inline(always)]
    pub fn ask_again(&mut self, request: &Request) -> Result<Effect, NoMemory>
        requires process { request.now.p.0 < length self.old.processes }
        ensures step { IfOk result (λ effect. (mine : List EndId) × IsCallWith request.now.p (entries self.old.table) mine request.now.call
            × (ended (state_of self.new) effect ≡ call_step (without_answer request.now.p (state_of self.old)) request.now.p mine request.now.call)) }
        ensures stamp { IfOk result (λ effect. effect.stamp ≡ self.new.stamp) }
        ensures there { IfOk result (λ effect. GoWithin self.new.kernels effect.packets.items) }
        ensures same { OnErr result (state_of self.new ≡ state_of self.old) }
        ensures kernels { self.new.kernels ≡ self.old.kernels }
        ensures processes { length self.new.processes ≡ length self.old.processes }
    {
        let called = self.step(request);
        self.let_go(request.p, &called);
        called
    }

    /// The standing answer of a process is let go where its call brought none.
    #[inline(always)]
    fn let_go(&mut self, p: Pid, called: &Result<Effect, NoMemory>)
        requires { p.0 < length self.old.processes }
        ensures state { IfOk called.now (λ effect. state_of self.new ≡ unanswered p effect.answered.items (state_of self.old)) }
        ensures same { OnErr called.now (self.new ≡ self.old) }
        ensures stamp { self.new.stamp ≡ self.old.stamp }
        ensures kernels { self.new.kernels ≡ self.old.kernels }
        ensures processes { length self.new.processes ≡ length self.old.processes }
    {
        match called {
            Ok(effect) => {
                if effect.answered.is_empty() {
                    self.forget_answer(p);
                }
            }
            Err(NoMemory) => {}
        }
    }

    /// The step of a call.
    #[inline(always)]
    fn step(&mut self, request: &Request) -> Result<Effect, NoMemory>
        requires process { request.now.p.0 < length self.old.processes }
        ensures step { IfOk result (λ effect. (mine : List EndId) × IsCallWith request.now.p (entries self.old.table) mine request.now.call
            × (ended (state_of self.new) effect ≡ call_step (state_of self.old) request.now.p mine request.now.call)) }
        ensures stamp { IfOk result (λ effect. effect.stamp ≡ self.new.stamp) }
        ensures there { IfOk result (λ effect. GoWithin self.new.kernels effect.packets.items) }
        ensures same { OnErr result (state_of self.new ≡ state_of self.old) }
        ensures kernels { self.new.kernels ≡ self.old.kernels }
        ensures processes { length self.new.processes ≡ length self.old.processes }
    {
        let stamp = stamp_after(self.stamp);
        let called = call_event(self.alloc, &mut self.state, request, stamp);
        self.stamp = stamp_with(&called, self.stamp);
        called
    }

    /// Takes a packet from a kernel that is there. Every packet, sensible or not, is taken by the rules of its kind. For want of
    /// memory the packet comes back, and the kernel is as before.
    pub fn take(&mut self, from: u8, packet: Packet) -> Result<Effect, NotTaken>
        requires from { from < self.old.kernels }
        ensures step { IfOk result (λ effect. ended (state_of self.new) effect ≡ take_step (state_of self.old) from (packet_picture packet)) }
        ensures stamp { IfOk result (λ effect. effect.stamp ≡ self.new.stamp) }
        ensures there { IfOk result (λ effect. GoWithin self.new.kernels effect.packets.items) }
        ensures back { IfErr result (λ e. e.packet ≡ packet) }
        ensures same { OnErr result (state_of self.new ≡ state_of self.old) }
        ensures kernels { self.new.kernels ≡ self.old.kernels }
        ensures processes { length self.new.processes ≡ length self.old.processes }
    {
        let mut packet = packet;
        match self.take_from(from, &mut packet) {
            Ok(effect) => Ok(effect),
            Err(NoMemory) => Err(NotTaken { packet }),
        }
    }

    /// The same with a packet that stays where it is: nothing of it is moved but the values that it brings, which are taken out
    /// of it. For want of memory it is as before, and so is the kernel.
    #[inline(always)]
    pub fn take_from(&mut self, from: u8, packet: &mut Packet) -> Result<Effect, NoMemory>
        requires from { from < self.old.kernels }
        ensures step { IfOk result (λ effect. ended (state_of self.new) effect ≡ take_step (state_of self.old) from (packet_picture packet.old)) }
        ensures stamp { IfOk result (λ effect. effect.stamp ≡ self.new.stamp) }
        ensures there { IfOk result (λ effect. GoWithin self.new.kernels effect.packets.items) }
        ensures back { OnErr result (packet.new ≡ packet.old) }
        ensures same { OnErr result (state_of self.new ≡ state_of self.old) }
        ensures kernels { self.new.kernels ≡ self.old.kernels }
        ensures processes { length self.new.processes ≡ length self.old.processes }
    {
        let stamp = stamp_after(greater(self.stamp, packet.stamp));
        let taken = take_event(
            self.alloc,
            &mut self.state,
            self.kernels,
            from,
            stamp,
            packet,
        );
        self.stamp = stamp_with(&taken, self.stamp);
        taken
    }

    /// Gives back the list of packets of an effect. The next event takes its room, and asks for no other where that is enough.
    pub fn reuse(&mut self, packets: PacketList)
        ensures { self.new ≡ self.old }
    {
        self.state.event.work.packets = packets;
    }

    /// Gives back the list of the processes that were answered, of which the next event takes the room.
    pub fn reuse_answered(&mut self, answered: Vec<Pid>)
        ensures { self.new ≡ self.old }
    {
        self.state.event.answered = answered;
    }

    /// Gives back the list of the steps, of which the next event takes the room.
    pub fn reuse_steps(&mut self, steps: Vec<ServiceStep>)
        ensures { self.new ≡ self.old }
    {
        self.state.event.work.steps = steps;
    }

    /// What the kernel keeps of a process.
    fn process(&self, p: Pid) -> &ControlBlock
        requires { p.0 < length self.now.processes }
        ensures { process_state result.now ≡ process_of p (state_of self.now) }
    {
        self.state.processes.at(usize::from(p.0))
    }

    /// Whether a process is in a Wait or in a Cancel whose answer does not stand.
    pub fn waiting(&self, p: Pid) -> bool
        requires { p.0 < length self.now.processes }
        ensures { result ≡ is_pending (process_of p (state_of self.now)).phase }
    {
        match self.process(p).phase {
            Phase::Waiting | Phase::Cancelling(_) => true,
            Phase::Running | Phase::Exited => false,
        }
    }

    /// Whether a process runs: it may make a call.
    pub fn running(&self, p: Pid) -> bool
        requires { p.0 < length self.now.processes }
        ensures { IsTrue result ↔ ((process_of p (state_of self.now)).phase ≡ Running) }
    {
        matches!(self.process(p).phase, Phase::Running)
    }

    /// The standing answer of a process, lent: it goes on standing. `None` exactly where none stands.
    pub fn standing_answer(&self, p: Pid) -> Option<&Answer>
        requires { p.0 < length self.now.processes }
        ensures { option_copied result ≡ (process_of p (state_of self.now)).answer }
    {
        self.process(p).answer.as_ref()
    }

    /// Takes the standing answer of a process.
    pub fn answer(&mut self, p: Pid) -> Option<Answer>
        requires { p.0 < length self.old.processes }
        ensures answer { result ≡ (process_of p (state_of self.old)).answer }
        ensures state { state_of self.new ≡ without_answer p (state_of self.old) }
        ensures kernels { self.new.kernels ≡ self.old.kernels }
        ensures processes { length self.new.processes ≡ length self.old.processes }
    {
        let process = self.state.processes.at_mut(usize::from(p.0));
        process.answer.take()
    }

    /// Lets the standing answer of a process go, if there is one. It moves nothing, which `answer` does.
    pub fn forget_answer(&mut self, p: Pid)
        requires { p.0 < length self.old.processes }
        ensures state { state_of self.new ≡ without_answer p (state_of self.old) }
        ensures kernels { self.new.kernels ≡ self.old.kernels }
        ensures processes { length self.new.processes ≡ length self.old.processes }
    {
        let process = self.state.processes.at_mut(usize::from(p.0));
        process.answer = None;
    }

    /// The stamp of the last event, 0 before the first.
    pub fn stamp(&self) -> u64
        ensures { result ≡ self.now.stamp }
    {
        self.stamp
    }

    /// What the kernel keeps of ends.
    pub fn table(&self) -> &Table
        ensures { result.now ≡ self.now.table }
    {
        &self.state.table
    }
}
