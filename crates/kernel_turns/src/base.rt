ghost use Rattle.std.specs.Prelude.{◌≡◌, ◌+◌, ◌-◌, ◌^◌, ◌<◌, ◌≤◌, ◌++◌, ◌↔◌, ◌∷◌, [], ℕ, List, Some, None, All, IfNone, IfOk, IfSome, OnErr, OnOk, IsTrue, length};
ghost use Rattle.charlotte_calls.specs.declared.names.EndId.{EndId};
ghost use Rattle.charlotte_packets.specs.Packets.{packet_picture};
ghost use Rattle.end_table.specs.Table.{entries};
ghost use Rattle.journal_text.specs.Journal.{IsAfterLast};
ghost use Rattle.kernel_core.specs.State.{state_of};
ghost use Rattle.kernel_entries.specs.Ranges.{IsEntryInRange};
ghost use Rattle.kernel_entries.specs.declared.entry.Happened.{Happened};
ghost use Rattle.kernel_step.specs.Calls.{IsCallWith};
ghost use Rattle.program_runs.specs.Local.{MakesCall, TakesPacket, gives};
ghost use Rattle.kernel_net.specs.Ports.{place_of, put_to};
ghost use Rattle.kernel_outbox.specs.Letters.{MayAllBePut, outbox_to};
ghost use Rattle.kernel_turns.specs.Amid.{SameRun};
ghost use Rattle.kernel_turns.specs.Courses.{marked_of};
ghost use Rattle.kernel_turns.specs.Events.{FitsPort, Happens};
ghost use Rattle.kernel_turns.specs.declared.base.Base.{Base as ABase};
ghost use Rattle.kernel_turns.specs.Turns.{BeginsInTime, BeginsOnce, FindsLetter, IsTime, NoLetter, PutsLetters, unbegun_markers, with_marker};

use crate::course::Course;
use charlotte_calls::{NoMemory, Pid};
use charlotte_packets::{Effect, Packet};
use kernel_core::{Kernel, Request};
use kernel_net::Port;
use kernel_outbox::Outbox;
use std::alloc::Global;
use written_journal::WrittenJournal;

/// What a node is to do.
#[derive(Clone, Copy, Debug)]
pub struct Orders {
    /// How many turns it may use, 1 to 100,000.
    pub limit: u32,
    /// After how many turns it begins a snapshot, if it is to.
    pub begins: Option<u32>,
}

/// A node without its programs: a kernel with its journal, its port and the letters that are to be put.
#[derive(Drop)]
pub(crate) struct Base {
    pub(crate) kernel: Kernel,
    pub(crate) journal: WrittenJournal,
    pub(crate) port: Port,
    pub(crate) outbox: Outbox,
    pub(crate) course: Course,
    pub(crate) orders: Orders,
    /// How many turns were used.
    pub(crate) used: u32,
}

impl Base {
    /// Of a kernel and a port at their start.
    pub(crate) fn start(alloc: Global, kernel: Kernel, port: Port, orders: Orders) -> Base
        ensures kernel { result.kernel ≡ kernel }
        ensures entries { result.journal.entries ≡ [] }
        ensures port { result.port ≡ port }
        ensures unsent { result.outbox.unsent.items ≡ [] }
        ensures waiting { result.outbox.waiting.items ≡ [] }
        ensures begun { result.course.begun ≡ None }
        ensures marked { (from : ℕ) → marked_of result.course from ≡ None }
        ensures marks { length result.course.marked ≡ 8 }
        ensures orders { result.orders ≡ orders }
        ensures used { result.used ≡ 0 }
    {
        Base {
            kernel,
            journal: WrittenJournal::start(alloc),
            port,
            outbox: Outbox::start(alloc),
            course: Course::unbegun(),
            orders,
            used: 0,
        }
    }

    /// The kernel takes a packet. Who was answered. After want of memory kernel and journal are as before.
    #[inline(always)]
    pub(crate) fn take(&mut self, from: u8, packet: &mut Packet) -> Result<Vec<Pid>, NoMemory>
        requires from { from < self.old.kernel.kernels }
        requires later { IsAfterLast self.old.journal.entries (gives (state_of self.old.kernel) (TakesPacket from (packet_picture packet.old))).kernel.stamp }
        requires unsent { self.old.outbox.unsent.items ≡ [] }
        requires used { self.old.used < 2 ^ 32 - 1 }
        ensures happens { IfOk result (λ who. Happens (TakesPacket from (packet_picture packet.old)) self.old self.new who.items) }
        ensures in_range { OnOk result (All IsEntryInRange self.new.journal.entries) }
        ensures same { OnErr result (SameRun self.old self.new) }
    {
        self.journal.took(from, packet)?;
        let effect = self.kernel.take_from(from, packet)?;
        Ok(self.close(effect))
    }

    /// A process makes a call. Who was answered. After want of memory kernel and journal are as before.
    pub(crate) fn ask(&mut self, request: &Request) -> Result<Vec<Pid>, NoMemory>
        requires process { request.now.p.0 < length self.old.kernel.processes }
        requires later { (mine : List EndId) → IsCallWith request.now.p (entries self.old.kernel.table) mine request.now.call
            → IsAfterLast self.old.journal.entries (gives (state_of self.old.kernel) (MakesCall request.now.p request.now.call mine)).kernel.stamp }
        requires unsent { self.old.outbox.unsent.items ≡ [] }
        requires used { self.old.used < 2 ^ 32 - 1 }
        ensures happens { IfOk result (λ who. (mine : List EndId) × IsCallWith request.now.p (entries self.old.kernel.table) mine request.now.call
            × Happens (MakesCall request.now.p request.now.call mine) self.old self.new who.items) }
        ensures in_range { OnOk result (All IsEntryInRange self.new.journal.entries) }
        ensures same { OnErr result (SameRun self.old self.new) }
    {
        self.journal.asked(request.p, &request.call)?;
        let effect = self.kernel.ask_again(request)?;
        Ok(self.close(effect))
    }

    /// An event is over. Nothing of this can want memory: what it leaves is kept as it is. Who was answered.
    #[inline(always)]
    fn close(&mut self, effect: Effect) -> Vec<Pid>
        requires begun { (what : Happened) × (self.old.journal.begun ≡ Some what) }
        requires after_last { IsAfterLast self.old.journal.entries effect.stamp }
        requires used { self.old.used < 2 ^ 32 - 1 }
        ensures kernel { self.new.kernel ≡ self.old.kernel }
        ensures noted { (what : Happened) → self.old.journal.begun ≡ Some what → self.new.journal.entries ≡ self.old.journal.entries ++ record { stamp = effect.stamp; what = what; steps = effect.steps.items } ∷ [] }
        ensures in_range { All IsEntryInRange self.new.journal.entries }
        ensures unsent { self.new.outbox.unsent.items ≡ effect.packets.items }
        ensures few { length effect.packets.items < 2 ^ 63 }
        ensures waiting { self.new.outbox.waiting ≡ self.old.outbox.waiting }
        ensures answered { result.items ≡ effect.answered.items }
        ensures used { self.new.used ≡ self.old.used + 1 }
        ensures port { self.new.port ≡ self.old.port }
        ensures course { self.new.course ≡ self.old.course }
        ensures orders { self.new.orders ≡ self.old.orders }
    {
        let Effect {
            stamp,
            packets,
            answered,
            steps,
        } = effect;
        let steps = self.journal.note(stamp, steps);
        self.kernel.reuse_steps(steps);
        self.outbox.send(packets);
        self.hand_back();
        self.used += 1;
        answered
    }

    /// The list of the unsent packets goes back to the kernel at once, where no letter is left to be put.
    #[inline(always)]
    fn hand_back(&mut self)
        ensures unsent { self.new.outbox.unsent.items ≡ self.old.outbox.unsent.items }
        ensures waiting { self.new.outbox.waiting ≡ self.old.outbox.waiting }
        ensures rest { self.new ≡ record self.old { outbox = self.new.outbox } }
    {
        if self.outbox.is_empty() {
            self.kernel.reuse(self.outbox.emptied());
        }
    }

    /// Begins a snapshot, where it did not: a marker goes out to each kernel.
    fn begin(&mut self) -> Result<(), NoMemory>
        requires fits { FitsPort self.old }
        ensures begins { OnOk result (BeginsOnce self.old self.new) }
        ensures fits { OnOk result (FitsPort self.new) }
        ensures kernel { self.new.kernel ≡ self.old.kernel }
        ensures journal { self.new.journal ≡ self.old.journal }
        ensures orders { self.new.orders ≡ self.old.orders }
        ensures used { self.new.used ≡ self.old.used }
        ensures port { self.new.port ≡ self.old.port }
    {
        if self.course.begun.is_some() {
            return Ok(());
        }
        self.outbox.mark(self.port.kernels())?;
        self.course.begun = Some(self.journal.len());
        Ok(())
    }

    /// Whether it is time to begin a snapshot.
    #[inline(always)]
    fn is_due(&self) -> bool
        ensures { IsTrue result ↔ IsTime self.now }
    {
        match self.orders.begins {
            Some(after) => after <= self.used && self.used < self.orders.limit,
            None => false,
        }
    }

    /// Begins a snapshot where it is time, and it did not.
    #[inline(always)]
    fn begin_in_time(&mut self) -> Result<(), NoMemory>
        requires fits { FitsPort self.old }
        ensures begins { OnOk result (BeginsInTime self.old self.new) }
        ensures fits { OnOk result (FitsPort self.new) }
        ensures kernel { self.new.kernel ≡ self.old.kernel }
        ensures journal { self.new.journal ≡ self.old.journal }
        ensures orders { self.new.orders ≡ self.old.orders }
        ensures used { self.new.used ≡ self.old.used }
        ensures port { self.new.port ≡ self.old.port }
    {
        if self.is_due() {
            self.begin()?;
        }
        Ok(())
    }

    /// Puts letters while they are accepted. Whether one was put.
    #[inline(always)]
    fn put(&mut self) -> Result<bool, NoMemory>
        requires fits { FitsPort self.old }
        requires letters { (to : ℕ) → MayAllBePut (put_to self.old.port to) (outbox_to self.old.outbox to) }
        ensures puts { IfOk result (λ put. PutsLetters put self.old self.new) }
        ensures kernel { self.new.kernel ≡ self.old.kernel }
        ensures journal { self.new.journal ≡ self.old.journal }
        ensures orders { self.new.orders ≡ self.old.orders }
        ensures used { self.new.used ≡ self.old.used }
        ensures place { place_of self.new.port ≡ place_of self.old.port }
    {
        if self.outbox.is_empty() {
            return Ok(false);
        }
        let put = self.outbox.put(&mut self.port)?;
        self.kernel.reuse(self.outbox.emptied());
        Ok(put)
    }

    /// Begins a snapshot where it is time, and puts letters while they are accepted. Whether one was put.
    #[inline(always)]
    pub(crate) fn make_ready(&mut self) -> Result<bool, NoMemory>
        requires fits { FitsPort self.old }
        requires letters { (to : ℕ) → MayAllBePut (put_to self.old.port to) (outbox_to self.old.outbox to ++ unbegun_markers self.old to) }
        ensures ready { IfOk result (λ put. (begun : ABase) × BeginsInTime self.old begun × PutsLetters put begun self.new) }
        ensures kernel { self.new.kernel ≡ self.old.kernel }
        ensures journal { self.new.journal ≡ self.old.journal }
        ensures orders { self.new.orders ≡ self.old.orders }
        ensures used { self.new.used ≡ self.old.used }
        ensures place { place_of self.new.port ≡ place_of self.old.port }
    {
        self.begin_in_time()?;
        let put = self.put()?;
        Ok(put)
    }

    /// The first kernel of which a letter is known to be there, if one is.
    #[inline(always)]
    pub(crate) fn first(&mut self) -> Option<u8>
        ensures some { IfSome result (λ from. FindsLetter from self.old self.new) }
        ensures none { IfNone result ((self.new ≡ self.old) × NoLetter self.old) }
    {
        self.port.first()
    }

    /// The marker of a kernel was got.
    pub(crate) fn mark(&mut self, from: u8) -> Result<(), NoMemory>
        requires from { from < 8 }
        requires fits { FitsPort self.old }
        ensures begins { OnOk result (BeginsOnce (with_marker from self.old) self.new) }
        ensures kernel { self.new.kernel ≡ self.old.kernel }
        ensures journal { self.new.journal ≡ self.old.journal }
        ensures orders { self.new.orders ≡ self.old.orders }
        ensures used { self.new.used ≡ self.old.used }
        ensures port { self.new.port ≡ self.old.port }
    {
        self.course.mark(from, self.journal.len());
        self.begin()
    }
}
