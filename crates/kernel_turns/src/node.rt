ghost use Rattle.std.specs.Prelude.{◌≡◌, ◌≤◌, ◌+◌, ◌↔◌, ℕ, [], None, false, IsTrue, length, replicate};
ghost use Rattle.kernel_net.specs.Ports.{AreAllThere, AreOfOneNet, HasLooked, place_of, there_of};
ghost use Rattle.program_round.specs.declared.doing.Doing.TheVariants.{Begins};
ghost use Rattle.kernel_turns.specs.Courses.{marked_of};
ghost use Rattle.kernel_turns.specs.Goes.{IsAtRest};

use crate::base::{Base, Orders};
use crate::course::Course;
use crate::watch::Watch;
use charlotte_calls::{Pid, Program};
use kernel_core::Kernel;
use kernel_net::{Port, meet};
use program_round::Programs;
use std::alloc::Global;
use written_journal::WrittenJournal;

/// What a node did in a turn.
#[derive(Clone, Copy, Debug, PartialEq, Eq)]
pub enum Turn {
    /// It made an event: its kernel took a packet, or a process made a call.
    Event,
    /// A program paused or ended.
    Paused,
    /// It put letters, and did nothing else.
    Sent,
    /// It did nothing.
    Idle,
    /// Its turns, or the stamps of its kernel, are used up.
    Spent,
    /// It got a marker.
    Marked,
}

/// A kernel that runs concurrently with others: with its journal, its port, the programs of its processes, and a watch that is told of its events.
#[derive(Drop)]
pub struct Node<P, W> {
    pub(crate) alloc: Global,
    pub(crate) base: Base,
    pub(crate) programs: Programs<P>,
    pub(crate) watch: W,
    /// How often it passed a gate.
    pub(crate) passes: u32,
    /// Memory was wanting in a turn. No further turn is made.
    pub(crate) spoiled: bool,
}

impl<P: Program, W: Watch> Node<P, W> {
    /// A node before its first turn: of a kernel and a port at their start, and the programs of its processes, each once, at theirs.
    pub fn start(
        alloc: Global,
        kernel: Kernel,
        programs: Vec<(Pid, P)>,
        port: Port,
        orders: Orders,
        watch: W,
    ) -> Node<P, W>
        requires { length programs.items ≤ 64 }
        ensures kernel { result.base.kernel ≡ kernel }
        ensures entries { result.base.journal.entries ≡ [] }
        ensures port { result.base.port ≡ port }
        ensures unsent { result.base.outbox.unsent.items ≡ [] }
        ensures waiting { result.base.outbox.waiting.items ≡ [] }
        ensures begun { result.base.course.begun ≡ None }
        ensures marked { (from : ℕ) → marked_of result.base.course from ≡ None }
        ensures marks { length result.base.course.marked ≡ 8 }
        ensures orders { result.base.orders ≡ orders }
        ensures used { result.base.used ≡ 0 }
        ensures programs { result.programs.all.items ≡ programs.items }
        ensures doing { result.programs.doing ≡ replicate 64 Begins }
        ensures next { result.programs.next ≡ 0 }
        ensures watch { result.watch ≡ watch }
        ensures passes { result.passes ≡ 0 }
        ensures spoiled { result.spoiled ≡ false }
    {
        Node {
            alloc,
            base: Base::start(alloc, kernel, port, orders),
            programs: Programs::of(programs),
            watch,
            passes: 0,
            spoiled: false,
        }
    }

    /// The number of its kernel.
    pub fn number(&self) -> u8
        ensures { result ≡ self.now.base.port.kernel }
    {
        self.base.port.kernel()
    }

    /// Its kernel.
    pub fn kernel(&self) -> &Kernel
        ensures { result.now ≡ self.now.base.kernel }
    {
        &self.base.kernel
    }

    /// The entries of its events.
    pub fn journal(&self) -> &WrittenJournal
        ensures { result.now ≡ self.now.base.journal }
    {
        &self.base.journal
    }

    /// How many turns it used.
    pub fn used(&self) -> u32
        ensures { result ≡ self.now.base.used }
    {
        self.base.used
    }

    /// What it keeps for a snapshot.
    pub fn course(&self) -> &Course
        ensures { result.now ≡ self.now.base.course }
    {
        &self.base.course
    }

    /// Whether its turns are used up.
    pub fn is_at_limit(&self) -> bool
        ensures { IsTrue result ↔ (self.now.base.used ≡ self.now.base.orders.limit) }
    {
        self.base.used == self.base.orders.limit
    }

    /// Whether no letter is left to be put, and each program has ended or waits for an answer.
    pub fn is_at_rest(&self) -> bool
        ensures { IsTrue result ↔ IsAtRest self.now }
    {
        self.base.outbox.is_empty() && self.programs.are_quiet()
    }

    /// Whether memory was wanting in a turn.
    pub fn is_spoiled(&self) -> bool
        ensures { result ≡ self.now.spoiled }
    {
        self.spoiled
    }

    /// Passes a gate: how often it did, which stays at the greatest number.
    pub fn pass(&mut self) -> u32
        ensures passes { result ≡ self.new.passes }
        ensures rest { self.new ≡ record self.old { passes = self.new.passes } }
    {
        self.passes = self.passes.saturating_add(1);
        self.passes
    }

    /// The kernels to which it put letters since this was last asked, one bit each. No clause speaks of the answer.
    pub fn reached(&mut self) -> u8
        ensures { self.new ≡ record self.old { base = record self.old.base { outbox = record self.old.base.outbox { reached = self.new.base.outbox.reached } } } }
    {
        self.base.outbox.reached()
    }

    /// Brings both ends of the ring from its port to itself together: how many letters are there.
    pub fn meet_self(&mut self) -> u32
        ensures place { place_of self.new.base.port ≡ place_of self.old.base.port }
        ensures looked { HasLooked self.old.base.port.kernel self.old.base.port self.new.base.port }
        ensures there { AreAllThere self.new.base.port self.new.base.port }
        ensures count { result ≡ length (there_of self.new.base.port self.new.base.port) }
        ensures rest { self.new ≡ record self.old { base = record self.old.base { port = self.new.base.port } } }
    {
        self.base.port.meet_self()
    }
}

/// Brings both ends of both rings between two nodes together: how many letters are there that either of them put to the other.
pub fn meet_nodes<P: Program, W: Watch>(a: &mut Node<P, W>, b: &mut Node<P, W>) -> u32
    requires { AreOfOneNet (place_of a.old.base.port) (place_of b.old.base.port) }
    ensures place_a { place_of a.new.base.port ≡ place_of a.old.base.port }
    ensures place_b { place_of b.new.base.port ≡ place_of b.old.base.port }
    ensures looked_a { HasLooked b.old.base.port.kernel a.old.base.port a.new.base.port }
    ensures looked_b { HasLooked a.old.base.port.kernel b.old.base.port b.new.base.port }
    ensures there { AreAllThere a.new.base.port b.new.base.port × AreAllThere b.new.base.port a.new.base.port }
    ensures count { result ≡ length (there_of a.new.base.port b.new.base.port) + length (there_of b.new.base.port a.new.base.port) }
    ensures rest_a { a.new ≡ record a.old { base = record a.old.base { port = a.new.base.port } } }
    ensures rest_b { b.new ≡ record b.old { base = record b.old.base { port = b.new.base.port } } }
{
    meet(&mut a.base.port, &mut b.base.port)
}

impl<P: Program + Drop, W: Watch> Node<P, W> {
    /// Hands out the journal and the watch.
    pub fn finish(self) -> (WrittenJournal, W)
        ensures journal { result.0 ≡ self.base.journal }
        ensures watch { result.1 ≡ self.watch }
    {
        let Node { base, watch, .. } = self;
        let Base { journal, .. } = base;
        (journal, watch)
    }
}
