ghost use Rattle.std.specs.Prelude.{◌≡◌, ◌↔◌, All, IfOk, OnOk, false};
ghost use Rattle.kernel_turns.specs.Amid.{IsSomeNode};
ghost use Rattle.node_runs.specs.Net.{AreUnspoiled, HaveMet};
ghost use Rattle.kernel_worker.specs.Ends.{AreSomeNodes, EndsWith, RunTogether, Unstopped, with_end_of};
ghost use Rattle.kernel_worker.specs.Rounds.{EachOf, GoesOn, Works};

use crate::crew::Crew;
use crate::gate::Gate;
use crate::rounds::round;
use crate::standing::{End, end_of};
use charlotte_calls::{NoMemory, Program};
use kernel_turns::{Node, Watch};
use std::thread::{self, Threads};

/// What runs beside the workers, once in each round. Its meaning is when one of its values follows another, and when it is stopped.
pub trait Beside {
    /// The second value follows the first.
    ghost follows: { Self → Self → Type 0 };

    /// It stopped the run.
    ghost stopped: { Self → Type 0 };

    /// Runs beside the workers of a round. `Ok(false)` stops the run. A run that talks may be one round, so it goes on while the crew is at
    /// work where it wants to tell of the run before its end; its loop needs a bound of its own.
    fn round(&mut self, crew: &Crew) -> Result<bool, NoMemory>
        ensures follows { follows self.old self.new }
        ensures stopped { IfOk result (λ goes_on. (goes_on ≡ false) ↔ stopped self.new) };

    /// Each value follows itself.
    ghost itself: { (x : Self) → follows x x };

    /// What follows what follows a value follows it.
    ghost chains: { (x y z : Self) → follows x y → follows y z → follows x z };
}

/// How a run with something beside it ended.
#[derive(Clone, Copy, Debug, PartialEq, Eq)]
pub enum WithEnd {
    Quiet,
    Spent { kernel: u8 },
    /// What ran beside it stopped it.
    Stopped,
}

/// As `run_nodes`, with something beside the workers.
pub fn run_nodes_with<
    R: Threads + Sync,
    P: Program + Send,
    W: Watch + Send,
    G: Gate + Sync,
    B: Beside + Send,
>(rt: &R, nodes: &mut Vec<Node<P, W>>, gate: &G, beside: &mut B) -> Result<WithEnd, NoMemory>
    requires nodes { AreSomeNodes (record { step = P.step; state = P.state; last = P.last; version = P.version }) W.HasSeen nodes.old.items }
    ensures goes { EachOf (GoesOn (record { step = P.step; state = P.state; last = P.last; version = P.version }) W.HasSeen W.made) nodes.old.items nodes.new.items }
    ensures ends { IfOk result (EndsWith (B.stopped beside.new) nodes.new.items) }
    ensures met { IfOk result (λ end. Unstopped end (HaveMet nodes.new.items × AreUnspoiled nodes.new.items)) }
    ensures run { IfOk result (λ end. Unstopped end (RunTogether (record { step = P.step; state = P.state; last = P.last; version = P.version }) W.HasSeen nodes.old.items nodes.new.items)) }
    ensures follows { B.follows beside.old beside.new }
    ensures unstopped { IfOk result (λ end. Unstopped end ((B.stopped beside.old → ⊥) → B.stopped beside.new → ⊥)) }
{
    run_beside(rt, nodes.as_mut_slice(), gate, beside)
}

fn run_beside<
    R: Threads + Sync,
    P: Program + Send,
    W: Watch + Send,
    G: Gate + Sync,
    B: Beside + Send,
>(rt: &R, nodes: &mut [Node<P, W>], gate: &G, beside: &mut B) -> Result<WithEnd, NoMemory>
    requires nodes { AreSomeNodes (record { step = P.step; state = P.state; last = P.last; version = P.version }) W.HasSeen nodes.old }
    ensures goes { EachOf (GoesOn (record { step = P.step; state = P.state; last = P.last; version = P.version }) W.HasSeen W.made) nodes.old nodes.new }
    ensures ends { IfOk result (EndsWith (B.stopped beside.new) nodes.new) }
    ensures met { IfOk result (λ end. Unstopped end (HaveMet nodes.new × AreUnspoiled nodes.new)) }
    ensures run { IfOk result (λ end. Unstopped end (RunTogether (record { step = P.step; state = P.state; last = P.last; version = P.version }) W.HasSeen nodes.old nodes.new)) }
    ensures follows { B.follows beside.old beside.new }
    ensures unstopped { IfOk result (λ end. Unstopped end ((B.stopped beside.old → ⊥) → B.stopped beside.new → ⊥)) }
{
    'rounds: loop {
        if let Some(end) = end_of(nodes) {
            return Ok(with_end(end));
        }
        let crew = Crew::of(nodes.len() as u8);
        if !round_beside(rt, nodes, gate, beside, &crew)? {
            return Ok(WithEnd::Stopped);
        }
    }
}

/// One round with what is beside it: whether the run goes on.
fn round_beside<
    R: Threads + Sync,
    P: Program + Send,
    W: Watch + Send,
    G: Gate + Sync,
    B: Beside + Send,
>(rt: &R, nodes: &mut [Node<P, W>], gate: &G, beside: &mut B, crew: &Crew) -> Result<bool, NoMemory>
    requires nodes { All (IsSomeNode (record { step = P.step; state = P.state; last = P.last; version = P.version }) W.HasSeen) nodes.old }
    ensures goes { EachOf (GoesOn (record { step = P.step; state = P.state; last = P.last; version = P.version }) W.HasSeen W.made) nodes.old nodes.new }
    ensures works { OnOk result (EachOf Works nodes.old nodes.new) }
    ensures follows { B.follows beside.old beside.new }
    ensures stopped { IfOk result (λ goes_on. (goes_on ≡ false) ↔ B.stopped beside.new) }
{
    let (worked, goes_on) = thread::join_mut(
        rt,
        &mut || -> Result<(), NoMemory>
            requires { All (IsSomeNode (record { step = P.step; state = P.state; last = P.last; version = P.version }) W.HasSeen) nodes.now }
            ensures goes { EachOf (GoesOn (record { step = P.step; state = P.state; last = P.last; version = P.version }) W.HasSeen W.made) nodes.entry.now nodes.exit.now }
            ensures works { OnOk result (EachOf Works nodes.entry.now nodes.exit.now) }
        { round(rt, nodes, gate, crew) },
        &mut || -> Result<bool, NoMemory>
            ensures follows { B.follows beside.entry.now beside.exit.now }
            ensures stopped { IfOk result (λ goes_on. (goes_on ≡ false) ↔ B.stopped beside.exit.now) }
        { beside.round(crew) },
    );
    worked?;
    goes_on
}

/// The end of a run that was not stopped.
fn with_end(end: End) -> WithEnd
    ensures { result ≡ with_end_of end }
{
    match end {
        End::Quiet => WithEnd::Quiet,
        End::Spent { kernel } => WithEnd::Spent { kernel },
    }
}
