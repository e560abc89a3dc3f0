ghost use Rattle.std.specs.Prelude.{◌≡◌, ◌+◌, ◌-◌, ◌*◌, ◌<◌, ◌≤◌, IfOk, OnErr, OnOk, false, true};
ghost use Rattle.kernel_turns.specs.Amid.{IsSomeNode};
ghost use Rattle.kernel_turns.specs.Left.{weight};
ghost use Rattle.kernel_turns.specs.declared.node.Turn.TheVariants.{Idle, Spent};
ghost use Rattle.kernel_worker.specs.Rounds.{GoesOn, Works};

use crate::crew::Crew;
use crate::gate::Gate;
use charlotte_calls::{NoMemory, Program};
use kernel_turns::{Node, Turn, Watch};
use std::thread;

/// After so many idle turns in a row that found no worker at work a worker leaves.
const ALONE: u32 = 64;

/// After so many idle turns in a row a worker leaves, whoever is at work.
const MOST_IDLE: u32 = 16_384;

/// From so many idle turns in a row on a worker lets other threads run.
const YIELDS: u32 = 16;

/// The idle turns of a worker since its last other one.
#[derive(Clone, Copy, Debug)]
struct Idleness {
    /// All of them.
    turns: u32,
    /// Those at the end that found no worker at work.
    alone: u32,
}

impl Idleness {
    /// No idle turn yet.
    fn none() -> Idleness
        ensures { result.turns ≡ 0 }
    {
        Idleness { turns: 0, alone: 0 }
    }

    /// An idle turn more.
    fn count(&mut self, at_work: bool)
        requires { self.old.turns < 16384 }
        ensures { self.new.turns ≡ self.old.turns + 1 }
    {
        self.turns += 1;
        self.alone = if at_work {
            0
        } else {
            self.alone.saturating_add(1)
        };
    }

    /// Whether the worker leaves.
    fn is_enough(&self) -> bool
        ensures { result ≡ false → self.now.turns < 16384 }
    {
        self.alone >= ALONE || self.turns >= MOST_IDLE
    }
}

/// The worker of a node makes turns until the node is spent, nobody of the crew has work, or the round is over.
pub fn work<P: Program, W: Watch, G: Gate>(
    node: &mut Node<P, W>,
    gate: &G,
    crew: &Crew,
) -> Result<(), NoMemory>
    requires node { IsSomeNode (record { step = P.step; state = P.state; last = P.last; version = P.version }) W.HasSeen node.old }
    ensures goes { GoesOn (record { step = P.step; state = P.state; last = P.last; version = P.version }) W.HasSeen W.made node.old node.new }
    ensures works { OnOk result (Works node.old node.new) }
    ensures spoiled { OnErr result (node.new.spoiled ≡ true) }
{
    let worker = node.number();
    let worked = make_turns(node, gate, crew);
    crew.leaves(worker);
    worked
}

/// Turns, one after the other.
fn make_turns<P: Program, W: Watch, G: Gate>(
    node: &mut Node<P, W>,
    gate: &G,
    crew: &Crew,
) -> Result<(), NoMemory>
    requires node { IsSomeNode (record { step = P.step; state = P.state; last = P.last; version = P.version }) W.HasSeen node.old }
    ensures goes { GoesOn (record { step = P.step; state = P.state; last = P.last; version = P.version }) W.HasSeen W.made node.old node.new }
    ensures works { OnOk result (Works node.old node.new) }
    ensures spoiled { OnErr result (node.new.spoiled ≡ true) }
{
    let mut idle = Idleness::none();
    'turns: loop {
        if make_turn(node, gate, crew, &mut idle)? {
            return Ok(());
        }
    }
}

/// A turn behind the gate: whether the worker leaves.
fn make_turn<P: Program, W: Watch, G: Gate>(
    node: &mut Node<P, W>,
    gate: &G,
    crew: &Crew,
    idle: &mut Idleness,
) -> Result<bool, NoMemory>
    requires node { IsSomeNode (record { step = P.step; state = P.state; last = P.last; version = P.version }) W.HasSeen node.old }
    requires idle { idle.old.turns < 16384 }
    ensures goes { GoesOn (record { step = P.step; state = P.state; last = P.last; version = P.version }) W.HasSeen W.made node.old node.new }
    ensures works { OnOk result (Works node.old node.new) }
    ensures spoiled { OnErr result (node.new.spoiled ≡ true) }
    ensures idle { IfOk result (λ leaves. leaves ≡ false → idle.new.turns < 16384) }
    ensures left { IfOk result (λ leaves. leaves ≡ false → weight node.new.base * 16385 + (16384 - idle.new.turns) < weight node.old.base * 16385 + (16384 - idle.old.turns)) }
{
    gate.pass(node.number(), node.pass());
    let turn = node.turn()?;
    let enough = follow(node, turn, crew, idle);
    Ok(either(enough, crew.is_over()))
}

/// What a worker does behind a turn: whether it has made enough of them.
fn follow<P: Program, W: Watch>(
    node: &mut Node<P, W>,
    turn: Turn,
    crew: &Crew,
    idle: &mut Idleness,
) -> bool
    requires idle { idle.old.turns < 16384 }
    ensures rest { node.new ≡ record node.old { base = record node.old.base { outbox = record node.old.base.outbox { reached = node.new.base.outbox.reached } } } }
    ensures few { result ≡ false → idle.new.turns < 16384 }
    ensures rests { turn ≡ Idle → idle.new.turns ≡ idle.old.turns + 1 }
    ensures spent { turn ≡ Spent → result ≡ true }
{
    let worker = node.number();
    if matches!(turn, Turn::Idle) {
        return rest(worker, crew, idle);
    }
    resume(worker, crew, idle);
    crew.reach(node.reached());
    matches!(turn, Turn::Spent)
}

/// Whether one of two holds.
fn either(a: bool, b: bool) -> bool
    ensures { result ≡ false → a ≡ false }
{
    a || b
}

/// A worker made an idle turn: whether it leaves.
fn rest(worker: u8, crew: &Crew, idle: &mut Idleness) -> bool
    requires { idle.old.turns < 16384 }
    ensures turns { idle.new.turns ≡ idle.old.turns + 1 }
    ensures few { result ≡ false → idle.new.turns < 16384 }
{
    if idle.turns == 0 {
        crew.rests(worker);
    }
    idle.count(crew.is_at_work());
    if idle.turns >= YIELDS {
        thread::yield_now();
    }
    idle.is_enough()
}

/// A worker made a turn that was not idle.
fn resume(worker: u8, crew: &Crew, idle: &mut Idleness)
    ensures { idle.new.turns ≡ 0 }
{
    if idle.turns > 0 {
        crew.resumes(worker);
    }
    *idle = Idleness::none();
}
