ghost use Rattle.std.specs.Prelude.{◌≡◌, ◌≢◌, ◌⊎◌, ◌+◌, ◌<◌, ◌≤◌, ℕ, All, IfOk, OnOk, false, true, length};
ghost use Rattle.kernel_turns.specs.Amid.{IsSomeNode};
ghost use Rattle.kernel_turns.specs.Goes.{IsAtRest};
ghost use Rattle.kernel_turns.specs.Left.{weight};
ghost use Rattle.kernel_turns.specs.declared.node.Turn.TheVariants.{Event, Idle};
ghost use Rattle.node_runs.specs.Net.{AreUnspoiled, HaveMet};
ghost use Rattle.kernel_worker.specs.Awake.{AreIdle, IsIdle, is_awake};
ghost use Rattle.kernel_worker.specs.Ends.{AreSomeNodes, Ends, RunTogether};
ghost use Rattle.kernel_worker.specs.Rounds.{EachOf, GoesOn, Works, all_left};

use crate::awake::Awake;
use crate::standing::{End, end_of};
use charlotte_calls::{NoMemory, Program};
use kernel_turns::{Node, Turn, Watch};

/// All nodes are driven by one thread: a turn each, in the order of their kernels, again and again. A node that has nothing to do is left out
/// until a letter is put to it, so events come in the same order as if it were not.
pub fn run_serial<P: Program, W: Watch>(nodes: &mut Vec<Node<P, W>>) -> Result<End, NoMemory>
    requires nodes { AreSomeNodes (record { step = P.step; state = P.state; last = P.last; version = P.version }) W.HasSeen nodes.old.items }
    ensures goes { EachOf (GoesOn (record { step = P.step; state = P.state; last = P.last; version = P.version }) W.HasSeen W.made) nodes.old.items nodes.new.items }
    ensures ends { IfOk result (Ends nodes.new.items) }
    ensures met { OnOk result (HaveMet nodes.new.items × AreUnspoiled nodes.new.items) }
    ensures run { OnOk result (RunTogether (record { step = P.step; state = P.state; last = P.last; version = P.version }) W.HasSeen nodes.old.items nodes.new.items) }
{
    run_in_turns(nodes.as_mut_slice())
}

fn run_in_turns<P: Program, W: Watch>(nodes: &mut [Node<P, W>]) -> Result<End, NoMemory>
    requires nodes { AreSomeNodes (record { step = P.step; state = P.state; last = P.last; version = P.version }) W.HasSeen nodes.old }
    ensures goes { EachOf (GoesOn (record { step = P.step; state = P.state; last = P.last; version = P.version }) W.HasSeen W.made) nodes.old nodes.new }
    ensures ends { IfOk result (Ends nodes.new) }
    ensures met { OnOk result (HaveMet nodes.new × AreUnspoiled nodes.new) }
    ensures run { OnOk result (RunTogether (record { step = P.step; state = P.state; last = P.last; version = P.version }) W.HasSeen nodes.old nodes.new) }
{
    turn_on(nodes)?;
    'rounds: loop {
        if let Some(end) = end_of(nodes) {
            return Ok(end);
        }
        turn_on(nodes)?;
    }
}

/// A turn of each node that is not idle, again and again, until no turn was an event or a node is at its limit.
fn turn_on<P: Program, W: Watch>(nodes: &mut [Node<P, W>]) -> Result<(), NoMemory>
    requires nodes { All (IsSomeNode (record { step = P.step; state = P.state; last = P.last; version = P.version }) W.HasSeen) nodes.old }
    requires few { length nodes.old ≤ 8 }
    ensures goes { EachOf (GoesOn (record { step = P.step; state = P.state; last = P.last; version = P.version }) W.HasSeen W.made) nodes.old nodes.new }
    ensures works { OnOk result (EachOf Works nodes.old nodes.new) }
{
    let mut awake = Awake::all();
    'again: loop {
        let round = turn_each(nodes, 0, &mut awake)?;
        if !round.event || round.limit {
            return Ok(());
        }
    }
}

/// What the turns of a round were.
#[derive(Clone, Copy, Debug)]
struct Round {
    /// A turn was an event.
    event: bool,
    /// A node that made a turn is at its limit.
    limit: bool,
}

impl Round {
    /// No turn.
    #[inline(always)]
    fn none() -> Round
        ensures { result.event ≡ false }
    {
        Round {
            event: false,
            limit: false,
        }
    }
}

/// A turn of each node that is awake, of those of which the first has this number.
fn turn_each<P: Program, W: Watch>(
    nodes: &mut [Node<P, W>],
    first: usize,
    awake: &mut Awake,
) -> Result<Round, NoMemory>
    requires nodes { All (IsSomeNode (record { step = P.step; state = P.state; last = P.last; version = P.version }) W.HasSeen) nodes.old }
    requires few { first + length nodes.old ≤ 8 }
    requires idle { AreIdle awake.old first nodes.old }
    ensures goes { EachOf (GoesOn (record { step = P.step; state = P.state; last = P.last; version = P.version }) W.HasSeen W.made) nodes.old nodes.new }
    ensures works { OnOk result (EachOf Works nodes.old nodes.new) }
    ensures falls { IfOk result (λ round. round.event ≡ true → all_left nodes.new < all_left nodes.old) }
    ensures idle { OnOk result (AreIdle awake.new first nodes.new) }
    ensures others { OnOk result ((k : ℕ) → k < first → is_awake awake.new k ≡ false → is_awake awake.old k ≡ false) }
{
    if awake.none_from(first) {
        return Ok(Round::none());
    }
    let Some((node, others)) = nodes.split_first_mut() else {
        return Ok(Round::none());
    };
    let here = turn_one(node, first, awake)?;
    let rest = turn_each(others, first + 1, awake)?;
    let any = one_of(here.event, rest.event);
    let spent = one_of(here.limit, rest.limit);
    Ok(Round {
        event: any,
        limit: spent,
    })
}

/// A turn of the node with this number, if it is awake. It rests once it is idle, and those to which it put letters wake.
#[inline(always)]
fn turn_one<P: Program, W: Watch>(
    node: &mut Node<P, W>,
    number: usize,
    awake: &mut Awake,
) -> Result<Round, NoMemory>
    requires node { IsSomeNode (record { step = P.step; state = P.state; last = P.last; version = P.version }) W.HasSeen node.old }
    requires number { number < 8 }
    requires idle { is_awake awake.old number ≡ false → IsIdle node.old }
    ensures goes { GoesOn (record { step = P.step; state = P.state; last = P.last; version = P.version }) W.HasSeen W.made node.old node.new }
    ensures works { OnOk result (Works node.old node.new) }
    ensures falls { IfOk result (λ round. round.event ≡ true → weight node.new.base < weight node.old.base) }
    ensures idle { OnOk result (is_awake awake.new number ≡ false → IsIdle node.new) }
    ensures others { OnOk result ((k : ℕ) → k ≢ number → is_awake awake.new k ≡ false → is_awake awake.old k ≡ false) }
{
    if !awake.is(number) {
        return Ok(Round::none());
    }
    let turn = node.turn()?;
    follow(node, turn, number, awake);
    Ok(Round {
        event: is_event(turn),
        limit: node.is_at_limit(),
    })
}

/// What comes behind a turn of a node: it rests where it is idle, and those to which it put letters wake.
#[inline(always)]
fn follow<P: Program, W: Watch>(node: &mut Node<P, W>, turn: Turn, number: usize, awake: &mut Awake)
    requires number { number < 8 }
    ensures rest { node.new ≡ record node.old { base = record node.old.base { outbox = record node.old.base.outbox { reached = node.new.base.outbox.reached } } } }
    ensures rests { (k : ℕ) → is_awake awake.new k ≡ false → ((k ≡ number) × (turn ≡ Idle) × IsAtRest node.old) ⊎ (is_awake awake.old k ≡ false) }
{
    let nothing = has_nothing(node, turn);
    awake.rest_if(nothing, number);
    awake.wake(node.reached());
}

/// Whether a turn of a node did nothing, and left nothing to do.
#[inline(always)]
fn has_nothing<P: Program, W: Watch>(node: &Node<P, W>, turn: Turn) -> bool
    ensures { result ≡ true → (turn ≡ Idle) × IsAtRest node.now }
{
    matches!(turn, Turn::Idle) && node.is_at_rest()
}

/// Whether a turn was an event.
fn is_event(turn: Turn) -> bool
    ensures { result ≡ true → turn ≡ Event }
{
    matches!(turn, Turn::Event)
}

/// Whether one of two holds.
fn one_of(a: bool, b: bool) -> bool
    ensures { result ≡ true → (a ≡ true) ⊎ (b ≡ true) }
{
    a || b
}
