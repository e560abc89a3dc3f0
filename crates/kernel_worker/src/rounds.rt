ghost use Rattle.std.specs.Prelude.{◌≡◌, ◌↔◌, All, IfOk, IsTrue, OnOk};
ghost use Rattle.kernel_turns.specs.Amid.{IsSomeNode};
ghost use Rattle.node_runs.specs.Net.{AreUnspoiled, HaveMet};
ghost use Rattle.kernel_worker.specs.Ends.{AreSomeNodes, Ends, RunTogether};
ghost use Rattle.kernel_worker.specs.Rounds.{EachOf, GoesOn, Works, WorksUnspoiled};

use crate::crew::Crew;
use crate::gate::Gate;
use crate::standing::{End, end_of};
use crate::working::work;
use charlotte_calls::{NoMemory, Program};
use kernel_turns::{Node, Watch};
use std::thread::{self, Threads};

/// Each node is driven by a worker of its own, in rounds: before each the nodes are held and looked at.
pub fn run_nodes<R: Threads + Sync, P: Program + Send, W: Watch + Send, G: Gate + Sync>(
    rt: &R,
    nodes: &mut Vec<Node<P, W>>,
    gate: &G,
) -> Result<End, NoMemory>
    requires nodes { AreSomeNodes (record { step = P.step; state = P.state; last = P.last; version = P.version }) W.HasSeen nodes.old.items }
    ensures goes { EachOf (GoesOn (record { step = P.step; state = P.state; last = P.last; version = P.version }) W.HasSeen W.made) nodes.old.items nodes.new.items }
    ensures ends { IfOk result (Ends nodes.new.items) }
    ensures met { OnOk result (HaveMet nodes.new.items × AreUnspoiled nodes.new.items) }
    ensures run { OnOk result (RunTogether (record { step = P.step; state = P.state; last = P.last; version = P.version }) W.HasSeen nodes.old.items nodes.new.items) }
{
    run_in_rounds(rt, nodes.as_mut_slice(), gate)
}

fn run_in_rounds<R: Threads + Sync, P: Program + Send, W: Watch + Send, G: Gate + Sync>(
    rt: &R,
    nodes: &mut [Node<P, W>],
    gate: &G,
) -> Result<End, NoMemory>
    requires nodes { AreSomeNodes (record { step = P.step; state = P.state; last = P.last; version = P.version }) W.HasSeen nodes.old }
    ensures goes { EachOf (GoesOn (record { step = P.step; state = P.state; last = P.last; version = P.version }) W.HasSeen W.made) nodes.old nodes.new }
    ensures ends { IfOk result (Ends nodes.new) }
    ensures met { OnOk result (HaveMet nodes.new × AreUnspoiled nodes.new) }
    ensures run { OnOk result (RunTogether (record { step = P.step; state = P.state; last = P.last; version = P.version }) W.HasSeen nodes.old nodes.new) }
{
    'rounds: loop {
        if let Some(end) = end_of(nodes) {
            return Ok(end);
        }
        let crew = Crew::of(nodes.len() as u8);
        round(rt, nodes, gate, &crew)?;
    }
}

/// One round: each worker works until it leaves.
pub(crate) fn round<R: Threads + Sync, P: Program + Send, W: Watch + Send, G: Gate + Sync>(
    rt: &R,
    nodes: &mut [Node<P, W>],
    gate: &G,
    crew: &Crew,
) -> Result<(), NoMemory>
    requires nodes { All (IsSomeNode (record { step = P.step; state = P.state; last = P.last; version = P.version }) W.HasSeen) nodes.old }
    ensures goes { EachOf (GoesOn (record { step = P.step; state = P.state; last = P.last; version = P.version }) W.HasSeen W.made) nodes.old nodes.new }
    ensures works { OnOk result (EachOf Works nodes.old nodes.new) }
{
    work_each(rt, nodes, gate, crew);
    if are_unspoiled(nodes) {
        Ok(())
    } else {
        Err(NoMemory)
    }
}

/// Each node works.
fn work_each<R: Threads + Sync, P: Program + Send, W: Watch + Send, G: Gate + Sync>(
    rt: &R,
    nodes: &mut [Node<P, W>],
    gate: &G,
    crew: &Crew,
)
    requires nodes { All (IsSomeNode (record { step = P.step; state = P.state; last = P.last; version = P.version }) W.HasSeen) nodes.old }
    ensures goes { EachOf (GoesOn (record { step = P.step; state = P.state; last = P.last; version = P.version }) W.HasSeen W.made) nodes.old nodes.new }
    ensures works { EachOf WorksUnspoiled nodes.old nodes.new }
{
    let workers = nodes.len();
    if workers == 0 {
        return;
    }
    let each = |_: usize, node: &mut Node<P, W>|
        requires { IsSomeNode (record { step = P.step; state = P.state; last = P.last; version = P.version }) W.HasSeen node.old }
        ensures goes { GoesOn (record { step = P.step; state = P.state; last = P.last; version = P.version }) W.HasSeen W.made node.old node.new }
        ensures works { WorksUnspoiled node.old node.new }
    {
        let _ = work(node, gate, crew);
    };
    thread::for_each_mut(rt, nodes, workers, &each);
}

/// Whether no node wanted memory.
fn are_unspoiled<P: Program, W: Watch>(nodes: &[Node<P, W>]) -> bool
    ensures { IsTrue result ↔ AreUnspoiled nodes.now }
{
    nodes.iter().all(|node| !node.is_spoiled())
}
