//! A run of a kind.
ghost use Rattle.std.specs.Prelude.{◌≡◌, ◌≤◌, None, All, IfOk, OnOk, length};
ghost use Rattle.worker_rounds.specs.Cycles.{last_of};
ghost use Rattle.worker_rounds.specs.Nodes.{AreRunnable};

use crate::cycle::Cycle;
use crate::kinds::Plan;
use crate::moves::Move;
use crate::options::Options;
use crate::printing::{print_transcript, tell};
use crate::trouble::Trouble;
use charlotte_calls::{NoMemory, Setting};
use kernel_net::Net;
use kernel_worker::{End, NoGate, NoWatch, Node, Orders, run_nodes, run_serial};
use node_start::start_nodes;
use std::alloc::Global;
use std::thread::Threads;

/// How many letters a ring holds.
const LETTERS: u16 = 64;

/// What each node is to do: at most so many turns, and no snapshot.
const ORDERS: Orders = Orders {
    limit: 100_000,
    begins: None,
};

/// A node of a run.
pub(crate) type Worked = Node<Cycle, NoWatch>;

/// Makes a run, and tells of it.
pub(crate) fn run<R: Threads + Sync>(
    rt: &HostRuntime,
    threads: &R,
    options: &Options,
) -> Result<(), Trouble> {
    let alloc = rt.alloc();
    let Plan { setting, moves } = options.kind.plan(alloc)?;
    let mut nodes = nodes_of(alloc, &setting, moves, options.rounds)?;
    drive(threads, &mut nodes, options.workers)?;
    if options.prints {
        print_transcript(rt, alloc, setting, nodes)
    } else {
        tell(rt, &nodes)
    }
}

/// Runs nodes until they are quiet.
fn drive<R: Threads + Sync>(rt: &R, nodes: &mut Vec<Worked>, workers: bool) -> Result<(), Trouble>
    requires { AreRunnable nodes.old.items }
    ensures { OnOk result (length nodes.new.items ≤ 8) }
{
    match end_of(rt, nodes, workers)? {
        End::Quiet => Ok(()),
        End::Spent { .. } => Err(Trouble::Spent),
    }
}

/// How nodes end that run with a worker for each, or one after the other.
fn end_of<R: Threads + Sync>(
    rt: &R,
    nodes: &mut Vec<Worked>,
    workers: bool,
) -> Result<End, NoMemory>
    requires { AreRunnable nodes.old.items }
    ensures { OnOk result (length nodes.new.items ≤ 8) }
{
    if workers {
        run_nodes(rt, nodes, &NoGate)
    } else {
        run_serial(nodes)
    }
}

/// The nodes of a run before their first turns.
fn nodes_of(
    alloc: Global,
    setting: &Setting,
    moves: Vec<Vec<Move>>,
    rounds: u32,
) -> Result<Vec<Worked>, Trouble>
    ensures { IfOk result (λ ns. AreRunnable ns.items) }
{
    if !setting.valid() || moves.len() != setting.homes.len() {
        return Err(Trouble::Setting);
    }
    let programs = programs_of(alloc, moves, rounds)?;
    let ports = Net::make(alloc, setting.kernels, LETTERS)?;
    let parts = vec![in alloc; (ORDERS, NoWatch); usize::from(setting.kernels)]?;
    let nodes = start_nodes(alloc, setting, programs, ports, parts)?;
    Ok(nodes)
}

/// The programs that make these moves.
fn programs_of(alloc: Global, moves: Vec<Vec<Move>>, rounds: u32) -> Result<Vec<Cycle>, NoMemory>
    ensures count { IfOk result (λ ps. length ps.items ≡ length moves.items) }
    ensures fresh { IfOk result (λ ps. All (λ p. last_of p.last ≡ None) ps.items) }
{
    let mut programs = Vec::new(alloc);
    for own in moves {
        programs.push(Cycle::of(own, rounds))?;
    }
    Ok(programs)
}
