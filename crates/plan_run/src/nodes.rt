//! The nodes of a run: before it, through it, and what they leave.
ghost use Rattle.std.specs.Prelude.{◌≡◌, ◌≤◌, ℕ, List, None, All, IfOk, length, map};
ghost use Rattle.charlotte_calls.specs.Setting.{IsValid};
ghost use Rattle.charlotte_calls.specs.declared.setting.Setting.{Setting as ASetting};
ghost use Rattle.kernel_entries.specs.Order.{IsMerge};
ghost use Rattle.kernel_worker.specs.Ends.{AreSomeNodes};
ghost use Rattle.kernel_worker.specs.Net.{journals_of as entries_of};
ghost use Rattle.plan_run.specs.Nodes.{AreReady, HaveEnded};

use charlotte_calls::{NoMemory, Program, Setting};
use kernel_net::Net;
use kernel_worker::{End, Gate, NoWatch, Node, Orders, run_nodes, run_serial};
use node_start::start_nodes;
use std::alloc::Global;
use std::thread::Threads;
use written_journal::{Merged, WrittenJournal};

/// How many letters a ring holds.
const LETTERS: u16 = 64;

/// The nodes of a setting before their first turns, which may use so many.
pub(crate) fn nodes_of<P: Program + Drop>(
    alloc: Global,
    setting: &Setting,
    programs: Vec<P>,
    turns: u32,
) -> Result<Vec<Node<P, NoWatch>>, NoMemory>
    requires valid { IsValid setting.now }
    requires count { length programs.items ≡ length setting.now.homes }
    requires fresh { All (λ p. (P.last p ≡ None) × (P.version p ≤ setting.now.version)) programs.items }
    requires turns { turns ≤ 100000 }
    ensures { IfOk result (λ ns. AreReady (record { step = P.step; state = P.state; last = P.last; version = P.version }) setting.now programs.items turns ns.items) }
{
    let ports = Net::make(alloc, setting.kernels, LETTERS)?;
    let parts = parts_of(alloc, setting.kernels, turns)?;
    let nodes = start_nodes(alloc, setting, programs, ports, parts)?;
    Ok(nodes)
}

/// What each node is to do: at most so many turns, and no snapshot.
fn parts_of(alloc: Global, kernels: u8, turns: u32) -> Result<Vec<(Orders, NoWatch)>, NoMemory>
    ensures count { IfOk result (λ parts. length parts.items ≡ kernels) }
    ensures limit { IfOk result (λ parts. All (λ part. part.0.limit ≡ turns) parts.items) }
{
    let mut parts = Vec::new(alloc);
    for _ in 0..kernels {
        let orders = Orders {
            limit: turns,
            begins: None,
        };
        parts.push((orders, NoWatch))?;
    }
    Ok(parts)
}

/// Runs nodes by one thread, or with a worker for each: how they ended.
pub(crate) fn run_of<R: Threads + Sync, P: Program + Send, G: Gate + Sync>(
    rt: &R,
    nodes: &mut Vec<Node<P, NoWatch>>,
    serial: bool,
    gate: &G,
) -> Result<End, NoMemory>
    requires { AreSomeNodes (record { step = P.step; state = P.state; last = P.last; version = P.version }) (λ _ _. Unit {0}) nodes.old.items }
    ensures { IfOk result (λ end. (s : ASetting) (programs : List P) (turns : ℕ)
        → AreReady (record { step = P.step; state = P.state; last = P.last; version = P.version }) s programs turns nodes.old.items
        → HaveEnded (record { step = P.step; state = P.state; last = P.last; version = P.version }) s programs turns nodes.new.items end) }
{
    if serial {
        run_serial(nodes)
    } else {
        run_nodes(rt, nodes, gate)
    }
}

/// The merge of the journals of nodes.
pub(crate) fn merged_of<P: Program + Drop>(
    alloc: Global,
    nodes: Vec<Node<P, NoWatch>>,
) -> Result<Merged, NoMemory>
    requires { length nodes.items ≤ 8 }
    ensures { IfOk result (IsMerge (entries_of nodes.items)) }
{
    let journals = journals_of(alloc, nodes)?;
    Ok(Merged::of_journals(alloc, journals)?)
}

/// The journals of nodes.
fn journals_of<P: Program + Drop>(
    alloc: Global,
    nodes: Vec<Node<P, NoWatch>>,
) -> Result<Vec<WrittenJournal>, NoMemory>
    ensures { IfOk result (λ journals. journals.items ≡ map (λ n. n.base.journal) nodes.items) }
{
    let mut journals = Vec::new(alloc);
    for node in nodes {
        let (journal, _) = node.finish();
        journals.push(journal)?;
    }
    Ok(journals)
}
