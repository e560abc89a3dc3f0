//! Runs of nodes with a worker for each.
ghost use Rattle.std.specs.Prelude.{◌≤◌, OnOk, length};
ghost use Rattle.worker_tests.specs.Nodes.{AreRunnable};

use crate::nodes::{Making, Nodes, Ran, Started, holds, last_of, left, start};
use crate::runs::{AMPLE, PRINTS};
use crate::snapshots::SCRIPT;
use charlotte_calls::NoMemory;
use kernel_worker::{Gate, NoGate, run_nodes};
use std::alloc::Global;
use std::test::Fail;
use std::thread::Threads;
use transcript_lines::Last;

/// Two kernels with a process each, which have one link.
const PAIR: &str = "version 2
kernels 2
process 0 on 0
process 1 on 1
wire 0 1
";

/// Each sends the other a byte, in turn.
const BOTH_WAYS: &str = "p0 send 0.0a x
p0 wait
p0 receive 0.0a
p0 wait
p1 receive 0.0b
p1 wait
p1 send 0.0b y
p1 wait
";

/// How often they do.
const ROUNDS: u32 = 50;

/// The events of each time: the calls, and three packets for each byte.
const EVENTS: u32 = 8 + 2 * 3;

/// Runs the nodes of a script with a worker for each, behind a gate.
pub(crate) fn work<R: Threads + Sync, G: Gate + Sync>(
    rt: &R,
    alloc: Global,
    making: Making,
    script: &str,
    gate: &G,
) -> Result<Ran, Fail> {
    let Started { setting, nodes } = start(alloc, making, script)?;
    let mut nodes = nodes;
    let last = work_of(rt, &mut nodes, gate)?;
    left(alloc, setting, nodes, last)
}

/// Runs nodes with a worker for each: the last line of the transcript.
fn work_of<R: Threads + Sync, G: Gate + Sync>(
    rt: &R,
    nodes: &mut Nodes,
    gate: &G,
) -> Result<Last, NoMemory>
    requires { AreRunnable nodes.old.items }
    ensures { OnOk result (length nodes.new.items ≤ 8) }
{
    let end = run_nodes(rt, nodes, gate)?;
    Ok(last_of(end))
}

/// The script of two processes that send each other a byte, again and again.
fn pings(alloc: Global) -> Result<String, Fail> {
    let mut script = String::new(alloc);
    script.push_str(PAIR)?;
    for _ in 0..ROUNDS {
        script.push_str(BOTH_WAYS)?;
    }
    Ok(script)
}

/// How many lines of a transcript are events: those that begin with a digit.
fn events(text: &[u8]) -> u32 {
    let mut events = 0u32;
    let mut begins = true;
    for byte in text {
        if begins && byte.is_ascii_digit() {
            events = events.saturating_add(1);
        }
        begins = *byte == b'\n';
    }
    events
}

#[test]
fn two_workers_ping(rt: HostRuntime) -> Result<(), Fail> {
    let making = Making {
        limit: 1_000,
        ..AMPLE
    };
    let script = pings(rt.alloc())?;
    let ran = work(&rt, rt.alloc(), making, script.as_str(), &NoGate)?;
    holds(ran.text.ends_with(b"quiet\n"), "a quiet run")?;
    holds(events(ran.text.as_slice()) == ROUNDS * EVENTS, "all events")
}

/// Programs that send nothing: whichever worker is faster, the transcript is the same.
#[test]
fn workers_use_up_turns(rt: HostRuntime) -> Result<(), Fail> {
    for (limit, last) in [
        (1, "1 k2 p1 print c\nspent 1\n"),
        (3, "2 k2 p1 print d\nquiet\n"),
    ] {
        let making = Making { limit, ..AMPLE };
        let ran = work(&rt, rt.alloc(), making, PRINTS, &NoGate)?;
        holds(ran.text.ends_with(last.as_bytes()), last)?;
    }
    Ok(())
}

#[test]
fn workers_make_a_snapshot(rt: HostRuntime) -> Result<(), Fail> {
    let making = Making {
        begins: Some(1),
        ..AMPLE
    };
    let ran = work(&rt, rt.alloc(), making, SCRIPT, &NoGate)?;
    let [first, second] = ran.courses.as_slice() else {
        return Err("two courses".into());
    };
    holds(first.begun() == Some(1), "where kernel 0 began")?;
    holds(first.complete(2), "the course of kernel 0")?;
    holds(second.complete(2), "the course of kernel 1")
}
