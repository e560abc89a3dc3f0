//! Runs of programs, from their setting to the transcript.
ghost use Rattle.std.specs.Prelude.{◌≡◌, ◌≤◌};

use crate::gates::{BothPass, PRINT_AND_EXIT};
use crate::nodes::{holds, is_transcript, last_of, programs_of, read};
use crate::runs::{MESSAGE, PRINTS};
use charlotte_calls::NoMemory;
use kernel_worker::{Gate, NoGate};
use lynx_plan::Script;
use plan_run::{How, Ran, run_programs};
use std::alloc::Global;
use std::test::Fail;
use std::thread::Threads;
use written_journal::TranscriptLines;

/// By one thread or with workers, and turns enough.
fn amply(serial: bool) -> How
    ensures { result.turns ≡ 100 }
{
    How { serial, turns: 100 }
}

/// The transcript of a run of the calls of a script, which `audit` accepts.
fn run<R: Threads + Sync, G: Gate + Sync>(
    rt: &R,
    alloc: Global,
    script: &str,
    how: How,
    gate: &G,
) -> Result<Vec<u8>, Fail>
    requires { how.turns ≤ 100000 }
{
    let Script { setting, lines } = read(alloc, script)?;
    let programs = programs_of(alloc, setting.homes.len(), lines.as_slice())?;
    let Ran { lines, end } = run_programs(rt, alloc, setting, programs, how, gate)?;
    let text = bytes(alloc, lines)?;
    holds(
        is_transcript(alloc, text.as_slice(), last_of(end)),
        "a transcript of a run that ended so",
    )?;
    Ok(text)
}

/// All lines, one after the other.
fn bytes(alloc: Global, lines: TranscriptLines) -> Result<Vec<u8>, NoMemory> {
    let mut lines = lines;
    let mut text = Vec::new(alloc);
    let mut line = Vec::new(alloc);
    while lines.next_line(&mut line)? {
        text.extend_from_slice(line.as_slice())?;
    }
    Ok(text)
}

#[test]
fn programs_have_their_transcript(rt: HostRuntime) -> Result<(), Fail> {
    let (script, text) = MESSAGE;
    let first = run(&rt, rt.alloc(), script, amply(true), &NoGate)?;
    holds(first.as_slice() == text.as_bytes(), text)?;
    let second = run(&rt, rt.alloc(), script, amply(true), &NoGate)?;
    holds(first.as_slice() == second.as_slice(), "the same bytes")?;
    let beside = run(&rt, rt.alloc(), script, amply(false), &NoGate)?;
    holds(beside.ends_with(b"quiet\n"), "a quiet run")
}

/// The run of programs that send nothing, so that its transcript is the same whichever worker is faster, ends so with so many turns.
fn prints_end<R: Threads + Sync>(rt: &R, alloc: Global, how: How, last: &str) -> Result<(), Fail>
    requires { how.turns ≤ 100000 }
{
    let text = run(rt, alloc, PRINTS, how, &NoGate)?;
    holds(text.ends_with(last.as_bytes()), last)
}

#[test]
fn turns_of_programs_are_used_up(rt: HostRuntime) -> Result<(), Fail> {
    for serial in [true, false] {
        let spent = How { serial, turns: 2 };
        prints_end(&rt, rt.alloc(), spent, "2 k2 p1 print d\nspent 1\n")?;
        let quiet = How { serial, turns: 3 };
        prints_end(&rt, rt.alloc(), quiet, "2 k2 p1 print d\nquiet\n")?;
    }
    Ok(())
}

/// Each kernel has a worker of its own just where one thread was not asked for.
#[test]
fn workers_run_where_they_are_asked_for(rt: HostRuntime) -> Result<(), Fail> {
    let (script, text) = PRINT_AND_EXIT;
    for serial in [true, false] {
        let gate = BothPass::new();
        let ran = run(&rt, rt.alloc(), script, amply(serial), &gate)?;
        holds(ran.as_slice() == text.as_bytes(), text)?;
        holds(gate.is_passed() != serial, "workers, or one thread")?;
    }
    Ok(())
}
