//! A run, from its programs to its transcript.
ghost use Rattle.std.specs.Prelude.{◌≡◌, ◌≤◌, None, All, IfOk, length};
ghost use Rattle.charlotte_calls.specs.Setting.{IsValid};
ghost use Rattle.plan_run.specs.Run.{IsRunOf, last_of};

use crate::nodes::{merged_of, nodes_of, run_of};
use charlotte_calls::{Items, NoMemory, Program, Setting};
use kernel_worker::{End, Gate};
use std::alloc::Global;
use std::thread::Threads;
use transcript_lines::Last;
use written_journal::TranscriptLines;

/// How programs are run.
#[derive(Clone, Copy, Debug, PartialEq, Eq)]
pub struct How {
    /// One thread makes a turn of each kernel, again and again; else each kernel has a worker of its own.
    pub serial: bool,
    /// How many turns a kernel may use: an event is one, and so is a step of a program that asks no call. 1 to 100,000.
    pub turns: u32,
}

/// A run that is over.
#[derive(Drop)]
pub struct Ran {
    /// Its transcript.
    pub lines: TranscriptLines,
    pub end: End,
}

/// Runs the programs of a setting, which stand by the numbers of their processes, until nothing is under way and each has ended or waits, or a
/// kernel has used its turns. Rings hold 64 letters, and no kernel begins a snapshot.
pub fn run_programs<R: Threads + Sync, P: Program + Send + Drop, G: Gate + Sync>(
    rt: &R,
    alloc: Global,
    setting: Setting,
    programs: Vec<P>,
    how: How,
    gate: &G,
) -> Result<Ran, NoMemory>
    requires valid { IsValid setting }
    requires count { length programs.items ≡ length setting.homes }
    requires fresh { All (λ p. (P.last p ≡ None) × (P.version p ≤ setting.version)) programs.items }
    requires turns { how.turns ≤ 100000 }
    ensures { IfOk result (IsRunOf (record { step = P.step; state = P.state; last = P.last; version = P.version }) setting programs.items how.turns) }
{
    let mut nodes = nodes_of(alloc, &setting, programs, how.turns)?;
    let end = run_of(rt, &mut nodes, how.serial, gate)?;
    let merged = merged_of(alloc, nodes)?;
    let lines = TranscriptLines::of(setting, merged, Items::of(Vec::new(alloc)), last_line(end));
    Ok(Ran { lines, end })
}

/// The last line of a run that ended so.
fn last_line(end: End) -> Last
    ensures { result ≡ last_of end }
{
    match end {
        End::Quiet => Last::Quiet,
        End::Spent { kernel } => Last::Spent(kernel),
    }
}
