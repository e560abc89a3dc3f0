//! The command that runs a plan.
ghost use Rattle.std.specs.Prelude.{◌≡◌, ◌≤◌, List};
ghost use Rattle.lynx_command.specs.Course.{Course, outside, Took};
ghost use Rattle.lynx_command.specs.Ending.{Tells};
ghost use Rattle.lynx_command.specs.Found.{found_of};
ghost use Rattle.lynx_load.specs.Loading.{Loading, Unloaded};
ghost use Rattle.lynx_load.specs.Started.{IsLoaded, IsReady};
ghost use Rattle.lynx_load.specs.Told.{IsToldAs};
ghost use Rattle.lynx_outside.specs.Logged.{Put};
ghost use Rattle.lynx_outside.specs.Sink.{WerePut};
ghost use Rattle.run_links.specs.Claimed.{AreWired};
ghost use Rattle.run_links.specs.Linked.{plan_programs};
ghost use Rattle.lynx_run.specs.Run.{FindsRun, RunsPlan, end_of};

use crate::drive::Transcript;
use kernel_worker::{End as RunEnd, Gate};
use lynx_command::{End, Failure, Output, end_with, tell, tell_text};
use lynx_load::{LoadFault, Loaded, load_plan};
use lynx_outside::{Files, Sink, Status};
use plan_run::{How, Ran, run_programs};
use std::alloc::Global;
use std::thread::Threads;

/// With what a plan is run, and how.
#[derive(Drop)]
pub struct Driver<'a, R, G> {
    pub threads: &'a R,
    /// What each worker passes before a turn that is an event.
    pub gate: &'a G,
    pub how: How,
}

/// Runs the plan of a file with its modules, and puts the transcript on out, one put a line. The plan is read, then each module once in the order
/// of the processes. What the entries of the transcript show is one lawful run of the link service, and each call in them is the one that the
/// program of its process asked. On each link requests are accepted at most once and in order, and each reply goes to its request, and the ends
/// that they carry are where they should be (`links` of `IsRunOfPlan`). Where a file is not there or breaks a rule, the line of the first failure
/// is put on err, with the name of that file. After a put that failed nothing more is put.
pub fn run_file<R: Threads + Sync, F: Files, O: Sink, E: Sink, G: Gate + Sync>(
    driver: Driver<R, G>,
    alloc: Global,
    name: &str,
    files: &mut F,
    out: &mut O,
    err: &mut E,
) -> Status
    requires { driver.how.turns ≤ 100000 }
    ensures { (course : Course) × RunsPlan name.now driver.entry.how.turns course
        × Took course result (outside (F.state files.old) (O.state out.old) (E.state err.old))
        (outside (F.state files.new) (O.state out.new) (E.state err.new)) }
{
    match load_plan(alloc, name, files) {
        Ok(loaded) => {
            let found = run_loaded(driver, alloc, loaded);
            end_with(alloc, "", found, out, err)
        }
        Err(fault) => tell_fault(alloc, fault, err),
    }
}

// Tells why a plan was not loaded.
fn tell_fault<E: Sink>(alloc: Global, fault: LoadFault, err: &mut E) -> Status
    ensures { (x : Unloaded) → IsToldAs fault x
        → (errs : List Put) × Tells x.file x.failure result errs × WerePut (E.state err.old) (E.state err.new) errs }
{
    match fault {
        LoadFault::Failed { status, text } => tell_text(status, text.as_slice(), err),
        LoadFault::NoMemory => tell(alloc, "", Failure::NoMemory, err),
    }
}

// Runs the programs of a plan.
fn run_loaded<R: Threads + Sync, G: Gate + Sync>(
    driver: Driver<R, G>,
    alloc: Global,
    loaded: Loaded,
) -> Result<Output<Transcript>, Failure>
    requires turns { driver.how.turns ≤ 100000 }
    requires ready { IsReady loaded }
    ensures { (x : Loading) → IsLoaded x loaded → AreWired x.plan.setting (plan_programs x)
        → FindsRun x driver.entry.how.turns (found_of (λ t. t) result) }
{
    let Loaded { setting, programs } = loaded;
    let Ran { lines, end } = run_programs(
        driver.threads,
        alloc,
        setting,
        programs,
        driver.how,
        driver.gate,
    )?;
    Ok(Output {
        text: Transcript::of(lines),
        end: end_of(end),
    })
}

// How a command ends whose run ended so.
fn end_of(end: RunEnd) -> End
    ensures { result ≡ end_of end }
{
    match end {
        RunEnd::Quiet => End::Done,
        RunEnd::Spent { .. } => End::Spent,
    }
}
