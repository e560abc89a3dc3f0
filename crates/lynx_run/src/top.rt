//! The program's top call.
ghost use Rattle.std.specs.Prelude.{◌≡◌, [], List, Some};
ghost use Rattle.lynx_command.specs.Course.{Course, outside, Took};
ghost use Rattle.lynx_command.specs.Ending.{Tells};
ghost use Rattle.lynx_outside.specs.Logged.{Put};
ghost use Rattle.lynx_outside.specs.Sink.{WerePut};
ghost use Rattle.lynx_run.specs.Commands.{command_name, Answers};
ghost use Rattle.command_words.specs.Words.{IsWithinTurns, command_of};

use crate::audit::audit_file;
use crate::bench::bench_seed;
use crate::check::check_file;
use crate::code::code_file;
use crate::drive::drive_file;
use crate::run::{Driver, run_file};
use command_words::{Command, command_of};
use kernel_worker::Gate;
use lynx_command::{Failure, tell};
use lynx_outside::{Files, Sink, Status};
use plan_run::How;
use std::alloc::Global;
use std::thread::Threads;

/// Does what the words after the program's name ask for, and gives the status with which the program ends. Words that are not of the form of a
/// command are told so. A command that is not built yet is refused by its name. What `drive` prints is one lawful run of the link service
/// (`Drives` in `specs/Drive.antt`, by the law `every_record_is_lawful` of `theorem`), and so is what `audit` accepts (`Audits` in
/// `specs/Audit.antt`). What `code` prints is the listing of the code of the module (`Codes` in `specs/Code.antt`). What `run` prints is the
/// transcript of one run of the programs of the plan, in which requests and replies are in order (`RunsPlan` in `specs/Run.antt`). What `bench`
/// prints is the summary of the seed (`Benches` in `specs/Bench.antt`).
pub fn lynx<R: Threads + Sync, F: Files, O: Sink, E: Sink, G: Gate + Sync>(
    rt: &R,
    alloc: Global,
    words: Vec<String>,
    files: &mut F,
    out: &mut O,
    err: &mut E,
    gate: &G,
) -> Status
    ensures { (course : Course) × Answers (command_of words.items) course
        × Took course result (outside (F.state files.old) (O.state out.old) (E.state err.old))
        (outside (F.state files.new) (O.state out.new) (E.state err.new)) }
{
    let handles = Handles { threads: rt, gate };
    match command_of(words) {
        None => tell(alloc, "", Failure::Usage, err),
        Some(command) => perform_command(handles, alloc, &command, files, out, err),
    }
}

/// Tells on err why no command was looked for: words that are not text, or want of memory.
pub fn fail<E: Sink>(alloc: Global, failure: Failure, err: &mut E) -> Status
    ensures { (errs : List Put) × Tells [] failure result errs × WerePut (E.state err.old) (E.state err.new) errs }
{
    tell(alloc, "", failure, err)
}

// What a run with workers takes.
#[derive(Drop)]
struct Handles<'a, R, G> {
    threads: &'a R,
    gate: &'a G,
}

// Performs a command, or refuses it by its name.
fn perform_command<R: Threads + Sync, F: Files, O: Sink, E: Sink, G: Gate + Sync>(
    handles: Handles<R, G>,
    alloc: Global,
    command: &Command,
    files: &mut F,
    out: &mut O,
    err: &mut E,
) -> Status
    requires { IsWithinTurns command.now }
    ensures { (course : Course) × Answers (Some command.now) course
        × Took course result (outside (F.state files.old) (O.state out.old) (E.state err.old))
        (outside (F.state files.new) (O.state out.new) (E.state err.new)) }
{
    match command {
        Command::Drive { file } => drive_file(alloc, file.as_str(), files, out, err),
        Command::Check { file } => check_file(alloc, file.as_str(), files, out, err),
        Command::Code { file } => code_file(alloc, file.as_str(), files, out, err),
        Command::Audit { file } => audit_file(alloc, file.as_str(), files, out, err),
        Command::Bench { seed } => bench_seed(alloc, *seed, out, err),
        Command::Run {
            plan,
            serial,
            turns,
        } => {
            let Handles { threads, gate } = handles;
            let how = How {
                serial: *serial,
                turns: *turns,
            };
            let driver = Driver { threads, gate, how };
            run_file(driver, alloc, plan.as_str(), files, out, err)
        }
        _ => tell(alloc, command_name(command), Failure::Unbuilt, err),
    }
}

// The first word of a command.
fn command_name(command: &Command) -> &'static str
    ensures { result.now ≡ command_name command.now }
{
    match command {
        Command::Drive { .. } => "drive",
        Command::Check { .. } => "check",
        Command::Code { .. } => "code",
        Command::Run { .. } => "run",
        Command::Bench { .. } => "bench",
        Command::Audit { .. } => "audit",
        Command::Snapshot { .. } => "snapshot",
    }
}
