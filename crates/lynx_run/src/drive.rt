//! The command that performs a script.
ghost use Rattle.std.specs.Prelude.{◌≡◌, ◌≤◌, ◌+◌, ◌*◌, ℕ, List, IfOk, length};
ghost use Rattle.lynx_command.specs.Limits.{most_bytes};
ghost use Rattle.lynx_command.specs.Course.{Course, outside, Took, IsOfFile};
ghost use Rattle.lynx_command.specs.Text.{IsNextLine};
ghost use Rattle.lynx_plan.specs.ScriptText.{AreRisingLines};
ghost use Rattle.lynx_run.specs.Drive.{IsScriptOf, IsDriven, Drives};

use charlotte_calls::NoMemory;
use lynx_command::{End, Failure, FileCommand, MOST_BYTES, Output, Text, perform_file};
use lynx_outside::{Files, Sink, Status};
use lynx_plan::{Script, read_script};
use script_run::{Performance, perform};
use std::alloc::Global;
use std::marker::Model;
use written_journal::TranscriptLines;

/// The transcript of a run, whose lines are made one after the other.
#[derive(Drop)]
pub struct Transcript {
    lines: TranscriptLines,
}

impl Model for Transcript {
    ghost Value = { List (List ℕ) };

    ghost view = { λ t. t.lines };
}

impl Transcript {
    /// The lines of a transcript.
    pub(crate) fn of(lines: TranscriptLines) -> Transcript
        ensures { result ≡ lines }
    {
        Transcript { lines }
    }
}

impl Text for Transcript {
    ghost lines_left = { λ t. t };

    fn next_line(&mut self, line: &mut Vec<u8>) -> Result<bool, NoMemory>
        ensures { IfOk result (λ more. IsNextLine more self.old self.new line.new.items) }
    {
        self.lines.next_line(line)
    }
}

/// `drive`: the text is the transcript of the script of the file.
pub struct DriveCommand;

impl FileCommand for DriveCommand {
    type Text = Transcript;

    const MOST: u32 = MOST_BYTES;

    ghost MOST = { most_bytes };

    ghost finds = { Drives };

    fn find(alloc: Global, bytes: Vec<u8>) -> Result<Output<Transcript>, Failure> {
        let script = read_script(alloc, bytes.as_slice()).map_err(Failure::of_script)?;
        let text = perform_script(alloc, bytes, script)?;
        Ok(Output {
            text,
            end: End::Done,
        })
    }
}

// The transcript of the script that these bytes are. They are let go once it was performed: the C library keeps later blocks of that size among
// the small ones, where each that grows is copied.
#[tactic(auto, using(crate::proofs::Lawful::performance_is_lawful, trace_law::proofs::Run::record_is_bare))]
fn perform_script(alloc: Global, bytes: Vec<u8>, script: Script) -> Result<Transcript, NoMemory>
    requires within { length bytes.items ≤ most_bytes }
    requires given { IsScriptOf bytes.items script }
    requires rising { AreRisingLines script.lines }
    requires few { 7 * length script.lines ≤ length bytes.items + 1 }
    ensures { IfOk result (IsDriven bytes.items) }
{
    let Script { setting, lines } = script;
    let Performance {
        merged,
        notes,
        last,
    } = perform(alloc, &setting, lines)?;
    drop(bytes);
    let lines = TranscriptLines::of(setting, merged, notes, last);
    Ok(Transcript::of(lines))
}

/// Performs the script of a file, and puts its transcript on out, one put a line. What the entries of the transcript show is one
/// lawful run of the link service, and after each of them the kernels stand for its state (`lawful` of `IsDriven`). Where no packet is under
/// way at the end, no kernel keeps a trace of a link that moved on (`bare`). Where a put fails, the line of the failure is put on err. After a
/// put that failed nothing more is put.
pub fn drive_file<F: Files, O: Sink, E: Sink>(
    alloc: Global,
    name: &str,
    files: &mut F,
    out: &mut O,
    err: &mut E,
) -> Status
    ensures { (course : Course) × IsOfFile Drives most_bytes name.now course
        × Took course result (outside (F.state files.old) (O.state out.old) (E.state err.old))
        (outside (F.state files.new) (O.state out.new) (E.state err.new)) }
{
    perform_file::<DriveCommand, F, O, E>(alloc, name, files, out, err)
}
