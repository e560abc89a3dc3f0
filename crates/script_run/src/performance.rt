//! Performing a script.
ghost use Rattle.std.specs.Prelude.{◌≡◌, ◌↔◌, ◌≤◌, ◌++◌, ℕ, [], All, IfOk, IsTrue, OnOk, length, map};
ghost use Rattle.std.specs.Option.{option_to_list};
ghost use Rattle.charlotte_calls.specs.Setting.{IsValid};
ghost use Rattle.charlotte_calls.specs.declared.setting.Setting.{Setting as ASetting};
ghost use Rattle.transcript_lines.specs.TranscriptText.{AreOfTranscript, IsNoteInRange};
ghost use Rattle.lynx_plan.specs.ScriptText.{AreRisingLines, FitsWhat};
ghost use Rattle.script_run.specs.Recorded.{AreLinesDone, AreReady, world_at};
ghost use Rattle.script_run.specs.Performing.{IsLast, IsPerformance};

use crate::lines::do_line;
use crate::recorded::Recorded;
use crate::undone::Undone;
use charlotte_calls::{Items, NoMemory, Setting};
use lynx_plan::ScriptLine;
use std::alloc::Global;
use transcript_lines::{Last, ScriptNote};
use written_journal::Merged;

/// What was done as a script was performed.
#[derive(Drop)]
pub struct Performance {
    /// The entries of the events, in the order of a merge.
    pub merged: Merged,
    /// What the lines did not do.
    pub notes: Items<ScriptNote>,
    /// Whether a packet is left.
    pub last: Last,
}

/// Performs the lines of a script of this setting in order.
pub fn perform(
    alloc: Global,
    setting: &Setting,
    lines: Items<ScriptLine>,
) -> Result<Performance, NoMemory>
    requires valid { IsValid setting.now }
    requires calls { All (λ l. FitsWhat setting.now l.what) lines }
    requires rising { AreRisingLines lines }
    // So no number of events runs out.
    requires few { length lines ≤ 200000 }
    ensures performed { IfOk result (λ p. IsPerformance setting.now lines p.merged p.notes p.last) }
    ensures told { IfOk result (λ p. AreOfTranscript setting.now p.merged p.notes p.last) }
{
    let mut run = Recorded::start(alloc, setting)?;
    let notes = do_lines(alloc, setting, &mut run, Undone::of(lines))?;
    let last = last_of(&run);
    tell_notes(&notes);
    let merged = Merged::of_journals(alloc, run.into_journals())?;
    Ok(Performance {
        merged,
        notes: Items::of(notes),
        last,
    })
}

/// Does what lines name, in order, and gives their notes.
fn do_lines(
    alloc: Global,
    setting: &Setting,
    run: &mut Recorded,
    mut lines: Undone,
) -> Result<Vec<ScriptNote>, NoMemory>
    requires valid { IsValid setting.now }
    requires ready { AreReady setting.now 0 run.old }
    requires calls { All (λ l. FitsWhat setting.now l.what) lines }
    requires few { length lines ≤ 200000 }
    ensures { IfOk result (λ notes. AreLinesDone setting.now lines notes.items run.old run.new) }
{
    let mut notes = Vec::new(alloc);
    while let Some(line) = lines.next() {
        let note = do_line(setting, run, line)?;
        push_note(&mut notes, note)?;
    }
    Ok(notes)
}

fn push_note(notes: &mut Vec<ScriptNote>, note: Option<ScriptNote>) -> Result<(), NoMemory>
    ensures { OnOk result (notes.new.items ≡ notes.old.items ++ option_to_list note) }
{
    if let Some(note) = note {
        notes.push(note)?;
    }
    Ok(())
}

/// Each note is a value of its type. This reads, and does nothing else.
fn tell_notes(notes: &[ScriptNote])
    ensures { All IsNoteInRange notes.now }
{
    for note in notes {
        tell_note(*note);
    }
}

fn tell_note(note: ScriptNote)
    ensures { IsNoteInRange note }
{
    let _ = note.line;
}

/// Whether a packet is left.
fn last_of(run: &Recorded) -> Last
    ensures { (s : ASetting) → IsLast (world_at s run.now) result }
{
    if run.nodes.are_quiet() {
        Last::Quiet
    } else {
        Last::Unsettled
    }
}
