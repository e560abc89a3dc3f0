//! Counting in the lines of a transcript, and in notes.
ghost use Rattle.std.specs.Prelude.{◌≡◌, All, IfOk, OnOk};
ghost use Rattle.kernel_entries.specs.Ranges.{IsPlacedInRange};
ghost use Rattle.run_counts.specs.Counts.{counts_of};
ghost use Rattle.run_counts.specs.Lines.{bare_lines, read_line, with_lines, with_notes, with_read};
ghost use Rattle.transcript_lines.specs.TranscriptText.{IsShown};

use crate::counts::Counts;
use charlotte_calls::{Items, NoMemory, Setting};
use std::alloc::Global;
use transcript_forms::read_kind;
use transcript_lines::{Last, ScriptNote};
use written_journal::{Merged, TranscriptLines};

/// The counts over the entries of a run, and over notes.
pub(crate) fn counts_of(
    alloc: Global,
    version: u8,
    merged: Merged,
    notes: &[ScriptNote],
) -> Result<Counts, NoMemory>
    requires in_range { All IsPlacedInRange merged }
    requires shown { All (IsShown version) merged }
    ensures { IfOk result (λ counts. counts ≡ counts_of merged notes.now) }
{
    let mut counts = Counts::none();
    count_lines(
        alloc,
        version,
        bare_transcript(alloc, version, merged),
        &mut counts,
    )?;
    count_notes(notes, &mut counts)?;
    Ok(counts)
}

/// The transcript of entries without processes, wires and notes. Of its lines only those of the entries are counted.
fn bare_transcript(alloc: Global, version: u8, merged: Merged) -> TranscriptLines
    ensures { result ≡ bare_lines version merged }
{
    let setting = Setting {
        version,
        kernels: 0,
        homes: Items::of(Vec::new(alloc)),
        wires: Items::of(Vec::new(alloc)),
    };
    TranscriptLines::of(setting, merged, Items::of(Vec::new(alloc)), Last::Quiet)
}

fn count_lines(
    alloc: Global,
    version: u8,
    mut lines: TranscriptLines,
    counts: &mut Counts,
) -> Result<(), NoMemory>
    ensures { OnOk result (counts.new ≡ with_lines version lines counts.old) }
{
    let mut line = Vec::new(alloc);
    while lines.next_line(&mut line)? {
        count_line(version, line.as_slice(), counts)?;
    }
    Ok(())
}

/// Counts a line, which ends with its line feed.
fn count_line(version: u8, line: &[u8], counts: &mut Counts) -> Result<(), NoMemory>
    ensures { OnOk result (counts.new ≡ with_read counts.old (read_line version line.now)) }
{
    let text = &line[..line.len().saturating_sub(1)];
    match read_kind(version, text) {
        Ok(kind) => counts.add(&kind),
        Err(_) => Ok(()),
    }
}

fn count_notes(notes: &[ScriptNote], counts: &mut Counts) -> Result<(), NoMemory>
    ensures { OnOk result (counts.new ≡ with_notes notes.now counts.old) }
{
    for note in notes {
        counts.add_note(*note)?;
    }
    Ok(())
}
