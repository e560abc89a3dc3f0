ghost use Rattle.std.specs.Prelude.{◌≡◌, ◌++◌, IfOk, OnOk, map};
ghost use Rattle.transcript_lines.specs.Transcript.{line, note_text, last_text};

use crate::header_lines::{empty_line, push_number_line};
use crate::{Last, ScriptNote};
use charlotte_calls::NoMemory;
use charlotte_text::push_number;
use std::alloc::Global;

/// Appends the line of a note, as `note 7 waits`.
pub fn push_note_line(out: &mut Vec<u8>, note: ScriptNote) -> Result<(), NoMemory>
    ensures { OnOk result (out.new.items ≡ out.old.items ++ line (note_text note)) }
{
    out.extend_from_slice(b"note ")?;
    push_number(out, u64::from(note.line))?;
    out.extend_from_slice(if note.waits { b" waits" } else { b" nothing" })?;
    out.push(b'\n')?;
    Ok(())
}

fn note_line(alloc: Global, note: ScriptNote) -> Result<Vec<u8>, NoMemory>
    ensures { IfOk result (λ text. text.items ≡ line (note_text note)) }
{
    let mut text = empty_line(alloc)?;
    push_note_line(&mut text, note)?;
    Ok(text)
}

pub(crate) fn push_note_lines(
    alloc: Global,
    lines: &mut Vec<Vec<u8>>,
    notes: &[ScriptNote],
) -> Result<(), NoMemory>
    ensures { OnOk result (map (λ l. l.items) lines.new.items ≡ map (λ l. l.items) lines.old.items ++ map (λ n. line (note_text n)) notes.now) }
{
    for note in notes {
        lines.push(note_line(alloc, *note)?)?;
    }
    Ok(())
}

/// Appends the last line.
pub fn push_last_line(out: &mut Vec<u8>, last: Last) -> Result<(), NoMemory>
    ensures { OnOk result (out.new.items ≡ out.old.items ++ line (last_text last)) }
{
    match last {
        Last::Quiet => out.extend_from_slice(b"quiet\n")?,
        Last::Unsettled => out.extend_from_slice(b"open\n")?,
        Last::Spent(kernel) => push_number_line(out, b"spent ", kernel)?,
    }
    Ok(())
}

pub(crate) fn last_line(alloc: Global, last: Last) -> Result<Vec<u8>, NoMemory>
    ensures { IfOk result (λ text. text.items ≡ line (last_text last)) }
{
    let mut text = empty_line(alloc)?;
    push_last_line(&mut text, last)?;
    Ok(text)
}
