ghost use Rattle.std.specs.Prelude.{◌≡◌, ◌++◌, IfOk, OnOk, codes, map};
ghost use Rattle.std.specs.List.{flat_map};
ghost use Rattle.charlotte_text.specs.Spelling.{number_text};
ghost use Rattle.journal_text.specs.Journal.{placed_at};
ghost use Rattle.transcript_lines.specs.Transcript.{line, happened_text, entry_text, step_text, entry_lines};

use crate::call::push_kept_call;
use crate::happened::{push_asking, push_taking};
use crate::header_lines::empty_line;
use crate::packet::push_kept_packet;
use crate::step::push_kept_step;
use crate::{Entry, Happened, Placed};
use charlotte_calls::NoMemory;
use charlotte_text::push_number;
use compact_calls::CompactStep;
use std::alloc::Global;

fn push_happened(out: &mut Vec<u8>, what: &Happened) -> Result<(), NoMemory>
    ensures { OnOk result (out.new.items ≡ out.old.items ++ happened_text what.now) }
{
    match what {
        Happened::Asked { p, call } => {
            push_asking(out, *p)?;
            push_kept_call(out, call.stored())
        }
        Happened::Took { from, picture } => {
            push_taking(out, *from)?;
            push_kept_packet(out, picture.stored())
        }
    }
}

/// Appends the stamp and the kernel of an entry, with which its line begins, as `7 k1`.
pub fn push_head(out: &mut Vec<u8>, stamp: u64, kernel: u8) -> Result<(), NoMemory>
    ensures { OnOk result (out.new.items ≡ out.old.items ++ number_text stamp ++ codes " k" ++ number_text kernel) }
{
    push_number(out, stamp)?;
    out.extend_from_slice(b" k")?;
    push_number(out, u64::from(kernel))?;
    Ok(())
}

/// Appends the line of an entry of this kernel.
fn push_entry_line(out: &mut Vec<u8>, kernel: u8, entry: &Entry) -> Result<(), NoMemory>
    ensures { OnOk result (out.new.items ≡ out.old.items ++ line (entry_text (placed_at kernel entry.now))) }
{
    push_head(out, entry.stamp, kernel)?;
    push_happened(out, &entry.what)?;
    out.push(b'\n')?;
    Ok(())
}

fn entry_line(alloc: Global, placed: &Placed) -> Result<Vec<u8>, NoMemory>
    ensures { IfOk result (λ text. text.items ≡ line (entry_text placed.now)) }
{
    let mut text = empty_line(alloc)?;
    push_entry_line(&mut text, placed.kernel, &placed.entry)?;
    Ok(text)
}

fn push_step_line(out: &mut Vec<u8>, step: &CompactStep) -> Result<(), NoMemory>
    ensures { OnOk result (out.new.items ≡ out.old.items ++ line (step_text step.now)) }
{
    push_kept_step(out, step.stored())?;
    out.push(b'\n')?;
    Ok(())
}

fn step_line(alloc: Global, step: &CompactStep) -> Result<Vec<u8>, NoMemory>
    ensures { IfOk result (λ text. text.items ≡ line (step_text step.now)) }
{
    let mut text = empty_line(alloc)?;
    push_step_line(&mut text, step)?;
    Ok(text)
}

fn push_step_lines(
    alloc: Global,
    lines: &mut Vec<Vec<u8>>,
    steps: &[CompactStep],
) -> Result<(), NoMemory>
    ensures { OnOk result (map (λ l. l.items) lines.new.items ≡ map (λ l. l.items) lines.old.items ++ map (λ s. line (step_text s)) steps.now) }
{
    for step in steps {
        lines.push(step_line(alloc, step)?)?;
    }
    Ok(())
}

pub(crate) fn push_entry_lines(
    alloc: Global,
    lines: &mut Vec<Vec<u8>>,
    placed: &Placed,
) -> Result<(), NoMemory>
    ensures { OnOk result (map (λ l. l.items) lines.new.items ≡ map (λ l. l.items) lines.old.items ++ entry_lines placed.now) }
{
    lines.push(entry_line(alloc, placed)?)?;
    push_step_lines(alloc, lines, placed.entry.steps.as_slice())?;
    Ok(())
}

pub(crate) fn push_merged_lines(
    alloc: Global,
    lines: &mut Vec<Vec<u8>>,
    merged: &[Placed],
) -> Result<(), NoMemory>
    ensures { OnOk result (map (λ l. l.items) lines.new.items ≡ map (λ l. l.items) lines.old.items ++ flat_map entry_lines merged.now) }
{
    for placed in merged {
        push_entry_lines(alloc, lines, placed)?;
    }
    Ok(())
}
