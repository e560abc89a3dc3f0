//! The summary of `bench`.
ghost use Rattle.std.specs.Prelude.{◌≡◌, IfOk, map};
ghost use Rattle.run_counts.specs.Summary.{IsSummary, numbered, summary_lines};

use crate::counts::Counts;
use crate::lines::counts_of;
use charlotte_calls::NoMemory;
use charlotte_text::push_number;
use lynx_plan::{Script, make_script};
use script_run::{Performance, perform};
use std::alloc::Global;

/// The summary of a seed: its nine lines, which are the counts over the run of its script.
pub fn summary_of(alloc: Global, seed: u32) -> Result<Vec<Vec<u8>>, NoMemory>
    ensures { IfOk result (λ lines. IsSummary seed (map (λ l. l.items) lines.items)) }
{
    let Script { setting, lines } = make_script(alloc, seed)?;
    let Performance {
        merged,
        notes,
        last: _,
    } = perform(alloc, &setting, lines)?;
    let counts = counts_of(alloc, setting.version, merged, notes.as_slice())?;
    summary_lines(alloc, seed, counts)
}

fn summary_lines(alloc: Global, seed: u32, counts: Counts) -> Result<Vec<Vec<u8>>, NoMemory>
    ensures { IfOk result (λ lines. map (λ l. l.items) lines.items ≡ summary_lines seed counts) }
{
    let lines = vec![in alloc;
        numbered(alloc, b"seed", u64::from(seed))?,
        numbered(alloc, b"calls", counts.calls)?,
        numbered(alloc, b"waits", counts.waits)?,
        numbered(alloc, b"nothing", counts.nothing)?,
        numbered(alloc, b"events", counts.events)?,
        numbered(alloc, b"refused", counts.refused)?,
        numbered(alloc, b"matches", counts.matches)?,
        numbered(alloc, b"takes", counts.takes)?,
        numbered(alloc, b"completes", counts.completes)?,
    ]?;
    Ok(lines)
}

/// A name, a blank and a number.
fn numbered(alloc: Global, name: &[u8], number: u64) -> Result<Vec<u8>, NoMemory>
    ensures { IfOk result (λ text. text.items ≡ numbered name.now number) }
{
    let mut line = name.to_vec(alloc)?;
    line.push(b' ')?;
    push_number(&mut line, number)?;
    line.push(b'\n')?;
    Ok(line)
}
