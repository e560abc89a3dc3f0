//! What is told of a run.
ghost use Rattle.std.specs.Prelude.{◌≡◌, ◌≤◌, IfOk, length};

use crate::rounds::Worked;
use crate::trouble::Trouble;
use charlotte_calls::{Items, NoMemory, Setting};
use std::alloc::Global;
use std::io::{BufWriter, Write};
use transcript_lines::Last;
use written_journal::{Merged, TranscriptLines, WrittenJournal};

/// How many events there were.
pub(crate) fn tell(rt: &HostRuntime, nodes: &[Worked]) -> Result<(), Trouble> {
    let mut events = 0u64;
    for node in nodes {
        events = events.saturating_add(u64::from(node.journal().len()));
    }
    println!(rt; "{events} events").map_err(|_| Trouble::Write)
}

/// The transcript of a quiet run.
pub(crate) fn print_transcript(
    rt: &HostRuntime,
    alloc: Global,
    setting: Setting,
    nodes: Vec<Worked>,
) -> Result<(), Trouble>
    requires { length nodes.items ≤ 8 }
{
    let merged = Merged::of_journals(alloc, journals(alloc, nodes)?)?;
    let mut lines = TranscriptLines::of(setting, merged, Items::of(Vec::new(alloc)), Last::Quiet);
    let mut out = BufWriter::new(alloc, rt.stdout()).map_err(|_| Trouble::NoMemory)?;
    let mut line = Vec::new(alloc);
    while lines.next_line(&mut line)? {
        out.write_all(line.as_slice()).map_err(|_| Trouble::Write)?;
    }
    out.flush().map_err(|_| Trouble::Write)
}

/// The journals of these nodes.
fn journals(alloc: Global, nodes: Vec<Worked>) -> Result<Vec<WrittenJournal>, NoMemory>
    ensures { IfOk result (λ journals. length journals.items ≡ length nodes.items) }
{
    let mut journals = Vec::new(alloc);
    for node in nodes {
        let (journal, _) = node.finish();
        journals.push(journal)?;
    }
    Ok(journals)
}
