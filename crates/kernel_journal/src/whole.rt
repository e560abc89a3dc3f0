ghost use Rattle.std.specs.Prelude.{◌≡◌, ℕ, List, IfErr, IfOk};
ghost use Rattle.transcript_reader.specs.Text.{AreLines};
ghost use Rattle.kernel_journal.specs.Faults.{GivesLast, IsReplayFault, IsReplayOf, kinds_in};
ghost use Rattle.transcript_law.specs.Law.{IsLawfulReplay};

use crate::fault::ReplayFault;
use crate::lines::Replay;
use std::alloc::Global;
use transcript_lines::Last;
use transcript_reader::Line;

/// Replays the lines of a transcript: its last line, where they are the transcript of a run; else the first line that differs from what
/// the kernels give there.
pub fn replay(alloc: Global, lines: &[Line]) -> Result<Last, ReplayFault>
    requires { (bytes : List ℕ) × AreLines bytes lines.now }
    ensures found { IfOk result (IsReplayOf lines.now) }
    // And so its service lines are one lawful run of the link service.
    ensures lawful { IfOk result (IsLawfulReplay (kinds_in lines.now)) }
    ensures only { (last : Last) → IsReplayOf lines.now last → GivesLast last result }
    ensures fault { IfErr result (IsReplayFault lines.now) }
{
    let mut replay = Replay::new(alloc);
    for line in lines {
        replay.take(line)?;
    }
    match replay.last() {
        Some(last) => Ok(last),
        None => unreachable!(),
    }
}
