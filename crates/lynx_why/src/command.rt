//! The command that tells why a text is not the transcript of a run.
ghost use Rattle.std.specs.Prelude.{◌≡◌, ◌≤◌, ◌∷◌, [], IfOk, length, map};
ghost use Rattle.lynx_command.specs.Limits.{most_transcript_bytes};
ghost use Rattle.lynx_why.specs.Why.{Explains, IsExplained, accepted_text};

use charlotte_calls::NoMemory;
use lynx_command::{End, Failure, FileCommand, Lines, MOST_TRANSCRIPT_BYTES, Output};
use std::alloc::Global;
use transcript_audit::{AuditFault, audit};
use transcript_kept::explain;

/// The text is the line `yes`, where the file is the transcript of a run; else three lines that tell why a line of it is not that of one, behind
/// which that line is told.
pub struct WhyCommand;

impl FileCommand for WhyCommand {
    type Text = Lines;

    const MOST: u32 = MOST_TRANSCRIPT_BYTES;

    ghost MOST = { most_transcript_bytes };

    ghost finds = { Explains };

    fn find(alloc: Global, bytes: Vec<u8>) -> Result<Output<Lines>, Failure> {
        let output = explained(alloc, bytes.as_slice())?;
        Ok(output)
    }
}

/// The lines for the bytes of a transcript.
fn explained(alloc: Global, bytes: &[u8]) -> Result<Output<Lines>, NoMemory>
    requires { length bytes.now ≤ most_transcript_bytes }
    ensures { IfOk result (λ output. IsExplained bytes.now output.text output.end) }
{
    match audit(alloc, bytes) {
        Ok(_) => Ok(Output {
            text: Lines::of(accepted_lines(alloc)?),
            end: End::Done,
        }),
        Err(AuditFault::NoTranscript { line }) => Ok(Output {
            text: Lines::of(explain(alloc, bytes, line)?),
            end: End::Failed(Failure::NoTranscript { line }),
        }),
        Err(AuditFault::NoMemory) => Err(NoMemory),
    }
}

/// The line for a transcript that is accepted.
fn accepted_lines(alloc: Global) -> Result<Vec<Vec<u8>>, NoMemory>
    ensures { IfOk result (λ lines. map (λ l. l.items) lines.items ≡ accepted_text ∷ []) }
{
    let line = b"yes\n".to_vec(alloc)?;
    let lines = vec![in alloc; line]?;
    Ok(lines)
}
