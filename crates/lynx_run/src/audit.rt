//! The command that audits a transcript.
ghost use Rattle.std.specs.Prelude.{◌≡◌, ◌∷◌, [], IfOk, map};
ghost use Rattle.lynx_command.specs.Limits.{most_transcript_bytes};
ghost use Rattle.lynx_command.specs.Course.{Course, outside, Took, IsOfFile};
ghost use Rattle.lynx_run.specs.Audit.{audited_text, Audits, failure_of_audit};

use charlotte_calls::NoMemory;
use lynx_command::{End, Failure, FileCommand, Lines, MOST_TRANSCRIPT_BYTES, Output, perform_file};
use lynx_outside::{Files, Sink, Status};
use std::alloc::Global;
use transcript_audit::AuditFault;

/// `audit`: the text is the line `yes`, where the file is the transcript of a run.
pub struct AuditCommand;

impl FileCommand for AuditCommand {
    type Text = Lines;

    const MOST: u32 = MOST_TRANSCRIPT_BYTES;

    ghost MOST = { most_transcript_bytes };

    ghost finds = { Audits };

    fn find(alloc: Global, bytes: Vec<u8>) -> Result<Output<Lines>, Failure> {
        transcript_audit::audit(alloc, bytes.as_slice()).map_err(failure_of_audit)?;
        let lines = accepted_lines(alloc)?;
        Ok(Output {
            text: Lines::of(lines),
            end: End::Done,
        })
    }
}

// The line for a transcript that is accepted.
fn accepted_lines(alloc: Global) -> Result<Vec<Vec<u8>>, NoMemory>
    ensures { IfOk result (λ lines. map (λ l. l.items) lines.items ≡ audited_text ∷ []) }
{
    let line = b"yes\n".to_vec(alloc)?;
    let lines = vec![in alloc; line]?;
    Ok(lines)
}

// Why a text is not accepted.
fn failure_of_audit(fault: AuditFault) -> Failure
    ensures { result ≡ failure_of_audit fault }
{
    match fault {
        AuditFault::NoTranscript { line } => Failure::NoTranscript { line },
        AuditFault::NoMemory => Failure::NoMemory,
    }
}

/// Reads the transcript of a file, and puts `yes` on out where it is that of a run of kernels: its entries are a run in the order of a
/// merge, its service lines are one lawful run of the link service, and its last line is true. Else the line of the failure, with the first line
/// that no transcript has in its place, or the first one that differs, is put on err.
pub fn audit_file<F: Files, O: Sink, E: Sink>(
    alloc: Global,
    name: &str,
    files: &mut F,
    out: &mut O,
    err: &mut E,
) -> Status
    ensures { (course : Course) × IsOfFile Audits most_transcript_bytes name.now course
        × Took course result (outside (F.state files.old) (O.state out.old) (E.state err.old))
        (outside (F.state files.new) (O.state out.new) (E.state err.new)) }
{
    perform_file::<AuditCommand, F, O, E>(alloc, name, files, out, err)
}
