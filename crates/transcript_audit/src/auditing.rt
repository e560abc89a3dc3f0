ghost use Rattle.std.specs.Prelude.{◌≡◌, ◌<◌, List, ℕ, IfErr, IfOk, MatchBool, OnOk, length};
ghost use Rattle.kernel_journal.specs.At.{IsAt};
ghost use Rattle.kernel_journal.specs.Expected.{HasTaken};
ghost use Rattle.transcript_audit.specs.Audit.{AreRest, HasHalted, HasReadAll, IsAudited, IsBadRest, IsFaultOf, IsHaltBehind};
ghost use Rattle.transcript_reader.specs.Lines.{unread};
ghost use Rattle.transcript_reading.specs.declared.line.LineKind.{LineKind as AKind};

use crate::fault::AuditFault;
use crate::halt::Halt;
use kernel_journal::{Last, Replay};
use std::alloc::Global;
use transcript_reader::{LineFault, Reader};

/// Audits a text: the last line of the transcript of a run that it is, where its lines are those of a run of kernels, which is one lawful run
/// of the link service. A line that cannot stand in its place is told before an earlier one that differs. The lines are not kept.
pub fn audit(alloc: Global, bytes: &[u8]) -> Result<Last, AuditFault>
    requires { length bytes.now < 4294967295 }
    ensures accepted { IfOk result (IsAudited bytes.now) }
    ensures fault { IfErr result (IsFaultOf bytes.now) }
{
    let mut reader = Reader::new(bytes);
    match replay_lines(alloc, &mut reader) {
        Ok(last) => Ok(last),
        Err(Halt::Bad { line }) => Err(AuditFault::NoTranscript { line }),
        Err(Halt::Differs { line }) => {
            read_rest(&mut reader)?;
            Err(AuditFault::NoTranscript { line })
        }
        Err(Halt::NoMemory) => Err(AuditFault::NoMemory),
    }
}

/// Reads the lines of a text and replays them, up to the first that is bad or differs.
fn replay_lines(alloc: Global, reader: &mut Reader<'_>) -> Result<Last, Halt>
    requires { (bytes : List ℕ) × (reader.old ≡ unread bytes) }
    ensures accepted { IfOk result (λ last. (bytes : List ℕ) → reader.old ≡ unread bytes → IsAudited bytes last) }
    ensures halted { IfErr result (λ halt. (bytes : List ℕ) → reader.old ≡ unread bytes → IsHaltBehind bytes reader.new halt) }
{
    let mut replay = Replay::new(alloc);
    while replay_line(&mut replay, reader)? {}
    match replay.last() {
        Some(last) => Ok(last),
        None => unreachable!(),
    }
}

/// Reads the next line of a text and replays it; `false` once all were read.
fn replay_line(replay: &mut Replay, reader: &mut Reader<'_>) -> Result<bool, Halt>
    requires { (taken : List AKind) × IsAt taken reader.old.place replay.old }
    ensures taken { IfOk result (λ more. (taken : List AKind) → IsAt taken reader.old.place replay.old
        → MatchBool more (HasTaken taken reader.old reader.new replay.new) (HasReadAll taken reader.old replay.new)) }
    ensures halted { IfErr result (λ halt. (taken : List AKind) → IsAt taken reader.old.place replay.old → HasHalted taken reader.old reader.new halt) }
{
    if replay.take_expected(reader)? {
        return Ok(true);
    }
    take_line(replay, reader)
}

/// Reads the next line of a text into a value, whatever it shows, and replays that; `false` once all were read.
fn take_line(replay: &mut Replay, reader: &mut Reader<'_>) -> Result<bool, Halt>
    requires { (taken : List AKind) × IsAt taken reader.old.place replay.old }
    ensures taken { IfOk result (λ more. (taken : List AKind) → IsAt taken reader.old.place replay.old
        → MatchBool more (HasTaken taken reader.old reader.new replay.new) (HasReadAll taken reader.old replay.new)) }
    ensures halted { IfErr result (λ halt. (taken : List AKind) → IsAt taken reader.old.place replay.old → HasHalted taken reader.old reader.new halt) }
{
    match reader.next_line()? {
        Some(line) => {
            replay.take(&line)?;
            Ok(true)
        }
        None => Ok(false),
    }
}

/// Reads the lines that are left: whether each can stand where it stands.
fn read_rest(reader: &mut Reader<'_>) -> Result<(), LineFault>
    ensures lines { OnOk result (AreRest reader.old) }
    ensures fault { IfErr result (IsBadRest reader.old) }
{
    while reader.skip_line()? {}
    Ok(())
}
