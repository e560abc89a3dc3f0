ghost use Rattle.std.specs.Prelude.{◌≡◌, ◌++◌, ◌∷◌, [], OnOk, codes};
ghost use Rattle.charlotte_text.specs.Spelling.{end_text, ends_text, process_text, way_text};
ghost use Rattle.compact_calls.specs.Stored.{report_of, step_of};
ghost use Rattle.transcript_lines.specs.Transcript.{cause_text, numbers_text, result_text, report_text, suffix_text, step_text};

use crate::packet::{push_numbered, push_on};
use charlotte_calls::{Cause, EndId, NoMemory, Outcome, Pid, Report, ServiceStep, Way};
use charlotte_text::{push_bytes, push_ends, push_process, push_way};
use compact_calls::{StoredReport, StoredStep};
use transcript_lines::cause_name;

/// Appends a word with its blank, and a process.
pub(crate) fn push_of(out: &mut Vec<u8>, word: &[u8], p: Pid) -> Result<(), NoMemory>
    ensures { OnOk result (out.new.items ≡ out.old.items ++ word.now ++ process_text p) }
{
    out.extend_from_slice(word)?;
    push_process(out, p)?;
    Ok(())
}

fn push_result(
    out: &mut Vec<u8>,
    way: Way,
    outcome: Outcome,
    bytes: &[u8],
    ends: &[EndId],
) -> Result<(), NoMemory>
    ensures { OnOk result (out.new.items ≡ out.old.items ++ result_text way outcome bytes.now ends.now) }
{
    match (way, outcome) {
        (Way::Outward, Outcome::Done) => out.extend_from_slice(b" done")?,
        (Way::Outward, Outcome::Destroyed) => {
            out.extend_from_slice(b" destroyed")?;
            push_ends(out, ends)?;
        }
        (Way::Inward, Outcome::Done) => {
            out.extend_from_slice(b" done ")?;
            push_bytes(out, bytes)?;
            push_ends(out, ends)?;
        }
        (Way::Inward, Outcome::Destroyed) => out.extend_from_slice(b" destroyed")?,
    }
    Ok(())
}

/// Appends a report up to how the activity was over.
fn push_over(out: &mut Vec<u8>, p: Pid, on: EndId, way: Way) -> Result<(), NoMemory>
    ensures { OnOk result (out.new.items ≡ out.old.items ++ codes ". report " ++ process_text p ++ codes " " ++ end_text on ++ codes " " ++ way_text way) }
{
    push_of(out, b". report ", p)?;
    push_on(out, b" ", on)?;
    out.push(b' ')?;
    push_way(out, way)
}

fn push_kept_report(out: &mut Vec<u8>, p: Pid, report: &StoredReport) -> Result<(), NoMemory>
    ensures { OnOk result (out.new.items ≡ out.old.items ++ report_text p (report_of report.now)) }
{
    push_over(out, p, report.on, report.way)?;
    push_result(
        out,
        report.way,
        report.outcome,
        report.message.bytes(),
        report.message.enclose(),
    )
}

fn push_report(out: &mut Vec<u8>, p: Pid, report: &Report) -> Result<(), NoMemory>
    ensures { OnOk result (out.new.items ≡ out.old.items ++ report_text p report.now) }
{
    push_over(out, p, report.on, report.way)?;
    push_result(
        out,
        report.way,
        report.outcome,
        report.bytes.as_slice(),
        report.enclosed.as_slice(),
    )
}

fn push_suffix(out: &mut Vec<u8>, said: bool, word: &[u8]) -> Result<(), NoMemory>
    ensures { OnOk result (out.new.items ≡ out.old.items ++ suffix_text said word.now) }
{
    if said {
        out.push(b' ')?;
        out.extend_from_slice(word)?;
    }
    Ok(())
}

fn push_make(out: &mut Vec<u8>, a: EndId, b: EndId) -> Result<(), NoMemory>
    ensures { OnOk result (out.new.items ≡ out.old.items ++ codes ". make " ++ end_text a ++ codes " " ++ end_text b) }
{
    push_on(out, b". make ", a)?;
    push_on(out, b" ", b)
}

fn push_refusal(out: &mut Vec<u8>, p: Pid, cause: Cause) -> Result<(), NoMemory>
    ensures { OnOk result (out.new.items ≡ out.old.items ++ codes ". refuse " ++ process_text p ++ codes " " ++ cause_text cause) }
{
    push_of(out, b". refuse ", p)?;
    out.push(b' ')?;
    out.extend_from_slice(cause_name(cause))?;
    Ok(())
}

fn push_send(out: &mut Vec<u8>, on: EndId, n: u32, enclose: &[EndId]) -> Result<(), NoMemory>
    ensures { OnOk result (out.new.items ≡ out.old.items ++ codes ". send " ++ end_text on ++ numbers_text (n ∷ []) ++ ends_text enclose.now) }
{
    push_numbered(out, b". send ", on, n)?;
    push_ends(out, enclose)
}

fn push_cancel(out: &mut Vec<u8>, on: EndId, way: Way) -> Result<(), NoMemory>
    ensures { OnOk result (out.new.items ≡ out.old.items ++ codes ". cancel " ++ end_text on ++ codes " " ++ way_text way) }
{
    push_on(out, b". cancel ", on)?;
    out.push(b' ')?;
    push_way(out, way)
}

fn push_take(out: &mut Vec<u8>, on: EndId, n: u32, p: Pid, late: bool) -> Result<(), NoMemory>
    ensures { OnOk result (out.new.items ≡ out.old.items ++ codes ". take " ++ end_text on ++ numbers_text (n ∷ []) ++ codes " " ++ process_text p ++ suffix_text late (codes "late")) }
{
    push_numbered(out, b". take ", on, n)?;
    push_of(out, b" ", p)?;
    push_suffix(out, late, b"late")
}

fn push_notice(out: &mut Vec<u8>, on: EndId, dead: bool) -> Result<(), NoMemory>
    ensures { OnOk result (out.new.items ≡ out.old.items ++ codes ". notice " ++ end_text on ++ suffix_text dead (codes "dead")) }
{
    push_on(out, b". notice ", on)?;
    push_suffix(out, dead, b"dead")
}

fn push_back(out: &mut Vec<u8>, on: EndId, n: u32, dead: bool) -> Result<(), NoMemory>
    ensures { OnOk result (out.new.items ≡ out.old.items ++ codes ". back " ++ end_text on ++ numbers_text (n ∷ []) ++ suffix_text dead (codes "dead")) }
{
    push_numbered(out, b". back ", on, n)?;
    push_suffix(out, dead, b"dead")
}

/// Appends a service step as it is kept, as `. take 0.0a 1 p1 late`.
pub(crate) fn push_kept_step(out: &mut Vec<u8>, step: &StoredStep) -> Result<(), NoMemory>
    ensures { OnOk result (out.new.items ≡ out.old.items ++ step_text (step_of step.now)) }
{
    match step {
        StoredStep::Make { p: _, a, b } => push_make(out, *a, *b),
        StoredStep::Refuse { p, call: _, cause } => push_refusal(out, *p, *cause),
        StoredStep::Destroy { on } => push_on(out, b". destroy ", *on),
        StoredStep::Send { on, n, message } => push_send(out, *on, *n, message.enclose()),
        StoredStep::Receive { on } => push_on(out, b". receive ", *on),
        StoredStep::Cancel { on, way } => push_cancel(out, *on, *way),
        StoredStep::Wait { p } => push_of(out, b". wait ", *p),
        StoredStep::Report { p, report } => push_kept_report(out, *p, report),
        StoredStep::Exit { p } => push_of(out, b". exit ", *p),
        StoredStep::Match { on, n } => push_numbered(out, b". match ", *on, *n),
        StoredStep::Take { on, n, p, late } => push_take(out, *on, *n, *p, *late),
        StoredStep::Complete { on, n } => push_numbered(out, b". complete ", *on, *n),
        StoredStep::Withdraw { on } => push_on(out, b". withdraw ", *on),
        StoredStep::Free { on } => push_on(out, b". free ", *on),
        StoredStep::Notice { on, dead } => push_notice(out, *on, *dead),
        StoredStep::Back { on, n, dead } => push_back(out, *on, *n, *dead),
    }
}

/// Appends a service step, as `. take 0.0a 1 p1 late`.
pub(crate) fn push_step(out: &mut Vec<u8>, step: &ServiceStep) -> Result<(), NoMemory>
    ensures { OnOk result (out.new.items ≡ out.old.items ++ step_text step.now) }
{
    match step {
        ServiceStep::Make { p: _, a, b } => push_make(out, *a, *b),
        ServiceStep::Refuse { p, call: _, cause } => push_refusal(out, *p, *cause),
        ServiceStep::Destroy { on } => push_on(out, b". destroy ", *on),
        ServiceStep::Send {
            on,
            n,
            bytes: _,
            enclose,
        } => push_send(out, *on, *n, enclose.as_slice()),
        ServiceStep::Receive { on } => push_on(out, b". receive ", *on),
        ServiceStep::Cancel { on, way } => push_cancel(out, *on, *way),
        ServiceStep::Wait { p } => push_of(out, b". wait ", *p),
        ServiceStep::Report { p, report } => push_report(out, *p, report),
        ServiceStep::Exit { p } => push_of(out, b". exit ", *p),
        ServiceStep::Match { on, n } => push_numbered(out, b". match ", *on, *n),
        ServiceStep::Take { on, n, p, late } => push_take(out, *on, *n, *p, *late),
        ServiceStep::Complete { on, n } => push_numbered(out, b". complete ", *on, *n),
        ServiceStep::Withdraw { on } => push_on(out, b". withdraw ", *on),
        ServiceStep::Free { on } => push_on(out, b". free ", *on),
        ServiceStep::Notice { on, dead } => push_notice(out, *on, *dead),
        ServiceStep::Back { on, n, dead } => push_back(out, *on, *n, *dead),
    }
}
