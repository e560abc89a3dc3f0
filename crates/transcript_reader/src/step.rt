//! Whether a text begins with a service step.
ghost use Rattle.std.specs.Prelude.{◌≡◌, ◌∷◌, ◌++◌, [], IfSome, codes};
ghost use Rattle.charlotte_text.specs.Spelling.{end_text, ends_text, process_text, way_text};
ghost use Rattle.transcript_lines.specs.Transcript.{cause_text, numbers_text, report_text, result_text, step_text, suffix_text};

use crate::behind::{
    behind_bytes, behind_end, behind_ends, behind_number, behind_process, behind_way,
};
use charlotte_calls::{Cause, EndId, Outcome, Pid, Report, ServiceStep, Way};
use leading_lines::{behind_byte, behind_short, behind_word};
use transcript_lines::cause_name;

/// What stands behind a service step, as `. take 0.0a 1 p1 late`, in a text that begins with it. `None` promises nothing.
pub fn behind_step<'a>(text: &'a [u8], step: &ServiceStep) -> Option<&'a [u8]>
    ensures { IfSome result (λ rest. text.now ≡ step_text step.now ++ rest.now) }
{
    match step {
        ServiceStep::Make { p: _, a, b } => behind_make(text, *a, *b),
        ServiceStep::Refuse { p, call: _, cause } => behind_refusal(text, *p, *cause),
        ServiceStep::Destroy { on } => behind_on(text, b". destroy ", *on),
        ServiceStep::Send {
            on,
            n,
            bytes: _,
            enclose,
        } => behind_send(text, *on, *n, enclose.as_slice()),
        ServiceStep::Receive { on } => behind_on(text, b". receive ", *on),
        ServiceStep::Cancel { on, way } => behind_cancel(text, *on, *way),
        ServiceStep::Wait { p } => behind_of(text, b". wait ", *p),
        ServiceStep::Report { p, report } => behind_report(text, *p, report),
        ServiceStep::Exit { p } => behind_of(text, b". exit ", *p),
        ServiceStep::Match { on, n } => behind_numbered(text, b". match ", *on, *n),
        ServiceStep::Take { on, n, p, late } => behind_take(text, *on, *n, *p, *late),
        ServiceStep::Complete { on, n } => behind_numbered(text, b". complete ", *on, *n),
        ServiceStep::Withdraw { on } => behind_on(text, b". withdraw ", *on),
        ServiceStep::Free { on } => behind_on(text, b". free ", *on),
        ServiceStep::Notice { on, dead } => behind_notice(text, *on, *dead),
        ServiceStep::Back { on, n, dead } => behind_back(text, *on, *n, *dead),
    }
}

/// Behind a word with its blank, and an end.
#[inline(always)]
pub(crate) fn behind_on<'a>(text: &'a [u8], word: &[u8], end: EndId) -> Option<&'a [u8]>
    ensures { IfSome result (λ rest. text.now ≡ word.now ++ end_text end ++ rest.now) }
{
    behind_end(behind_word(text, word)?, end)
}

/// Behind a word with its blank, and a process.
#[inline(always)]
fn behind_of<'a>(text: &'a [u8], word: &[u8], p: Pid) -> Option<&'a [u8]>
    ensures { IfSome result (λ rest. text.now ≡ word.now ++ process_text p ++ rest.now) }
{
    behind_process(behind_word(text, word)?, p)
}

/// Behind a blank and a number.
#[inline(always)]
pub(crate) fn behind_count(text: &[u8], number: u32) -> Option<&[u8]>
    ensures { IfSome result (λ rest. text.now ≡ numbers_text (number ∷ []) ++ rest.now) }
{
    behind_number(behind_byte(text, b' ')?, u64::from(number))
}

/// Behind a word with its blank, an end, and one number.
#[inline(always)]
pub(crate) fn behind_numbered<'a>(
    text: &'a [u8],
    word: &[u8],
    end: EndId,
    number: u32,
) -> Option<&'a [u8]>
    ensures { IfSome result (λ rest. text.now ≡ word.now ++ end_text end ++ numbers_text (number ∷ []) ++ rest.now) }
{
    behind_count(behind_on(text, word, end)?, number)
}

fn behind_make(text: &[u8], a: EndId, b: EndId) -> Option<&[u8]>
    ensures { IfSome result (λ rest. text.now ≡ codes ". make " ++ end_text a ++ codes " " ++ end_text b ++ rest.now) }
{
    behind_on(behind_on(text, b". make ", a)?, b" ", b)
}

fn behind_refusal(text: &[u8], p: Pid, cause: Cause) -> Option<&[u8]>
    ensures { IfSome result (λ rest. text.now ≡ codes ". refuse " ++ process_text p ++ codes " " ++ cause_text cause ++ rest.now) }
{
    let rest = behind_of(text, b". refuse ", p)?;
    behind_word(behind_byte(rest, b' ')?, cause_name(cause))
}

#[inline(always)]
fn behind_send<'a>(text: &'a [u8], on: EndId, n: u32, enclose: &[EndId]) -> Option<&'a [u8]>
    ensures { IfSome result (λ rest. text.now ≡ codes ". send " ++ end_text on ++ numbers_text (n ∷ []) ++ ends_text enclose.now ++ rest.now) }
{
    behind_ends(behind_numbered(text, b". send ", on, n)?, enclose)
}

fn behind_cancel(text: &[u8], on: EndId, way: Way) -> Option<&[u8]>
    ensures { IfSome result (λ rest. text.now ≡ codes ". cancel " ++ end_text on ++ codes " " ++ way_text way ++ rest.now) }
{
    let rest = behind_on(text, b". cancel ", on)?;
    behind_way(behind_byte(rest, b' ')?, way)
}

#[inline(always)]
fn behind_report<'a>(text: &'a [u8], p: Pid, report: &Report) -> Option<&'a [u8]>
    ensures { IfSome result (λ rest. text.now ≡ report_text p report.now ++ rest.now) }
{
    let rest = behind_of(text, b". report ", p)?;
    let rest = behind_end(behind_byte(rest, b' ')?, report.on)?;
    let rest = behind_way(behind_byte(rest, b' ')?, report.way)?;
    behind_result(rest, report)
}

#[inline(always)]
fn behind_result<'a>(text: &'a [u8], report: &Report) -> Option<&'a [u8]>
    ensures { IfSome result (λ rest. text.now ≡ result_text report.now.way report.now.outcome report.now.bytes report.now.enclosed ++ rest.now) }
{
    match (report.way, report.outcome) {
        (Way::Outward, Outcome::Done) => behind_short(text, b" done"),
        (Way::Outward, Outcome::Destroyed) => {
            behind_ends(
                behind_word(text, b" destroyed")?,
                report.enclosed.as_slice(),
            )
        }
        (Way::Inward, Outcome::Done) => {
            let rest = behind_bytes(behind_short(text, b" done ")?, report.bytes.as_slice())?;
            behind_ends(rest, report.enclosed.as_slice())
        }
        (Way::Inward, Outcome::Destroyed) => behind_word(text, b" destroyed"),
    }
}

#[inline(always)]
fn behind_suffix<'a>(text: &'a [u8], said: bool, word: &[u8]) -> Option<&'a [u8]>
    ensures { IfSome result (λ rest. text.now ≡ suffix_text said word.now ++ rest.now) }
{
    if !said {
        return Some(text);
    }
    behind_short(behind_byte(text, b' ')?, word)
}

#[inline(always)]
fn behind_take(text: &[u8], on: EndId, n: u32, p: Pid, late: bool) -> Option<&[u8]>
    ensures { IfSome result (λ rest. text.now ≡ codes ". take " ++ end_text on ++ numbers_text (n ∷ []) ++ codes " " ++ process_text p ++ suffix_text late (codes "late") ++ rest.now) }
{
    let rest = behind_numbered(text, b". take ", on, n)?;
    behind_suffix(behind_process(behind_byte(rest, b' ')?, p)?, late, b"late")
}

fn behind_notice(text: &[u8], on: EndId, dead: bool) -> Option<&[u8]>
    ensures { IfSome result (λ rest. text.now ≡ codes ". notice " ++ end_text on ++ suffix_text dead (codes "dead") ++ rest.now) }
{
    behind_suffix(behind_on(text, b". notice ", on)?, dead, b"dead")
}

fn behind_back(text: &[u8], on: EndId, n: u32, dead: bool) -> Option<&[u8]>
    ensures { IfSome result (λ rest. text.now ≡ codes ". back " ++ end_text on ++ numbers_text (n ∷ []) ++ suffix_text dead (codes "dead") ++ rest.now) }
{
    behind_suffix(behind_numbered(text, b". back ", on, n)?, dead, b"dead")
}
