//! The service step that a text begins with, as its line shows it. `None` promises nothing: of steps with ends only those are found that name none.
ghost use Rattle.std.specs.Prelude.{◌≡◌, ◌++◌, ℕ, IfSome, codes};
ghost use Rattle.charlotte_calls.specs.Ranges.{IsReportInRange, IsStepInRange};
ghost use Rattle.charlotte_text.specs.Spelling.{IsEnd, way_text};
ghost use Rattle.transcript_reading.specs.Spelling.{HasShown, bare_step};
ghost use Rattle.transcript_lines.specs.Transcript.{result_text, step_text};
ghost use Rattle.transcript_lines.specs.TranscriptText.{IsShownReport};

use crate::behind::behind_word;
use crate::values::{
    leading_bytes, leading_numbered, leading_of, leading_on, leading_suffix, leading_way,
};
use charlotte_calls::{Bytes, EndId, Ends, Outcome, Report, Way};
use transcript_reading::ServiceLine;

/// A step of any kind but a refusal, behind its dot.
#[inline(always)]
pub(crate) fn leading_step(text: &[u8]) -> Option<(ServiceLine, &[u8])>
    ensures spelled { IfSome result (λ x. text.now ≡ step_text (bare_step x.0) ++ x.1.now) }
    ensures range { IfSome result (λ x. IsStepInRange (bare_step x.0)) }
    ensures shown { IfSome result (λ x. (v : ℕ) → HasShown v x.0) }
{
    match text {
        [_, _, b'm', b'a', b't', ..] => leading_match(text),
        [_, _, b'm', ..] => leading_make(text),
        [_, _, b't', ..] => leading_take(text),
        [_, _, b's', ..] => leading_send(text),
        [_, _, b'r', b'e', b'p', ..] => leading_report(text),
        [_, _, b'r', ..] => leading_receive(text),
        [_, _, b'w', b'a', ..] => leading_wait(text),
        [_, _, b'w', ..] => leading_withdraw(text),
        [_, _, b'c', b'o', ..] => leading_complete(text),
        [_, _, b'c', ..] => leading_cancel(text),
        _ => leading_rare(text),
    }
}

#[inline(always)]
fn leading_rare(text: &[u8]) -> Option<(ServiceLine, &[u8])>
    ensures spelled { IfSome result (λ x. text.now ≡ step_text (bare_step x.0) ++ x.1.now) }
    ensures range { IfSome result (λ x. IsStepInRange (bare_step x.0)) }
    ensures shown { IfSome result (λ x. (v : ℕ) → HasShown v x.0) }
{
    match text {
        [_, _, b'd', ..] => leading_destroy(text),
        [_, _, b'e', ..] => leading_exit(text),
        [_, _, b'f', ..] => leading_free(text),
        [_, _, b'n', ..] => leading_notice(text),
        [_, _, b'b', ..] => leading_back(text),
        _ => None,
    }
}

#[inline(always)]
fn leading_make(text: &[u8]) -> Option<(ServiceLine, &[u8])>
    ensures spelled { IfSome result (λ x. text.now ≡ step_text (bare_step x.0) ++ x.1.now) }
    ensures range { IfSome result (λ x. IsStepInRange (bare_step x.0)) }
    ensures shown { IfSome result (λ x. (v : ℕ) → HasShown v x.0) }
{
    let (a, rest) = leading_on(text, b". make ")?;
    let (b, rest) = leading_on(rest, b" ")?;
    Some((ServiceLine::Make { a, b }, rest))
}

#[inline(always)]
fn leading_destroy(text: &[u8]) -> Option<(ServiceLine, &[u8])>
    ensures spelled { IfSome result (λ x. text.now ≡ step_text (bare_step x.0) ++ x.1.now) }
    ensures range { IfSome result (λ x. IsStepInRange (bare_step x.0)) }
    ensures shown { IfSome result (λ x. (v : ℕ) → HasShown v x.0) }
{
    let (on, rest) = leading_on(text, b". destroy ")?;
    Some((ServiceLine::Destroy { on }, rest))
}

#[inline(always)]
fn leading_send(text: &[u8]) -> Option<(ServiceLine, &[u8])>
    ensures spelled { IfSome result (λ x. text.now ≡ step_text (bare_step x.0) ++ x.1.now) }
    ensures range { IfSome result (λ x. IsStepInRange (bare_step x.0)) }
    ensures shown { IfSome result (λ x. (v : ℕ) → HasShown v x.0) }
{
    let ((on, n), rest) = leading_numbered(text, b". send ")?;
    let enclose = Ends::from_slice(&[])?;
    Some((ServiceLine::Send { on, n, enclose }, rest))
}

#[inline(always)]
fn leading_receive(text: &[u8]) -> Option<(ServiceLine, &[u8])>
    ensures spelled { IfSome result (λ x. text.now ≡ step_text (bare_step x.0) ++ x.1.now) }
    ensures range { IfSome result (λ x. IsStepInRange (bare_step x.0)) }
    ensures shown { IfSome result (λ x. (v : ℕ) → HasShown v x.0) }
{
    let (on, rest) = leading_on(text, b". receive ")?;
    Some((ServiceLine::Receive { on }, rest))
}

#[inline(always)]
fn leading_cancel(text: &[u8]) -> Option<(ServiceLine, &[u8])>
    ensures spelled { IfSome result (λ x. text.now ≡ step_text (bare_step x.0) ++ x.1.now) }
    ensures range { IfSome result (λ x. IsStepInRange (bare_step x.0)) }
    ensures shown { IfSome result (λ x. (v : ℕ) → HasShown v x.0) }
{
    let (on, rest) = leading_on(text, b". cancel ")?;
    let (way, rest) = leading_way(behind_word(rest, b" ")?)?;
    Some((ServiceLine::Cancel { on, way }, rest))
}

#[inline(always)]
fn leading_wait(text: &[u8]) -> Option<(ServiceLine, &[u8])>
    ensures spelled { IfSome result (λ x. text.now ≡ step_text (bare_step x.0) ++ x.1.now) }
    ensures range { IfSome result (λ x. IsStepInRange (bare_step x.0)) }
    ensures shown { IfSome result (λ x. (v : ℕ) → HasShown v x.0) }
{
    let (p, rest) = leading_of(text, b". wait ")?;
    Some((ServiceLine::Wait { p }, rest))
}

#[inline(always)]
fn leading_exit(text: &[u8]) -> Option<(ServiceLine, &[u8])>
    ensures spelled { IfSome result (λ x. text.now ≡ step_text (bare_step x.0) ++ x.1.now) }
    ensures range { IfSome result (λ x. IsStepInRange (bare_step x.0)) }
    ensures shown { IfSome result (λ x. (v : ℕ) → HasShown v x.0) }
{
    let (p, rest) = leading_of(text, b". exit ")?;
    Some((ServiceLine::Exit { p }, rest))
}

#[inline(always)]
fn leading_match(text: &[u8]) -> Option<(ServiceLine, &[u8])>
    ensures spelled { IfSome result (λ x. text.now ≡ step_text (bare_step x.0) ++ x.1.now) }
    ensures range { IfSome result (λ x. IsStepInRange (bare_step x.0)) }
    ensures shown { IfSome result (λ x. (v : ℕ) → HasShown v x.0) }
{
    let ((on, n), rest) = leading_numbered(text, b". match ")?;
    Some((ServiceLine::Match { on, n }, rest))
}

#[inline(always)]
fn leading_take(text: &[u8]) -> Option<(ServiceLine, &[u8])>
    ensures spelled { IfSome result (λ x. text.now ≡ step_text (bare_step x.0) ++ x.1.now) }
    ensures range { IfSome result (λ x. IsStepInRange (bare_step x.0)) }
    ensures shown { IfSome result (λ x. (v : ℕ) → HasShown v x.0) }
{
    let ((on, n), rest) = leading_numbered(text, b". take ")?;
    let (p, rest) = leading_of(rest, b" ")?;
    let (late, rest) = leading_suffix(rest, b"late");
    Some((ServiceLine::Take { on, n, p, late }, rest))
}

#[inline(always)]
fn leading_complete(text: &[u8]) -> Option<(ServiceLine, &[u8])>
    ensures spelled { IfSome result (λ x. text.now ≡ step_text (bare_step x.0) ++ x.1.now) }
    ensures range { IfSome result (λ x. IsStepInRange (bare_step x.0)) }
    ensures shown { IfSome result (λ x. (v : ℕ) → HasShown v x.0) }
{
    let ((on, n), rest) = leading_numbered(text, b". complete ")?;
    Some((ServiceLine::Complete { on, n }, rest))
}

#[inline(always)]
fn leading_withdraw(text: &[u8]) -> Option<(ServiceLine, &[u8])>
    ensures spelled { IfSome result (λ x. text.now ≡ step_text (bare_step x.0) ++ x.1.now) }
    ensures range { IfSome result (λ x. IsStepInRange (bare_step x.0)) }
    ensures shown { IfSome result (λ x. (v : ℕ) → HasShown v x.0) }
{
    let (on, rest) = leading_on(text, b". withdraw ")?;
    Some((ServiceLine::Withdraw { on }, rest))
}

#[inline(always)]
fn leading_free(text: &[u8]) -> Option<(ServiceLine, &[u8])>
    ensures spelled { IfSome result (λ x. text.now ≡ step_text (bare_step x.0) ++ x.1.now) }
    ensures range { IfSome result (λ x. IsStepInRange (bare_step x.0)) }
    ensures shown { IfSome result (λ x. (v : ℕ) → HasShown v x.0) }
{
    let (on, rest) = leading_on(text, b". free ")?;
    Some((ServiceLine::Free { on }, rest))
}

#[inline(always)]
fn leading_notice(text: &[u8]) -> Option<(ServiceLine, &[u8])>
    ensures spelled { IfSome result (λ x. text.now ≡ step_text (bare_step x.0) ++ x.1.now) }
    ensures range { IfSome result (λ x. IsStepInRange (bare_step x.0)) }
    ensures shown { IfSome result (λ x. (v : ℕ) → HasShown v x.0) }
{
    let (on, rest) = leading_on(text, b". notice ")?;
    let (dead, rest) = leading_suffix(rest, b"dead");
    Some((ServiceLine::Notice { on, dead }, rest))
}

#[inline(always)]
fn leading_back(text: &[u8]) -> Option<(ServiceLine, &[u8])>
    ensures spelled { IfSome result (λ x. text.now ≡ step_text (bare_step x.0) ++ x.1.now) }
    ensures range { IfSome result (λ x. IsStepInRange (bare_step x.0)) }
    ensures shown { IfSome result (λ x. (v : ℕ) → HasShown v x.0) }
{
    let ((on, n), rest) = leading_numbered(text, b". back ")?;
    let (dead, rest) = leading_suffix(rest, b"dead");
    Some((ServiceLine::Back { on, n, dead }, rest))
}

#[inline(always)]
fn leading_report(text: &[u8]) -> Option<(ServiceLine, &[u8])>
    ensures spelled { IfSome result (λ x. text.now ≡ step_text (bare_step x.0) ++ x.1.now) }
    ensures range { IfSome result (λ x. IsStepInRange (bare_step x.0)) }
    ensures shown { IfSome result (λ x. (v : ℕ) → HasShown v x.0) }
{
    let (p, rest) = leading_of(text, b". report ")?;
    let (on, rest) = leading_on(rest, b" ")?;
    let (report, rest) = leading_result(on, rest)?;
    Some((ServiceLine::Report { p, report }, rest))
}

/// How an activity at an end was over: a send whose message was taken, or a receive without ends.
#[inline(always)]
fn leading_result(on: EndId, text: &[u8]) -> Option<(Report, &[u8])>
    requires { IsEnd on }
    ensures spelled { IfSome result (λ x. text.now ≡ codes " " ++ way_text x.0.way ++ result_text x.0.way x.0.outcome x.0.bytes x.0.enclosed ++ x.1.now) }
    ensures same { IfSome result (λ x. x.0.on ≡ on) }
    ensures range { IfSome result (λ x. IsReportInRange x.0) }
    ensures shown { IfSome result (λ x. (v : ℕ) → IsShownReport v x.0.way x.0.outcome x.0.bytes x.0.enclosed) }
{
    match text {
        [b' ', b'o', ..] => leading_sent(on, text),
        _ => leading_received(on, text),
    }
}

#[inline(always)]
fn leading_sent(on: EndId, text: &[u8]) -> Option<(Report, &[u8])>
    requires { IsEnd on }
    ensures spelled { IfSome result (λ x. text.now ≡ codes " " ++ way_text x.0.way ++ result_text x.0.way x.0.outcome x.0.bytes x.0.enclosed ++ x.1.now) }
    ensures same { IfSome result (λ x. x.0.on ≡ on) }
    ensures range { IfSome result (λ x. IsReportInRange x.0) }
    ensures shown { IfSome result (λ x. (v : ℕ) → IsShownReport v x.0.way x.0.outcome x.0.bytes x.0.enclosed) }
{
    let rest = behind_word(text, b" out done")?;
    let report = Report {
        on,
        way: Way::Outward,
        outcome: Outcome::Done,
        bytes: Bytes::from_slice(&[])?,
        enclosed: Ends::from_slice(&[])?,
    };
    Some((report, rest))
}

#[inline(always)]
fn leading_received(on: EndId, text: &[u8]) -> Option<(Report, &[u8])>
    requires { IsEnd on }
    ensures spelled { IfSome result (λ x. text.now ≡ codes " " ++ way_text x.0.way ++ result_text x.0.way x.0.outcome x.0.bytes x.0.enclosed ++ x.1.now) }
    ensures same { IfSome result (λ x. x.0.on ≡ on) }
    ensures range { IfSome result (λ x. IsReportInRange x.0) }
    ensures shown { IfSome result (λ x. (v : ℕ) → IsShownReport v x.0.way x.0.outcome x.0.bytes x.0.enclosed) }
{
    let (bytes, rest) = leading_bytes(behind_word(text, b" in done ")?)?;
    let report = Report {
        on,
        way: Way::Inward,
        outcome: Outcome::Done,
        bytes,
        enclosed: Ends::from_slice(&[])?,
    };
    Some((report, rest))
}
