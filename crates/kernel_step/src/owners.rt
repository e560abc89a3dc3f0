ghost use Rattle.std.specs.Prelude.{◌≡◌, []};
ghost use Rattle.charlotte_calls.specs.declared.names.EndId.{EndId};
ghost use Rattle.end_table.specs.declared.entry.Entry.{Entry};
ghost use Rattle.kernel_step.specs.Actions.{send_report, reports, answers};
ghost use Rattle.kernel_step.specs.Progress.{progress, HasRoom, AddsAtMost};
ghost use Rattle.kernel_step.specs.Room.{one_report, one_answer};

use crate::writers::{push_answer, push_report};
use charlotte_calls::{Answer, Bytes, EndId, Ends, Outcome, Report, Way};
use charlotte_packets::Work;
use end_table::Holder;

/// Reports to the owner of an end.
#[inline(always)]
pub fn report(out: &mut Work, holder: Holder, report: Report)
    requires { HasRoom one_report out.old }
    ensures part { (t : EndId → Entry) → progress t out.new ≡ reports holder report (progress t out.old) }
    ensures room { AddsAtMost one_report out.old out.new }
{
    match holder {
        Holder::Owner(p) => push_report(out, p, report),
        Holder::EnclosedIn(_) => {}
    }
}

/// Answers the Cancel of the owner of an end.
#[inline(always)]
pub fn answer(out: &mut Work, holder: Holder, answer: Answer)
    requires { HasRoom one_answer out.old }
    ensures part { (t : EndId → Entry) → progress t out.new ≡ answers holder answer (progress t out.old) }
    ensures room { AddsAtMost one_answer out.old out.new }
{
    match holder {
        Holder::Owner(p) => push_answer(out, p, answer),
        Holder::EnclosedIn(_) => {}
    }
}

/// The report of a send that is over.
#[inline(always)]
pub fn send_report(on: EndId, outcome: Outcome, enclosed: Ends) -> Report
    ensures { result ≡ send_report on outcome enclosed }
{
    Report {
        on,
        way: Way::Outward,
        outcome,
        bytes: no_bytes(),
        enclosed,
    }
}

/// No bytes.
pub fn no_bytes() -> Bytes
    ensures { result ≡ [] }
{
    match Bytes::from_slice(&[]) {
        Some(none) => none,
        None => unreachable!(),
    }
}

/// No ends.
pub fn no_ends() -> Ends
    ensures { result ≡ [] }
{
    match Ends::from_slice(&[]) {
        Some(none) => none,
        None => unreachable!(),
    }
}
