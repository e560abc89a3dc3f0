//! Whether a line shows a step of the link service.
ghost use Rattle.std.specs.Prelude.{◌≡◌, ◌↔◌, IsTrue};
ghost use Rattle.transcript_reading.specs.Kinds.{shown_step};

use crate::report::is_same_report;
use crate::same::{are_same_ends, is_same_end};
use charlotte_calls::ServiceStep;
use transcript_reading::ServiceLine;

/// Whether a line shows a step. What it leaves out of the step is not asked.
pub fn is_shown(step: &ServiceStep, line: &ServiceLine) -> bool
    ensures { IsTrue result ↔ (shown_step step.now ≡ line.now) }
{
    match (step, line) {
        (ServiceStep::Make { p: _, a, b }, ServiceLine::Make { a: c, b: d }) => {
            is_same_end(*a, *c) && is_same_end(*b, *d)
        }
        (ServiceStep::Refuse { p, call: _, cause }, ServiceLine::Refuse { p: q, cause: why }) => {
            p.0 == q.0 && *cause == *why
        }
        (ServiceStep::Destroy { on }, ServiceLine::Destroy { on: e }) => is_same_end(*on, *e),
        (
            ServiceStep::Send {
                on,
                n,
                bytes: _,
                enclose,
            },
            ServiceLine::Send {
                on: e,
                n: m,
                enclose: ends,
            },
        ) => is_same_end(*on, *e) && *n == *m && are_same_ends(enclose, ends),
        (ServiceStep::Receive { on }, ServiceLine::Receive { on: e }) => is_same_end(*on, *e),
        (ServiceStep::Cancel { on, way }, ServiceLine::Cancel { on: e, way: w }) => {
            is_same_end(*on, *e) && *way == *w
        }
        (ServiceStep::Wait { p }, ServiceLine::Wait { p: q }) => p.0 == q.0,
        (
            ServiceStep::Report { p, report },
            ServiceLine::Report {
                p: q,
                report: other,
            },
        ) => { p.0 == q.0 && is_same_report(report, other) }
        (ServiceStep::Exit { p }, ServiceLine::Exit { p: q }) => p.0 == q.0,
        (ServiceStep::Match { on, n }, ServiceLine::Match { on: e, n: m }) => {
            is_same_end(*on, *e) && *n == *m
        }
        (
            ServiceStep::Take { on, n, p, late },
            ServiceLine::Take {
                on: e,
                n: m,
                p: q,
                late: l,
            },
        ) => is_same_end(*on, *e) && *n == *m && p.0 == q.0 && *late == *l,
        (ServiceStep::Complete { on, n }, ServiceLine::Complete { on: e, n: m }) => {
            is_same_end(*on, *e) && *n == *m
        }
        (ServiceStep::Withdraw { on }, ServiceLine::Withdraw { on: e }) => is_same_end(*on, *e),
        (ServiceStep::Free { on }, ServiceLine::Free { on: e }) => is_same_end(*on, *e),
        (ServiceStep::Notice { on, dead }, ServiceLine::Notice { on: e, dead: d }) => {
            is_same_end(*on, *e) && *dead == *d
        }
        (
            ServiceStep::Back { on, n, dead },
            ServiceLine::Back {
                on: e,
                n: m,
                dead: d,
            },
        ) => { is_same_end(*on, *e) && *n == *m && *dead == *d }
        (_, _) => false,
    }
}
