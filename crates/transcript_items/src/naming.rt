//! What a service line names.
ghost use Rattle.std.specs.Prelude.{◌≡◌, ◌∷◌, []};
ghost use Rattle.transcript_items.specs.Bearing.{ends_alone, named, process_with};
ghost use Rattle.transcript_reading.specs.Kinds.{shown_step};

use charlotte_calls::{EndId, Pid, ServiceStep};
use std::marker::Model;
use transcript_reading::ServiceLine;

/// A process, and ends: at most two, and those of a list.
#[derive(Drop)]
pub(crate) struct Named<'a> {
    pub(crate) process: Option<Pid>,
    pub(crate) first: Option<EndId>,
    pub(crate) second: Option<EndId>,
    pub(crate) others: &'a [EndId],
}

impl<'a> Model for Named<'a> {
    ghost use Rattle.std.specs.Prelude.{◌++◌};
    ghost use Rattle.transcript_items.specs.Bearing.{Named as NamedView, listed};

    ghost Value = { NamedView };

    ghost view = { λ n. record { process = n.process; ends = listed n.first ++ listed n.second ++ n.others.now } };
}

fn of_process<'a>(p: Pid) -> Named<'a>
    ensures { result ≡ process_with p [] }
{
    Named {
        process: Some(p),
        first: None,
        second: None,
        others: &[],
    }
}

fn of_end<'a>(on: EndId) -> Named<'a>
    ensures { result ≡ ends_alone (on ∷ []) }
{
    of_ends(on, &[])
}

fn of_ends<'a>(on: EndId, others: &'a [EndId]) -> Named<'a>
    ensures { result ≡ ends_alone (on ∷ others.now) }
{
    Named {
        process: None,
        first: Some(on),
        second: None,
        others,
    }
}

fn of_two<'a>(a: EndId, b: EndId) -> Named<'a>
    ensures { result ≡ ends_alone (a ∷ b ∷ []) }
{
    Named {
        process: None,
        first: Some(a),
        second: Some(b),
        others: &[],
    }
}

fn with_process<'a>(p: Pid, named: Named<'a>) -> Named<'a>
    ensures { result ≡ process_with p named.entry.ends }
{
    let Named {
        process: _,
        first,
        second,
        others,
    } = named;
    Named {
        process: Some(p),
        first,
        second,
        others,
    }
}

/// What a service line names.
pub(crate) fn named_by_line(line: &ServiceLine) -> Named<'_>
    ensures { result ≡ named line.now }
{
    match line {
        ServiceLine::Make { a, b } => of_two(*a, *b),
        ServiceLine::Refuse { p, .. } => of_process(*p),
        ServiceLine::Wait { p } => of_process(*p),
        ServiceLine::Exit { p } => of_process(*p),
        ServiceLine::Send { on, enclose, .. } => of_ends(*on, enclose.as_slice()),
        ServiceLine::Report { p, report } => {
            with_process(*p, of_ends(report.on, report.enclosed.as_slice()))
        }
        ServiceLine::Take { on, p, .. } => with_process(*p, of_end(on.opposite())),
        ServiceLine::Destroy { on } => of_end(*on),
        ServiceLine::Receive { on } => of_end(*on),
        ServiceLine::Cancel { on, .. } => of_end(*on),
        ServiceLine::Match { on, .. } => of_end(*on),
        ServiceLine::Complete { on, .. } => of_end(*on),
        ServiceLine::Withdraw { on } => of_end(*on),
        ServiceLine::Free { on } => of_end(*on),
        ServiceLine::Notice { on, .. } => of_end(*on),
        ServiceLine::Back { on, .. } => of_end(*on),
    }
}

/// What the line of a step names.
pub(crate) fn named_by_step(step: &ServiceStep) -> Named<'_>
    ensures { result ≡ named (shown_step step.now) }
{
    match step {
        ServiceStep::Make { a, b, .. } => of_two(*a, *b),
        ServiceStep::Refuse { p, .. } => of_process(*p),
        ServiceStep::Wait { p } => of_process(*p),
        ServiceStep::Exit { p } => of_process(*p),
        ServiceStep::Send { on, enclose, .. } => of_ends(*on, enclose.as_slice()),
        ServiceStep::Report { p, report } => {
            with_process(*p, of_ends(report.on, report.enclosed.as_slice()))
        }
        ServiceStep::Take { on, p, .. } => with_process(*p, of_end(on.opposite())),
        ServiceStep::Destroy { on } => of_end(*on),
        ServiceStep::Receive { on } => of_end(*on),
        ServiceStep::Cancel { on, .. } => of_end(*on),
        ServiceStep::Match { on, .. } => of_end(*on),
        ServiceStep::Complete { on, .. } => of_end(*on),
        ServiceStep::Withdraw { on } => of_end(*on),
        ServiceStep::Free { on } => of_end(*on),
        ServiceStep::Notice { on, .. } => of_end(*on),
        ServiceStep::Back { on, .. } => of_end(*on),
    }
}
