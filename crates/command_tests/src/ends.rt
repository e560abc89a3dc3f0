//! How commands end that the program does not have yet, and the lines of their failures.

use crate::sinks::{held, holds, sink};
use lynx_command::{End, Failure, Lines, Output, end_with, tell};
use lynx_outside::{Sink, Status, SureSink};
use lynx_plan::PlanFault;
use lynx_run::fail;
use lynx_source::Place;
use std::alloc::{AllocError, Global};
use std::test::Fail;

fn lines(alloc: Global) -> Result<Lines, AllocError> {
    let first = b"a\n".to_vec(alloc)?;
    let second = b"bc\n".to_vec(alloc)?;
    Ok(Lines::of(vec![in alloc; first, second]?))
}

/// A command that ended so puts its whole text, and gives this status.
fn ends(alloc: Global, end: End, status: Status) -> Result<(), Fail> {
    let text = lines(alloc)?;
    let (mut out, mut err) = (sink(alloc)?, sink(alloc)?);
    let ended = end_with(alloc, "p", Ok(Output { text, end }), &mut out, &mut err);
    holds(ended == status, "the status of an end")?;
    held(&out, "a\nbc\n")?;
    held(&err, "")
}

#[test]
fn commands_end(rt: HostRuntime) -> Result<(), Fail> {
    ends(rt.alloc(), End::Done, Status::Done)?;
    ends(rt.alloc(), End::Spent, Status::Spent)
}

/// A sink that never fails counts its bytes.
#[test]
fn a_sure_sink_counts() -> Result<(), Fail> {
    let mut sure = SureSink::of();
    let puts = (sure.put(b"abc"), sure.put(b"de"));
    holds(puts == (Ok(()), Ok(())) && sure.count() == 5, "a sure sink")
}

/// What fails before there is a command is told too.
#[test]
fn a_failure_before_a_command_is_told(rt: HostRuntime) -> Result<(), Fail> {
    let mut err = sink(rt.alloc())?;
    let failure = Failure::NoMemory;
    let status = fail(rt.alloc(), failure, &mut err);
    holds(status == failure.status(), "the status of a failure")?;
    held(&err, "lynx: no memory\n")
}

const AT: Place = Place {
    line: 65_535,
    column: 1_048_577,
};

/// Failures and their lines.
const FAILURES: [(Failure, &str); 8] = [
    (Failure::ReadFault, "lynx: a/s: read fault\n"),
    (Failure::TooBig, "lynx: a/s: too big\n"),
    (Failure::Lex { at: AT, no: 5 }, "a/s:65535:1048577: lex 5\n"),
    (Failure::Deep { at: AT }, "a/s:65535:1048577: deep\n"),
    (
        Failure::Rule { at: AT, rule: 24 },
        "a/s:65535:1048577: rule 24\n",
    ),
    (Failure::CodeTooLong, "a/s:1:1: code too long\n"),
    (Failure::NoTranscript { line: 310_678 }, "a/s:310678: no\n"),
    (Failure::NoMemory, "lynx: no memory\n"),
];

fn tells(alloc: Global, failure: Failure, line: &str) -> Result<(), Fail> {
    let mut err = sink(alloc)?;
    let status = tell(alloc, "a/s", failure, &mut err);
    holds(status == failure.status(), "the status of a failure")?;
    held(&err, line)
}

#[test]
fn failures_have_their_lines(rt: HostRuntime) -> Result<(), Fail> {
    for (failure, line) in FAILURES {
        tells(rt.alloc(), failure, line)?;
    }
    let plan = PlanFault::BadPlan { line: 9, rule: 11 };
    tells(rt.alloc(), Failure::of_plan(plan), "a/s:9: plan 11\n")
}
