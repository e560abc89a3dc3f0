//! Two processes, and each call of `service_processes` on one of them.
ghost use Rattle.std.specs.Prelude.{◌≡◌, length};

use crate::service::{holds, push_words};
use charlotte_calls::{EndId, Items, LinkId, NoMemory, Outcome, Pid, Side, Way};
use service_processes::{KeptReport, Processes};
use service_step::Phase;
use std::alloc::{AllocError, Global};
use std::fmt::Write;
use std::test::Fail;

const P: Pid = Pid(1);

const X: EndId = EndId {
    link: LinkId { maker: 0, count: 0 },
    side: Side::A,
};

const Y: EndId = EndId {
    link: LinkId { maker: 0, count: 1 },
    side: Side::A,
};

const Z: EndId = EndId {
    link: LinkId { maker: 0, count: 2 },
    side: Side::A,
};

/// A call for the process. A report is on the end that is named.
#[derive(Clone, Copy)]
enum Act {
    Hold(EndId),
    Activate(EndId),
    Learn(EndId),
    LearnBoth(EndId, EndId),
    ForgetLastActive,
    Forget(EndId),
    Cancel(EndId),
    Wait,
    Wake(EndId),
    /// To a Cancel of the first end, a report on the second.
    Tell(EndId, EndId),
    TellReserved(EndId, EndId),
    Gain(EndId, EndId),
    Give,
    End,
}

/// A call, and what is told of the process then: its phase, the numbers of the ends that it holds, the end that was active last, and
/// the end of its oldest report.
type Row = (Act, &'static str);

const ENDS: &[Row] = &[
    (Act::Hold(X), "running, holds 0, last None, report None"),
    (
        Act::Activate(X),
        "running, holds 0, last Some(0), report None",
    ),
    (Act::Learn(X), "running, holds 0, last Some(0), report None"),
    (
        Act::LearnBoth(Y, Z),
        "running, holds 0 1 2, last Some(2), report None",
    ),
    (
        Act::ForgetLastActive,
        "running, holds 0 1 2, last Some(1), report None",
    ),
    (
        Act::Forget(Y),
        "running, holds 0 2, last Some(0), report None",
    ),
    (Act::End, "ended, holds 0 2, last Some(0), report None"),
];

const REPORTS: &[Row] = &[
    (Act::Cancel(X), "cancelling, holds, last None, report None"),
    (Act::Wake(Y), "cancelling, holds, last None, report None"),
    (Act::Tell(X, X), "running, holds, last None, report Some(0)"),
    (Act::Gain(Y, Z), "running, holds, last None, report Some(0)"),
    (Act::Wait, "waiting, holds, last None, report Some(0)"),
    (Act::Give, "running, holds, last None, report Some(1)"),
    (Act::Give, "running, holds, last None, report Some(2)"),
    (Act::Give, "running, holds, last None, report None"),
    (
        Act::TellReserved(X, Y),
        "running, holds, last None, report Some(1)",
    ),
];

/// What a process does, in words; a Cancel is that on X.
fn words(phase: Phase) -> [(bool, &'static str); 4] {
    [
        (phase.is_running(), "running"),
        (phase.is_cancelling(X), "cancelling"),
        (phase == Phase::Waiting, "waiting"),
        (phase == Phase::Ended, "ended"),
    ]
}

/// Two processes.
#[derive(Drop)]
struct Two {
    alloc: Global,
    processes: Processes,
    ghost counted: { 2 ≡ length processes },
}

impl Two {
    fn fresh(alloc: Global) -> Result<Two, Fail> {
        let processes = Processes::fresh(alloc, 2)?;
        Ok(Two { alloc, processes })
    }

    fn report(&self, end: EndId) -> Option<KeptReport> {
        let bytes = Items::of(Vec::new(self.alloc));
        let enclosed = Items::of(Vec::new(self.alloc));
        Some(KeptReport::of(end, Way::Outward, Outcome::Done, bytes, enclosed))
    }

    fn perform(&mut self, act: Act) -> Result<(), NoMemory> {
        match act {
            Act::Hold(e) => self.processes.hold(P, e),
            Act::Activate(e) => self.processes.activate(P, e),
            Act::Learn(e) => self.processes.learn(P, e),
            Act::LearnBoth(first, second) => self.processes.learn_each(P, &[first, second]),
            Act::Tell(e, on) => {
                let report = self.report(on);
                self.processes.tell(P, e, report, None)
            }
            Act::TellReserved(e, on) => self.tell_reserved(e, on),
            Act::Gain(first, second) => {
                let reports = (self.report(first), self.report(second));
                self.processes.gain(P, reports.0, reports.1)
            }
            _ => {
                self.perform_surely(act);
                Ok(())
            }
        }
    }

    fn tell_reserved(&mut self, e: EndId, on: EndId) -> Result<(), NoMemory> {
        let report = self.report(on);
        self.processes.reserve(P)?;
        self.processes.tell_reserved(P, e, report);
        Ok(())
    }

    /// A call that takes no memory.
    fn perform_surely(&mut self, act: Act) {
        match act {
            Act::ForgetLastActive => self.processes.forget_last_active(P),
            Act::Forget(e) => self.processes.forget(P, e),
            Act::Cancel(e) => self.processes.turn(P, Phase::Cancelling(e)),
            Act::Wait => self.processes.turn(P, Phase::Waiting),
            Act::Wake(e) => self.processes.wake(P, e),
            Act::Give => self.processes.give(P),
            _ => self.processes.end(P),
        }
    }

    fn push_told(&self, text: &mut String) -> Result<(), AllocError> {
        push_words(text, &words(self.processes.phase(P)))?;
        text.push_str(", holds")?;
        for e in self.processes.held(P) {
            write!(text, " {}", e.link.count)?;
        }
        let last = self.processes.last_active(P).map(|e| e.link.count);
        let oldest = self
            .processes
            .oldest(P)
            .map(|report| report.on().link.count);
        write!(text, ", last {last:?}, report {oldest:?}")
    }

    /// Makes a call. Whether this is told then.
    fn gives(&mut self, (act, want): Row) -> bool {
        let mut text = String::new(self.alloc);
        self.perform(act).is_ok() && self.push_told(&mut text).is_ok() && text.as_str() == want
    }

    fn each_gives(&mut self, rows: &[Row]) -> Result<(), Fail> {
        for row in rows {
            holds(self.gives(*row), row.1)?;
        }
        Ok(())
    }
}

#[test]
fn a_process_knows_its_ends(rt: HostRuntime) -> Result<(), Fail> {
    let mut two = Two::fresh(rt.alloc())?;
    two.each_gives(ENDS)
}

/// A process that is not there has ended, and this one has a report.
fn has_report(two: &Two) -> bool {
    two.processes.phase(Pid(2)) == Phase::Ended && two.processes.has_report(P)
}

const END: &[Row] = &[(Act::End, "ended, holds, last None, report None")];

#[test]
fn a_process_has_reports(rt: HostRuntime) -> Result<(), Fail> {
    let mut two = Two::fresh(rt.alloc())?;
    two.each_gives(REPORTS)?;
    holds(
        has_report(&two),
        "a process that is not there, and one with a report",
    )?;
    two.each_gives(END)
}
