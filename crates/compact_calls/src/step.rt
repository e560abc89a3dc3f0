ghost use Rattle.std.specs.Prelude.{◌≡◌, IfOk};
ghost use Rattle.compact_calls.specs.Stored.{step_of};

use crate::CompactCall;
use crate::call::Message;
use crate::report::StoredReport;
use charlotte_calls::{Cause, EndId, NoMemory, Pid, ServiceStep, Way};
use std::alloc::Global;
use std::marker::Model;

/// A step of the link service as it is kept: what has no fixed length stands apart.
#[derive(Debug, Drop)]
pub enum StoredStep {
    Make {
        p: Pid,
        a: EndId,
        b: EndId,
    },
    Refuse {
        p: Pid,
        call: Box<CompactCall>,
        cause: Cause,
    },
    Destroy {
        on: EndId,
    },
    Send {
        on: EndId,
        n: u32,
        message: Box<Message>,
    },
    Receive {
        on: EndId,
    },
    Cancel {
        on: EndId,
        way: Way,
    },
    Wait {
        p: Pid,
    },
    Report {
        p: Pid,
        report: StoredReport,
    },
    Exit {
        p: Pid,
    },
    Match {
        on: EndId,
        n: u32,
    },
    Take {
        on: EndId,
        n: u32,
        p: Pid,
        late: bool,
    },
    Complete {
        on: EndId,
        n: u32,
    },
    Withdraw {
        on: EndId,
    },
    Free {
        on: EndId,
    },
    Notice {
        on: EndId,
        dead: bool,
    },
    Back {
        on: EndId,
        n: u32,
        dead: bool,
    },
}

/// A step of the link service that takes only the memory of what it says. Contracts see the step.
#[derive(Debug, Drop)]
pub struct CompactStep {
    stored: StoredStep,
}

impl Model for CompactStep {
    ghost use Rattle.charlotte_calls.specs.declared.calls.ServiceStep.{ServiceStep};

    ghost Value = { ServiceStep };

    ghost use Rattle.compact_calls.specs.Stored.{step_of};

    ghost view = { λ s. step_of s.stored };
}

impl CompactStep {
    /// The same step.
    pub fn of(alloc: Global, step: &ServiceStep) -> Result<CompactStep, NoMemory>
        ensures { IfOk result (λ s. s ≡ step.now) }
    {
        let stored = store(alloc, step)?;
        Ok(CompactStep { stored })
    }

    /// The step, with its bytes and ends in the value itself.
    pub fn step(&self) -> ServiceStep
        ensures { result ≡ self.now }
    {
        restore(&self.stored)
    }

    /// The step as it is kept, lent.
    pub fn stored(&self) -> &StoredStep
        ensures { step_of result.now ≡ self.now }
    {
        &self.stored
    }

    /// An equal step.
    pub fn copy(&self, alloc: Global) -> Result<CompactStep, NoMemory>
        ensures { IfOk result (λ s. s ≡ self.now) }
    {
        CompactStep::of(alloc, &self.step())
    }
}

fn store(alloc: Global, step: &ServiceStep) -> Result<StoredStep, NoMemory>
    ensures { IfOk result (λ k. step_of k ≡ step.now) }
{
    let stored = match step {
        ServiceStep::Make { p, a, b } => StoredStep::Make {
            p: *p,
            a: *a,
            b: *b,
        },
        ServiceStep::Refuse { p, call, cause } => StoredStep::Refuse {
            p: *p,
            call: Box::new(alloc, CompactCall::of(alloc, call)?)?,
            cause: *cause,
        },
        ServiceStep::Destroy { on } => StoredStep::Destroy { on: *on },
        ServiceStep::Send {
            on,
            n,
            bytes,
            enclose,
        } => StoredStep::Send {
            on: *on,
            n: *n,
            message: Message::of(alloc, bytes, enclose)?,
        },
        ServiceStep::Receive { on } => StoredStep::Receive { on: *on },
        ServiceStep::Cancel { on, way } => StoredStep::Cancel { on: *on, way: *way },
        ServiceStep::Wait { p } => StoredStep::Wait { p: *p },
        ServiceStep::Report { p, report } => StoredStep::Report {
            p: *p,
            report: StoredReport::of(alloc, report)?,
        },
        ServiceStep::Exit { p } => StoredStep::Exit { p: *p },
        ServiceStep::Match { on, n } => StoredStep::Match { on: *on, n: *n },
        ServiceStep::Take { on, n, p, late } => StoredStep::Take {
            on: *on,
            n: *n,
            p: *p,
            late: *late,
        },
        ServiceStep::Complete { on, n } => StoredStep::Complete { on: *on, n: *n },
        ServiceStep::Withdraw { on } => StoredStep::Withdraw { on: *on },
        ServiceStep::Free { on } => StoredStep::Free { on: *on },
        ServiceStep::Notice { on, dead } => StoredStep::Notice {
            on: *on,
            dead: *dead,
        },
        ServiceStep::Back { on, n, dead } => StoredStep::Back {
            on: *on,
            n: *n,
            dead: *dead,
        },
    };
    Ok(stored)
}

fn restore(stored: &StoredStep) -> ServiceStep
    ensures { result ≡ step_of stored.now }
{
    match stored {
        StoredStep::Make { p, a, b } => ServiceStep::Make {
            p: *p,
            a: *a,
            b: *b,
        },
        StoredStep::Refuse { p, call, cause } => ServiceStep::Refuse {
            p: *p,
            call: call.call(),
            cause: *cause,
        },
        StoredStep::Destroy { on } => ServiceStep::Destroy { on: *on },
        StoredStep::Send { on, n, message } => ServiceStep::Send {
            on: *on,
            n: *n,
            bytes: message.bytes.short(),
            enclose: message.enclose.short(),
        },
        StoredStep::Receive { on } => ServiceStep::Receive { on: *on },
        StoredStep::Cancel { on, way } => ServiceStep::Cancel { on: *on, way: *way },
        StoredStep::Wait { p } => ServiceStep::Wait { p: *p },
        StoredStep::Report { p, report } => ServiceStep::Report {
            p: *p,
            report: report.report(),
        },
        StoredStep::Exit { p } => ServiceStep::Exit { p: *p },
        StoredStep::Match { on, n } => ServiceStep::Match { on: *on, n: *n },
        StoredStep::Take { on, n, p, late } => ServiceStep::Take {
            on: *on,
            n: *n,
            p: *p,
            late: *late,
        },
        StoredStep::Complete { on, n } => ServiceStep::Complete { on: *on, n: *n },
        StoredStep::Withdraw { on } => ServiceStep::Withdraw { on: *on },
        StoredStep::Free { on } => ServiceStep::Free { on: *on },
        StoredStep::Notice { on, dead } => ServiceStep::Notice {
            on: *on,
            dead: *dead,
        },
        StoredStep::Back { on, n, dead } => ServiceStep::Back {
            on: *on,
            n: *n,
            dead: *dead,
        },
    }
}
