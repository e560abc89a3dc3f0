ghost use Rattle.std.specs.Prelude.{◌≡◌, IfOk};
ghost use Rattle.compact_calls.specs.Stored.{report_of};

use crate::call::Message;
use charlotte_calls::{EndId, NoMemory, Outcome, Report, Way};
use std::alloc::Global;

/// A report as it is kept: what has no fixed length stands apart.
#[derive(Debug, Drop)]
pub struct StoredReport {
    pub on: EndId,
    pub way: Way,
    pub outcome: Outcome,
    pub message: Box<Message>,
}

impl StoredReport {
    pub(crate) fn of(alloc: Global, report: &Report) -> Result<StoredReport, NoMemory>
        ensures { IfOk result (λ k. report_of k ≡ report.now) }
    {
        Ok(StoredReport {
            on: report.on,
            way: report.way,
            outcome: report.outcome,
            message: Message::of(alloc, &report.bytes, &report.enclosed)?,
        })
    }

    pub(crate) fn report(&self) -> Report
        ensures { result ≡ report_of self.now }
    {
        Report {
            on: self.on,
            way: self.way,
            outcome: self.outcome,
            bytes: self.message.bytes.short(),
            enclosed: self.message.enclose.short(),
        }
    }
}
