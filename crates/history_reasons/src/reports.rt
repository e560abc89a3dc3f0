//! Reports that are not the oldest.

use crate::telling::Telling;
use charlotte_calls::{EndId, NoMemory, Outcome, Pid, Way};
use charlotte_text::{push_bytes, push_way};
use service_processes::KeptReport;

impl Telling<'_> {
    /// Why a process is not given a report.
    pub(crate) fn report(&mut self, p: Pid) -> Result<(), NoMemory> {
        if !self.service.processes().phase(p).is_waiting() {
            self.process(p)?;
            return self.words(b" does not wait");
        }
        match self.service.processes().oldest(p) {
            None => {
                self.words(b"no report of ")?;
                self.process(p)?;
                self.words(b" stands")
            }
            Some(oldest) => {
                self.words(b"the oldest report of ")?;
                self.process(p)?;
                self.words(b" is ")?;
                self.spelled(oldest)
            }
        }
    }

    /// A report, as a line spells it.
    fn spelled(&mut self, report: &KeptReport) -> Result<(), NoMemory> {
        self.end(report.on())?;
        self.words(b" ")?;
        push_way(self.buffer(), report.way())?;
        match report.outcome() {
            Outcome::Done => self.words(b" done")?,
            Outcome::Destroyed => self.words(b" destroyed")?,
        }
        if report.way() == Way::Inward && report.outcome() == Outcome::Done {
            self.words(b" ")?;
            push_bytes(self.buffer(), report.bytes())?;
        }
        self.ends(report.enclosed())
    }

    /// Ends, each behind a blank and a plus.
    fn ends(&mut self, ends: &[EndId]) -> Result<(), NoMemory> {
        for end in ends {
            self.of_end(b" +", *end)?;
        }
        Ok(())
    }
}
