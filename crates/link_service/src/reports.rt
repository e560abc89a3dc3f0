//! Which report is a process's oldest.
ghost use Rattle.std.specs.Prelude.{◌≡◌, ◌↔◌, IsTrue};
ghost use Rattle.service_step.specs.Steps as steps;
ghost use Rattle.link_service.specs.Service.{state_of};

use crate::service::Service;
use charlotte_calls::{EndId, Pid, Report};
use service_processes::KeptReport;

impl Service {
    /// Whether this is the oldest report of a process, which waits.
    #[tactic(auto, unfolding(crate::specs::Service::state_of))]
    pub(crate) fn is_oldest(&self, p: Pid, report: &Report) -> bool
        ensures { IsTrue result ↔ steps.IsOldest (state_of self.now) p report.now }
    {
        if !self.processes().phase(p).is_waiting() {
            return false;
        }
        match self.processes().oldest(p) {
            Some(oldest) => is_same_report(oldest, report),
            None => false,
        }
    }
}

/// Whether two reports tell the same.
fn is_same_report(a: &KeptReport, b: &Report) -> bool
    ensures { IsTrue result ↔ (a.now ≡ b.now) }
{
    is_same_activity(a, b) && a.outcome() == b.outcome && is_same_content(a, b)
}

/// Whether two reports tell of the same way of the same end.
fn is_same_activity(a: &KeptReport, b: &Report) -> bool
    ensures { IsTrue result ↔ ((a.now.on ≡ b.now.on) × (a.now.way ≡ b.now.way)) }
{
    is_same_end(a.on(), b.on) && a.way() == b.way
}

/// Whether two reports tell of the same bytes and ends.
fn is_same_content(a: &KeptReport, b: &Report) -> bool
    ensures { IsTrue result ↔ ((a.now.bytes ≡ b.now.bytes) × (a.now.enclosed ≡ b.now.enclosed)) }
{
    are_same_bytes(a.bytes(), b.bytes.as_slice())
        && are_same_ends(a.enclosed(), b.enclosed.as_slice())
}

fn is_same_end(a: EndId, b: EndId) -> bool
    ensures { IsTrue result ↔ (a ≡ b) }
{
    a == b
}

fn are_same_bytes(a: &[u8], b: &[u8]) -> bool
    ensures { IsTrue result ↔ (a.now ≡ b.now) }
{
    a == b
}

fn are_same_ends(a: &[EndId], b: &[EndId]) -> bool
    ensures { IsTrue result ↔ (a.now ≡ b.now) }
{
    a == b
}
