//! Calls that are refused, and refusals that are none.

use crate::telling::Telling;
use charlotte_calls::{Call, Cause, EndId, NoMemory, Pid};
use link_service::Service;
use service_step::Phase;
use transcript_lines::cause_name;

impl Telling<'_> {
    /// Whether a process can make no call; then that is told.
    fn cannot_call(&mut self, p: Pid) -> Result<bool, NoMemory> {
        match self.service.processes().phase(p) {
            Phase::Running => return Ok(false),
            Phase::Waiting => {
                self.process(p)?;
                self.words(b" waits")?;
            }
            Phase::Cancelling(e) => {
                self.process(p)?;
                self.of_end(b" cancels ", e)?;
            }
            Phase::Ended => {
                self.process(p)?;
                self.words(b" has ended")?;
            }
        }
        Ok(true)
    }

    /// Whether a process can't make a call, or it is refused; then that is told.
    pub(crate) fn is_refused(&mut self, p: Pid, call: &Call) -> Result<bool, NoMemory> {
        if self.cannot_call(p)? {
            return Ok(true);
        }
        match first_cause(self.service, p, call) {
            Some(cause) => {
                self.words(b"this call is refused: ")?;
                self.words(cause_name(cause))?;
                self.whose(end_of(self.service, p, call, cause))?;
                Ok(true)
            }
            None => Ok(false),
        }
    }

    /// Why a call is not refused so.
    pub(crate) fn refusal(&mut self, p: Pid, call: &Call) -> Result<(), NoMemory> {
        if self.is_refused(p, call)? {
            return Ok(());
        }
        self.words(b"this call is not refused")
    }

    /// Where an end is, behind a comma.
    fn whose(&mut self, end: Option<EndId>) -> Result<(), NoMemory> {
        match end {
            Some(e) => {
                self.words(b", ")?;
                self.place(e)
            }
            None => Ok(()),
        }
    }
}

/// The first cause of a call that holds.
fn first_cause(service: &Service, p: Pid, call: &Call) -> Option<Cause> {
    match call {
        Call::Wait if !has_activity(service, p) => Some(Cause::NoActivity),
        Call::Wait => None,
        _ => service.refusal(p, call),
    }
}

/// Whether a report of a process stands, or an activity is started on an end of it. It looks at each end of the process.
fn has_activity(service: &Service, p: Pid) -> bool {
    if service.processes().has_report(p) {
        return true;
    }
    for e in service.processes().held(p) {
        let end = service.links().look(*e);
        if end.is_owned_by(p) && end.is_active() {
            return true;
        }
    }
    false
}

/// The first end of a call that the process does not own, where that is the cause.
fn end_of(service: &Service, p: Pid, call: &Call, cause: Cause) -> Option<EndId> {
    match (call, cause) {
        (
            Call::Destroy { on }
            | Call::Send { on, .. }
            | Call::Receive { on }
            | Call::Cancel { on, .. },
            Cause::NoEnd,
        ) => Some(*on),
        (Call::Send { enclose, .. }, Cause::EncloseNoEnd) => first_of_others(
            service,
            p,
            enclose.as_slice(),
        ),
        _ => None,
    }
}

fn first_of_others(service: &Service, p: Pid, ends: &[EndId]) -> Option<EndId> {
    for e in ends {
        if !service.place(*e).is_owned_by(p) {
            return Some(*e);
        }
    }
    None
}
