//! Whether a process has an activity, by which a Wait is allowed.
ghost use Rattle.std.specs.Prelude.{◌≡◌, ◌↔◌, ◌&&◌, IsTrue};
ghost use Rattle.charlotte_calls.specs.declared.calls.Call.TheVariants as call;
ghost use Rattle.service_step.specs.Causes.{IsRefusedFor, HasActivity, HasStarted};
ghost use Rattle.service_step.specs.Ends.{is_active, is_owned_by};
ghost use Rattle.link_service.specs.Service.{state_of};

use crate::service::Service;
use charlotte_calls::{Call, Cause, EndId, Pid};

impl Service {
    /// Whether this is the first cause of a call that holds.
    pub(crate) fn is_refused_for(&mut self, p: Pid, call: &Call, cause: Cause) -> bool
        ensures refused { IsTrue result ↔ IsRefusedFor (state_of self.old) p call.now cause }
        ensures same { state_of self.new ≡ state_of self.old }
    {
        match call {
            Call::Wait => self.is_wait_refused(p, cause),
            _ => self.is_first_cause(p, call, cause),
        }
    }

    /// Whether a Wait is refused for this cause: it is NoActivity, and the process has none.
    fn is_wait_refused(&mut self, p: Pid, cause: Cause) -> bool
        ensures refused { IsTrue result ↔ IsRefusedFor (state_of self.old) p call.Wait cause }
        ensures same { state_of self.new ≡ state_of self.old }
    {
        if cause.number() != Cause::NoActivity.number() {
            return false;
        }
        !self.has_activity(p)
    }

    /// Whether a report of a process stands, or an activity is started on an end that it owns.
    #[inline(always)]
    #[tactic(auto, unfolding(crate::specs::Service::state_of))]
    pub(crate) fn has_activity(&mut self, p: Pid) -> bool
        ensures active { IsTrue result ↔ HasActivity (state_of self.old) p }
        ensures same { state_of self.new ≡ state_of self.old }
    {
        if self.processes().has_report(p) {
            return true;
        }
        self.has_started(p)
    }

    /// Whether an activity is started on an end of a process. Ends without one are forgotten where they are met, so that each is
    /// met once after it was learned.
    fn has_started(&mut self, p: Pid) -> bool
        ensures started { IsTrue result ↔ HasStarted (state_of self.old).ends p }
        ensures same { state_of self.new ≡ state_of self.old }
    {
        while let Some(e) = self.last_active(p) {
            if self.is_started_on(p, e) {
                return true;
            }
            self.forget_last_active(p);
        }
        false
    }

    /// Whether a process owns an end with a started activity.
    #[tactic(auto, unfolding(crate::specs::Service::state_of))]
    fn is_started_on(&self, p: Pid, e: EndId) -> bool
        ensures { result ≡ (is_owned_by p ((state_of self.now).ends e).place && is_active ((state_of self.now).ends e)) }
    {
        let end = self.links().look(e);
        end.is_owned_by(p) && end.is_active()
    }
}
