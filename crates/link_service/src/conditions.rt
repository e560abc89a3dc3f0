//! The conditions of the steps, in the order of their numbers.
ghost use Rattle.std.specs.Prelude.{◌≡◌, ◌+◌, ◌↔◌, IsTrue, nat_eq};
ghost use Rattle.charlotte_calls.specs.Causes.{first_of, make_causes};
ghost use Rattle.service_step.specs.Causes.{is_cause, made_before, refusal};
ghost use Rattle.service_step.specs.Ends.{owner};
ghost use Rattle.service_step.specs.State.{next_link, owner_cancels};
ghost use Rattle.service_step.specs.Steps as steps;
ghost use Rattle.service_processes.specs.Processes.{HasProcess};
ghost use Rattle.link_service.specs.Service.{state_of};

use crate::service::Service;
use charlotte_calls::{Call, Cause, EndId, LINK_LIMIT, Pid, Way};
use service_links::{
    KeptEnd, cancel_cause, destroy_cause, is_cancellable, is_new_pair, receive_cause,
    receive_cause_at, send_cause, send_cause_at,
};

impl Service {
    /// Whether a process runs.
    #[inline(always)]
    #[tactic(auto, unfolding(crate::specs::Service::state_of))]
    pub(crate) fn runs(&self, p: Pid) -> bool
        ensures runs { result ≡ steps.runs (state_of self.now) p }
        ensures there { IsTrue result → HasProcess self.now.processes p }
    {
        self.processes().phase(p).is_running()
    }

    /// Whether a process owns the end and runs.
    #[inline(always)]
    fn has_running_owner(&self, end: &KeptEnd) -> bool
        ensures { result ≡ steps.is_running_owner (state_of self.now) (owner end.now.place) }
    {
        match end.owner() {
            Some(p) => self.runs(p),
            None => false,
        }
    }

    /// Whether the owner of an end is in a Cancel of its receive.
    #[tactic(auto, unfolding(crate::specs::Service::state_of))]
    pub(crate) fn owner_cancels(&self, e: EndId, end: &KeptEnd) -> bool
        ensures { result ≡ owner_cancels (owner end.now.place) e (state_of self.now).process }
    {
        match end.owner() {
            Some(p) => self.processes().phase(p).is_cancelling(e),
            None => false,
        }
    }

    #[tactic(auto, unfolding(crate::specs::Service::state_of))]
    pub(crate) fn may_make(&self, p: Pid, a: EndId, b: EndId) -> bool
        ensures { result ≡ steps.may_make (state_of self.now) p a b }
    {
        self.runs(p) && is_new_pair(self.links(), self.next_link(p), a, b)
    }

    #[tactic(auto, unfolding(crate::specs::Service::state_of))]
    pub(crate) fn may_destroy(&self, e: EndId) -> bool
        ensures { result ≡ steps.may_destroy (state_of self.now) e }
    {
        self.has_running_owner(self.links().look(e))
    }

    #[tactic(auto, unfolding(crate::specs::Service::state_of))]
    pub(crate) fn may_send(&self, e: EndId, n: u32, enclose: &[EndId]) -> bool
        ensures { result ≡ steps.may_send (state_of self.now) e n enclose.now }
    {
        let end = self.links().look(e);
        match end.owner() {
            Some(p) => {
                self.runs(p)
                    && send_cause_at(self.links(), end, p, e, enclose).is_none()
                    && is_next(n, end.sent())
                    && self.fits_version(enclose)
            }
            None => false,
        }
    }

    #[tactic(auto, unfolding(crate::specs::Service::state_of))]
    fn fits_version(&self, enclose: &[EndId]) -> bool
        ensures { result ≡ steps.fits_version (state_of self.now).version enclose.now }
    {
        enclose.len() <= if self.version() == 1 { 1 } else { 8 }
    }

    #[tactic(auto, unfolding(crate::specs::Service::state_of))]
    pub(crate) fn may_receive(&self, e: EndId) -> bool
        ensures { result ≡ steps.may_receive (state_of self.now) e }
    {
        let end = self.links().look(e);
        match end.owner() {
            Some(p) => self.runs(p) && receive_cause_at(end, p).is_none(),
            None => false,
        }
    }

    #[tactic(auto, unfolding(crate::specs::Service::state_of))]
    pub(crate) fn may_cancel(&self, e: EndId, way: Way) -> bool
        ensures { result ≡ steps.may_cancel (state_of self.now) e way }
    {
        let end = self.links().look(e);
        self.has_running_owner(end) && is_cancellable(way, end) && !end.noticed()
    }

    #[tactic(auto, unfolding(crate::specs::Service::state_of))]
    pub(crate) fn may_match(&self, e: EndId, n: u32) -> bool
        ensures { result ≡ steps.may_match (state_of self.now).ends e n }
    {
        let end = self.links().look(e);
        end.is_waiting()
            && end.sent() == n
            && !end.noticed()
            && self.links().look(e.opposite()).inward().is_posted()
    }

    #[tactic(auto, unfolding(crate::specs::Service::state_of))]
    pub(crate) fn may_take(&self, e: EndId, n: u32, p: Pid, late: bool) -> bool
        ensures { result ≡ steps.may_take (state_of self.now) e n p late }
    {
        let end = self.links().look(e);
        let opposite = self.links().look(e.opposite());
        end.is_matched()
            && end.sent() == n
            && opposite.is_owned_by(p)
            && !opposite.noticed()
            && opposite.inward().is_matched_with(n)
            && agree(late, self.processes().phase(p).is_cancelling(e.opposite()))
    }

    #[tactic(auto, unfolding(crate::specs::Service::state_of))]
    pub(crate) fn may_complete(&self, e: EndId, n: u32) -> bool
        ensures { result ≡ steps.may_complete (state_of self.now).ends e n }
    {
        let end = self.links().look(e);
        end.is_taken() && end.sent() == n && end.owner().is_some()
    }

    #[tactic(auto, unfolding(crate::specs::Service::state_of))]
    pub(crate) fn may_withdraw(&self, e: EndId) -> bool
        ensures { result ≡ steps.may_withdraw (state_of self.now) e }
    {
        let end = self.links().look(e);
        end.inward().is_posted() && self.owner_cancels(e, end)
    }

    #[tactic(auto, unfolding(crate::specs::Service::state_of))]
    pub(crate) fn may_free(&self, e: EndId) -> bool
        ensures { result ≡ steps.may_free (state_of self.now) e }
    {
        let end = self.links().look(e);
        end.inward().is_withdrawn() && self.owner_cancels(e, end)
    }

    #[tactic(auto, unfolding(crate::specs::Service::state_of))]
    pub(crate) fn may_notice(&self, e: EndId, dead: bool) -> bool
        ensures { result ≡ steps.may_notice (state_of self.now) e dead }
    {
        let end = self.links().look(e);
        self.links().look(e.opposite()).place().is_destroyed()
            && end.place().is_living()
            && !end.noticed()
            && agree(dead, self.owner_cancels(e, end))
    }

    #[tactic(auto, unfolding(crate::specs::Service::state_of))]
    pub(crate) fn may_return(&self, e: EndId, n: u32, dead: bool) -> bool
        ensures { result ≡ steps.may_return (state_of self.now) e n dead }
    {
        let end = self.links().look(e);
        let opposite = self.links().look(e.opposite());
        end.is_matched()
            && end.sent() == n
            && (opposite.place().is_destroyed() || opposite.noticed())
            && (end.place().is_destroyed() || end.owner().is_some())
            && agree(dead, !end.noticed() && self.owner_cancels(e, end))
    }

    /// The first cause that holds of any call but Wait. It costs no more than a look-up for each enclosed end.
    #[tactic(auto, unfolding(crate::specs::Service::state_of))]
    pub fn refusal(&self, p: Pid, call: &Call) -> Option<Cause>
        ensures { result ≡ refusal (state_of self.now) p call.now }
    {
        match call {
            Call::Make => self.make_cause(p),
            Call::Destroy { on } => destroy_cause(self.links(), p, *on),
            Call::Send { on, enclose, .. } => send_cause(self.links(), p, *on, enclose.as_slice()),
            Call::Receive { on } => receive_cause(self.links(), p, *on),
            Call::Cancel { on, way } => cancel_cause(self.links(), p, *on, *way),
            Call::Wait | Call::Print { .. } | Call::Exit => None,
        }
    }

    /// Whether this is the first cause that holds of a call, which is not Wait.
    pub(crate) fn is_first_cause(&self, p: Pid, call: &Call, cause: Cause) -> bool
        ensures { result ≡ is_cause cause (refusal (state_of self.now) p call.now) }
    {
        match self.refusal(p, call) {
            Some(first) => cause.number() == first.number(),
            None => false,
        }
    }

    fn make_cause(&self, p: Pid) -> Option<Cause>
        ensures { result ≡ first_of (make_causes (made_before (next_link (state_of self.now) p))) }
    {
        match self.next_link(p) {
            Some(link) if LINK_LIMIT <= link.count => Some(Cause::LinksFull),
            _ => None,
        }
    }
}

/// Whether n is the number after the last.
#[inline(always)]
fn is_next(n: u32, last: u32) -> bool
    ensures { result ≡ nat_eq n (last + 1) }
{
    match last.checked_add(1) {
        Some(next) => n == next,
        None => false,
    }
}

/// Two tests have the same outcome.
#[inline(always)]
fn agree(a: bool, b: bool) -> bool
    ensures { result ≡ steps.agree a b }
{
    a == b
}
