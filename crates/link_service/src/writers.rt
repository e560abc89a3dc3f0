//! The parts of steps: each writer makes of the state what its word makes of it.
ghost use Rattle.std.specs.Prelude.{◌≡◌, ◌++◌, ◌∷◌, [], ◌&&◌, ◌<◌, All, Contains, IfSome, IsNone, IsTrue, Some, OnOk, OnErr, length, option_to_list};
ghost use Rattle.charlotte_calls.specs.Names.{opposite};
ghost use Rattle.charlotte_calls.specs.declared.names.EndId.{EndId};
ghost use Rattle.service_processes.specs.Known.{known_of, held_by, active_of, IsKnown};
ghost use Rattle.service_processes.specs.Processes.{HasProcess, HasRoomFor};
ghost use Rattle.service_step.specs.Ends.{owner, is_owned_by, is_posted, is_started_outward, waiting_message, matched_message, carried_by, destroys, destroys_each, starts_send, turns_inward, turns_outward, idles, withdraws_send, matches, takes, notices, returns};
ghost use Rattle.service_step.specs.Causes.{HasStarted};
ghost use Rattle.service_step.specs.State.{turns, given, ends_process, tells};
ghost use Rattle.service_step.specs.Steps.{after_cancel, gains_owner, wakes_owner, may_match};
ghost use Rattle.charlotte_calls.specs.declared.names.Way.TheVariants as way;
ghost use Rattle.service_step.specs.declared.state.Inward.TheVariants as inward;
ghost use Rattle.service_step.specs.declared.state.Outward.TheVariants as outward;
ghost use Rattle.link_service.specs.Service.{state_of, OwnerKnows, HasIdleLast, IsLastActive};

use crate::service::Service;
use charlotte_calls::{EndId, NoMemory, Pid, Way};
use service_links::Letter;
use service_processes::KeptReport;
use service_step::{Inward, Phase};

impl Service {
    /// These ends are noted to be the process's that owns an end, where there is one.
    #[inline(always)]
    #[tactic(auto, unfolding(crate::specs::Service::state_of))]
    pub(crate) fn learn_for_owner(&mut self, e: EndId, ends: &[EndId]) -> Result<(), NoMemory>
        ensures same { state_of self.new ≡ state_of self.old }
        ensures links { self.new.links ≡ self.old.links }
        ensures known { OnOk result (OwnerKnows self.new e ends.now) }
    {
        match self.links.look(e).owner() {
            Some(p) => self.processes.learn_each(p, ends),
            None => Ok(()),
        }
    }

    /// The ends that a Matched message carries are noted to be the process's that owns the opposite end.
    #[inline(always)]
    #[tactic(auto, unfolding(crate::specs::Service::state_of))]
    pub(crate) fn learn_message(&mut self, p: Pid, e: EndId) -> Result<(), NoMemory>
        requires { IsTrue (is_owned_by p ((state_of self.old).ends (opposite e)).place) }
        ensures same { state_of self.new ≡ state_of self.old }
        ensures there { HasProcess self.new.processes p }
        ensures known { OnOk result (All (IsKnown (known_of self.new.processes) p) (carried_by (matched_message ((state_of self.old).ends e).outward))) }
    {
        match self.links.look(e).matched() {
            Some(letter) => self.processes.learn_each(p, letter.enclosed()),
            None => Ok(()),
        }
    }

    /// An end is noted to be one with an activity of the process that owns it, where there is one.
    #[inline(always)]
    #[tactic(auto, unfolding(crate::specs::Service::state_of))]
    pub(crate) fn activate_for_owner(&mut self, e: EndId) -> Result<(), NoMemory>
        ensures same { state_of self.new ≡ state_of self.old }
        ensures known { OnOk result (OwnerKnows self.new e (e ∷ [])) }
    {
        match self.links.look(e).owner() {
            Some(p) => self.processes.activate(p, e),
            None => Ok(()),
        }
    }

    /// Room is made for one report more of a process.
    #[inline(always)]
    #[tactic(auto, unfolding(crate::specs::Service::state_of))]
    pub(crate) fn reserve(&mut self, p: Pid) -> Result<(), NoMemory>
        requires { HasProcess self.old.processes p }
        ensures same { state_of self.new ≡ state_of self.old }
        ensures known { known_of self.new.processes ≡ known_of self.old.processes }
        ensures count { length self.new.processes ≡ length self.old.processes }
        ensures room { OnOk result (HasRoomFor self.new.processes p) }
    {
        self.processes.reserve(p)
    }

    /// Those of these ends that a process, where it runs, does not own are forgotten among its ends.
    pub(crate) fn forget_lost(&mut self, owner: Option<Pid>, ends: &[EndId])
        ensures { state_of self.new ≡ state_of self.old }
    {
        if let Some(p) = owner {
            for end in ends {
                self.forget_one(p, *end);
            }
        }
    }

    /// An end that a process, where it runs, does not own is forgotten among its ends.
    #[tactic(auto, unfolding(crate::specs::Service::state_of))]
    fn forget_one(&mut self, p: Pid, e: EndId)
        ensures { state_of self.new ≡ state_of self.old }
    {
        if !self.runs(p) || self.links.look(e).is_owned_by(p) {
            return;
        }
        self.processes.forget(p, e);
    }

    /// The owner of an end, where there is one, gains reports, at most two, and runs again where it is in a Cancel of the receive
    /// on it.
    #[tactic(auto, unfolding(crate::specs::Service::state_of))]
    pub(crate) fn tell_owner(
        &mut self,
        e: EndId,
        first: Option<KeptReport>,
        second: Option<KeptReport>,
    ) -> Result<(), NoMemory>
        ensures ok { OnOk result (state_of self.new ≡ record (state_of self.old) { process = tells (owner ((state_of self.old).ends e).place) e (option_to_list first ++ option_to_list second) (state_of self.old).process }) }
        ensures err { OnErr result (state_of self.new ≡ state_of self.old) }
        ensures links { self.new.links ≡ self.old.links }
        ensures known { known_of self.new.processes ≡ known_of self.old.processes }
    {
        match self.links.look(e).owner() {
            Some(p) => self.processes.tell(p, e, first, second),
            None => Ok(()),
        }
    }

    /// A process gains a report, where there is one, for which room was made, and runs again where it is in a Cancel of the receive
    /// on an end.
    #[inline(always)]
    #[tactic(auto, unfolding(crate::specs::Service::state_of))]
    pub(crate) fn tell_reserved(&mut self, p: Pid, e: EndId, report: Option<KeptReport>)
        requires there { HasProcess self.old.processes p }
        requires room { HasRoomFor self.old.processes p }
        ensures { state_of self.new ≡ record (state_of self.old) { process = tells (Some p) e (option_to_list report) (state_of self.old).process } }
    {
        self.processes.tell_reserved(p, e, report);
    }

    /// The owner of an end, where there is one, gains a report.
    #[inline(always)]
    #[tactic(auto, unfolding(crate::specs::Service::state_of))]
    pub(crate) fn gain_owner(
        &mut self,
        e: EndId,
        report: Option<KeptReport>,
    ) -> Result<(), NoMemory>
        ensures ok { OnOk result (state_of self.new ≡ record (state_of self.old) { process = gains_owner (owner ((state_of self.old).ends e).place) (option_to_list report) (state_of self.old).process }) }
        ensures err { OnErr result (state_of self.new ≡ state_of self.old) }
        ensures links { self.new.links ≡ self.old.links }
        ensures known { known_of self.new.processes ≡ known_of self.old.processes }
    {
        match self.links.look(e).owner() {
            Some(p) => self.processes.gain(p, report, None),
            None => Ok(()),
        }
    }

    /// The owner of an end, where there is one, runs again where it is in a Cancel of the receive on it.
    #[tactic(auto, unfolding(crate::specs::Service::state_of))]
    pub(crate) fn wake_owner(&mut self, e: EndId)
        ensures { state_of self.new ≡ record (state_of self.old) { process = wakes_owner (owner ((state_of self.old).ends e).place) e (state_of self.old).process } }
    {
        match self.links.look(e).owner() {
            Some(p) => self.processes.wake(p, e),
            None => {}
        }
    }

    /// The owner of an end waits for the answer to the Cancel of its receive.
    #[tactic(auto, unfolding(crate::specs::Service::state_of))]
    pub(crate) fn cancel_receive(&mut self, e: EndId)
        ensures { state_of self.new ≡ after_cancel (owner ((state_of self.old).ends e).place) e way.Inward (state_of self.old) }
    {
        match self.links.look(e).owner() {
            Some(p) => self.processes.turn(p, Phase::Cancelling(e)),
            None => {}
        }
    }

    /// A process goes on to a phase.
    #[inline(always)]
    #[tactic(auto, unfolding(crate::specs::Service::state_of))]
    pub(crate) fn turn(&mut self, p: Pid, phase: Phase)
        requires { HasProcess self.old.processes p }
        ensures { state_of self.new ≡ record (state_of self.old) { process = turns p phase (state_of self.old).process } }
    {
        self.processes.turn(p, phase);
    }

    /// A process is given its oldest report, and runs.
    #[inline(always)]
    #[tactic(auto, unfolding(crate::specs::Service::state_of))]
    pub(crate) fn give(&mut self, p: Pid)
        requires { HasProcess self.old.processes p }
        ensures { state_of self.new ≡ record (state_of self.old) { process = given p (state_of self.old).process } }
    {
        self.processes.give(p);
    }

    /// A process ends, and has no reports.
    #[tactic(auto, unfolding(crate::specs::Service::state_of))]
    pub(crate) fn end(&mut self, p: Pid)
        requires { HasProcess self.old.processes p }
        ensures { state_of self.new ≡ record (state_of self.old) { process = ends_process p (state_of self.old).process } }
    {
        self.processes.end(p);
    }

    /// The last end on which a process is known to have an activity.
    #[tactic(auto, unfolding(crate::specs::Service::state_of))]
    pub(crate) fn last_active(&self, p: Pid) -> Option<EndId>
        ensures last { IfSome result (λ e. IsLastActive p self.now e) }
        ensures none { IsNone result → HasStarted (state_of self.now).ends p → ⊥ }
    {
        self.processes.last_active(p)
    }

    /// The last end on which a process is known to have an activity is forgotten, where it has none.
    #[tactic(auto, unfolding(crate::specs::Service::state_of))]
    pub(crate) fn forget_last_active(&mut self, p: Pid)
        requires { HasIdleLast p self.old }
        ensures same { state_of self.new ≡ state_of self.old }
        ensures fewer { length (active_of self.new.processes p.0) < length (active_of self.old.processes p.0) }
    {
        self.processes.forget_last_active(p);
    }

    /// An end is destroyed.
    #[tactic(auto, unfolding(crate::specs::Service::state_of))]
    pub(crate) fn destroy_end(&mut self, e: EndId)
        ensures { state_of self.new ≡ record (state_of self.old) { ends = destroys e (state_of self.old).ends } }
    {
        self.links.destroy(e);
    }

    /// Each end that a process owns is destroyed.
    #[tactic(auto, unfolding(crate::specs::Service::state_of))]
    pub(crate) fn destroy_ends_of(&mut self, p: Pid)
        ensures ends { state_of self.new ≡ record (state_of self.old) { ends = destroys_each p (held_by self.old.processes p.0) (state_of self.old).ends } }
        ensures all { (e : EndId) → IsTrue (is_owned_by p ((state_of self.old).ends e).place) → Contains (held_by self.old.processes p.0) e }
        ensures processes { self.new.processes ≡ self.old.processes }
    {
        self.links.destroy_each(p, self.processes.held(p));
    }

    /// A send is started, whose message carries these ends.
    #[inline(always)]
    #[tactic(auto, unfolding(crate::specs::Service::state_of))]
    pub(crate) fn start_send(&mut self, e: EndId, n: u32, letter: Letter, carried: &[EndId])
        requires known { OwnerKnows self.old e (e ∷ []) }
        requires carried { letter.carried ≡ carried.now }
        ensures { state_of self.new ≡ record (state_of self.old) { ends = starts_send e n letter (state_of self.old).ends } }
    {
        self.links.start_send(e, n, letter, carried);
    }

    /// A receive is started.
    #[inline(always)]
    #[tactic(auto, unfolding(crate::specs::Service::state_of))]
    pub(crate) fn start_receive(&mut self, e: EndId)
        requires { OwnerKnows self.old e (e ∷ []) }
        ensures { state_of self.new ≡ record (state_of self.old) { ends = turns_inward inward.Posted e (state_of self.old).ends } }
    {
        self.links.turn_inward(Inward::Posted, e);
    }

    /// A receive is taken back.
    #[tactic(auto, unfolding(crate::specs::Service::state_of))]
    pub(crate) fn withdraw_receive(&mut self, e: EndId)
        requires { IsTrue (is_posted ((state_of self.old).ends e).inward) }
        ensures { state_of self.new ≡ record (state_of self.old) { ends = turns_inward inward.Withdrawn e (state_of self.old).ends } }
    {
        self.links.turn_inward(Inward::Withdrawn, e);
    }

    /// A receive never happened.
    #[tactic(auto, unfolding(crate::specs::Service::state_of))]
    pub(crate) fn free_receive(&mut self, e: EndId)
        ensures { state_of self.new ≡ record (state_of self.old) { ends = turns_inward inward.Idle e (state_of self.old).ends } }
    {
        self.links.turn_inward(Inward::Idle, e);
    }

    /// A send is over.
    #[inline(always)]
    #[tactic(auto, unfolding(crate::specs::Service::state_of))]
    pub(crate) fn finish_send(&mut self, e: EndId)
        ensures { state_of self.new ≡ record (state_of self.old) { ends = turns_outward outward.Unreported e (state_of self.old).ends } }
    {
        self.links.finish_send(e);
    }

    /// The activity of a way is idle again.
    #[inline(always)]
    #[tactic(auto, unfolding(crate::specs::Service::state_of))]
    pub(crate) fn idle(&mut self, way: Way, e: EndId)
        ensures ends { state_of self.new ≡ record (state_of self.old) { ends = idles way e (state_of self.old).ends } }
        ensures processes { self.new.processes ≡ self.old.processes }
    {
        self.links.idle(way, e);
    }

    /// A send that waits never happened.
    #[tactic(auto, unfolding(crate::specs::Service::state_of))]
    pub(crate) fn withdraw_send(&mut self, p: Pid, e: EndId)
        requires { All (IsKnown (known_of self.old.processes) p) (carried_by (waiting_message ((state_of self.old).ends e).outward)) }
        ensures { state_of self.new ≡ record (state_of self.old) { ends = withdraws_send p e (state_of self.old).ends } }
    {
        self.links.withdraw_send(p, e);
    }

    /// A started send and a receive come together.
    #[inline(always)]
    #[tactic(auto, unfolding(crate::specs::Service::state_of))]
    pub(crate) fn match_ends(&mut self, e: EndId, n: u32)
        requires { IsTrue (may_match (state_of self.old).ends e n) }
        ensures { state_of self.new ≡ record (state_of self.old) { ends = matches e n (state_of self.old).ends } }
    {
        self.links.match_send(e, n);
    }

    /// A Matched message is taken by a process, and given.
    #[inline(always)]
    #[tactic(auto, unfolding(crate::specs::Service::state_of))]
    pub(crate) fn take_message(&mut self, e: EndId, p: Pid) -> Option<Letter>
        requires started { IsTrue (is_started_outward ((state_of self.old).ends e).outward) }
        requires known { All (IsKnown (known_of self.old.processes) p) (carried_by (matched_message ((state_of self.old).ends e).outward)) }
        ensures ends { state_of self.new ≡ record (state_of self.old) { ends = takes e p (state_of self.old).ends } }
        ensures processes { self.new.processes ≡ self.old.processes }
        ensures message { result ≡ matched_message ((state_of self.old).ends e).outward }
    {
        self.links.take_message(e, p)
    }

    /// The death of its link is noticed at an end.
    #[tactic(auto, unfolding(crate::specs::Service::state_of))]
    pub(crate) fn notice_end(&mut self, e: EndId)
        requires { OwnerKnows self.old e (carried_by (waiting_message ((state_of self.old).ends e).outward)) }
        ensures { state_of self.new ≡ record (state_of self.old) { ends = notices e (state_of self.old).ends } }
    {
        self.links.notice(e);
    }

    /// A Matched message comes back.
    #[tactic(auto, unfolding(crate::specs::Service::state_of))]
    pub(crate) fn return_message(&mut self, e: EndId)
        requires { OwnerKnows self.old e (carried_by (matched_message ((state_of self.old).ends e).outward)) }
        ensures { state_of self.new ≡ record (state_of self.old) { ends = returns e (state_of self.old).ends } }
    {
        self.links.return_message(e);
    }
}
