//! What the steps do with the service, where they are allowed.
ghost use Rattle.std.specs.Prelude.{◌≡◌, [], IfOk, IsTrue, OnOk, OnErr, option_to_list};
ghost use Rattle.charlotte_calls.specs.declared.names.Way.TheVariants as way;
ghost use Rattle.service_step.specs.Ends.{owner, destroys, starts_send, turns_inward, waiting_message, matched_message};
ghost use Rattle.service_step.specs.State.{send_report as sent_report};
ghost use Rattle.service_step.specs.Steps as steps;
ghost use Rattle.service_step.specs.declared.state.Inward.TheVariants as inward;
ghost use Rattle.service_processes.specs.Known.{known_of};
ghost use Rattle.service_processes.specs.Processes.{HasProcess};
ghost use Rattle.link_service.specs.Service.{state_of};

use crate::service::Service;
use charlotte_calls::{Bytes, EndId, Ends, Items, NoMemory, Outcome, Pid, Report, Way};
use service_links::{KeptEnd, Letter};
use service_processes::KeptReport;
use std::alloc::Global;

impl Service {
    /// 1: the home of a process makes its next link.
    #[tactic(auto, unfolding(crate::specs::Service::state_of))]
    pub(crate) fn do_make(&mut self, p: Pid, a: EndId, b: EndId) -> Result<(), NoMemory>
        requires { IsTrue (steps.may_make (state_of self.old) p a b) }
        ensures ok { OnOk result (state_of self.new ≡ steps.after_make p a b (state_of self.old)) }
        ensures err { OnErr result (state_of self.new ≡ state_of self.old) }
    {
        self.add_link(a.link, (p, p))?;
        Ok(())
    }

    /// 3: an end is destroyed, and forgotten among those of its owner.
    #[tactic(auto, unfolding(crate::specs::Service::state_of))]
    pub(crate) fn do_destroy(&mut self, e: EndId)
        ensures { state_of self.new ≡ record (state_of self.old) { ends = destroys e (state_of self.old).ends } }
    {
        let owner = self.links().look(e).owner();
        self.destroy_end(e);
        self.forget_lost(owner, &[e]);
    }

    /// 4: a send is started, and the ends that it carries are forgotten among those of the sender.
    pub(crate) fn do_send(
        &mut self,
        e: EndId,
        n: u32,
        bytes: &Bytes,
        carried: &Ends,
    ) -> Result<(), NoMemory>
        ensures ok { OnOk result (state_of self.new ≡ record (state_of self.old) { ends = starts_send e n (record { bytes = bytes.now; carried = carried.now }) (state_of self.old).ends }) }
        ensures err { OnErr result (state_of self.new ≡ state_of self.old) }
    {
        let owner = self.links().look(e).owner();
        let letter = Letter::of(self.allocator(), bytes, carried)?;
        self.activate_for_owner(e)?;
        self.start_send(e, n, letter, carried.as_slice());
        self.forget_lost(owner, carried.as_slice());
        Ok(())
    }

    /// 5: a receive is started.
    pub(crate) fn do_receive(&mut self, e: EndId) -> Result<(), NoMemory>
        ensures ok { OnOk result (state_of self.new ≡ record (state_of self.old) { ends = turns_inward inward.Posted e (state_of self.old).ends }) }
        ensures err { OnErr result (state_of self.new ≡ state_of self.old) }
    {
        self.activate_for_owner(e)?;
        self.start_receive(e);
        Ok(())
    }

    /// 6, outward: a send that waits never happened.
    pub(crate) fn cancel_send(&mut self, e: EndId) -> Result<(), NoMemory>
        ensures ok { OnOk result (state_of self.new ≡ steps.after_cancel (owner ((state_of self.old).ends e).place) e way.Outward (state_of self.old)) }
        ensures err { OnErr result (state_of self.new ≡ state_of self.old) }
    {
        let end = self.links().look(e);
        let owner = end.owner();
        let carried = end.waiting_ends();
        self.learn_for_owner(e, carried.as_slice())?;
        match owner {
            Some(p) => {
                self.withdraw_send(p, e);
                Ok(())
            }
            None => Ok(()),
        }
    }

    /// 8: a process is given its oldest report.
    pub(crate) fn do_report(&mut self, p: Pid, report: &Report)
        requires { HasProcess self.old.processes p }
        ensures { state_of self.new ≡ steps.after_report p report.now (state_of self.old) }
    {
        self.idle(report.way, report.on);
        self.give(p);
    }

    /// 9: a process ends: each of its ends is destroyed.
    pub(crate) fn do_exit(&mut self, p: Pid)
        requires { HasProcess self.old.processes p }
        ensures { steps.Exits p (state_of self.old) (state_of self.new) }
    {
        self.destroy_ends_of(p);
        self.end(p);
    }

    /// 11: a Matched message is taken by the process that owns the opposite end.
    pub(crate) fn do_take(&mut self, e: EndId, n: u32, p: Pid, late: bool) -> Result<(), NoMemory>
        requires { IsTrue (steps.may_take (state_of self.old) e n p late) }
        ensures ok { OnOk result (state_of self.new ≡ steps.after_take e p (state_of self.old)) }
        ensures err { OnErr result (state_of self.new ≡ state_of self.old) }
    {
        let to = e.opposite();
        self.learn_message(p, e)?;
        self.reserve(p)?;
        let letter = self.take_message(e, p);
        self.tell_reserved(p, to, done_report(to, letter));
        Ok(())
    }

    /// 12: the send of an end is over.
    pub(crate) fn do_complete(&mut self, e: EndId) -> Result<(), NoMemory>
        ensures ok { OnOk result (state_of self.new ≡ steps.after_complete e (state_of self.old)) }
        ensures err { OnErr result (state_of self.new ≡ state_of self.old) }
    {
        let none = Items::of(Vec::new(self.allocator()));
        let sent = send_report(self.allocator(), e, Outcome::Done, none);
        self.gain_owner(e, Some(sent))?;
        self.finish_send(e);
        Ok(())
    }

    /// 14: the Cancel of a receive is answered.
    pub(crate) fn do_free(&mut self, e: EndId)
        ensures { state_of self.new ≡ steps.after_free e (state_of self.old) }
    {
        self.wake_owner(e);
        self.free_receive(e);
    }

    /// 15: the death of its link is noticed at an end.
    pub(crate) fn do_notice(&mut self, e: EndId) -> Result<(), NoMemory>
        ensures ok { OnOk result (state_of self.new ≡ steps.after_notice e (state_of self.old)) }
        ensures err { OnErr result (state_of self.new ≡ state_of self.old) }
    {
        let end = self.links().look(e);
        let carried = end.waiting_ends();
        let sent = dropped_report(self.allocator(), e, end)?;
        let received = dead_report(self.allocator(), e, end);
        self.learn_for_owner(e, carried.as_slice())?;
        self.tell_owner(e, sent, received)?;
        self.notice_end(e);
        Ok(())
    }

    /// 16: a Matched message comes back.
    pub(crate) fn do_return(&mut self, e: EndId) -> Result<(), NoMemory>
        ensures ok { OnOk result (state_of self.new ≡ steps.after_return e (state_of self.old)) }
        ensures err { OnErr result (state_of self.new ≡ state_of self.old) }
    {
        let carried = self.links().look(e).matched_ends();
        self.learn_for_owner(e, carried.as_slice())?;
        self.tell_returned(e)?;
        self.return_message(e);
        Ok(())
    }

    /// The owner of an end, where there is one, is told that its message came back, and as by a notice where the end has no mark.
    #[tactic(auto, unfolding(crate::specs::Service::state_of))]
    fn tell_returned(&mut self, e: EndId) -> Result<(), NoMemory>
        ensures ok { OnOk result (state_of self.new ≡ record (state_of self.old) { process = steps.tells_returned (owner ((state_of self.old).ends e).place) e ((state_of self.old).ends e) (state_of self.old).process }) }
        ensures err { OnErr result (state_of self.new ≡ state_of self.old) }
        ensures links { self.new.links ≡ self.old.links }
        ensures known { known_of self.new.processes ≡ known_of self.old.processes }
    {
        let end = self.links().look(e);
        let sent = returned_report(self.allocator(), e, end)?;
        if end.noticed() {
            return self.gain_owner(e, sent);
        }
        let received = dead_report(self.allocator(), e, end);
        self.tell_owner(e, sent, received)
    }
}

/// The report of a send that is over.
#[inline(always)]
fn send_report(alloc: Global, on: EndId, outcome: Outcome, enclosed: Items<EndId>) -> KeptReport
    ensures { result ≡ sent_report on outcome enclosed }
{
    let none = Items::of(Vec::new(alloc));
    KeptReport::of(on, Way::Outward, outcome, none, enclosed)
}

/// The report of a receive whose message was taken, where there is one.
#[inline(always)]
fn done_report(on: EndId, letter: Option<Letter>) -> Option<KeptReport>
    ensures { option_to_list result ≡ steps.done_reports on letter }
{
    match letter {
        Some(letter) => {
            let (bytes, ends) = letter.into_parts();
            Some(KeptReport::of(on, Way::Inward, Outcome::Done, bytes, ends))
        }
        None => None,
    }
}

/// The report of a Waiting send whose link died.
fn dropped_report(alloc: Global, e: EndId, end: &KeptEnd) -> Result<Option<KeptReport>, NoMemory>
    ensures { IfOk result (λ r. option_to_list r ≡ steps.returned_reports e (waiting_message end.now.outward)) }
{
    match end.waiting() {
        Some(letter) => {
            let ends = letter.ends(alloc)?;
            Ok(Some(send_report(alloc, e, Outcome::Destroyed, ends)))
        }
        None => Ok(None),
    }
}

/// The report of a Matched send whose message comes back.
fn returned_report(alloc: Global, e: EndId, end: &KeptEnd) -> Result<Option<KeptReport>, NoMemory>
    ensures { IfOk result (λ r. option_to_list r ≡ steps.returned_reports e (matched_message end.now.outward)) }
{
    match end.matched() {
        Some(letter) => {
            let ends = letter.ends(alloc)?;
            Ok(Some(send_report(alloc, e, Outcome::Destroyed, ends)))
        }
        None => Ok(None),
    }
}

/// The report of a started receive whose link died.
fn dead_report(alloc: Global, e: EndId, end: &KeptEnd) -> Option<KeptReport>
    ensures { option_to_list result ≡ steps.dead_reports e end.now }
{
    if !end.inward().is_started() {
        return None;
    }
    let bytes = Items::of(Vec::new(alloc));
    let ends = Items::of(Vec::new(alloc));
    Some(KeptReport::of(e, Way::Inward, Outcome::Destroyed, bytes, ends))
}
