//! The sixteen steps: each is tested, then made.
ghost use Rattle.std.specs.Prelude.{◌≡◌, IfErr, OnOk, OnErr};
ghost use Rattle.charlotte_calls.specs.declared.calls.ServiceStep.TheVariants as step;
ghost use Rattle.service_step.specs.Steps.{IsServiceStep};
ghost use Rattle.link_service.specs.Service.{state_of, IsFault};

use crate::service::{ApplyFault, Service};
use charlotte_calls::{Bytes, Call, Cause, EndId, Ends, Pid, Report, Way};
use service_step::Phase;

impl Service {
    /// A process makes the next link of its home.
    pub(crate) fn make(&mut self, p: Pid, a: EndId, b: EndId) -> Result<(), ApplyFault>
        ensures ok { OnOk result (IsServiceStep (state_of self.old) (step.Make p a b) (state_of self.new)) }
        ensures fault { IfErr result (IsFault (state_of self.old) (step.Make p a b)) }
        ensures same { OnErr result (state_of self.new ≡ state_of self.old) }
    {
        if !self.may_make(p, a, b) {
            return Err(ApplyFault::NotAllowed(1));
        }
        self.do_make(p, a, b)?;
        Ok(())
    }

    /// A call is refused.
    pub(crate) fn refuse(&mut self, p: Pid, call: &Call, cause: Cause) -> Result<(), ApplyFault>
        ensures ok { OnOk result (IsServiceStep (state_of self.old) (step.Refuse p call.now cause) (state_of self.new)) }
        ensures fault { IfErr result (IsFault (state_of self.old) (step.Refuse p call.now cause)) }
        ensures same { OnErr result (state_of self.new ≡ state_of self.old) }
    {
        if !self.runs(p) || !self.is_refused_for(p, call, cause) {
            return Err(ApplyFault::NotAllowed(2));
        }
        Ok(())
    }

    /// The owner of an end destroys it.
    pub(crate) fn destroy(&mut self, e: EndId) -> Result<(), ApplyFault>
        ensures ok { OnOk result (IsServiceStep (state_of self.old) (step.Destroy e) (state_of self.new)) }
        ensures fault { IfErr result (IsFault (state_of self.old) (step.Destroy e)) }
        ensures same { OnErr result (state_of self.new ≡ state_of self.old) }
    {
        if !self.may_destroy(e) {
            return Err(ApplyFault::NotAllowed(3));
        }
        self.do_destroy(e);
        Ok(())
    }

    /// The owner of an end starts a send.
    pub(crate) fn send(
        &mut self,
        e: EndId,
        n: u32,
        bytes: &Bytes,
        carried: &Ends,
    ) -> Result<(), ApplyFault>
        ensures ok { OnOk result (IsServiceStep (state_of self.old) (step.Send e n bytes.now carried.now) (state_of self.new)) }
        ensures fault { IfErr result (IsFault (state_of self.old) (step.Send e n bytes.now carried.now)) }
        ensures same { OnErr result (state_of self.new ≡ state_of self.old) }
    {
        if !self.may_send(e, n, carried.as_slice()) {
            return Err(ApplyFault::NotAllowed(4));
        }
        self.do_send(e, n, bytes, carried)?;
        Ok(())
    }

    /// The owner of an end starts a receive.
    pub(crate) fn receive(&mut self, e: EndId) -> Result<(), ApplyFault>
        ensures ok { OnOk result (IsServiceStep (state_of self.old) (step.Receive e) (state_of self.new)) }
        ensures fault { IfErr result (IsFault (state_of self.old) (step.Receive e)) }
        ensures same { OnErr result (state_of self.new ≡ state_of self.old) }
    {
        if !self.may_receive(e) {
            return Err(ApplyFault::NotAllowed(5));
        }
        self.do_receive(e)?;
        Ok(())
    }

    /// The owner of an end takes a send back, or asks for the end of a receive.
    pub(crate) fn cancel(&mut self, e: EndId, way: Way) -> Result<(), ApplyFault>
        ensures ok { OnOk result (IsServiceStep (state_of self.old) (step.Cancel e way) (state_of self.new)) }
        ensures fault { IfErr result (IsFault (state_of self.old) (step.Cancel e way)) }
        ensures same { OnErr result (state_of self.new ≡ state_of self.old) }
    {
        if !self.may_cancel(e, way) {
            return Err(ApplyFault::NotAllowed(6));
        }
        match way {
            Way::Outward => self.cancel_send(e)?,
            Way::Inward => self.cancel_receive(e),
        }
        Ok(())
    }

    /// A process waits for a report.
    pub(crate) fn wait(&mut self, p: Pid) -> Result<(), ApplyFault>
        ensures ok { OnOk result (IsServiceStep (state_of self.old) (step.Wait p) (state_of self.new)) }
        ensures fault { IfErr result (IsFault (state_of self.old) (step.Wait p)) }
        ensures same { OnErr result (state_of self.new ≡ state_of self.old) }
    {
        if !self.runs(p) || !self.has_activity(p) {
            return Err(ApplyFault::NotAllowed(7));
        }
        self.turn(p, Phase::Waiting);
        Ok(())
    }

    /// A process that waits is given its oldest report.
    pub(crate) fn report(&mut self, p: Pid, report: &Report) -> Result<(), ApplyFault>
        ensures ok { OnOk result (IsServiceStep (state_of self.old) (step.Report p report.now) (state_of self.new)) }
        ensures fault { IfErr result (IsFault (state_of self.old) (step.Report p report.now)) }
        ensures same { OnErr result (state_of self.new ≡ state_of self.old) }
    {
        if !self.is_oldest(p, report) {
            return Err(ApplyFault::NotAllowed(8));
        }
        self.do_report(p, report);
        Ok(())
    }

    /// A process ends.
    pub(crate) fn exit(&mut self, p: Pid) -> Result<(), ApplyFault>
        ensures ok { OnOk result (IsServiceStep (state_of self.old) (step.Exit p) (state_of self.new)) }
        ensures fault { IfErr result (IsFault (state_of self.old) (step.Exit p)) }
        ensures same { OnErr result (state_of self.new ≡ state_of self.old) }
    {
        if !self.runs(p) {
            return Err(ApplyFault::NotAllowed(9));
        }
        self.do_exit(p);
        Ok(())
    }

    /// A started send and the receive of the opposite end come together.
    pub(crate) fn match_send(&mut self, e: EndId, n: u32) -> Result<(), ApplyFault>
        ensures ok { OnOk result (IsServiceStep (state_of self.old) (step.Match e n) (state_of self.new)) }
        ensures fault { IfErr result (IsFault (state_of self.old) (step.Match e n)) }
        ensures same { OnErr result (state_of self.new ≡ state_of self.old) }
    {
        if !self.may_match(e, n) {
            return Err(ApplyFault::NotAllowed(10));
        }
        self.match_ends(e, n);
        Ok(())
    }

    /// A matched message reaches the process that owns the opposite end.
    pub(crate) fn take(&mut self, e: EndId, n: u32, p: Pid, late: bool) -> Result<(), ApplyFault>
        ensures ok { OnOk result (IsServiceStep (state_of self.old) (step.Take e n p late) (state_of self.new)) }
        ensures fault { IfErr result (IsFault (state_of self.old) (step.Take e n p late)) }
        ensures same { OnErr result (state_of self.new ≡ state_of self.old) }
    {
        if !self.may_take(e, n, p, late) {
            return Err(ApplyFault::NotAllowed(11));
        }
        self.do_take(e, n, p, late)?;
        Ok(())
    }

    /// The sender learns that its message was taken.
    pub(crate) fn complete(&mut self, e: EndId, n: u32) -> Result<(), ApplyFault>
        ensures ok { OnOk result (IsServiceStep (state_of self.old) (step.Complete e n) (state_of self.new)) }
        ensures fault { IfErr result (IsFault (state_of self.old) (step.Complete e n)) }
        ensures same { OnErr result (state_of self.new ≡ state_of self.old) }
    {
        if !self.may_complete(e, n) {
            return Err(ApplyFault::NotAllowed(12));
        }
        self.do_complete(e)?;
        Ok(())
    }

    /// A receive that is being cancelled is taken back at the opposite end.
    pub(crate) fn withdraw(&mut self, e: EndId) -> Result<(), ApplyFault>
        ensures ok { OnOk result (IsServiceStep (state_of self.old) (step.Withdraw e) (state_of self.new)) }
        ensures fault { IfErr result (IsFault (state_of self.old) (step.Withdraw e)) }
        ensures same { OnErr result (state_of self.new ≡ state_of self.old) }
    {
        if !self.may_withdraw(e) {
            return Err(ApplyFault::NotAllowed(13));
        }
        self.withdraw_receive(e);
        Ok(())
    }

    /// The Cancel of a receive is answered.
    pub(crate) fn free(&mut self, e: EndId) -> Result<(), ApplyFault>
        ensures ok { OnOk result (IsServiceStep (state_of self.old) (step.Free e) (state_of self.new)) }
        ensures fault { IfErr result (IsFault (state_of self.old) (step.Free e)) }
        ensures same { OnErr result (state_of self.new ≡ state_of self.old) }
    {
        if !self.may_free(e) {
            return Err(ApplyFault::NotAllowed(14));
        }
        self.do_free(e);
        Ok(())
    }

    /// The death of a link is noticed at an end.
    pub(crate) fn notice(&mut self, e: EndId, dead: bool) -> Result<(), ApplyFault>
        ensures ok { OnOk result (IsServiceStep (state_of self.old) (step.Notice e dead) (state_of self.new)) }
        ensures fault { IfErr result (IsFault (state_of self.old) (step.Notice e dead)) }
        ensures same { OnErr result (state_of self.new ≡ state_of self.old) }
    {
        if !self.may_notice(e, dead) {
            return Err(ApplyFault::NotAllowed(15));
        }
        self.do_notice(e)?;
        Ok(())
    }

    /// A matched message comes back to its sender.
    pub(crate) fn back(&mut self, e: EndId, n: u32, dead: bool) -> Result<(), ApplyFault>
        ensures ok { OnOk result (IsServiceStep (state_of self.old) (step.Back e n dead) (state_of self.new)) }
        ensures fault { IfErr result (IsFault (state_of self.old) (step.Back e n dead)) }
        ensures same { OnErr result (state_of self.new ≡ state_of self.old) }
    {
        if !self.may_return(e, n, dead) {
            return Err(ApplyFault::NotAllowed(16));
        }
        self.do_return(e)?;
        Ok(())
    }
}
