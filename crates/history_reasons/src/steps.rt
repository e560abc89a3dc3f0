//! Why a step is not allowed, by its kind.

use crate::messages::Course;
use crate::telling::Telling;
use charlotte_calls::{Bytes, Call, EndId, Ends, NoMemory, Pid, ServiceStep};
use history_text::Act;
use link_service::Service;

impl Telling<'_> {
    /// The first of the reasons of a step that holds.
    pub(crate) fn step(&mut self, act: &Act) -> Result<(), NoMemory> {
        match &act.step {
            ServiceStep::Make { p, .. } => self.call(*p, &Call::Make),
            ServiceStep::Refuse { p, call, .. } => self.refusal(*p, call),
            ServiceStep::Destroy { on } => self.owned(act, &Call::Destroy { on: *on }),
            ServiceStep::Send {
                on,
                bytes,
                enclose,
                ..
            } => self.send(act, &send(*on, bytes, enclose)),
            ServiceStep::Receive { on } => self.owned(act, &Call::Receive { on: *on }),
            ServiceStep::Cancel { on, way } => {
                let call = Call::Cancel { on: *on, way: *way };
                self.owned(act, &call)
            }
            ServiceStep::Wait { p } => self.call(*p, &Call::Wait),
            ServiceStep::Report { p, .. } => self.report(*p),
            ServiceStep::Exit { p } => self.call(*p, &Call::Exit),
            ServiceStep::Match { on, n } => self.matching(*on, *n),
            ServiceStep::Take { on, n, p, late } => self.take((*on, *n), *p, *late),
            ServiceStep::Complete { on, n } => self.complete(*on, *n),
            ServiceStep::Withdraw { on } => self.cancelled(*on, b"posted"),
            ServiceStep::Free { on } => self.cancelled(*on, b"withdrawn"),
            ServiceStep::Notice { on, dead } => self.notice(*on, *dead),
            ServiceStep::Back { on, n, dead } => self.back((*on, *n), *dead),
        }
    }

    fn call(&mut self, p: Pid, call: &Call) -> Result<(), NoMemory> {
        self.is_refused(p, call)?;
        Ok(())
    }

    /// A call of the process that a line names.
    fn owned(&mut self, act: &Act, call: &Call) -> Result<(), NoMemory> {
        match act.owner {
            Some((p, _)) => self.call(p, call),
            None => Ok(()),
        }
    }

    /// A send is refused, or its number is another.
    fn send(&mut self, act: &Act, call: &Call) -> Result<(), NoMemory> {
        let Some((p, on)) = act.owner else {
            return Ok(());
        };
        if self.is_refused(p, call)? {
            return Ok(());
        }
        self.of_end(b"the next message of ", on)?;
        self.words(b" is ")?;
        self.number(u64::from(self.service.links().look(on).sent()) + 1)
    }

    fn matching(&mut self, on: EndId, n: u32) -> Result<(), NoMemory> {
        if self.is_not((on, n), Course::Waiting)? {
            return Ok(());
        }
        if self.service.links().look(on).noticed() {
            return self.noticed(on);
        }
        self.receive(on.opposite(), b"posted")
    }

    fn take(&mut self, message: (EndId, u32), p: Pid, late: bool) -> Result<(), NoMemory> {
        if self.is_not(message, Course::Matched)? {
            return Ok(());
        }
        let opposite = message.0.opposite();
        if !self.service.place(opposite).is_owned_by(p) {
            return self.place(opposite);
        }
        if self.service.links().look(opposite).noticed() {
            return self.noticed(opposite);
        }
        self.flag(!late, opposite)
    }

    fn complete(&mut self, on: EndId, n: u32) -> Result<(), NoMemory> {
        if self.is_not((on, n), Course::Taken)? {
            return Ok(());
        }
        self.place(on)
    }

    /// A step of a receive whose Cancel waits.
    fn cancelled(&mut self, on: EndId, wanted: &[u8]) -> Result<(), NoMemory> {
        if is_cancelled(self.service, on) {
            self.receive(on, wanted)
        } else {
            self.flag(false, on)
        }
    }

    fn notice(&mut self, on: EndId, dead: bool) -> Result<(), NoMemory> {
        if !self.service.place(on.opposite()).is_destroyed() {
            return self.place(on.opposite());
        }
        if self.service.place(on).is_destroyed() {
            return self.place(on);
        }
        if self.service.links().look(on).noticed() {
            return self.noticed(on);
        }
        self.flag(!dead, on)
    }

    fn back(&mut self, message: (EndId, u32), dead: bool) -> Result<(), NoMemory> {
        if self.is_not(message, Course::Matched)? {
            return Ok(());
        }
        let opposite = message.0.opposite();
        if !self.service.place(opposite).is_destroyed()
            && !self.service.links().look(opposite).noticed()
        {
            return self.place(opposite);
        }
        self.flag(!dead, message.0)
    }
}

/// The call of a send.
fn send(on: EndId, bytes: &Bytes, enclose: &Ends) -> Call {
    Call::Send {
        on,
        bytes: bytes.copy(),
        enclose: enclose.copy(),
    }
}

/// Whether the owner of an end is in a Cancel of its receive.
fn is_cancelled(service: &Service, e: EndId) -> bool {
    match service.place(e).owner() {
        Some(p) => service.processes().phase(p).is_cancelling(e),
        None => false,
    }
}
