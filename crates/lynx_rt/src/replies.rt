//! Replies and closes, for the innermost open request of a thread.

ghost use Rattle.std.specs.Prelude.{◌≡◌, ◌<◌, [], length, Ok, IfOk, OnOk};
ghost use Rattle.machine_values.specs.Told.{values_of};
ghost use Rattle.end_protocol.specs.Asking.{replied};
ghost use Rattle.end_protocol.specs.Lists.{head, tail};
ghost use Rattle.process_run.specs.Actions.{closes, done_with, fails, opened_in, replies, with_opened};
ghost use Rattle.process_run.specs.Ends.{held_at, lets_go, links_in};
ghost use Rattle.process_ends.specs.Opened.{answered};
ghost use Rattle.process_sound.specs.Machine.{Fits};
ghost use Rattle.lynx_rt.specs.Changes.{changes, reply_fault};
ghost use Rattle.lynx_rt.specs.Kept.{IsProcess};

use crate::process::Running;
use charlotte_calls::{Items, NoMemory};
use end_protocol::Response;
use lynx_interp::Value;
use process_ends::{Open, links_in, pack};
use typing_rules::Exception;

impl Running {
    /// The thread replies to its innermost open request.
    pub(crate) fn reply(&mut self, thread: u8, values: &[Value]) -> Result<(), NoMemory>
        requires process { IsProcess self.old }
        requires fits { Fits thread (Ok []) self.old }
        ensures replied { OnOk result (self.new ≡ (replies thread (values_of values.now) (opened_in thread self.old) self.old).state) }
        ensures process { OnOk result (IsProcess self.new) }
    {
        let Some(request) = self.innermost(thread) else {
            return self.does(thread);
        };
        let links = links_in(self.alloc, values)?;
        if let Some(exception) = self.reply_fault(request, &links) {
            return self.raise(thread, exception);
        }
        let response = self.reply_of(request, values, &links)?;
        self.respond(request.on, response)?;
        self.answer(thread);
        self.does(thread)
    }

    /// The reply to an open request, with these links among its values, whose ends are held no longer.
    fn reply_of(
        &mut self,
        request: Open,
        values: &[Value],
        links: &[u32],
    ) -> Result<Response, NoMemory>
        requires { links.now ≡ links_in (values_of values.now) }
        ensures made { IfOk result (λ r. r ≡ done_with request (values_of values.now) self.old) }
        ensures gone { OnOk result (self.new ≡ lets_go (links_in (values_of values.now)) self.old) }
    {
        Ok(Response {
            number: request.number,
            status: 0,
            values: pack(self.alloc, values)?,
            ends: self.send_away(links)?,
        })
    }

    /// What a reply to an open request raises.
    fn reply_fault(&self, request: Open, links: &[u32]) -> Option<Exception>
        ensures { result ≡ reply_fault request links.now self.now }
    {
        if request.answered {
            return Some(Exception::Replied);
        }
        if self.dead_fault(request.on).is_some() {
            return Some(Exception::DeadLink);
        }
        self.link_fault(request.on, links)
    }

    /// The thread closes its innermost open request.
    pub(crate) fn close(&mut self, thread: u8) -> Result<(), NoMemory>
        requires process { IsProcess self.old }
        requires fits { Fits thread (Ok []) self.old }
        ensures closed { OnOk result (self.new ≡ (closes thread (opened_in thread self.old) self.old).state) }
        ensures process { OnOk result (IsProcess self.new) }
    {
        let Some(request) = self.innermost(thread) else {
            return self.does(thread);
        };
        self.fail(request)?;
        self.pop(thread);
        self.does(thread)
    }

    /// A request that was not answered has failed.
    fn fail(&mut self, request: Open) -> Result<(), NoMemory>
        ensures { OnOk result (self.new ≡ (fails request (held_at request.on self.old) self.old).state) }
    {
        if request.answered {
            return Ok(());
        }
        let failed = Response {
            number: request.number,
            status: 1,
            values: Items::of(Vec::new(self.alloc)),
            ends: Items::of(Vec::new(self.alloc)),
        };
        self.respond(request.on, failed)
    }

    /// The response goes on the end, if it is held.
    fn respond(&mut self, on: u32, response: Response) -> Result<(), NoMemory>
        ensures { OnOk result (self.new ≡ changes on (replied self.old.version response) self.old) }
    {
        let version = self.version;
        let Some(mut kept) = self.take(on) else {
            return Ok(());
        };
        kept.reply(version, response)?;
        self.keep(on, kept)?;
        Ok(())
    }

    /// The innermost request that is open in a thread.
    fn innermost(&self, thread: u8) -> Option<Open>
        ensures { result ≡ head (opened_in thread self.now) }
    {
        self.opened.innermost(thread)
    }

    /// The innermost request of a thread was answered.
    fn answer(&mut self, thread: u8)
        requires { thread < length self.old.opened }
        ensures { self.new ≡ with_opened thread (answered (opened_in thread self.old)) self.old }
    {
        self.opened.answer(thread);
    }

    /// The innermost request of a thread is open no longer.
    fn pop(&mut self, thread: u8)
        requires { thread < length self.old.opened }
        ensures { self.new ≡ with_opened thread (tail (opened_in thread self.old)) self.old }
    {
        self.opened.pop(thread);
    }
}
