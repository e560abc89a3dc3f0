//! What threads ask on an end. The tests for exceptions are the caller's.

ghost use Rattle.std.specs.Prelude.{◌≡◌, ◌++◌, ◌∷◌, [], not, filter, ◌==◌, OnOk, ◌≤◌, length};
ghost use Rattle.end_protocol.specs.Messages.{further};
ghost use Rattle.end_protocol.specs.Asking.{later, asked, lined_up, connected, accepts_too, is_bound, binds, unbinds, is_owed, replies, replied};

use crate::copies::{front, most, rest};
use crate::kept::{Accept, Binding, Kept, Response};
use crate::line::Line;
use crate::messages::{Connect, Message, push_encs};
use charlotte_calls::{EndId, NoMemory};
use lynx_packets::RtPacket;
use std::alloc::Global;

/// The most ends of a message that follow the first.
pub(crate) const MOST_FURTHER: usize = 7;

/// The number of the request behind this one. The greatest number stays.
fn later(number: u32) -> u32
    ensures { result ≡ later number }
{
    if number == u32::MAX {
        number
    } else {
        number + 1
    }
}

impl Kept {
    /// The request of a connect is queued, and is outstanding from then on.
    #[tactic(auto, unfolding(crate::specs::Asking::asked))]
    pub(crate) fn ask(
        &mut self,
        alloc: Global,
        version: u8,
        mut connect: Connect,
    ) -> Result<(), NoMemory>
        ensures { OnOk result (self.new ≡ asked version connect self.old) }
    {
        let message = connect.message(alloc, version)?;
        self.queue.push(message)?;
        connect.ends = rest(alloc, version, connect.ends.as_slice())?;
        self.outstanding = Some(connect);
        self.barred = false;
        Ok(())
    }

    /// A connect with its number waits behind the others, if there are any.
    #[tactic(auto, unfolding(crate::specs::Asking::lined_up))]
    fn line_up(&mut self, alloc: Global, version: u8, connect: Connect) -> Result<(), NoMemory>
        ensures { OnOk result (self.new ≡ lined_up version connect self.old) }
    {
        if self.outstanding.is_some() {
            return self.behind.push(connect);
        }
        self.ask(alloc, version, connect)
    }

    /// A thread connects. The number of its request is given here.
    pub fn connect(
        &mut self,
        alloc: Global,
        version: u8,
        mut connect: Connect,
    ) -> Result<(), NoMemory>
        ensures { OnOk result (self.new ≡ connected version connect self.old) }
    {
        self.last = later(self.last);
        connect.number = self.last;
        self.line_up(alloc, version, connect)
    }

    /// A thread accepts.
    pub fn accept(&mut self, accept: Accept) -> Result<(), NoMemory>
        ensures { OnOk result (self.new ≡ accepts_too accept self.old) }
    {
        self.accepts.push(accept)
    }

    /// Whether the entry is bound to the end.
    pub fn is_bound(&self, entry: u16) -> bool
        ensures { result ≡ is_bound entry self.now }
    {
        self.bindings
            .as_slice()
            .iter()
            .any(|binding| binding.entry == entry)
    }

    /// An entry is bound, behind the others. Where it was bound already, nothing changes.
    pub fn bind(&mut self, binding: Binding) -> Result<(), NoMemory>
        ensures { OnOk result (self.new ≡ binds binding self.old) }
    {
        if self.is_bound(binding.entry) {
            return Ok(());
        }
        self.bindings.push(binding)
    }

    /// An entry is bound no longer.
    pub fn unbind(&mut self, entry: u16)
        ensures { self.new ≡ unbinds entry self.old }
    {
        self.bindings.remove(entry);
    }

    /// Whether the request of this number is owed a reply.
    fn is_owed(&self, number: u32) -> bool
        ensures { result ≡ is_owed number self.now.owed }
    {
        match self.owed {
            Some(owed) => owed == number,
            None => false,
        }
    }

    /// A reply to the request that is owed one, or the failed reply of a close. On a dead end nothing is sent. To another request nothing is done.
    #[tactic(auto, unfolding(crate::specs::Asking::replied))]
    pub fn reply(&mut self, version: u8, reply: Response) -> Result<(), NoMemory>
        ensures { OnOk result (self.new ≡ replied version reply self.old) }
    {
        if !self.is_owed(reply.number) {
            return Ok(());
        }
        self.owed = None;
        if self.dead {
            return Ok(());
        }
        push_reply(&mut self.queue, version, reply)
    }
}

/// The packets of a reply join a queue.
fn push_reply(queue: &mut Line<Message>, version: u8, reply: Response) -> Result<(), NoMemory>
    ensures { OnOk result (queue.new ≡ queue.old ++ replies version reply) }
{
    let Response {
        number,
        status,
        values,
        ends,
    } = reply;
    let ends = ends.as_slice();
    queue.push(Message {
        packet: RtPacket::Reply {
            number,
            status,
            values,
        },
        ends: front(version, ends),
    })?;
    push_further(queue, 2, number, &ends[most(version).min(ends.len())..])
}

/// The enc packets for the further ends of a message join a queue.
pub(crate) fn push_further(
    queue: &mut Line<Message>,
    kind: u8,
    number: u32,
    ends: &[EndId],
) -> Result<(), NoMemory>
    ensures { OnOk result (queue.new ≡ queue.old ++ further kind number ends.now) }
{
    push_encs(
        queue,
        kind,
        number,
        2,
        &ends[..MOST_FURTHER.min(ends.len())],
    )
}
