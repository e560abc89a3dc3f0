ghost use Rattle.std.specs.Prelude.{◌≡◌, ◌≤◌, ◌+◌, [], None, Some, IsSome, IfSome, OnOk};
ghost use Rattle.std.specs.Map.{lookup};
ghost use Rattle.end_table.specs.Place.{end_eq};
ghost use Rattle.end_table.specs.Kept.{HasAt, HasRoom};
ghost use Rattle.end_table.specs.declared.entry.Outward.TheVariants.{Waiting};

use crate::Outward;
use crate::brief::Brief;
use crate::kept::Kept;
use crate::message::Message;
use crate::places::FEW;
use charlotte_calls::{EndId, NoMemory};
use std::alloc::Global;
use std::marker::Model;

/// The messages of sends that wait, each with the end that sends it: brief ones apart, since a place for one has the room of the
/// longest. Where both have a message of an end, the long one is the newer. Where a send does not wait any more, its message
/// stays as it was until the next one, or until the end's place is given back.
#[derive(Drop)]
pub(crate) struct Messages {
    long: Kept<Message>,
    brief: Kept<Brief>,
}

impl Model for Messages {
    ghost use Rattle.end_table.specs.Kept.{MessagesView, joined};

    ghost Value = { MessagesView };

    ghost view = { λ m. joined m.long m.brief };
}

impl Messages {
    /// No messages.
    pub(crate) fn new(alloc: Global) -> Messages
        ensures { result.kept ≡ [] }
    {
        Messages {
            long: Kept::new(alloc),
            brief: Kept::new(alloc),
        }
    }

    /// Makes room for the messages of this many ends, whether they are brief or not.
    #[inline(always)]
    pub(crate) fn reserve(&mut self, most: usize) -> Result<(), NoMemory>
        ensures room { OnOk result (most ≤ self.new.most) }
        ensures same { self.new.kept ≡ self.old.kept }
        ensures kept { self.old.most ≤ self.new.most }
    {
        self.long.reserve(most, FEW)?;
        self.brief.reserve(most, FEW)?;
        Ok(())
    }

    /// Keeps the message of an end, in place of the one before. There is room for it where it is the first.
    pub(crate) fn put(&mut self, end: EndId, message: Message)
        requires { HasRoom self.old end }
        ensures put { HasAt self.old self.new end (Some message) }
        ensures room { self.old.most ≤ self.new.most }
    {
        if self.long.has(end) {
            self.long.put(end, message);
            return;
        }
        match Brief::of(&message) {
            Some(brief) => self.brief.put(end, brief),
            None => self.long.put(end, message),
        }
    }

    /// Lets go what is kept of an end.
    pub(crate) fn forget(&mut self, end: EndId)
        ensures none { HasAt self.old self.new end None }
        ensures absent { lookup (end_eq end) self.old.kept ≡ None → self.old.most ≤ self.new.most }
        ensures room { self.old.most ≤ self.new.most + 1 }
    {
        self.long.forget(end);
        self.brief.forget(end);
    }

    /// The send of this number, that waits with the message of an end.
    #[inline(always)]
    pub(crate) fn waiting(&self, end: EndId, n: u32) -> Outward
        requires { IsSome (lookup (end_eq end) self.now.kept) }
        ensures { IfSome (lookup (end_eq end) self.now.kept) (λ m. result ≡ Waiting n m.bytes m.enclosed) }
    {
        if let Some(message) = self.long.get(end) {
            return Outward::Waiting {
                n,
                bytes: message.bytes.copy(),
                enclosed: message.enclosed.copy(),
            };
        }
        match self.brief.get(end) {
            Some(brief) => Outward::Waiting {
                n,
                bytes: brief.bytes(),
                enclosed: brief.enclosed(),
            },
            None => unreachable!(),
        }
    }
}
