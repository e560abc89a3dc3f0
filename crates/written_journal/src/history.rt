//! What happened, as proofs keep it. It takes no memory, and nothing is done for it at run time.
ghost use Rattle.std.specs.Prelude.{◌≡◌};
ghost use base.Fml.{ftrue};
ghost use Rattle.written_journal.specs.Told.{Told, nothing_told, told_code};

use charlotte_calls::{Call, Pid, ServiceStep};
use charlotte_packets::Packet;
use std::marker::Model;

#[derive(Drop)]
pub(crate) struct History {
    ghost told: { Told } by { told_code },
}

impl Model for History {
    ghost also_owns = { λ _. ftrue };
}

// What a history is told.
#[derive(Clone, Copy, Drop)]
pub(crate) enum Note<'a> {
    // A process makes a call.
    Asked(Pid, &'a Call),
    // A kernel takes a packet from a kernel.
    Took(u8, &'a Packet),
    // What was begun got this stamp, and means these steps.
    Done(u64, &'a [ServiceStep]),
    // What was begun is forgotten.
    Forgotten,
    // What was begun is forgotten, and of the entries the first are kept, so many of them.
    Cut(usize),
    // The entries are the one of this number of another history.
    One(&'a History, usize),
    // What another history has begun is begun.
    Begun(&'a History),
    // The event of this number at a kernel comes next in the order of all.
    Next(u8, &'a History, usize),
    // The first event in the order of all is taken out.
    Taken,
}

impl History {
    ghost use Rattle.written_journal.specs.Noted.{noted};

    pub(crate) fn new() -> History
        ensures { result.told ≡ nothing_told }
    {
        History {}
    }

    // With one note more.
    #[inline(always)]
    pub(crate) fn then(&self, _note: &Note<'_>) -> History
        ensures { result.told ≡ noted self.now.told _note.now }
    {
        History {}
    }
}
