ghost use Rattle.std.specs.Prelude.{◌≡◌, [], ◌∷◌, ◌++◌, ◌<◌, ◌≤◌, Some, None, All, IfOk, OnOk, OnErr, length, slice_get, take};
ghost use Rattle.charlotte_packets.specs.Packets.{packet_picture};
ghost use Rattle.journal_text.specs.Journal.{IsAfterLast};
ghost use Rattle.kernel_entries.specs.Ranges.{IsEntryInRange};
ghost use Rattle.kernel_entries.specs.declared.entry.Happened.{Happened};
ghost use Rattle.kernel_entries.specs.declared.entry.Happened.TheVariants.{Asked, Took};
ghost use Rattle.written_journal.specs.Late.{IsLate, with_late};

use crate::EntryLines;
use crate::stored::Stored;
use charlotte_calls::{Call, NoMemory, Pid, ServiceStep};
use charlotte_packets::Packet;
use std::alloc::Global;
use std::marker::Model;

/// What was noted of an event, while its steps are kept by value.
#[derive(Drop)]
pub(crate) struct Late {
    stamp: u64,
    steps: Vec<ServiceStep>,
}

/// The entries of one kernel, in the order of its events, as their text. Their stamps rise. Contracts see the entries, and what was begun.
///
/// What happens is written before it happens, when its stamp is not known: `asked` or `took` begins, and `note` tells the stamp and the
/// steps. What was begun and is not noted is forgotten at the next beginning. After want of memory a journal has the entries that it had.
/// A journal has at most 4,294,967,295 entries; of a further one `asked` and `took` answer want of memory.
#[derive(Drop)]
pub struct WrittenJournal {
    stored: Stored,
    /// What was noted of what the text begins. It is there where memory was wanting.
    late: Option<Late>,
}

impl Model for WrittenJournal {
    ghost use Rattle.written_journal.specs.Kept.{Happenings};
    ghost use Rattle.written_journal.specs.Late.{IsLate, with_late};

    ghost Value = { Happenings };

    ghost view = { λ j. with_late j.stored j.late };

    ghost invariant = { λ j. IsLate j.stored j.late };
}

impl WrittenJournal {
    /// A journal without entries.
    pub fn start(alloc: Global) -> WrittenJournal
        ensures entries { result.entries ≡ [] }
        ensures begun { result.begun ≡ None }
    {
        WrittenJournal {
            stored: Stored::start(alloc),
            late: None,
        }
    }

    /// Begins with the call of a process.
    pub fn asked(&mut self, p: Pid, call: &Call) -> Result<(), NoMemory>
        ensures entries { self.new.entries ≡ self.old.entries }
        ensures begun { OnOk result (self.new.begun ≡ Some (Asked p call.now)) }
        ensures forgotten { OnErr result (self.new.begun ≡ None) }
    {
        store(&mut self.stored, &mut self.late)?;
        self.stored.asked(p, call)
    }

    /// Begins with the taking of a packet that a kernel sent.
    pub fn took(&mut self, from: u8, packet: &Packet) -> Result<(), NoMemory>
        ensures entries { self.new.entries ≡ self.old.entries }
        ensures begun { OnOk result (self.new.begun ≡ Some (Took from (packet_picture packet.now))) }
        ensures forgotten { OnErr result (self.new.begun ≡ None) }
    {
        store(&mut self.stored, &mut self.late)?;
        self.stored.took(from, packet)
    }

    /// Notes the stamp of what was begun, which has to be greater than the last, and the steps that it means. This always succeeds: where memory is
    /// wanting the steps are kept as they are, and the next beginning or merge stores them first. The list comes back empty, for the next
    /// event to fill; where it is kept, another one comes.
    pub fn note(&mut self, stamp: u64, steps: Vec<ServiceStep>) -> Vec<ServiceStep>
        requires begun { (what : Happened) × (self.old.begun ≡ Some what) }
        requires after_last { IsAfterLast self.old.entries stamp }
        ensures entries { (what : Happened) → self.old.begun ≡ Some what → self.new.entries ≡ self.old.entries ++ record { stamp = stamp; what = what; steps = steps.items } ∷ [] }
        ensures begun { self.new.begun ≡ None }
        ensures in_range { All IsEntryInRange self.new.entries }
        ensures emptied { result.items ≡ [] }
    {
        let mut steps = steps;
        self.stored.tell_noted(stamp, steps.as_slice());
        match self.stored.note(stamp, steps.as_slice()) {
            Ok(()) => {
                steps.clear();
                steps
            }
            Err(NoMemory) => {
                let empty = Vec::new(*steps.allocator());
                self.late = Some(Late { stamp, steps });
                empty
            }
        }
    }

    /// How many entries there are.
    pub fn len(&self) -> u32
        ensures { result ≡ length self.now.entries }
    {
        match &self.late {
            Some(_) => self.stored.len() + 1,
            None => self.stored.len(),
        }
    }

    /// Keeps the first entries, so many of them, and forgets what was begun.
    pub fn cut(&mut self, first: u32)
        requires { first ≤ length self.old.entries }
        ensures entries { self.new.entries ≡ take first self.old.entries }
        ensures begun { self.new.begun ≡ None }
    {
        if self.late.is_some() && self.stored.len() < first {
            return;
        }
        self.late = None;
        self.stored.cut(first);
    }

    /// A copy of the entry at a place, counted from 0. It is found in constant time.
    pub fn entry(&self, place: u32) -> Result<EntryLines, NoMemory>
        requires { place < length self.now.entries }
        ensures { IfOk result (λ entry. slice_get self.now.entries place ≡ Some entry) }
    {
        match &self.late {
            Some(late) if self.stored.len() == place => {
                let mut alone = self.stored.begun_alone()?;
                alone.note(late.stamp, late.steps.as_slice())?;
                Ok(EntryLines::of(alone))
            }
            _ => Ok(EntryLines::of(self.stored.one(place)?)),
        }
    }

    /// The same entries, all stored as text.
    pub(crate) fn into_stored(self) -> Result<Stored, NoMemory>
        ensures { IfOk result (λ stored. stored ≡ self) }
    {
        let WrittenJournal {
            mut stored,
            mut late,
        } = self;
        store(&mut stored, &mut late)?;
        Ok(stored)
    }
}

/// Stores what was noted and is kept by value, if anything is. After want of memory all is as before.
#[inline(always)]
fn store(stored: &mut Stored, late: &mut Option<Late>) -> Result<(), NoMemory>
    requires { IsLate stored.old late.old }
    ensures stored { OnOk result (stored.new ≡ with_late stored.old late.old) }
    ensures none { OnOk result (late.new ≡ None) }
    ensures same { OnErr result (stored.new ≡ stored.old) }
    ensures late_same { OnErr result (late.new ≡ late.old) }
    ensures none_begun { OnErr result ((with_late stored.old late.old).begun ≡ None) }
{
    if let Some(noted) = late {
        stored.note(noted.stamp, noted.steps.as_slice())?;
        *late = None;
    }
    Ok(())
}
