ghost use Rattle.std.specs.Prelude.{◌≡◌, [], ◌∷◌, ◌++◌, ◌+◌, ◌<◌, ◌≤◌, ◌^◌, Some, None, All, IfOk, OnOk, OnErr, length, slice_get, take};
ghost use Rattle.charlotte_packets.specs.Packets.{packet_picture};
ghost use Rattle.journal_text.specs.Journal.{IsAfterLast};
ghost use Rattle.kernel_entries.specs.Ranges.{IsEntryInRange};
ghost use Rattle.kernel_entries.specs.declared.entry.Entry.{Entry};
ghost use Rattle.kernel_entries.specs.declared.entry.Happened.{Happened};
ghost use Rattle.kernel_entries.specs.declared.entry.Happened.TheVariants.{Asked, Took};

use crate::history::{History, Note};
use crate::written::Written;
use charlotte_calls::{Call, NoMemory, Pid, ServiceStep};
use charlotte_packets::Packet;
use kernel_entries::{tell_call, tell_packet, tell_pid, tell_steps, tell_u8, tell_u64};
use packed_lines::KeptLines;
use std::alloc::Global;
use std::marker::Model;

/// The entries of one kernel as their text, and what is begun. Contracts see both.
#[derive(Drop)]
pub(crate) struct Stored {
    pub(crate) written: Written,
    /// The line of what is begun, if anything is.
    begun: KeptLines,
    /// The kernel from which a packet is taken, if that is begun.
    from: Option<u8>,
    /// Room for the lines of the steps of one event.
    steps: KeptLines,
    pub(crate) history: History,
}

impl Model for Stored {
    ghost use Rattle.written_journal.specs.Kept.{Happenings, happenings, IsStored};

    ghost Value = { Happenings };

    ghost view = { λ s. happenings s.history.told };

    ghost invariant = { λ s. IsStored s.written s.begun s.from s.history.told };
}

/// The most entries that a journal can have.
const MOST: usize = 4_294_967_295;

impl Stored {
    /// No entries.
    pub(crate) fn start(alloc: Global) -> Stored
        ensures { result ≡ record { entries = []; begun = None } }
    {
        Stored {
            written: Written::nothing(alloc),
            begun: KeptLines::nothing(alloc),
            from: None,
            steps: KeptLines::nothing(alloc),
            history: History::new(),
        }
    }

    /// The allocator of its lists.
    fn allocator(&self) -> Global {
        *self.written.text.allocator()
    }

    /// Nothing is begun.
    fn forget(&mut self)
        ensures { self.new ≡ record { entries = self.old.entries; begun = None } }
    {
        self.begun.clear();
        self.from = None;
        self.history = self.history.then(&Note::Forgotten);
    }

    /// Begins with the call of a process.
    pub(crate) fn asked(&mut self, p: Pid, call: &Call) -> Result<(), NoMemory>
        ensures entries { self.new.entries ≡ self.old.entries }
        ensures begun { OnOk result (self.new.begun ≡ Some (Asked p call.now)) }
        ensures forgotten { OnErr result (self.new.begun ≡ None) }
    {
        tell_pid(p);
        tell_call(call);
        self.forget();
        if self.written.events.len() >= MOST {
            return Err(NoMemory);
        }
        self.begun.write_asked(p, call)?;
        self.history = self.history.then(&Note::Asked(p, call));
        Ok(())
    }

    /// Begins with the taking of a packet that a kernel sent.
    pub(crate) fn took(&mut self, from: u8, packet: &Packet) -> Result<(), NoMemory>
        ensures entries { self.new.entries ≡ self.old.entries }
        ensures begun { OnOk result (self.new.begun ≡ Some (Took from (packet_picture packet.now))) }
        ensures forgotten { OnErr result (self.new.begun ≡ None) }
    {
        tell_u8(from);
        tell_packet(packet);
        self.forget();
        if self.written.events.len() >= MOST {
            return Err(NoMemory);
        }
        self.begun.write_took(from, packet)?;
        self.from = Some(from);
        self.history = self.history.then(&Note::Took(from, packet));
        Ok(())
    }

    /// The entry of what is begun with this stamp and these steps is a value of its type. This reads, and does nothing else.
    pub(crate) fn tell_noted(&self, stamp: u64, steps: &[ServiceStep])
        ensures { (what : Happened) → self.now.begun ≡ Some what → All IsEntryInRange (self.now.entries ++ record { stamp = stamp; what = what; steps = steps.now } ∷ []) }
    {
        tell_u64(stamp);
        tell_steps(steps);
        let _read = self.from;
    }

    /// Notes the stamp of what was begun and the steps that it means. After want of memory all is as before.
    pub(crate) fn note(&mut self, stamp: u64, steps: &[ServiceStep]) -> Result<(), NoMemory>
        requires begun { (what : Happened) × (self.old.begun ≡ Some what) }
        requires after_last { IsAfterLast self.old.entries stamp }
        ensures noted { OnOk result ((what : Happened) → self.old.begun ≡ Some what
            → self.new ≡ record { entries = self.old.entries ++ record { stamp = stamp; what = what; steps = steps.now } ∷ []; begun = None }) }
        ensures same { OnErr result (self.new ≡ self.old) }
        ensures few { length self.old.entries + 1 < 2 ^ 32 }
    {
        tell_u64(stamp);
        tell_steps(steps);
        self.steps.write_steps(steps)?;
        self.written
            .append(stamp, self.from, &self.begun, &self.steps)?;
        self.begun.clear();
        self.from = None;
        self.history = self.history.then(&Note::Done(stamp, steps));
        Ok(())
    }

    /// How many entries there are.
    pub(crate) fn len(&self) -> u32
        ensures { result ≡ length self.now.entries }
    {
        self.written.events.len() as u32
    }

    /// Keeps the first entries, so many of them. Nothing is begun then.
    pub(crate) fn cut(&mut self, first: u32)
        ensures { self.new ≡ record { entries = take first self.old.entries; begun = None } }
    {
        let first = first as usize;
        self.written.cut(first);
        self.begun.clear();
        self.from = None;
        self.history = self.history.then(&Note::Cut(first));
    }

    /// The entry of a number alone.
    pub(crate) fn one(&self, number: u32) -> Result<Stored, NoMemory>
        requires { number < length self.now.entries }
        ensures { IfOk result (λ one. (e : Entry) × (one ≡ record { entries = e ∷ []; begun = None }) × (slice_get self.now.entries number ≡ Some e)) }
    {
        let alloc = self.allocator();
        let number = number as usize;
        Ok(Stored {
            written: self.written.one(number)?,
            begun: KeptLines::nothing(alloc),
            from: None,
            steps: KeptLines::nothing(alloc),
            history: History::new().then(&Note::One(&self.history, number)),
        })
    }

    /// What is begun, without the entries.
    pub(crate) fn begun_alone(&self) -> Result<Stored, NoMemory>
        ensures { IfOk result (λ alone. alone ≡ record { entries = []; begun = self.now.begun }) }
    {
        let alloc = self.allocator();
        Ok(Stored {
            written: Written::nothing(alloc),
            begun: self.begun.copy()?,
            from: self.from,
            steps: KeptLines::nothing(alloc),
            history: History::new().then(&Note::Begun(&self.history)),
        })
    }
}
