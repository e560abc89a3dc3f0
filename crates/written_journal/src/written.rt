ghost use Rattle.std.specs.Prelude.{◌≡◌, ◌+◌, ◌<◌, ◌++◌, ◌∷◌, [], IfOk, OnErr, OnOk, List, length, slice_get, take};
ghost use Rattle.kernel_entries.specs.declared.entry.Entry.{Entry};
ghost use Rattle.written_journal.specs.Kept.{AreKept, HasSame};
ghost use Rattle.written_journal.specs.Lines.{text_of};
ghost use Rattle.written_journal.specs.Noted.{numbered};

use charlotte_calls::NoMemory;
use packed_lines::KeptLines;
use std::alloc::Global;

/// What stands of an event beside its lines.
#[derive(Clone, Copy)]
pub(crate) struct Event {
    pub(crate) stamp: u64,
    /// The kernel from which a packet was taken, if one was.
    pub(crate) from: Option<u8>,
    pub(crate) lines: u32,
    /// How many lines stand before its own, and how many bytes these take as they are kept.
    pub(crate) lines_before: usize,
    pub(crate) bytes_before: usize,
}

/// Events in one text, some of whose lines are packed.
#[derive(Drop)]
pub(crate) struct Written {
    pub(crate) text: Vec<u8>,
    /// What is noted of each line, as in `KeptLines`.
    pub(crate) notes: Vec<u16>,
    pub(crate) events: Vec<Event>,
}

impl Written {
    /// No events.
    pub(crate) fn nothing(alloc: Global) -> Written
        ensures { AreKept result [] }
    {
        Written {
            text: Vec::new(alloc),
            notes: Vec::new(alloc),
            events: Vec::new(alloc),
        }
    }

    /// What stands of the event of a number, if there is one.
    pub(crate) fn event(&self, number: usize) -> Option<Event>
        ensures { result ≡ slice_get self.now.events.items number }
    {
        self.events.get(number).copied()
    }

    /// Appends an event: the line of what happened, and those of its steps. After want of memory the events are as before.
    pub(crate) fn append(
        &mut self,
        stamp: u64,
        from: Option<u8>,
        begun: &KeptLines,
        steps: &KeptLines,
    ) -> Result<(), NoMemory>
        ensures text { OnOk result (self.new.text.items ≡ self.old.text.items ++ begun.now.text.items ++ steps.now.text.items) }
        ensures notes { OnOk result (self.new.notes.items ≡ self.old.notes.items ++ begun.now.notes.items ++ steps.now.notes.items) }
        ensures events { OnOk result (self.new.events.items ≡ self.old.events.items ++ record {
          stamp = stamp;
          from = from;
          lines = length begun.now.notes.items + length steps.now.notes.items;
          lines_before = length self.old.notes.items;
          bytes_before = length self.old.text.items;
        } ∷ []) }
        ensures same { OnErr result (HasSame self.old self.new) }
    {
        let (bytes_before, lines_before) = (self.text.len(), self.notes.len());
        let event = Event {
            stamp,
            from,
            lines: in_four_bytes(begun.notes.len() + steps.notes.len())?,
            lines_before,
            bytes_before,
        };
        self.make_room();
        match self.write(event, begun, steps) {
            Ok(()) => Ok(()),
            Err(NoMemory) => {
                self.text.truncate(bytes_before);
                self.notes.truncate(lines_before);
                Err(NoMemory)
            }
        }
    }

    /// Writes an event behind the others. After want of memory some of its lines may stand there.
    fn write(&mut self, event: Event, begun: &KeptLines, steps: &KeptLines) -> Result<(), NoMemory>
        ensures text { OnOk result (self.new.text.items ≡ self.old.text.items ++ begun.now.text.items ++ steps.now.text.items) }
        ensures notes { OnOk result (self.new.notes.items ≡ self.old.notes.items ++ begun.now.notes.items ++ steps.now.notes.items) }
        ensures events { OnOk result (self.new.events.items ≡ self.old.events.items ++ event ∷ []) }
        ensures text_before { OnErr result (take (length self.old.text.items) self.new.text.items ≡ self.old.text.items) }
        ensures notes_before { OnErr result (take (length self.old.notes.items) self.new.notes.items ≡ self.old.notes.items) }
        ensures events_before { OnErr result (self.new.events.items ≡ self.old.events.items) }
    {
        self.text.extend_from_slice(&begun.text)?;
        append(&mut self.text, &steps.text)?;
        append(&mut self.notes, &begun.notes)?;
        append(&mut self.notes, &steps.notes)?;
        self.events.push(event)?;
        Ok(())
    }

    /// A long text gets so much room at once that it then grows in place. Where that is not there, it grows as it does.
    #[inline(always)]
    fn make_room(&mut self)
        ensures { HasSame self.old self.new }
    {
        if self.text.len() > LONG && self.text.capacity() < ROOM {
            let _ = self.text.reserve(ROOM);
        }
    }

    /// Keeps the first events, so many of them.
    pub(crate) fn cut(&mut self, first: usize)
        ensures { (es : List Entry) → AreKept self.old es → AreKept self.new (take first es) }
    {
        if let Some(event) = self.event(first) {
            self.text.truncate(event.bytes_before);
            self.notes.truncate(event.lines_before);
            self.events.truncate(first);
        }
    }

    /// The event of a number alone.
    pub(crate) fn one(&self, number: usize) -> Result<Written, NoMemory>
        requires { (es : List Entry) × AreKept self.now es × (number < length es) }
        ensures { IfOk result (λ one. (es : List Entry) → AreKept self.now es → number < length es → AreKept one (numbered number es)) }
    {
        let alloc = *self.text.allocator();
        let event = self.events[number];
        let bytes = &self.text[event.bytes_before..self.bytes_upto(number)];
        let notes = &self.notes[event.lines_before..event.lines_before + event.lines as usize];
        let alone = Event {
            lines_before: 0,
            bytes_before: 0,
            ..event
        };
        Ok(Written {
            text: Vec::from_slice(alloc, bytes)?,
            notes: Vec::from_slice(alloc, notes)?,
            events: Vec::from_slice(alloc, &[alone])?,
        })
    }

    /// How many bytes the lines of the events up to this one take, this one's too.
    fn bytes_upto(&self, number: usize) -> usize
        requires { (es : List Entry) × AreKept self.now es × (number < length es) }
        ensures { (es : List Entry) → AreKept self.now es → number < length es → result ≡ length (text_of (take (number + 1) es)) }
    {
        match self.event(number + 1) {
            Some(next) => next.bytes_before,
            None => self.text.len(),
        }
    }
}

/// A text of more bytes is long.
const LONG: usize = 65_536;

/// The room that a long text gets.
const ROOM: usize = 2_097_152;

/// Appends items, of which there are none or one as a rule: most events have no steps, and what happened is one line.
#[inline(always)]
fn append<T: Copy>(list: &mut Vec<T>, items: &[T]) -> Result<(), NoMemory>
    ensures ok { OnOk result (list.new.items ≡ list.old.items ++ items.now) }
    ensures err { OnErr result (list.new.items ≡ list.old.items) }
{
    match items {
        [] => {}
        [one] => list.push(*one)?,
        _ => list.extend_from_slice(items)?,
    }
    Ok(())
}

/// The same number. There is no room for one that is greater.
fn in_four_bytes(number: usize) -> Result<u32, NoMemory>
    ensures { IfOk result (λ same. same ≡ number) }
{
    match u32::try_from(number) {
        Ok(number) => Ok(number),
        Err(_) => Err(NoMemory),
    }
}
