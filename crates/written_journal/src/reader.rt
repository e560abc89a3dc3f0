ghost use Rattle.std.specs.Prelude.{◌≡◌, ◌==◌, ◌∷◌, [], IfOk, List, OnErr, OnOk, length};
ghost use Rattle.journal_text.specs.Journal.{placed_at};
ghost use Rattle.transcript_lines.specs.Transcript.{entry_text, line};
ghost use Rattle.kernel_entries.specs.declared.entry.Entry.{Entry};
ghost use Rattle.written_journal.specs.Given.{all_of};
ghost use Rattle.written_journal.specs.Left.{GivesFirst};
ghost use Rattle.packed_lines.specs.Lines.{step_lines};

use crate::stored::Stored;
use charlotte_calls::NoMemory;
use journal_text::push_head;
use packed_lines::push_line;
use std::marker::Model;

/// Which lines of a journal are given.
#[derive(Clone, Copy)]
pub(crate) struct Place {
    /// The events whose first line is given.
    events: usize,
    /// The lines that are left of the last of them.
    left: u32,
    /// The lines that are given, and how long they are as they are kept.
    lines: usize,
    bytes: usize,
}

/// A journal whose lines are given one after the other. Contracts see what is left.
#[derive(Drop)]
pub(crate) struct Reader {
    journal: Stored,
    place: Place,
}

impl Model for Reader {
    ghost use Rattle.written_journal.specs.Given.{IsPlace, Rest, rest_behind};

    ghost Value = { Rest };

    ghost view = { λ r. rest_behind r.journal.entries r.place };

    ghost invariant = { λ r. IsPlace r.journal.entries r.place };
}

impl Reader {
    /// No line is given.
    pub(crate) fn of(journal: Stored) -> Reader
        ensures { result ≡ all_of journal }
    {
        Reader {
            journal,
            place: Place {
                events: 0,
                left: 0,
                lines: 0,
                bytes: 0,
            },
        }
    }

    /// Appends the next line of the event whose first line is given, if one is left.
    pub(crate) fn step_line(&mut self, out: &mut Vec<u8>) -> Result<bool, NoMemory>
        requires { out.old.items ≡ [] }
        ensures given { IfOk result (λ some. GivesFirst some self.old.lines self.new.lines out.new.items) }
        ensures entries { self.new.entries ≡ self.old.entries }
        ensures same { OnErr result (self.new ≡ self.old) }
    {
        if self.place.left == 0 {
            return Ok(false);
        }
        let line = self.journal.line(self.place.lines, self.place.bytes);
        push_line(out, line.bytes, line.packed)?;
        self.place = Place {
            events: self.place.events,
            left: self.place.left - 1,
            lines: self.place.lines + 1,
            bytes: self.place.bytes + line.bytes.len(),
        };
        Ok(true)
    }

    /// Whether the first line of each event is given.
    pub(crate) fn is_at_end(&self) -> bool
        ensures { result ≡ (length self.now.entries == 0) }
    {
        self.place.events >= self.journal.written.events.len()
    }

    /// Appends the first line of the next event, which is one of this kernel.
    pub(crate) fn first_line(&mut self, kernel: u8, out: &mut Vec<u8>) -> Result<(), NoMemory>
        requires empty { out.old.items ≡ [] }
        requires none { self.old.lines ≡ [] }
        requires some { (e : Entry) × (es : List Entry) × (self.old.entries ≡ e ∷ es) }
        ensures given { OnOk result ((e : Entry) (es : List Entry) → self.old.entries ≡ e ∷ es → (out.new.items ≡ line (entry_text (placed_at kernel e))) × (self.new ≡ record { lines = step_lines e.steps; entries = es })) }
        ensures same { OnErr result (self.new ≡ self.old) }
    {
        let event = self.journal.event(self.place.events);
        let line = self.journal.line(self.place.lines, self.place.bytes);
        push_head(out, event.stamp, kernel)?;
        push_line(out, line.bytes, line.packed)?;
        self.place = Place {
            events: self.place.events + 1,
            left: event.lines - 1,
            lines: self.place.lines + 1,
            bytes: self.place.bytes + line.bytes.len(),
        };
        Ok(())
    }
}
