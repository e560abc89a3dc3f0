//! One entry of a journal as its text.
ghost use Rattle.std.specs.Prelude.{◌≡◌, ◌+◌, ◌-◌, ◌≤◌, ◌∷◌, ◌++◌, [], IfOk, List, OnErr, OnOk, length};
ghost use Rattle.std.specs.List.{slice_range};
ghost use Rattle.journal_text.specs.Journal.{placed_at};
ghost use Rattle.transcript_lines.specs.Transcript.{entry_lines};
ghost use Rattle.kernel_entries.specs.declared.entry.Entry.{Entry};
ghost use Rattle.written_journal.specs.Alone.{picture_text};
ghost use Rattle.written_journal.specs.Kept.{sender_of};
ghost use Rattle.written_journal.specs.Left.{GivesFirst};

use crate::reader::Reader;
use crate::stored::Stored;
use charlotte_calls::NoMemory;
use journal_text::push_taking;
use packed_lines::push_line;
use std::marker::Model;

/// A copy of one entry of a journal, as its text. Contracts see the entry.
#[derive(Drop)]
pub struct EntryLines {
    alone: Stored,
}

impl Model for EntryLines {
    ghost use Rattle.kernel_entries.specs.declared.entry.Entry.{Entry};
    ghost use Rattle.written_journal.specs.Alone.{IsAlone, first_entry};

    ghost Value = { Entry };

    ghost view = { λ e. first_entry e.alone.entries };

    ghost invariant = { λ e. IsAlone e.alone.entries };
}

impl EntryLines {
    /// The only entry that stands there.
    pub(crate) fn of(alone: Stored) -> EntryLines
        requires { (e : Entry) × (alone.entries ≡ e ∷ []) }
        ensures { (e : Entry) → alone.entries ≡ e ∷ [] → result ≡ e }
    {
        EntryLines { alone }
    }

    /// The kernel whose packet was taken in the event; `None` where a process made a call.
    pub fn from(&self) -> Option<u8>
        ensures { result ≡ sender_of self.now.what }
    {
        self.alone.event(0).from
    }

    /// Appends the text of the packet that was taken, as `print_picture` gives it; nothing where a process made a call.
    pub fn push_picture(&self, out: &mut Vec<u8>) -> Result<(), NoMemory>
        ensures { OnOk result (out.new.items ≡ out.old.items ++ picture_text self.now.what) }
    {
        let Some(from) = self.from() else {
            return Ok(());
        };
        let alloc = *out.allocator();
        let mut head = Vec::new(alloc);
        push_taking(&mut head, from)?;
        let mut line = Vec::new(alloc);
        let kept = self.alone.line(0, 0);
        push_line(&mut line, kept.bytes, kept.packed)?;
        push_between(out, &line, head.len())
    }

    /// The lines of the entry, as those of this kernel. They are what `print_entry` gives.
    pub fn lines(self, kernel: u8) -> LinesLeft
        ensures { result ≡ entry_lines (placed_at kernel self) }
    {
        let EntryLines { alone } = self;
        LinesLeft {
            reader: Reader::of(alone),
            kernel,
        }
    }
}

/// Appends what stands of a line behind its first bytes, so many of them, and before its line feed.
fn push_between(out: &mut Vec<u8>, line: &[u8], first: usize) -> Result<(), NoMemory>
    requires { first + 1 ≤ length line.now }
    ensures { OnOk result (out.new.items ≡ out.old.items ++ slice_range line.now first (length line.now - 1)) }
{
    out.extend_from_slice(&line[first..line.len() - 1])?;
    Ok(())
}

/// The lines of an entry that are not given yet, each with its line feed. Contracts see them as a list.
#[derive(Drop)]
pub struct LinesLeft {
    reader: Reader,
    kernel: u8,
}

impl Model for LinesLeft {
    ghost use Rattle.std.specs.Prelude.{ℕ, List};
    ghost use Rattle.written_journal.specs.Alone.{lines_left};

    ghost Value = { List (List ℕ) };

    ghost view = { λ l. lines_left l.kernel l.reader };
}

impl LinesLeft {
    /// Puts the next line into the buffer, in place of what stands there; `false` exactly where no line is left, and then the buffer is
    /// empty. After want of memory the lines are as before.
    pub fn next_line(&mut self, line: &mut Vec<u8>) -> Result<bool, NoMemory>
        ensures given { IfOk result (λ some. GivesFirst some self.old self.new line.new.items) }
        ensures same { OnErr result (self.new ≡ self.old) }
    {
        line.clear();
        if self.reader.step_line(line)? {
            return Ok(true);
        }
        if self.reader.is_at_end() {
            return Ok(false);
        }
        self.reader.first_line(self.kernel, line)?;
        Ok(true)
    }
}
