//! What stands in a journal, by numbers and places.
ghost use Rattle.std.specs.Prelude.{◌≡◌, ◌+◌, ◌^◌, ◌<◌, ◌∷◌, [], IfSome, List, drop, length, slice_index_or, take};
ghost use Rattle.journal_text.specs.Heads.{first_stamp};
ghost use Rattle.journal_text.specs.Journal.{AreRising};
ghost use Rattle.kernel_entries.specs.declared.entry.Entry.{Entry};
ghost use Rattle.written_journal.specs.Kept.{event_of};
ghost use Rattle.written_journal.specs.Lines.{lines_of};
ghost use Rattle.packed_lines.specs.Packed.{given, kept, kept_text};

use crate::stored::Stored;
use crate::written::Event;

/// A line as it is kept.
#[derive(Clone, Copy)]
pub(crate) struct KeptLine<'a> {
    pub(crate) bytes: &'a [u8],
    pub(crate) packed: bool,
}

impl Stored {
    /// The stamp of the event of a number, if there is one.
    pub(crate) fn stamp(&self, number: usize) -> Option<u64>
        ensures same { result ≡ first_stamp (drop number self.now.entries) }
        ensures within { IfSome result (λ _. number + 1 < 2 ^ 64) }
        ensures rising { AreRising self.now.entries }
    {
        let event = self.written.event(number)?;
        Some(event.stamp)
    }

    /// What stands of the event of a number.
    pub(crate) fn event(&self, number: usize) -> Event
        requires { (e : Entry) × (es : List Entry) × (drop number self.now.entries ≡ e ∷ es) }
        ensures same { (e : Entry) (es : List Entry) → drop number self.now.entries ≡ e ∷ es → result ≡ event_of (take number self.now.entries) e }
        ensures within { number + 1 < 2 ^ 64 }
    {
        self.written.events[number]
    }

    /// A line as it is kept, which begins at this place of the text.
    #[inline(always)]
    pub(crate) fn line(&self, number: usize, from: usize) -> KeptLine<'_>
        requires within { number < length (lines_of self.now.entries) }
        requires from { from ≡ length (kept_text (take number (lines_of self.now.entries))) }
        ensures text { given result.packed result.bytes.now ≡ slice_index_or (lines_of self.now.entries) number [] }
        ensures long { length result.bytes.now ≡ length (kept (slice_index_or (lines_of self.now.entries) number [])) }
        ensures number { number + 1 < 2 ^ 64 }
        ensures bytes { from + length result.bytes.now < 2 ^ 64 }
    {
        let note = self.written.notes[number];
        let length = usize::from(note / 2);
        KeptLine {
            bytes: &self.written.text[from..from + length],
            packed: note % 2 == 1,
        }
    }
}
