//! Counts, and how a line of a transcript is counted.
ghost use Rattle.std.specs.Prelude.{◌≡◌, ◌+◌, OnOk};
ghost use Rattle.run_counts.specs.Lines.{no_counts, with_line};
ghost use Rattle.transcript_reading.specs.declared.line.LineKind.TheVariants as kind;

use charlotte_calls::NoMemory;
use transcript_lines::ScriptNote;
use transcript_reading::{LineKind, ServiceLine};

/// How many there are in a run, and in the notes on its script.
#[derive(Clone, Copy)]
pub(crate) struct Counts {
    /// Events that are calls.
    pub(crate) calls: u64,
    /// Notes of a process that waits.
    pub(crate) waits: u64,
    /// Notes of a packet that is not there.
    pub(crate) nothing: u64,
    pub(crate) events: u64,
    /// Service lines of refusals.
    pub(crate) refused: u64,
    pub(crate) matches: u64,
    pub(crate) takes: u64,
    pub(crate) completes: u64,
}

impl Counts {
    /// Nothing is counted.
    pub(crate) fn none() -> Counts
        ensures { result ≡ no_counts }
    {
        Counts {
            calls: 0,
            waits: 0,
            nothing: 0,
            events: 0,
            refused: 0,
            matches: 0,
            takes: 0,
            completes: 0,
        }
    }

    /// Counts a line that shows this.
    pub(crate) fn add(&mut self, kind: &LineKind) -> Result<(), NoMemory>
        ensures { OnOk result (self.new ≡ with_line self.old kind.now) }
    {
        match kind {
            LineKind::CallEntry { .. } => {
                one_more(&mut self.calls)?;
                one_more(&mut self.events)
            }
            LineKind::PacketEntry { .. } => one_more(&mut self.events),
            LineKind::Service(step) => self.add_step(step),
            LineKind::Note(note) => self.add_note(*note),
            LineKind::First { .. }
            | LineKind::Kernels(_)
            | LineKind::Process { .. }
            | LineKind::Wire { .. }
            | LineKind::End(_) => Ok(()),
        }
    }

    /// Counts a service line.
    fn add_step(&mut self, step: &ServiceLine) -> Result<(), NoMemory>
        ensures { OnOk result (self.new ≡ with_line self.old (kind.Service step.now)) }
    {
        match step {
            ServiceLine::Refuse { .. } => one_more(&mut self.refused),
            ServiceLine::Match { .. } => one_more(&mut self.matches),
            ServiceLine::Take { .. } => one_more(&mut self.takes),
            ServiceLine::Complete { .. } => one_more(&mut self.completes),
            ServiceLine::Make { .. }
            | ServiceLine::Destroy { .. }
            | ServiceLine::Send { .. }
            | ServiceLine::Receive { .. }
            | ServiceLine::Cancel { .. }
            | ServiceLine::Wait { .. }
            | ServiceLine::Report { .. }
            | ServiceLine::Exit { .. }
            | ServiceLine::Withdraw { .. }
            | ServiceLine::Free { .. }
            | ServiceLine::Notice { .. }
            | ServiceLine::Back { .. } => Ok(()),
        }
    }

    /// Counts a note.
    pub(crate) fn add_note(&mut self, note: ScriptNote) -> Result<(), NoMemory>
        ensures { OnOk result (self.new ≡ with_line self.old (kind.Note note)) }
    {
        if note.waits {
            one_more(&mut self.waits)
        } else {
            one_more(&mut self.nothing)
        }
    }
}

/// Adds one. There is no room for more lines than fit in the count.
fn one_more(count: &mut u64) -> Result<(), NoMemory>
    ensures { OnOk result (count.new ≡ count.old + 1) }
{
    match count.checked_add(1) {
        Some(more) => {
            *count = more;
            Ok(())
        }
        None => Err(NoMemory),
    }
}
