//! Which line may stand next.
ghost use Rattle.std.specs.Prelude.{nat_lt, if◌then◌else◌, Ok, Err};
ghost use Rattle.charlotte_text.specs.declared.fault.Fault.TheVariants.{Form};
ghost use Rattle.charlotte_text.specs.Reading.{Gives};
ghost use Rattle.transcript_reader.specs.declared.place.Place.TheVariants as at;
ghost use Rattle.transcript_reader.specs.Lines.{seen};
ghost use Rattle.transcript_reading.specs.Order.{Noted, next, housed, wired};
ghost use Rattle.transcript_reading.specs.declared.line.LineKind.TheVariants as kinds;

use charlotte_calls::Pid;
use charlotte_text::Fault;
use transcript_lines::Last;
use transcript_reading::LineKind;

/// What was read last, as far as the next line depends on it.
#[derive(Clone, Copy, Debug, PartialEq, Eq)]
pub enum Place {
    /// No line.
    Start,
    /// The first line, which tells the version.
    Version,
    /// `kernels N` or a process: so many kernels, and so many processes so far.
    Processes { kernels: u8, processes: u8 },
    /// A wire: so many processes, and so many wires so far.
    Wires { processes: u8, wires: u16 },
    /// An entry, or a step below it.
    Entry,
    /// A note of a line of the script.
    Noted { line: u32 },
    /// The last line.
    Over,
}

/// The place behind a line, if it may stand there.
#[tactic(auto, unfolding(transcript_reading::specs::Order::next))]
pub(crate) fn next_place(place: Place, kind: &LineKind) -> Result<Place, Fault>
    ensures { Gives seen result (next (seen place) kind.now) }
{
    match place {
        Place::Start => behind_start(kind),
        Place::Version => behind_version(kind),
        Place::Processes { kernels, processes } => behind_process(kernels, processes, kind),
        Place::Wires { processes, wires } => behind_wire(processes, wires, kind),
        Place::Entry => behind_entry(kind),
        Place::Noted { line } => behind_note(line, kind),
        Place::Over => Err(Fault::Form),
    }
}

#[tactic(auto, unfolding(transcript_reading::specs::Order::next))]
fn behind_start(kind: &LineKind) -> Result<Place, Fault>
    ensures { Gives seen result (next (seen at.Start) kind.now) }
{
    match kind {
        LineKind::First { version } => versioned(*version),
        LineKind::Kernels(_) => Err(Fault::Form),
        LineKind::Process { .. } => Err(Fault::Form),
        LineKind::Wire { .. } => Err(Fault::Form),
        LineKind::CallEntry { .. } => Err(Fault::Form),
        LineKind::PacketEntry { .. } => Err(Fault::Form),
        LineKind::Service(_) => Err(Fault::Form),
        LineKind::Note(_) => Err(Fault::Form),
        LineKind::End(_) => Err(Fault::Form),
    }
}

#[tactic(auto, unfolding(transcript_reading::specs::Order::next))]
fn behind_version(kind: &LineKind) -> Result<Place, Fault>
    ensures { Gives seen result (next (seen at.Version) kind.now) }
{
    match kind {
        LineKind::Kernels(kernels) => counted(*kernels),
        LineKind::First { .. } => Err(Fault::Form),
        LineKind::Process { .. } => Err(Fault::Form),
        LineKind::Wire { .. } => Err(Fault::Form),
        LineKind::CallEntry { .. } => Err(Fault::Form),
        LineKind::PacketEntry { .. } => Err(Fault::Form),
        LineKind::Service(_) => Err(Fault::Form),
        LineKind::Note(_) => Err(Fault::Form),
        LineKind::End(_) => Err(Fault::Form),
    }
}

#[tactic(auto, unfolding(transcript_reading::specs::Order::next))]
fn behind_process(kernels: u8, processes: u8, kind: &LineKind) -> Result<Place, Fault>
    ensures { Gives seen result (next (seen (at.Processes kernels processes)) kind.now) }
{
    match kind {
        LineKind::Process { p, kernel } => house(kernels, processes, *p, *kernel),
        LineKind::Wire { first, second } => wire(processes, 0, *first, *second),
        LineKind::First { .. } => Err(Fault::Form),
        LineKind::Kernels(_) => Err(Fault::Form),
        LineKind::CallEntry { .. } => Ok(Place::Entry),
        LineKind::PacketEntry { .. } => Ok(Place::Entry),
        LineKind::Service(_) => Err(Fault::Form),
        LineKind::Note(note) => Ok(Place::Noted { line: note.line }),
        LineKind::End(_) => Ok(Place::Over),
    }
}

#[tactic(auto, unfolding(transcript_reading::specs::Order::next))]
fn behind_wire(processes: u8, wires: u16, kind: &LineKind) -> Result<Place, Fault>
    ensures { Gives seen result (next (seen (at.Wires processes wires)) kind.now) }
{
    match kind {
        LineKind::Wire { first, second } => wire(processes, wires, *first, *second),
        LineKind::First { .. } => Err(Fault::Form),
        LineKind::Kernels(_) => Err(Fault::Form),
        LineKind::Process { .. } => Err(Fault::Form),
        LineKind::CallEntry { .. } => Ok(Place::Entry),
        LineKind::PacketEntry { .. } => Ok(Place::Entry),
        LineKind::Service(_) => Err(Fault::Form),
        LineKind::Note(note) => Ok(Place::Noted { line: note.line }),
        LineKind::End(_) => Ok(Place::Over),
    }
}

#[tactic(auto, unfolding(transcript_reading::specs::Order::next))]
fn behind_entry(kind: &LineKind) -> Result<Place, Fault>
    ensures { Gives seen result (next (seen at.Entry) kind.now) }
{
    match kind {
        LineKind::First { .. } => Err(Fault::Form),
        LineKind::Kernels(_) => Err(Fault::Form),
        LineKind::Process { .. } => Err(Fault::Form),
        LineKind::Wire { .. } => Err(Fault::Form),
        LineKind::CallEntry { .. } => Ok(Place::Entry),
        LineKind::PacketEntry { .. } => Ok(Place::Entry),
        LineKind::Service(_) => Ok(Place::Entry),
        LineKind::Note(note) => Ok(Place::Noted { line: note.line }),
        LineKind::End(_) => Ok(Place::Over),
    }
}

#[tactic(auto, unfolding(transcript_reading::specs::Order::next))]
fn behind_note(before: u32, kind: &LineKind) -> Result<Place, Fault>
    ensures { Gives seen result (next (seen (at.Noted before)) kind.now) }
{
    match kind {
        LineKind::Note(note) => risen(before, note.line),
        LineKind::End(Last::Quiet) => Ok(Place::Over),
        LineKind::End(Last::Unsettled) => Ok(Place::Over),
        LineKind::End(Last::Spent(_)) => Err(Fault::Form),
        LineKind::First { .. } => Err(Fault::Form),
        LineKind::Kernels(_) => Err(Fault::Form),
        LineKind::Process { .. } => Err(Fault::Form),
        LineKind::Wire { .. } => Err(Fault::Form),
        LineKind::CallEntry { .. } => Err(Fault::Form),
        LineKind::PacketEntry { .. } => Err(Fault::Form),
        LineKind::Service(_) => Err(Fault::Form),
    }
}

/// Version 1 or 2.
#[tactic(auto, unfolding(transcript_reading::specs::Order::next))]
fn versioned(version: u8) -> Result<Place, Fault>
    ensures { Gives seen result (next (seen at.Start) (kinds.First version)) }
{
    if version == 1 || version == 2 {
        return Ok(Place::Version);
    }
    Err(Fault::Form)
}

/// 1 to 8 kernels.
#[tactic(auto, unfolding(transcript_reading::specs::Order::next))]
fn counted(kernels: u8) -> Result<Place, Fault>
    ensures { Gives seen result (next (seen at.Version) (kinds.Kernels kernels)) }
{
    if 1 <= kernels && kernels <= 8 {
        let processes = 0;
        return Ok(Place::Processes { kernels, processes });
    }
    Err(Fault::Form)
}

/// A note of a later line.
fn risen(before: u32, line: u32) -> Result<Place, Fault>
    ensures { Gives seen result (if nat_lt before line then Ok (Noted line) else Err Form) }
{
    if before < line {
        return Ok(Place::Noted { line });
    }
    Err(Fault::Form)
}

/// The next of at most 64 processes, on a kernel that is there.
fn house(kernels: u8, processes: u8, p: Pid, kernel: u8) -> Result<Place, Fault>
    ensures { Gives seen result (housed kernels processes p kernel) }
{
    if p.0 == u16::from(processes) && processes < 64 && kernel < kernels {
        return Ok(Place::Processes {
            kernels,
            processes: processes + 1,
        });
    }
    Err(Fault::Form)
}

/// One of at most 4,096 wires, between processes that are there.
fn wire(processes: u8, wires: u16, first: Pid, second: Pid) -> Result<Place, Fault>
    ensures { Gives seen result (wired processes wires first second) }
{
    if wires < 4096 && first.0 < u16::from(processes) && second.0 < u16::from(processes) {
        return Ok(Place::Wires {
            processes,
            wires: wires + 1,
        });
    }
    Err(Fault::Form)
}
