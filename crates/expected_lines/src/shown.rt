//! Whether the lines of a version can show all of a step or of a packet.
ghost use Rattle.std.specs.Prelude.{◌↔◌, IsTrue};
ghost use Rattle.charlotte_packets.specs.Packets.{what_picture};
ghost use Rattle.transcript_lines.specs.TranscriptText.{HasFewPacket, IsFew, IsShownReport};
ghost use Rattle.transcript_reading.specs.Spelling.{HasShown};
ghost use Rattle.transcript_reading.specs.Kinds.{shown_step};

use charlotte_calls::{Outcome, Report, ServiceStep, Way};
use charlotte_packets::What;

/// Whether a line shows all that a step has of ends and of bytes.
pub(crate) fn has_shown(version: u8, step: &ServiceStep) -> bool
    ensures { IsTrue result ↔ HasShown version (shown_step step.now) }
{
    match step {
        ServiceStep::Send { enclose, .. } => is_few(version, enclose.as_slice().len()),
        ServiceStep::Report { report, .. } => is_shown(version, report),
        _ => true,
    }
}

/// Whether a report has no bytes and no ends but those that its line shows.
fn is_shown(version: u8, report: &Report) -> bool
    ensures { IsTrue result ↔ IsShownReport version report.now.way report.now.outcome report.now.bytes report.now.enclosed }
{
    let bytes = report.bytes.as_slice();
    let ends = report.enclosed.as_slice();
    match (report.way, report.outcome) {
        (Way::Outward, Outcome::Done) => bytes.is_empty() && ends.is_empty(),
        (Way::Outward, Outcome::Destroyed) => bytes.is_empty() && is_few(version, ends.len()),
        (Way::Inward, Outcome::Done) => is_few(version, ends.len()),
        (Way::Inward, Outcome::Destroyed) => bytes.is_empty() && ends.is_empty(),
    }
}

/// Whether a line may have as many values as a packet has.
pub(crate) fn has_few(version: u8, what: &What) -> bool
    ensures { IsTrue result ↔ HasFewPacket version (what_picture what.now) }
{
    match what {
        What::Parcel { moving, .. } => is_few(version, moving.len()),
        What::Back { moving, .. } => is_few(version, moving.len()),
        _ => true,
    }
}

/// Whether a line may have so many ends or values.
fn is_few(version: u8, count: usize) -> bool
    ensures { IsTrue result ↔ IsFew version count }
{
    count <= if version == 1 { 1 } else { 8 }
}
