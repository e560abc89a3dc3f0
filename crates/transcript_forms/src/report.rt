//! Reports: how an activity was over.
ghost use Rattle.std.specs.Prelude.{◌≡◌};
ghost use Rattle.charlotte_calls.specs.declared.names.Outcome.TheVariants.{Done, Destroyed};
ghost use Rattle.charlotte_calls.specs.declared.names.Way.TheVariants.{Inward, Outward};
ghost use Rattle.transcript_forms.specs.Cursor.{ended_as};
ghost use Rattle.transcript_reading.specs.Forms.{bare_report, result_of, report_of};

use crate::words::Words;
use charlotte_calls::{Bytes, EndId, Ends, Outcome, Report, Way};
use charlotte_text::Fault;
use transcript_reading::ServiceLine;

/// `pP END WAY OUTCOME` and what stands behind it.
#[tactic(auto, unfolding(transcript_reading::specs::Forms::report_of))]
pub(crate) fn read_report(version: u8, mut words: Words<'_>) -> Result<ServiceLine, Fault>
    ensures { result ≡ report_of version words.entry }
{
    let p = words.pid()?;
    let on = words.end()?;
    let way = words.way()?;
    let outcome = words.outcome()?;
    let report = read_result(version, on, way, outcome, words)?;
    Ok(ServiceLine::Report { p, report })
}

#[tactic(auto, unfolding(transcript_reading::specs::Forms::result_of))]
fn read_result(
    version: u8,
    on: EndId,
    way: Way,
    outcome: Outcome,
    words: Words<'_>,
) -> Result<Report, Fault>
    ensures { result ≡ result_of version on way outcome words.entry }
{
    match (way, outcome) {
        (Way::Outward, Outcome::Destroyed) => read_returned(version, on, words),
        (Way::Inward, Outcome::Done) => read_received(version, on, words),
        (Way::Outward, Outcome::Done) => read_bare(on, Way::Outward, Outcome::Done, words),
        (Way::Inward, Outcome::Destroyed) => read_bare(on, Way::Inward, Outcome::Destroyed, words),
    }
}

/// A send or a receive of which the line shows no more.
fn read_bare(on: EndId, way: Way, outcome: Outcome, words: Words<'_>) -> Result<Report, Fault>
    ensures { result ≡ ended_as (bare_report on way outcome) words.entry }
{
    words.finish()?;
    Ok(Report {
        on,
        way,
        outcome,
        bytes: Bytes::from_slice(&[]).ok_or(Fault::Long)?,
        enclosed: Ends::from_slice(&[]).ok_or(Fault::Form)?,
    })
}

/// A send that was destroyed, with the ends that came back.
#[tactic(auto, unfolding(transcript_reading::specs::Forms::result_of))]
fn read_returned(version: u8, on: EndId, words: Words<'_>) -> Result<Report, Fault>
    ensures { result ≡ result_of version on Outward Destroyed words.entry }
{
    let enclosed = words.ends(version)?;
    Ok(Report {
        on,
        way: Way::Outward,
        outcome: Outcome::Destroyed,
        bytes: Bytes::from_slice(&[]).ok_or(Fault::Long)?,
        enclosed,
    })
}

/// A receive, with what was received.
#[tactic(auto, unfolding(transcript_reading::specs::Forms::result_of))]
fn read_received(version: u8, on: EndId, mut words: Words<'_>) -> Result<Report, Fault>
    ensures { result ≡ result_of version on Inward Done words.entry }
{
    let bytes = words.bytes()?;
    let enclosed = words.ends(version)?;
    Ok(Report {
        on,
        way: Way::Inward,
        outcome: Outcome::Done,
        bytes,
        enclosed,
    })
}
