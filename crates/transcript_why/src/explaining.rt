//! The three lines that tell why.
ghost use Rattle.std.specs.Prelude.{◌≡◌, ◌<◌, IfOk, codes, length, map};
ghost use Rattle.transcript_items.specs.Given.{given};
ghost use Rattle.transcript_items.specs.Texts.{kept_text};
ghost use Rattle.transcript_reader.specs.Lines.{seen};
ghost use Rattle.transcript_why.specs.Expected.{TellsGiven, forms_told};
ghost use Rattle.transcript_why.specs.Why.{AreWhy, Tells};

use crate::expected::{OR, expected_lines};
use crate::following::{Behind, run_before};
use crate::reached::{next_kind, read_setting};
use charlotte_calls::NoMemory;
use std::alloc::Global;
use transcript_expected::expected_forms;
use transcript_items::{Kernels, kept_items};
use transcript_reader::{LineKind, Place};
use transcript_shown::{Listing, labelled_line, line_at, standing_line};

/// What is told of the place of a line.
#[derive(Drop)]
struct Reasons {
    expected: Vec<u8>,
    kept: Vec<u8>,
}

/// Why the line of a number, which an audit named, is not that of a run of kernels, in three lines: the line as it stands, what was expected
/// in its place, and of what the kernels and the service keep then what bears on it. Lines are counted from 1.
pub fn explain<K: Kernels>(
    alloc: Global,
    bytes: &[u8],
    number: u32,
) -> Result<Vec<Vec<u8>>, NoMemory>
    requires { length bytes.now < 4294967295 }
    ensures { IfOk result (λ lines. AreWhy bytes.now number (map (λ l. l.items) lines.items)) }
{
    let told = tell_reasons::<K>(alloc, bytes, number)?;
    let first = standing_line(alloc, bytes, number)?;
    let second = labelled_line(alloc, b"expected: ", told.expected.as_slice())?;
    let third = labelled_line(alloc, b"kept: ", told.kept.as_slice())?;
    let lines = vec![in alloc; first, second, third]?;
    Ok(lines)
}

/// What stands in the second and in the third line. A line that cannot stand is named before any is replayed, so nothing is kept then.
fn tell_reasons<K: Kernels>(alloc: Global, bytes: &[u8], number: u32) -> Result<Reasons, NoMemory>
    requires { length bytes.now < 4294967295 }
    ensures { IfOk result (λ r. Tells bytes.now number r.expected.items r.kept.items) }
{
    let setting = read_setting(alloc, bytes, number)?;
    let version = setting.version;
    let Behind { mut reader, run } = run_before::<K>(alloc, bytes, number, setting)?;
    let place = reader.place();
    let Some(kind) = next_kind(&mut reader) else {
        let reasons = by_forms(alloc, place, version, line_at(bytes, number).text)?;
        return Ok(reasons);
    };
    let Some(kernels) = run else {
        let reasons = by_forms(alloc, place, version, line_at(bytes, number).text)?;
        return Ok(reasons);
    };
    let reasons = differing(alloc, place, &kernels, &kind)?;
    Ok(reasons)
}

/// The forms of the lines that may stand in a place of a line, where no kernels are kept.
fn by_forms(alloc: Global, place: Place, version: u8, line: &[u8]) -> Result<Reasons, NoMemory>
    ensures expected { IfOk result (λ r. r.expected.items ≡ forms_told (seen place) version line.now) }
    ensures kept { IfOk result (λ r. r.kept.items ≡ codes "nothing") }
{
    let mut forms = Listing::new(alloc, OR);
    expected_forms(&mut forms, place, version, line)?;
    Ok(Reasons {
        expected: forms.into_text(),
        kept: b"nothing".to_vec(alloc)?,
    })
}

/// What stands in these lines of a line that differs from what the kernels give there.
fn differing<K: Kernels>(
    alloc: Global,
    place: Place,
    kernels: &K,
    kind: &LineKind,
) -> Result<Reasons, NoMemory>
    requires { K.stand kernels.now }
    ensures expected { IfOk result (λ r. TellsGiven (given (K.kept kernels.now) kind.now) (seen place) (K.kept kernels.now) r.expected.items) }
    ensures kept { IfOk result (λ r. r.kept.items ≡ kept_text (K.kept kernels.now) kind.now) }
{
    Ok(Reasons {
        expected: expected_lines(alloc, place, kernels, kind)?,
        kept: kept_items(alloc, kernels, kind)?,
    })
}
