//! What the kernels give in the place of a line.
ghost use Rattle.std.specs.Prelude.{◌≡◌, ◌∷◌, ◌++◌, IfOk, OnOk, codes};
ghost use Rattle.charlotte_text.specs.Spelling.{number_text};
ghost use Rattle.transcript_items.specs.Given.{given, next_entries};
ghost use Rattle.transcript_reader.specs.Lines.{seen};
ghost use Rattle.transcript_shown.specs.Listing.{with_item, with_items};
ghost use Rattle.transcript_why.specs.Expected.{IsTrueForm, TellsAlternatives, TellsGiven, others_in, spent_text};

use charlotte_calls::NoMemory;
use std::alloc::Global;
use transcript_expected::Form;
use transcript_items::{Kernels, add_next_entries, given_line};
use transcript_reader::{LineKind, Place};
use transcript_shown::Listing;

/// What stands between alternatives.
pub(crate) const OR: &[u8] = b" | ";

/// What the kernels give in the place of a line that differs: the step that is due, the line with its right numbers, or each line that may
/// stand there.
pub(crate) fn expected_lines<K: Kernels>(
    alloc: Global,
    place: Place,
    kernels: &K,
    kind: &LineKind,
) -> Result<Vec<u8>, NoMemory>
    requires { K.stand kernels.now }
    ensures { IfOk result (λ text. TellsGiven (given (K.kept kernels.now) kind.now) (seen place) (K.kept kernels.now) text.items) }
{
    if let Some(line) = given_line(alloc, kernels, kind)? {
        return Ok(line);
    }
    let text = alternatives(alloc, place, kernels)?;
    Ok(text)
}

/// Each line that may stand next where no service line is due: notes, last lines, calls, and packets.
fn alternatives<K: Kernels>(alloc: Global, place: Place, kernels: &K) -> Result<Vec<u8>, NoMemory>
    requires { K.stand kernels.now }
    ensures { IfOk result (λ text. TellsAlternatives (seen place) (K.kept kernels.now) text.items) }
{
    let mut lines = Listing::new(alloc, OR);
    let last = true_last(kernels);
    Form::Note.add(&mut lines, place)?;
    last.add(&mut lines, place)?;
    add_others(alloc, &mut lines, place, kernels)?;
    Ok(lines.into_text())
}

/// The last line that is true of the packets that are under way.
fn true_last<K: Kernels>(kernels: &K) -> Form
    ensures { IsTrueForm (K.kept kernels.now) result }
{
    if kernels.is_quiet() {
        Form::Quiet
    } else {
        Form::Open
    }
}

/// Adds what may stand besides a note and these last lines: nothing behind a note.
fn add_others<K: Kernels>(
    alloc: Global,
    lines: &mut Listing,
    place: Place,
    kernels: &K,
) -> Result<(), NoMemory>
    requires { K.stand kernels.now }
    ensures { OnOk result (lines.new ≡ with_items (others_in (seen place) (K.kept kernels.now)) lines.old) }
{
    match place {
        Place::Noted { .. } => Ok(()),
        Place::Start | Place::Version | Place::Entry => add_entries(alloc, lines, kernels),
        Place::Processes { .. } | Place::Wires { .. } => add_entries(alloc, lines, kernels),
        Place::Over => add_entries(alloc, lines, kernels),
    }
}

/// Adds the last line of spent turns, and each entry that may stand next.
fn add_entries<K: Kernels>(alloc: Global, lines: &mut Listing, kernels: &K) -> Result<(), NoMemory>
    requires { K.stand kernels.now }
    ensures { OnOk result (lines.new ≡ with_items (spent_text (K.kept kernels.now) ∷ next_entries (K.kept kernels.now)) lines.old) }
{
    add_spent(lines, kernels.count())?;
    add_next_entries(alloc, lines, kernels)?;
    Ok(())
}

fn add_spent(lines: &mut Listing, kernels: u8) -> Result<(), NoMemory>
    ensures { OnOk result (lines.new ≡ with_item (codes "spent K, K below " ++ number_text kernels) lines.old) }
{
    lines.add(b"spent K, K below ")?;
    lines.append_number(u64::from(kernels))?;
    Ok(())
}
