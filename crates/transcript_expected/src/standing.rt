//! Which forms may stand in a place.
ghost use Rattle.std.specs.Prelude.{◌≡◌, OnOk};
ghost use Rattle.transcript_expected.specs.Texts.{expected_by, expected_texts, form_begun, misspelled, misspells, standing_texts, with_forms};
ghost use Rattle.transcript_reader.specs.Lines.{seen};
ghost use Rattle.transcript_shown.specs.Listing.{with_items};

use crate::form::{FORMS, Form};
use charlotte_calls::NoMemory;
use transcript_forms::read_kind;
use transcript_reader::Place;
use transcript_shown::Listing;

/// Adds the forms that may stand in a place, one by one. Of a line of a bad form that begins as one that may stand there, with its name, this form
/// alone, with the fields that it has by its name. Behind the last line the end of the text is expected.
pub fn expected_forms(
    forms: &mut Listing,
    place: Place,
    version: u8,
    line: &[u8],
) -> Result<(), NoMemory>
    ensures { OnOk result (forms.new ≡ with_items (expected_texts (seen place) version line.now) forms.old) }
{
    match place {
        Place::Over => forms.add(b"the end of the text"),
        Place::Start | Place::Version => add_expected(forms, place, version, line),
        Place::Processes { .. } => add_expected(forms, place, version, line),
        Place::Wires { .. } => add_expected(forms, place, version, line),
        Place::Entry => add_expected(forms, place, version, line),
        Place::Noted { .. } => add_expected(forms, place, version, line),
    }
}

/// The same before the last line.
#[tactic(auto, using(crate::proofs::Texts::each_form))]
fn add_expected(forms: &mut Listing, place: Place, version: u8, line: &[u8]) -> Result<(), NoMemory>
    ensures { OnOk result (forms.new ≡ with_items (expected_by (seen place) version line.now (misspelled (seen place) version line.now (form_begun line.now))) forms.old) }
{
    match misspelled(place, version, line) {
        Some(form) => form.add_named(forms, place, version, line),
        None => add_forms(&FORMS, forms, place),
    }
}

/// The form that a line of a bad form begins as, if it may stand there.
fn misspelled(place: Place, version: u8, line: &[u8]) -> Option<Form>
    ensures { result ≡ misspelled (seen place) version line.now (form_begun line.now) }
{
    match Form::of(line) {
        Some(form) => {
            if misspells(place, version, line, form) {
                Some(form)
            } else {
                None
            }
        }
        None => None,
    }
}

/// Whether a line of a bad form begins as this one, which may stand there.
fn misspells(place: Place, version: u8, line: &[u8], form: Form) -> bool
    ensures { result ≡ misspells (seen place) version line.now form }
{
    form.is_begun(line) && read_kind(version, line).is_err() && form.may_stand(place)
}

/// Adds each of these forms that may stand in a place.
fn add_forms(all: &[Form], forms: &mut Listing, place: Place) -> Result<(), NoMemory>
    ensures { OnOk result (forms.new ≡ with_forms (seen place) all.now forms.old) }
{
    for form in all {
        add_standing(*form, forms, place)?;
    }
    Ok(())
}

/// Adds a form, if it may stand in a place.
fn add_standing(form: Form, forms: &mut Listing, place: Place) -> Result<(), NoMemory>
    ensures { OnOk result (forms.new ≡ with_items (standing_texts (seen place) form) forms.old) }
{
    if form.may_stand(place) {
        return form.add(forms, place);
    }
    Ok(())
}
