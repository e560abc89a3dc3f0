//! The forms of lines, and where each may stand.
ghost use Rattle.std.specs.Prelude.{◌≡◌, ◌++◌, OnOk, codes, option_copied};
ghost use Rattle.std.specs.Char.{is_ascii_digit};
ghost use Rattle.std.specs.List.{list_all};
ghost use Rattle.charlotte_text.specs.Spelling.{number_text};
ghost use Rattle.transcript_expected.specs.Fields.{call_fields, fields_text, packet_fields, step_fields};
ghost use Rattle.transcript_expected.specs.Forms.{is_of_body, may_stand};
ghost use Rattle.transcript_expected.specs.Texts.{before_name, entry_form, form_begun, form_of_first, form_of_stamp, form_texts, is_begun, name_in, named, named_texts, note_form, process_form, wire_form};
ghost use Rattle.transcript_reader.specs.Lines.{seen};
ghost use Rattle.transcript_shown.specs.Listing.{with_item, with_items};

use crate::fields::{Fields, call_fields, packet_fields, push_fields, step_fields};
use crate::word::word;
use charlotte_calls::NoMemory;
use charlotte_text::is_word;
use std::marker::Model;
use transcript_reader::Place;
use transcript_shown::Listing;

/// The form of a line.
#[derive(Clone, Copy, Debug, PartialEq, Eq)]
pub enum Form {
    First,
    Kernels,
    Process,
    Wire,
    Step,
    Call,
    Packet,
    Note,
    Quiet,
    Open,
    Spent,
}

/// All forms, in the order in which they are told.
pub(crate) const FORMS: [Form; 11] = [
    Form::First,
    Form::Kernels,
    Form::Process,
    Form::Wire,
    Form::Step,
    Form::Call,
    Form::Packet,
    Form::Note,
    Form::Quiet,
    Form::Open,
    Form::Spent,
];

/// A name in a line, with the fields behind it.
#[derive(Drop)]
pub(crate) struct Name<'a> {
    word: &'a [u8],
    fields: Fields,
}

impl<'a> Model for Name<'a> {
    ghost use Rattle.std.specs.Prelude.{ℕ, List};
    ghost use Rattle.transcript_expected.specs.Fields.{FieldsView};

    ghost Value = { List ℕ × FieldsView };

    ghost view = { λ n. (n.word.now, n.fields) };
}

impl Form {
    /// The form that a line begins as, by its first words.
    pub(crate) fn of(line: &[u8]) -> Option<Form>
        ensures { result ≡ form_begun line.now }
    {
        match word(line, 0) {
            Some(first) => Form::of_first(line, first),
            None => None,
        }
    }

    #[tactic(auto, unfolding(crate::specs::Texts::form_of_first))]
    fn of_first(line: &[u8], first: &[u8]) -> Option<Form>
        ensures { result ≡ form_of_first line.now first.now }
    {
        if is_word(first, b"transcript") {
            Some(Form::First)
        } else if is_word(first, b"kernels") {
            Some(Form::Kernels)
        } else if is_word(first, b"process") {
            Some(Form::Process)
        } else if is_word(first, b"wire") {
            Some(Form::Wire)
        } else if is_word(first, b".") {
            Some(Form::Step)
        } else if is_word(first, b"note") {
            Some(Form::Note)
        } else if is_word(first, b"quiet") {
            Some(Form::Quiet)
        } else if is_word(first, b"open") {
            Some(Form::Open)
        } else if is_word(first, b"spent") {
            Some(Form::Spent)
        } else {
            Form::of_stamp(line, first)
        }
    }

    /// The same of an entry, whose first word is its stamp.
    fn of_stamp(line: &[u8], first: &[u8]) -> Option<Form>
        ensures { result ≡ form_of_stamp line.now first.now }
    {
        if all_digits(first) {
            Form::of_entry(word(line, 2))
        } else {
            None
        }
    }

    /// The same by the third word of an entry.
    fn of_entry(third: Option<&[u8]>) -> Option<Form>
        ensures { result ≡ entry_form (option_copied third.entry) }
    {
        match third {
            Some(third) => {
                if is_word(third, b"from") {
                    Some(Form::Packet)
                } else {
                    Some(Form::Call)
                }
            }
            None => None,
        }
    }

    /// Whether a line of this form has a name, if lines of this form have names.
    pub(crate) fn is_begun(self, line: &[u8]) -> bool
        ensures { result ≡ is_begun self line.now }
    {
        match self {
            Form::Step => self.name(line).is_some(),
            Form::Call => self.name(line).is_some(),
            Form::Packet => self.name(line).is_some(),
            Form::First | Form::Kernels | Form::Process | Form::Wire => true,
            Form::Note | Form::Quiet | Form::Open | Form::Spent => true,
        }
    }

    /// The name in a line of this form, with the fields behind it.
    #[tactic(auto, unfolding(crate::specs::Texts::name_in))]
    fn name(self, line: &[u8]) -> Option<Name<'_>>
        ensures { result ≡ name_in self line.now }
    {
        match self {
            Form::Step => step_name(word(line, 1)),
            Form::Call => call_name(word(line, 3)),
            Form::Packet => packet_name(word(line, 4)),
            Form::First | Form::Kernels | Form::Process | Form::Wire => None,
            Form::Note | Form::Quiet | Form::Open | Form::Spent => None,
        }
    }

    /// Whether some line of the form may stand in a place.
    pub(crate) fn may_stand(self, place: Place) -> bool
        ensures { result ≡ may_stand (seen place) self }
    {
        match place {
            Place::Start => matches!(self, Form::First),
            Place::Version => matches!(self, Form::Kernels),
            Place::Processes { kernels, processes } => match self {
                Form::Process => 0 < kernels && processes < 64,
                Form::Wire => 0 < processes,
                _ => self.is_of_body(),
            },
            Place::Wires { processes, wires } => match self {
                Form::Wire => wires < 4096 && 0 < processes,
                _ => self.is_of_body(),
            },
            Place::Entry => match self {
                Form::Step => true,
                _ => self.is_of_body(),
            },
            Place::Noted { .. } => matches!(self, Form::Note | Form::Quiet | Form::Open),
            Place::Over => false,
        }
    }

    /// Whether a line of the form may be the first behind a header, and stand behind an entry.
    fn is_of_body(self) -> bool
        ensures { result ≡ is_of_body self }
    {
        match self {
            Form::Call | Form::Packet | Form::Note => true,
            Form::Quiet | Form::Open | Form::Spent => true,
            Form::First | Form::Kernels | Form::Process | Form::Wire | Form::Step => false,
        }
    }

    /// Adds the form as it stands in a place: capitals stand for values, and `STEP`, `CALL` and `PACKET` for any of these.
    pub fn add(self, forms: &mut Listing, place: Place) -> Result<(), NoMemory>
        ensures { OnOk result (forms.new ≡ with_items (form_texts (seen place) self) forms.old) }
    {
        match self {
            Form::First => add_versions(forms),
            Form::Kernels => forms.add(b"kernels N, N from 1 to 8"),
            Form::Process => add_process(forms, place),
            Form::Wire => add_wire(forms, place),
            Form::Step => forms.add(b". STEP"),
            Form::Call => forms.add(b"STAMP kK pP CALL"),
            Form::Packet => forms.add(b"STAMP kK from J PACKET"),
            Form::Note => add_notes(forms, place),
            Form::Quiet => forms.add(b"quiet"),
            Form::Open => forms.add(b"open"),
            Form::Spent => forms.add(b"spent K"),
        }
    }

    /// Adds the same with the name that stands in a line, and its fields.
    pub(crate) fn add_named(
        self,
        forms: &mut Listing,
        place: Place,
        version: u8,
        line: &[u8],
    ) -> Result<(), NoMemory>
        ensures { OnOk result (forms.new ≡ with_items (named_texts (seen place) version self (name_in self line.now)) forms.old) }
    {
        match self.name(line) {
            Some(name) => self.add_name(forms, version, name),
            None => self.add(forms, place),
        }
    }

    fn add_name(self, forms: &mut Listing, version: u8, name: Name<'_>) -> Result<(), NoMemory>
        ensures { OnOk result (forms.new ≡ with_item (before_name self ++ name.entry.0 ++ fields_text version name.entry.1) forms.old) }
    {
        let Name { word, fields } = name;
        forms.add(self.before_name())?;
        forms.append(word)?;
        push_fields(forms, version, fields)?;
        Ok(())
    }

    /// What stands before the name in a line of this form.
    fn before_name(self) -> &'static [u8]
        ensures { result.now ≡ before_name self }
    {
        match self {
            Form::Step => b". ",
            Form::Call => b"STAMP kK pP ",
            Form::Packet => b"STAMP kK from J ",
            Form::First | Form::Kernels | Form::Process | Form::Wire => b"",
            Form::Note | Form::Quiet | Form::Open | Form::Spent => b"",
        }
    }
}

/// The name of a step, if there is one.
fn step_name(word: Option<&[u8]>) -> Option<Name<'_>>
    ensures { result ≡ named step_fields (option_copied word.entry) }
{
    let word = word?;
    let fields = step_fields(word)?;
    Some(Name { word, fields })
}

/// The name of a call, if there is one.
fn call_name(word: Option<&[u8]>) -> Option<Name<'_>>
    ensures { result ≡ named call_fields (option_copied word.entry) }
{
    let word = word?;
    let fields = call_fields(word)?;
    Some(Name { word, fields })
}

/// The name of a packet, if there is one.
fn packet_name(word: Option<&[u8]>) -> Option<Name<'_>>
    ensures { result ≡ named packet_fields (option_copied word.entry) }
{
    let word = word?;
    let fields = packet_fields(word)?;
    Some(Name { word, fields })
}

fn all_digits(word: &[u8]) -> bool
    ensures { result ≡ list_all is_ascii_digit word.now }
{
    word.iter().all(|byte| byte.is_ascii_digit())
}

/// The first lines of both versions.
fn add_versions(forms: &mut Listing) -> Result<(), NoMemory>
    ensures { OnOk result (forms.new ≡ with_item (codes "transcript 2") (with_item (codes "transcript 1") forms.old)) }
{
    forms.add(b"transcript 1")?;
    forms.add(b"transcript 2")?;
    Ok(())
}

/// The next process.
fn add_process(forms: &mut Listing, place: Place) -> Result<(), NoMemory>
    ensures { OnOk result (forms.new ≡ with_item (process_form (seen place)) forms.old) }
{
    match place {
        Place::Processes { kernels, processes } => add_next_process(forms, kernels, processes),
        Place::Start | Place::Version | Place::Entry | Place::Over => forms.add(b"process "),
        Place::Wires { .. } | Place::Noted { .. } => forms.add(b"process "),
    }
}

fn add_next_process(forms: &mut Listing, kernels: u8, processes: u8) -> Result<(), NoMemory>
    ensures { OnOk result (forms.new ≡ with_item (codes "process " ++ number_text processes ++ codes " on K, K below " ++ number_text kernels) forms.old) }
{
    forms.add(b"process ")?;
    forms.append_number(u64::from(processes))?;
    forms.append(b" on K, K below ")?;
    forms.append_number(u64::from(kernels))?;
    Ok(())
}

/// A wire between processes that are there.
fn add_wire(forms: &mut Listing, place: Place) -> Result<(), NoMemory>
    ensures { OnOk result (forms.new ≡ with_item (wire_form (seen place)) forms.old) }
{
    match place {
        Place::Processes { processes, .. } => add_wire_below(forms, processes),
        Place::Wires { processes, .. } => add_wire_below(forms, processes),
        Place::Start | Place::Version | Place::Entry => forms.add(b"wire I J, I and J below "),
        Place::Noted { .. } | Place::Over => forms.add(b"wire I J, I and J below "),
    }
}

fn add_wire_below(forms: &mut Listing, processes: u8) -> Result<(), NoMemory>
    ensures { OnOk result (forms.new ≡ with_item (codes "wire I J, I and J below " ++ number_text processes) forms.old) }
{
    forms.add(b"wire I J, I and J below ")?;
    forms.append_number(u64::from(processes))?;
    Ok(())
}

/// Both notes, behind one of an earlier line.
fn add_notes(forms: &mut Listing, place: Place) -> Result<(), NoMemory>
    ensures { OnOk result (forms.new ≡ with_item (note_form (seen place) (codes "waits")) (with_item (note_form (seen place) (codes "nothing")) forms.old)) }
{
    add_note(forms, place, b"nothing")?;
    add_note(forms, place, b"waits")?;
    Ok(())
}

fn add_note(forms: &mut Listing, place: Place, what: &[u8]) -> Result<(), NoMemory>
    ensures { OnOk result (forms.new ≡ with_item (note_form (seen place) what.now) forms.old) }
{
    match place {
        Place::Noted { line } => add_note_above(forms, what, line),
        Place::Start | Place::Version | Place::Entry => add_any_note(forms, what),
        Place::Processes { .. } | Place::Wires { .. } | Place::Over => add_any_note(forms, what),
    }
}

fn add_any_note(forms: &mut Listing, what: &[u8]) -> Result<(), NoMemory>
    ensures { OnOk result (forms.new ≡ with_item (codes "note LINE " ++ what.now) forms.old) }
{
    forms.add(b"note LINE ")?;
    forms.append(what)?;
    Ok(())
}

fn add_note_above(forms: &mut Listing, what: &[u8], line: u32) -> Result<(), NoMemory>
    ensures { OnOk result (forms.new ≡ with_item (codes "note LINE " ++ what.now ++ codes ", LINE above " ++ number_text line) forms.old) }
{
    add_any_note(forms, what)?;
    forms.append(b", LINE above ")?;
    forms.append_number(u64::from(line))?;
    Ok(())
}
