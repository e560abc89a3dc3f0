//! What a line shows, by its form.
ghost use Rattle.std.specs.Prelude.{◌≡◌, Ok, IfOk};
ghost use Rattle.charlotte_text.specs.Reading.{words};
ghost use Rattle.transcript_reading.specs.Spelling.{kind_text, IsKind};
ghost use Rattle.transcript_reading.specs.declared.line.LineKind.{LineKind as ALineKind};
ghost use Rattle.transcript_reading.specs.Forms.{only_of, u8_of, home_of, wire_of, note_of, named_line_of, kind_of};

use crate::entry::read_entry;
use crate::step::read_step;
use crate::word::is_numeral;
use crate::words::Words;
use charlotte_text::{Fault, is_word};
use transcript_lines::{Last, ScriptNote};
use transcript_reading::LineKind;

/// What a line of a transcript of a version shows, without its line feed. `Form` or `Long` where it is no line.
pub fn read_kind(version: u8, text: &[u8]) -> Result<LineKind, Fault>
    ensures exact { result ≡ kind_of version (words text.now) }
    // The text is the spelling of what it shows, and what a text spells is read.
    ensures found { IfOk result (λ k. text.now ≡ kind_text k) }
    ensures fits { IfOk result (IsKind version) }
    ensures only { (k : ALineKind) → IsKind version k → text.now ≡ kind_text k → result ≡ Ok k }
{
    parse_kind(version, text)
}

#[tactic(auto, unfolding(transcript_reading::specs::Forms::kind_of))]
fn parse_kind(version: u8, text: &[u8]) -> Result<LineKind, Fault>
    ensures { result ≡ kind_of version (words text.now) }
{
    let mut words = Words::of(text);
    let Some(word) = words.pop() else {
        return Err(Fault::Form);
    };
    if is_numeral(word) {
        read_entry(version, word, words)
    } else {
        read_named(version, word, words)
    }
}

#[tactic(auto, unfolding(transcript_reading::specs::Forms::named_line_of))]
fn read_named(version: u8, name: &[u8], words: Words<'_>) -> Result<LineKind, Fault>
    ensures { result ≡ named_line_of version name.now words.entry }
{
    if is_word(name, b".") {
        read_step(version, words).map(|step| LineKind::Service(step))
    } else if is_word(name, b"transcript") {
        read_only_u8(words).map(|version| LineKind::First { version })
    } else if is_word(name, b"kernels") {
        read_only_u8(words).map(|kernels| LineKind::Kernels(kernels))
    } else if is_word(name, b"process") {
        read_home(words)
    } else if is_word(name, b"wire") {
        read_wire(words)
    } else if is_word(name, b"note") {
        read_note(words)
    } else if is_word(name, b"quiet") {
        words.finish().map(|()| LineKind::End(Last::Quiet))
    } else if is_word(name, b"open") {
        words.finish().map(|()| LineKind::End(Last::Unsettled))
    } else if is_word(name, b"spent") {
        read_only_u8(words).map(|kernel| LineKind::End(Last::Spent(kernel)))
    } else {
        Err(Fault::Form)
    }
}

/// A number of 8 bits, and nothing behind it.
fn read_only_u8(mut words: Words<'_>) -> Result<u8, Fault>
    ensures { result ≡ only_of u8_of words.entry }
{
    let number = words.u8()?;
    words.finish()?;
    Ok(number)
}

/// `I on K`.
#[tactic(auto, unfolding(transcript_reading::specs::Forms::home_of))]
fn read_home(mut words: Words<'_>) -> Result<LineKind, Fault>
    ensures { result ≡ home_of words.entry }
{
    let p = words.numbered()?;
    let on = words.next()?;
    if !is_word(on, b"on") {
        return Err(Fault::Form);
    }
    let kernel = words.u8()?;
    words.finish()?;
    Ok(LineKind::Process { p, kernel })
}

/// `I J`.
#[tactic(auto, unfolding(transcript_reading::specs::Forms::wire_of))]
fn read_wire(mut words: Words<'_>) -> Result<LineKind, Fault>
    ensures { result ≡ wire_of words.entry }
{
    let first = words.numbered()?;
    let second = words.numbered()?;
    words.finish()?;
    Ok(LineKind::Wire { first, second })
}

/// `LINE nothing` or `LINE waits`.
#[tactic(auto, unfolding(transcript_reading::specs::Forms::note_of))]
fn read_note(mut words: Words<'_>) -> Result<LineKind, Fault>
    ensures { result ≡ note_of words.entry }
{
    let line = words.u32()?;
    let waits = words.waits()?;
    words.finish()?;
    Ok(LineKind::Note(ScriptNote { line, waits }))
}
