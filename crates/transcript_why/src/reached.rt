//! The lines before the one of a number, which are read and not followed.
ghost use Rattle.std.specs.Prelude.{◌≡◌, ◌↔◌, ◌<◌, IfOk, IsTrue, MatchBool, MatchOption, None, Ok, OnOk, Some, length};
ghost use Rattle.transcript_reader.specs.Lines.{next_line, seen, unread};
ghost use Rattle.transcript_reader.specs.Next.{Skips};
ghost use Rattle.transcript_replay.specs.Header.{tell_all};
ghost use Rattle.transcript_why.specs.Before.{IsBehindHeader, first_lines, setting_before, shown_next};

use charlotte_calls::{NoMemory, Setting};
use std::alloc::Global;
use transcript_reader::{Line, LineKind, Place, Reader};
use transcript_replay::Draft;

/// What the header told before the line of a number.
pub(crate) fn read_setting(alloc: Global, bytes: &[u8], number: u32) -> Result<Setting, NoMemory>
    requires { length bytes.now < 4294967295 }
    ensures { IfOk result (λ s. s ≡ setting_before bytes.now number) }
{
    let mut reader = Reader::new(bytes);
    let mut draft = Draft::new(alloc);
    tell_lines(&mut draft, &mut reader, number.saturating_sub(1))?;
    Ok(draft.finish(alloc))
}

/// Reads the lines of the header among so many lines, as far as they can stand, with what they tell of the setting.
fn tell_lines(draft: &mut Draft, reader: &mut Reader, lines: u32) -> Result<(), NoMemory>
    ensures { OnOk result (draft.new ≡ tell_all (first_lines lines reader.old).0 draft.old) }
{
    for _ in 0..lines {
        if is_behind_header(reader.place()) {
            return Ok(());
        }
        let Some(line) = next_line(reader) else {
            return Ok(());
        };
        draft.tell(&line.what)?;
    }
    Ok(())
}

/// Whether no line of the header comes any more.
fn is_behind_header(place: Place) -> bool
    ensures { IsTrue result ↔ IsBehindHeader (seen place) }
{
    match place {
        Place::Entry | Place::Noted { .. } | Place::Over => true,
        Place::Start | Place::Version => false,
        Place::Processes { .. } | Place::Wires { .. } => false,
    }
}

/// A reader behind so many lines, as far as they can stand.
pub(crate) fn reader_behind(bytes: &[u8], lines: u32) -> Reader<'_>
    requires { length bytes.now < 4294967295 }
    ensures { result ≡ (first_lines lines (unread bytes.now)).1 }
{
    let mut reader = Reader::new(bytes);
    pass_lines(&mut reader, lines);
    reader
}

/// Passes so many lines, as far as they can stand.
fn pass_lines(reader: &mut Reader<'_>, lines: u32)
    ensures { reader.new ≡ (first_lines lines reader.old).1 }
{
    for _ in 0..lines {
        if !skip_line(reader) {
            return;
        }
    }
}

/// Passes the next line, if it can stand there.
fn skip_line(reader: &mut Reader<'_>) -> bool
    ensures { MatchBool result (Skips reader.old reader.new) ((shown_next (next_line reader.old) ≡ None) × (reader.new ≡ reader.old)) }
{
    match reader.skip_line() {
        Ok(passed) => passed,
        Err(_) => false,
    }
}

/// What the next line shows, if it can stand there.
pub(crate) fn next_kind(reader: &mut Reader<'_>) -> Option<LineKind>
    ensures { result ≡ shown_next (next_line reader.old) }
{
    match next_line(reader) {
        Some(Line { number: _, what }) => Some(what),
        None => None,
    }
}

/// The next line, if it can stand there.
pub(crate) fn next_line(reader: &mut Reader<'_>) -> Option<Line>
    ensures { MatchOption result ((shown_next (next_line reader.old) ≡ None) × (reader.new ≡ reader.old))
        (λ l. next_line reader.old ≡ Ok (Some (l, reader.new))) }
{
    match reader.next_line() {
        Ok(line) => line,
        Err(_) => None,
    }
}
