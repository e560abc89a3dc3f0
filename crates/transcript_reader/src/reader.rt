//! A reader of one line after the other.
ghost use Rattle.std.specs.Prelude.{◌≡◌, ◌↔◌, ◌+◌, ◌<◌, ◌++◌, IfSome, IsTrue, MatchBool, MatchOption, Ok, Some, length};
ghost use Rattle.charlotte_text.specs.Reading.{Gives, parts};
ghost use Rattle.charlotte_text.specs.Spelling.{line_feed};
ghost use Rattle.leading_lines.specs.Ahead.{head_text};
ghost use Rattle.transcript_reader.specs.Lines.{GivesNext, is_ended, next_line, seen, stand, unread, version_after};
ghost use Rattle.transcript_reader.specs.Next.{GivesSkipped, IsAhead, Reads, ReadsNote, Skips, SkipsNote};
ghost use Rattle.transcript_reading.specs.Order.{Entry, Noted};
ghost use Rattle.transcript_reading.specs.declared.line.LineKind.{LineKind as AKind};

use crate::fault::LineFault;
use crate::line::Line;
use crate::place::{Place, next_place};
use charlotte_text::{Fault, cut};
use leading_lines::{Ahead, behind_byte, leading_line, leading_note, look_ahead, past_line};
use std::marker::Model;
use transcript_forms::read_kind;
use transcript_lines::ScriptNote;
use transcript_reading::LineKind;

/// The lines of a transcript that are not read yet: the place in the bytes, and what may stand next. It takes no memory.
#[derive(Debug, Drop)]
pub struct Reader<'a> {
    rest: &'a [u8],
    /// How many lines were read.
    lines: u32,
    /// The version that the first line told, and 0 before.
    version: u8,
    place: Place,
}

impl<'a> Model for Reader<'a> {
    ghost use Rattle.std.specs.Prelude.{◌+◌, ◌<◌, length};
    ghost use Rattle.charlotte_text.specs.Reading.{parts};
    ghost use Rattle.charlotte_text.specs.Spelling.{line_feed};
    ghost use Rattle.transcript_reader.specs.Lines.{Unread, seen};

    ghost Value = { Unread };

    ghost view = { λ r. record {
      lines = r.lines;
      version = r.version;
      place = seen r.place;
      texts = parts line_feed r.rest.now;
    } };

    ghost invariant = { λ r. r.lines + length (parts line_feed r.rest.now) < 4294967296 };
}

impl<'a> Reader<'a> {
    /// A reader of all lines of these bytes.
    pub fn new(bytes: &'a [u8]) -> Reader<'a>
        requires { length bytes.now < 4294967295 }
        ensures { result ≡ unread bytes.now }
    {
        Reader {
            rest: bytes,
            lines: 0,
            version: 0,
            place: Place::Start,
        }
    }

    /// What was read last, as far as the next line depends on it.
    pub fn place(&self) -> Place
        ensures { seen result ≡ self.now.place }
    {
        self.place
    }

    /// The next line; `None` exactly where the last line was read and nothing stands behind it; and a bad line where the
    /// next one cannot stand there, where it has no line feed and where there is none. After `None` and after a fault the
    /// reader is as before.
    pub fn next_line(&mut self) -> Result<Option<Line>, LineFault>
        ensures { GivesNext self.old result self.new }
    {
        match self.next_of_entry() {
            Some(line) => Ok(Some(line)),
            None => self.next_other(),
        }
    }

    /// Passes the next line, of which no value is kept: `true` where it was there, and `false` exactly where the last line was read and nothing
    /// stands behind it. Faults are those of `next_line`.
    pub fn skip_line(&mut self) -> Result<bool, LineFault>
        ensures { GivesSkipped self.old result self.new }
    {
        if self.skip_of_entry() {
            return Ok(true);
        }
        self.skip_other()
    }

    /// Passes the next line, where it is a note behind the note of an earlier line of the script. `false`: it was not passed, and may be any.
    pub fn skip_note(&mut self) -> bool
        ensures { MatchBool result (SkipsNote self.old self.new) (self.new ≡ self.old) }
    {
        match self.next_note() {
            Some(_) => true,
            None => false,
        }
    }

    /// Passes the next line, whatever its form.
    fn skip_other(&mut self) -> Result<bool, LineFault>
        ensures { GivesSkipped self.old result self.new }
    {
        match self.next_other() {
            Ok(Some(_)) => Ok(true),
            Ok(None) => Ok(false),
            Err(fault) => Err(fault),
        }
    }

    /// Passes the next line, where it is one of an entry or of a step of the most common forms, also with what it encloses, behind such a
    /// line. `false`: it was not passed, and may be any.
    fn skip_of_entry(&mut self) -> bool
        ensures { MatchBool result (Skips self.old self.new) (self.new ≡ self.old) }
    {
        if !is_entry(self.place) {
            return false;
        }
        match past_line(self.rest, self.version) {
            Some(left) => self.pass_line(left),
            None => false,
        }
    }

    /// The next line, where it is one of an entry or of a step of the most common forms, behind such a line. `None`: it was not read, and
    /// may be any.
    #[inline(never)]
    fn next_of_entry(&mut self) -> Option<Line>
        ensures { MatchOption result (self.new ≡ self.old) (λ l. next_line self.old ≡ Ok (Some (l, self.new))) }
    {
        if !is_entry(self.place) {
            return None;
        }
        let (what, left) = leading_line(self.rest, self.version)?;
        if !self.pass_line(left) {
            return None;
        }
        let number = self.lines();
        Some(Line { number, what })
    }

    /// The next line, whatever its form; a note is read at once.
    #[inline(always)]
    fn next_other(&mut self) -> Result<Option<Line>, LineFault>
        ensures { GivesNext self.old result self.new }
    {
        match self.next_note() {
            Some(note) => {
                let number = self.lines();
                let what = LineKind::Note(note);
                Ok(Some(Line { number, what }))
            }
            None => self.next_any(),
        }
    }

    /// The next line, where it is a note behind the note of an earlier line of the script. `None`: it was not read, and may be any.
    #[inline(always)]
    fn next_note(&mut self) -> Option<ScriptNote>
        ensures { MatchOption result (self.new ≡ self.old) (λ note. ReadsNote self.old note self.new) }
    {
        let before = noted(self.place)?;
        let (note, left) = leading_note(self.rest)?;
        let rest = behind_byte(left, b'\n')?;
        if note.line <= before {
            return None;
        }
        self.pass_note(rest, note.line);
        Some(note)
    }

    /// The next line, whatever its form.
    #[tactic(auto, unfolding(crate::specs::Lines::next_line))]
    fn next_any(&mut self) -> Result<Option<Line>, LineFault>
        ensures { GivesNext self.old result self.new }
    {
        let line = self.lines + 1;
        let (text, rest) = cut(b'\n', self.rest);
        let Some(rest) = rest else {
            if ended(self.place, text) {
                return Ok(None);
            }
            return Err(LineFault::BadLine { line });
        };
        match read_standing(self.version, self.place, text) {
            Ok((what, place)) => {
                self.rest = rest;
                self.lines = line;
                self.version = version_after(self.version, &what);
                self.place = place;
                Ok(Some(Line { number: line, what }))
            }
            Err(_) => Err(LineFault::BadLine { line }),
        }
    }

    /// How many lines were read.
    pub fn lines(&self) -> u32
        ensures { result ≡ self.now.lines }
    {
        self.lines
    }

    /// The version that the first line told, and 0 before it was read.
    pub fn version(&self) -> u8
        ensures { result ≡ self.now.version }
    {
        self.version
    }

    /// Whether an entry, or a step below it, was read last.
    pub fn is_among_entries(&self) -> bool
        ensures { IsTrue result ↔ (self.now.place ≡ Entry) }
    {
        is_entry(self.place)
    }

    /// What was not read yet.
    pub fn rest(&self) -> &'a [u8]
        ensures { self.now.texts ≡ parts line_feed result.now }
    {
        self.rest
    }

    /// With what the entry begins that comes next, and what stands behind that. `None` promises nothing.
    #[inline(always)]
    pub fn peek(&self) -> Option<(Ahead, &'a [u8])>
        ensures { IfSome result (λ x. self.now.texts ≡ parts line_feed (head_text x.0 ++ x.1.now)) }
    {
        look_ahead(self.rest)
    }

    /// Passes the next line, which is one of an entry or of a step up to where this is left, if it ends there. The line before it has to be
    /// such a line, too; else none is passed.
    #[inline(always)]
    pub fn pass_line(&mut self, left: &'a [u8]) -> bool
        requires { (k : AKind) × IsAhead self.old k left.now }
        ensures { MatchBool result ((k : AKind) → IsAhead self.old k left.now → Reads self.old k self.new) (self.new ≡ self.old) }
    {
        if !is_entry(self.place) {
            return false;
        }
        match behind_byte(left, b'\n') {
            Some(rest) => {
                self.pass(rest);
                true
            }
            None => false,
        }
    }

    /// Passes a line behind which this is left.
    fn pass(&mut self, rest: &'a [u8])
        requires { self.old.lines + 1 + length (parts line_feed rest.now) < 4294967296 }
        ensures { self.new ≡ record { lines = self.old.lines + 1; version = self.old.version; place = self.old.place; texts = parts line_feed rest.now } }
    {
        self.rest = rest;
        self.lines += 1;
    }

    /// Passes a note of this line of the script, behind which this is left.
    fn pass_note(&mut self, rest: &'a [u8], note: u32)
        requires { self.old.lines + 1 + length (parts line_feed rest.now) < 4294967296 }
        ensures { self.new ≡ record { lines = self.old.lines + 1; version = self.old.version; place = Noted note; texts = parts line_feed rest.now } }
    {
        self.rest = rest;
        self.lines += 1;
        self.place = Place::Noted { line: note };
    }
}

/// The line of the script whose note was read last.
fn noted(place: Place) -> Option<u32>
    ensures { IfSome result (λ n. seen place ≡ Noted n) }
{
    match place {
        Place::Noted { line } => Some(line),
        Place::Start | Place::Version | Place::Entry | Place::Over => None,
        Place::Processes { .. } | Place::Wires { .. } => None,
    }
}

/// Whether an entry, or a step below it, was read last.
fn is_entry(place: Place) -> bool
    ensures { IsTrue result ↔ (seen place ≡ Entry) }
{
    match place {
        Place::Entry => true,
        Place::Start | Place::Version | Place::Over => false,
        Place::Processes { .. } | Place::Wires { .. } | Place::Noted { .. } => false,
    }
}

/// Whether the last line was read and nothing stands behind it.
fn ended(place: Place, text: &[u8]) -> bool
    ensures { result ≡ is_ended (seen place) text.now }
{
    match place {
        Place::Over => text.is_empty(),
        Place::Start | Place::Version | Place::Entry => false,
        Place::Processes { .. } | Place::Wires { .. } | Place::Noted { .. } => false,
    }
}

/// What a line shows that may stand at the place, and the place behind it.
#[tactic(auto, unfolding(crate::specs::Lines::stand))]
fn read_standing(version: u8, place: Place, text: &[u8]) -> Result<(LineKind, Place), Fault>
    ensures { Gives (λ x. (x.0, seen x.1)) result (stand version (seen place) text.now) }
{
    let what = read_kind(version, text)?;
    let place = next_place(place, &what)?;
    Ok((what, place))
}

/// The version behind a line: the first one tells it.
fn version_after(version: u8, what: &LineKind) -> u8
    ensures { result ≡ version_after version what.now }
{
    match what {
        LineKind::First { version } => *version,
        LineKind::Kernels(_) => version,
        LineKind::Process { .. } => version,
        LineKind::Wire { .. } => version,
        LineKind::CallEntry { .. } => version,
        LineKind::PacketEntry { .. } => version,
        LineKind::Service(_) => version,
        LineKind::Note(_) => version,
        LineKind::End(_) => version,
    }
}
