//! The lines of a transcript, one after the other.
ghost use Rattle.std.specs.Prelude.{◌≡◌, ◌++◌, [], drop, IfOk, OnErr};
ghost use Rattle.transcript_lines.specs.Transcript.{process_lines, transcript_lines};
ghost use Rattle.written_journal.specs.Left.{GivesFirst, header_left, last_line, lines_in, note_lines, number_line, wire_lines};

use crate::Merged;
use crate::lines::MergedLines;
use charlotte_calls::{Items, NoMemory, Pid, Setting};
use journal_text::{
    push_last_line, push_note_line, push_number_line, push_process_line, push_wire_line,
};
use std::collections::VecDeque;
use std::marker::Model;
use transcript_lines::{Last, ScriptNote};

/// What is left of the lines of a setting.
#[derive(Drop)]
struct Header {
    version: Option<u8>,
    kernels: Option<u8>,
    homes: Vec<u8>,
    /// How many processes are given.
    number: usize,
    wires: VecDeque<(Pid, Pid)>,
}

/// The lines of a transcript that are not given yet, each with its line feed. Contracts see them as a list.
#[derive(Drop)]
pub struct TranscriptLines {
    /// Until all its lines are given.
    header: Option<Header>,
    entries: MergedLines,
    notes: VecDeque<ScriptNote>,
    last: Option<Last>,
}

impl Model for TranscriptLines {
    ghost use Rattle.std.specs.Prelude.{ℕ, List, ◌++◌};
    ghost use Rattle.written_journal.specs.Left.{header_left, note_lines, last_line};

    ghost Value = { List (List ℕ) };

    ghost view = { λ t. header_left t.header ++ t.entries ++ note_lines t.notes.items ++ last_line t.last };
}

impl TranscriptLines {
    /// All lines of the transcript of a run.
    pub fn of(
        setting: Setting,
        merged: Merged,
        notes: Items<ScriptNote>,
        last: Last,
    ) -> TranscriptLines
        ensures { result ≡ transcript_lines setting merged notes last }
    {
        let Setting {
            version,
            kernels,
            homes,
            wires,
        } = setting;
        let header = Header {
            version: Some(version),
            kernels: Some(kernels),
            homes: homes.into_vec(),
            number: 0,
            wires: VecDeque::from(wires.into_vec()),
        };
        TranscriptLines {
            header: Some(header),
            entries: MergedLines::of(merged),
            notes: VecDeque::from(notes.into_vec()),
            last: Some(last),
        }
    }

    /// Puts the next line into the buffer, in place of what stands there; `false` exactly where no line is left, and then the buffer is empty. After want of
    /// memory the lines are as before.
    pub fn next_line(&mut self, line: &mut Vec<u8>) -> Result<bool, NoMemory>
        ensures given { IfOk result (λ some. GivesFirst some self.old self.new line.new.items) }
        ensures same { OnErr result (self.new ≡ self.old) }
    {
        line.clear();
        if next_of_header(&mut self.header, line)? {
            return Ok(true);
        }
        if self.entries.next_line(line)? {
            return Ok(true);
        }
        if next_note(&mut self.notes, line)? {
            return Ok(true);
        }
        next_last(&mut self.last, line)
    }
}

/// The next line of the header, if it is not given whole.
fn next_of_header(header: &mut Option<Header>, out: &mut Vec<u8>) -> Result<bool, NoMemory>
    requires { out.old.items ≡ [] }
    ensures given { IfOk result (λ some. GivesFirst some (header_left header.old) (header_left header.new) out.new.items) }
    ensures same { OnErr result (header_left header.new ≡ header_left header.old) }
{
    let Some(left) = header else {
        return Ok(false);
    };
    if next_in_header(left, out)? {
        return Ok(true);
    }
    *header = None;
    Ok(false)
}

fn next_in_header(header: &mut Header, out: &mut Vec<u8>) -> Result<bool, NoMemory>
    requires { out.old.items ≡ [] }
    ensures given { IfOk result (λ some. GivesFirst some (lines_in header.old) (lines_in header.new) out.new.items) }
    ensures same { OnErr result (lines_in header.new ≡ lines_in header.old) }
{
    if next_number(&mut header.version, b"transcript ", out)? {
        return Ok(true);
    }
    if next_number(&mut header.kernels, b"kernels ", out)? {
        return Ok(true);
    }
    if next_process(&header.homes, &mut header.number, out)? {
        return Ok(true);
    }
    next_wire(&mut header.wires, out)
}

fn next_number(number: &mut Option<u8>, word: &[u8], out: &mut Vec<u8>) -> Result<bool, NoMemory>
    requires { out.old.items ≡ [] }
    ensures given { IfOk result (λ some. GivesFirst some (number_line word.now number.old) (number_line word.now number.new) out.new.items) }
    ensures same { OnErr result (number.new ≡ number.old) }
{
    match *number {
        Some(some) => {
            push_number_line(out, word, some)?;
            *number = None;
            Ok(true)
        }
        None => Ok(false),
    }
}

fn next_process(homes: &[u8], number: &mut usize, out: &mut Vec<u8>) -> Result<bool, NoMemory>
    requires { out.old.items ≡ [] }
    ensures given { IfOk result (λ some. GivesFirst some (process_lines number.old (drop number.old homes.now)) (process_lines number.new (drop number.new homes.now)) out.new.items) }
    ensures same { OnErr result (number.new ≡ number.old) }
{
    match homes.get(*number) {
        Some(home) => {
            push_process_line(out, *number, *home)?;
            *number += 1;
            Ok(true)
        }
        None => Ok(false),
    }
}

fn next_wire(wires: &mut VecDeque<(Pid, Pid)>, out: &mut Vec<u8>) -> Result<bool, NoMemory>
    requires { out.old.items ≡ [] }
    ensures given { IfOk result (λ some. GivesFirst some (wire_lines wires.old.items) (wire_lines wires.new.items) out.new.items) }
    ensures same { OnErr result (wires.new.items ≡ wires.old.items) }
{
    match wires.front() {
        Some(wire) => {
            push_wire_line(out, *wire)?;
            wires.pop_front();
            Ok(true)
        }
        None => Ok(false),
    }
}

fn next_note(notes: &mut VecDeque<ScriptNote>, out: &mut Vec<u8>) -> Result<bool, NoMemory>
    requires { out.old.items ≡ [] }
    ensures given { IfOk result (λ some. GivesFirst some (note_lines notes.old.items) (note_lines notes.new.items) out.new.items) }
    ensures same { OnErr result (notes.new.items ≡ notes.old.items) }
{
    match notes.front() {
        Some(note) => {
            push_note_line(out, *note)?;
            notes.pop_front();
            Ok(true)
        }
        None => Ok(false),
    }
}

fn next_last(last: &mut Option<Last>, out: &mut Vec<u8>) -> Result<bool, NoMemory>
    requires { out.old.items ≡ [] }
    ensures given { IfOk result (λ some. GivesFirst some (last_line last.old) (last_line last.new) out.new.items) }
    ensures same { OnErr result (last.new ≡ last.old) }
{
    match *last {
        Some(some) => {
            push_last_line(out, some)?;
            *last = None;
            Ok(true)
        }
        None => Ok(false),
    }
}
