ghost use Rattle.std.specs.Prelude.{◌≡◌, [], ◌++◌, IfOk, OnOk, map};
ghost use Rattle.charlotte_text.specs.Spelling.{number_text};
ghost use Rattle.transcript_lines.specs.Transcript.{line, process_home_text, process_lines, wire_text};

use crate::packet::push_numbers;
use charlotte_calls::{NoMemory, Pid};
use charlotte_text::push_number;
use std::alloc::Global;

/// An empty line, with room for a usual one.
pub(crate) fn empty_line(alloc: Global) -> Result<Vec<u8>, NoMemory>
    ensures { IfOk result (λ text. text.items ≡ []) }
{
    Ok(Vec::with_capacity(alloc, 40)?)
}

/// Appends the line of a word with its blank, and a number.
pub fn push_number_line(out: &mut Vec<u8>, word: &[u8], number: u8) -> Result<(), NoMemory>
    ensures { OnOk result (out.new.items ≡ out.old.items ++ line (word.now ++ number_text number)) }
{
    out.extend_from_slice(word)?;
    push_number(out, u64::from(number))?;
    out.push(b'\n')?;
    Ok(())
}

pub(crate) fn number_line(alloc: Global, word: &[u8], number: u8) -> Result<Vec<u8>, NoMemory>
    ensures { IfOk result (λ text. text.items ≡ line (word.now ++ number_text number)) }
{
    let mut text = empty_line(alloc)?;
    push_number_line(&mut text, word, number)?;
    Ok(text)
}

/// Appends the line of a process with its kernel, as `process 0 on 1`.
pub fn push_process_line(out: &mut Vec<u8>, number: usize, home: u8) -> Result<(), NoMemory>
    ensures { OnOk result (out.new.items ≡ out.old.items ++ line (process_home_text number home)) }
{
    out.extend_from_slice(b"process ")?;
    push_number(out, number as u64)?;
    out.extend_from_slice(b" on ")?;
    push_number(out, u64::from(home))?;
    out.push(b'\n')?;
    Ok(())
}

fn process_line(alloc: Global, number: usize, home: u8) -> Result<Vec<u8>, NoMemory>
    ensures { IfOk result (λ text. text.items ≡ line (process_home_text number home)) }
{
    let mut text = empty_line(alloc)?;
    push_process_line(&mut text, number, home)?;
    Ok(text)
}

/// Appends the line of a wire, as `wire 0 1`.
pub fn push_wire_line(out: &mut Vec<u8>, wire: (Pid, Pid)) -> Result<(), NoMemory>
    ensures { OnOk result (out.new.items ≡ out.old.items ++ line (wire_text wire)) }
{
    out.extend_from_slice(b"wire")?;
    push_numbers(out, b' ', &[u32::from(wire.0.0), u32::from(wire.1.0)])?;
    out.push(b'\n')?;
    Ok(())
}

fn wire_line(alloc: Global, wire: (Pid, Pid)) -> Result<Vec<u8>, NoMemory>
    ensures { IfOk result (λ text. text.items ≡ line (wire_text wire)) }
{
    let mut text = empty_line(alloc)?;
    push_wire_line(&mut text, wire)?;
    Ok(text)
}

pub(crate) fn push_process_lines(
    alloc: Global,
    lines: &mut Vec<Vec<u8>>,
    homes: &[u8],
) -> Result<(), NoMemory>
    ensures { OnOk result (map (λ l. l.items) lines.new.items ≡ map (λ l. l.items) lines.old.items ++ process_lines 0 homes.now) }
{
    for (number, home) in homes.iter().enumerate() {
        lines.push(process_line(alloc, number, *home)?)?;
    }
    Ok(())
}

pub(crate) fn push_wire_lines(
    alloc: Global,
    lines: &mut Vec<Vec<u8>>,
    wires: &[(Pid, Pid)],
) -> Result<(), NoMemory>
    ensures { OnOk result (map (λ l. l.items) lines.new.items ≡ map (λ l. l.items) lines.old.items ++ map (λ wire. line (wire_text wire)) wires.now) }
{
    for wire in wires {
        lines.push(wire_line(alloc, *wire)?)?;
    }
    Ok(())
}
