//! Bytes as printable text.
ghost use Rattle.std.specs.Prelude.{◌≡◌, ◌<◌, ◌++◌, IfOk, OnOk, length, take};
ghost use Rattle.std.specs.List.{flat_map};
ghost use Rattle.transcript_lines.specs.Transcript.{line};
ghost use Rattle.transcript_shown.specs.Shown.{labelled, shown, shown_byte};

use charlotte_calls::NoMemory;
use charlotte_text::{hex_digit, push_number};
use std::alloc::Global;

/// The most bytes of a text that are shown.
const MOST_SHOWN: usize = 4096;

/// A line that shows a text behind a label.
pub fn labelled_line(alloc: Global, label: &[u8], text: &[u8]) -> Result<Vec<u8>, NoMemory>
    ensures { IfOk result (λ l. l.items ≡ line (labelled label.now text.now)) }
{
    let mut out = label.to_vec(alloc)?;
    push_shown(&mut out, text)?;
    out.push(b'\n')?;
    Ok(out)
}

/// Appends what is shown of a text: at most so many bytes, and how many more there are.
pub(crate) fn push_shown(out: &mut Vec<u8>, text: &[u8]) -> Result<(), NoMemory>
    ensures { OnOk result (out.new.items ≡ out.old.items ++ shown text.now) }
{
    if text.len() <= MOST_SHOWN {
        return push_each(out, text);
    }
    push_each(out, head(text))?;
    out.extend_from_slice(b"\\... ")?;
    push_number(out, (text.len() - MOST_SHOWN) as u64)?;
    out.extend_from_slice(b" more")?;
    Ok(())
}

/// The part of a longer text that is shown.
fn head(text: &[u8]) -> &[u8]
    requires { 4096 < length text.now }
    ensures { result.now ≡ take 4096 text.now }
{
    text.split_at(MOST_SHOWN).0
}

fn push_each(out: &mut Vec<u8>, bytes: &[u8]) -> Result<(), NoMemory>
    ensures { OnOk result (out.new.items ≡ out.old.items ++ flat_map shown_byte bytes.now) }
{
    for byte in bytes {
        push_byte(out, *byte)?;
    }
    Ok(())
}

fn push_byte(out: &mut Vec<u8>, byte: u8) -> Result<(), NoMemory>
    ensures { OnOk result (out.new.items ≡ out.old.items ++ shown_byte byte) }
{
    if byte == b'\\' {
        out.extend_from_slice(b"\\\\")?;
    } else if 32 <= byte && byte <= 126 {
        out.push(byte)?;
    } else {
        out.extend_from_slice(&[b'\\', b'x', hex_digit(byte / 16), hex_digit(byte % 16)])?;
    }
    Ok(())
}
