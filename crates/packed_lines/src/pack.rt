//! Packing lines that spell coded bytes: a code of three bytes becomes one byte or two.
ghost use Rattle.std.specs.Prelude.{◌≡◌, ◌+◌, ◌≤◌, ◌<◌, ◌++◌, None, OnOk, Some, if◌then◌else◌, length, vec_len, vec_capacity};
ghost use Rattle.std.specs.List.{list_all};
ghost use Rattle.packed_lines.specs.Packed.{code_value, is_code, is_unmarked, packed, packs, piece_at, piece_packed};

use crate::piece::{ESCAPE, Piece, is_alone, piece_of};
use charlotte_calls::NoMemory;
use charlotte_text::digit_value;

/// Whether a line is kept packed. Of a short one little would be saved.
#[tactic(auto, unfolding(crate::specs::Packed::packs))]
#[inline(always)]
pub(crate) fn is_packed(line: &[u8]) -> bool
    ensures { result ≡ packs line.now }
{
    line.len() >= 512 && !all_unmarked(line)
}

/// Whether no byte is the mark of a code. The loop has no early end, so that it is made of steps over many bytes.
#[inline(never)]
fn all_unmarked(line: &[u8]) -> bool
    ensures { result ≡ list_all is_unmarked line.now }
{
    let mut all = true;
    for byte in line {
        all &= *byte != b'%';
    }
    all
}

/// Appends a text, packed.
pub(crate) fn push_packed(out: &mut Vec<u8>, text: &[u8]) -> Result<(), NoMemory>
    ensures { OnOk result (out.new.items ≡ out.old.items ++ packed text.now) }
{
    out.reserve(2 * text.len())?;
    let mut rest = text;
    while !rest.is_empty() {
        let (piece, behind) = first_piece(rest);
        push_piece(out, piece);
        rest = behind;
    }
    Ok(())
}

/// The first piece of a text, and what stands behind it.
fn first_piece(text: &[u8]) -> (Piece, &[u8])
    ensures exact { (result.0, result.1.now) ≡ piece_at text.now }
    ensures shorter { 0 < length text.now → length result.1.now < length text.now }
{
    if let [b'%', high, low, rest @ ..] = text
        && let Some(byte) = coded(*high, *low)
    {
        return (piece_of(false, byte), rest);
    }
    match text {
        [byte, rest @ ..] => (piece_of(true, *byte), rest),
        [] => (piece_of(true, 0), text),
    }
}

/// The byte whose code has these digits, if they are those of a code that can be packed.
fn coded(high: u8, low: u8) -> Option<u8>
    ensures { result ≡ (if is_code high low then Some (code_value high low) else None) }
{
    let (high, low) = (digit_value(high), digit_value(low));
    if high < 16 && low < 16 && 16 * high + low != ESCAPE {
        Some(16 * high + low)
    } else {
        None
    }
}

fn push_piece(out: &mut Vec<u8>, piece: Piece)
    requires { vec_len out.old + 2 ≤ vec_capacity out.old }
    ensures items { out.new.items ≡ out.old.items ++ piece_packed piece }
    ensures len { vec_len out.new ≤ vec_len out.old + 2 }
    ensures capacity { vec_capacity out.new ≡ vec_capacity out.old }
{
    if !is_alone(piece) {
        out.push_reserved(ESCAPE);
    }
    out.push_reserved(piece.byte);
}
