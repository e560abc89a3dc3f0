//! Giving the text of packed lines.
ghost use Rattle.std.specs.Prelude.{◌≡◌, ◌+◌, ◌≤◌, ◌<◌, ◌++◌, OnOk, length, vec_len, vec_capacity};
ghost use Rattle.packed_lines.specs.Packed.{given, packed_piece_at, piece_text, unpacked};

use crate::piece::{ESCAPE, Piece, piece_of, stands};
use charlotte_calls::NoMemory;
use charlotte_text::hex_digit;

/// Appends the text of a line that is kept so.
#[inline(always)]
pub fn push_line(out: &mut Vec<u8>, kept: &[u8], packed: bool) -> Result<(), NoMemory>
    ensures { OnOk result (out.new.items ≡ out.old.items ++ given packed kept.now) }
{
    if packed {
        return push_unpacked(out, kept);
    }
    out.extend_from_slice(kept)?;
    Ok(())
}

/// Appends the text that was packed so.
#[inline(never)]
fn push_unpacked(out: &mut Vec<u8>, packed: &[u8]) -> Result<(), NoMemory>
    ensures { OnOk result (out.new.items ≡ out.old.items ++ unpacked packed.now) }
{
    let Some(room) = packed.len().checked_mul(3) else {
        return Err(NoMemory);
    };
    out.reserve(room)?;
    let mut rest = packed;
    while !rest.is_empty() {
        let (piece, behind) = first_piece(rest);
        push_piece(out, piece);
        rest = behind;
    }
    Ok(())
}

/// The first piece of a packed text, and what stands behind it.
fn first_piece(packed: &[u8]) -> (Piece, &[u8])
    ensures exact { (result.0, result.1.now) ≡ packed_piece_at packed.now }
    ensures shorter { 0 < length packed.now → length result.1.now < length packed.now }
{
    match packed {
        [ESCAPE, byte, rest @ ..] => (piece_of(!stands(*byte), *byte), rest),
        [byte, rest @ ..] => (piece_of(stands(*byte), *byte), rest),
        [] => (piece_of(true, 0), packed),
    }
}

fn push_piece(out: &mut Vec<u8>, piece: Piece)
    requires { vec_len out.old + 3 ≤ vec_capacity out.old }
    ensures items { out.new.items ≡ out.old.items ++ piece_text piece }
    ensures len { vec_len out.new ≤ vec_len out.old + 3 }
    ensures capacity { vec_capacity out.new ≡ vec_capacity out.old }
{
    if piece.itself {
        out.push_reserved(piece.byte);
    } else {
        out.push_reserved(b'%');
        out.push_reserved(hex_digit(piece.byte / 16));
        out.push_reserved(hex_digit(piece.byte % 16));
    }
}
