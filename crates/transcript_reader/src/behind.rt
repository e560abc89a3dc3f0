//! What stands behind a value in a text that begins with it. `None` promises nothing: who expects the value may read the text in another way.
ghost use Rattle.std.specs.Prelude.{◌≡◌, ◌<◌, ◌++◌, IfSome};
ghost use Rattle.std.specs.List.{flat_map};
ghost use Rattle.charlotte_text.specs.Spelling.{byte_text, bytes_text, end_text, ends_text, number_text, process_text, side_text, way_text};

use charlotte_calls::{EndId, Pid, Side, Way};
use charlotte_text::{hex_digit, is_plain};
use leading_lines::{behind_byte, behind_short, leading_number};

/// Behind a decimal number. Most have one digit.
#[inline(always)]
pub(crate) fn behind_number(text: &[u8], number: u64) -> Option<&[u8]>
    ensures { IfSome result (λ rest. text.now ≡ number_text number ++ rest.now) }
{
    if number < 10 {
        behind_digit(text, number as u8)
    } else {
        behind_digits(text, number)
    }
}

#[inline(always)]
#[tactic(auto, using(std::proofs::lemmas::Fmt::decimal_digit))]
fn behind_digit(text: &[u8], digit: u8) -> Option<&[u8]>
    requires { digit < 10 }
    ensures { IfSome result (λ rest. text.now ≡ number_text digit ++ rest.now) }
{
    behind_byte(text, b'0' + digit)
}

fn behind_digits(text: &[u8], number: u64) -> Option<&[u8]>
    ensures { IfSome result (λ rest. text.now ≡ number_text number ++ rest.now) }
{
    let (read, rest) = leading_number(text)?;
    if read == number { Some(rest) } else { None }
}

/// Behind an end, as `0.1b`.
#[inline(always)]
pub(crate) fn behind_end(text: &[u8], end: EndId) -> Option<&[u8]>
    ensures { IfSome result (λ rest. text.now ≡ end_text end ++ rest.now) }
{
    let rest = behind_number(text, u64::from(end.link.maker))?;
    let rest = behind_byte(rest, b'.')?;
    let rest = behind_number(rest, u64::from(end.link.count))?;
    behind_side(rest, end.side)
}

#[inline(always)]
fn behind_side(text: &[u8], side: Side) -> Option<&[u8]>
    ensures { IfSome result (λ rest. text.now ≡ side_text side ++ rest.now) }
{
    match side {
        Side::A => behind_byte(text, b'a'),
        Side::B => behind_byte(text, b'b'),
    }
}

/// Behind ends, each behind a blank and a plus.
#[inline(always)]
pub(crate) fn behind_ends<'a>(text: &'a [u8], ends: &[EndId]) -> Option<&'a [u8]>
    ensures { IfSome result (λ rest. text.now ≡ ends_text ends.now ++ rest.now) }
{
    let mut rest = text;
    for end in ends {
        rest = behind_end(behind_short(rest, b" +")?, *end)?;
    }
    Some(rest)
}

/// Behind a process, as `p7`.
#[inline(always)]
pub(crate) fn behind_process(text: &[u8], p: Pid) -> Option<&[u8]>
    ensures { IfSome result (λ rest. text.now ≡ process_text p ++ rest.now) }
{
    behind_number(behind_byte(text, b'p')?, u64::from(p.0))
}

/// Behind a direction, `in` or `out`.
#[inline(always)]
pub(crate) fn behind_way(text: &[u8], way: Way) -> Option<&[u8]>
    ensures { IfSome result (λ rest. text.now ≡ way_text way ++ rest.now) }
{
    match way {
        Way::Inward => behind_short(text, b"in"),
        Way::Outward => behind_short(text, b"out"),
    }
}

/// Behind a string of bytes.
pub(crate) fn behind_bytes<'a>(text: &'a [u8], bytes: &[u8]) -> Option<&'a [u8]>
    ensures { IfSome result (λ rest. text.now ≡ bytes_text bytes.now ++ rest.now) }
{
    if bytes.is_empty() {
        return behind_byte(text, b'-');
    }
    behind_each(text, bytes)
}

fn behind_each<'a>(text: &'a [u8], bytes: &[u8]) -> Option<&'a [u8]>
    ensures { IfSome result (λ rest. text.now ≡ flat_map byte_text bytes.now ++ rest.now) }
{
    let mut rest = text;
    for byte in bytes {
        rest = behind_spelled(rest, *byte)?;
    }
    Some(rest)
}

/// Behind a byte of a string, which stands for itself or is spelled by two digits.
#[inline(always)]
fn behind_spelled(text: &[u8], byte: u8) -> Option<&[u8]>
    ensures { IfSome result (λ rest. text.now ≡ byte_text byte ++ rest.now) }
{
    if is_plain(byte) {
        return behind_byte(text, byte);
    }
    let rest = behind_byte(text, b'%')?;
    behind_byte(
        behind_byte(rest, hex_digit(byte / 16))?,
        hex_digit(byte % 16),
    )
}
