ghost use Rattle.std.specs.Prelude.{◌≡◌, ◌+◌, ◌<◌, ◌≤◌, ◌++◌, ℕ, List, OnOk, OnErr, IfOk, IfSome, Ok, if◌then◌else◌, true, nat_le, length, vec_capacity, vec_len};
ghost use Rattle.charlotte_text.specs.Spelling.{is_plain, hex_digit, byte_text, bytes_text, AreBytes};
ghost use Rattle.charlotte_text.specs.Reading.{Gives, hex_value, escaped, byte_at, spelled, bytes_of};
ghost use Rattle.std.specs.List.{flat_map, list_all};

use crate::fault::Fault;
use crate::part::is_word;
use arrayvec::ArrayVec;
use charlotte_calls::{Bytes, NoMemory};

/// Appends a string of bytes: letters, digits, `_` and `.` as themselves, every other byte as `%` and two upper-case
/// hexadecimal digits, and `-` where there are no bytes.
pub fn push_bytes(out: &mut Vec<u8>, bytes: &[u8]) -> Result<(), NoMemory>
    ensures ok { OnOk result (out.new.items ≡ out.old.items ++ bytes_text bytes.now) }
    ensures err { OnErr result (out.new.items ≡ out.old.items) }
{
    if bytes.is_empty() {
        out.push(b'-')?;
        return Ok(());
    }
    // Where the first is coded the others need not be looked at.
    if is_plain(bytes[0]) && all_plain(bytes) {
        return push_plain(out, bytes);
    }
    push_coded(out, bytes)
}

// Bytes that all stand for themselves are appended at once.
fn push_plain(out: &mut Vec<u8>, bytes: &[u8]) -> Result<(), NoMemory>
    requires { list_all is_plain bytes.now ≡ true }
    ensures ok { OnOk result (out.new.items ≡ out.old.items ++ flat_map byte_text bytes.now) }
    ensures err { OnErr result (out.new.items ≡ out.old.items) }
{
    out.extend_from_slice(bytes)?;
    Ok(())
}

// There is room for all bytes before the first is appended.
fn push_coded(out: &mut Vec<u8>, bytes: &[u8]) -> Result<(), NoMemory>
    ensures ok { OnOk result (out.new.items ≡ out.old.items ++ flat_map byte_text bytes.now) }
    ensures err { OnErr result (out.new.items ≡ out.old.items) }
{
    let Some(room) = bytes.len().checked_mul(3) else {
        return Err(NoMemory);
    };
    out.reserve(room)?;
    for byte in bytes {
        push_byte(out, *byte);
    }
    Ok(())
}

#[inline(always)]
fn push_byte(out: &mut Vec<u8>, byte: u8)
    requires { vec_len out.old + 3 ≤ vec_capacity out.old }
    ensures items { out.new.items ≡ out.old.items ++ byte_text byte }
    ensures len { vec_len out.new ≤ vec_len out.old + 3 }
    ensures capacity { vec_capacity out.new ≡ vec_capacity out.old }
{
    if is_plain(byte) {
        out.push_reserved(byte);
    } else {
        out.push_reserved(b'%');
        out.push_reserved(hex_digit(byte / 16));
        out.push_reserved(hex_digit(byte % 16));
    }
}

/// Whether the byte stands for itself in a text, as letters, digits, `_` and `.` do.
#[inline(always)]
pub fn is_plain(byte: u8) -> bool
    ensures { result ≡ is_plain byte }
{
    // Most bytes that are coded are outside of this range, and so are told at once.
    if byte < b'.' || b'z' < byte {
        return false;
    }
    matches!(byte, b'0'..=b'9' | b'A'..=b'Z' | b'a'..=b'z' | b'_' | b'.')
}

/// Whether each byte stands for itself. The loop has no early end, so that it is made of steps over many bytes.
fn all_plain(bytes: &[u8]) -> bool
    ensures { result ≡ list_all is_plain bytes.now }
{
    let mut all = true;
    for byte in bytes {
        all &= is_plain(*byte);
    }
    all
}

/// The upper-case hexadecimal digit of a value below 16.
pub fn hex_digit(value: u8) -> u8
    requires { value < 16 }
    ensures { result ≡ hex_digit value }
{
    if value <= 9 {
        b'0' + value
    } else {
        b'A' - 10 + value
    }
}

/// The bytes that a word spells. `Long` where its form is right and it spells more than 256.
pub fn read_bytes(word: &[u8]) -> Result<Bytes, Fault>
    ensures exact { result ≡ bytes_of word.now }
    ensures found { IfOk result (λ bytes. word.now ≡ bytes_text bytes) }
    ensures long { result ≡ Err Fault.Long → (bytes : List ℕ) × (256 < length bytes) × (word.now ≡ bytes_text bytes) }
    ensures only { (bytes : List ℕ) → AreBytes bytes → word.now ≡ bytes_text bytes → result ≡ (if nat_le (length bytes) 256 then Ok bytes else Err Fault.Long) }
{
    parse_bytes(word)
}

#[tactic(auto, unfolding(crate::specs::Reading::bytes_of))]
fn parse_bytes(word: &[u8]) -> Result<Bytes, Fault>
    ensures { result ≡ bytes_of word.now }
{
    if is_word(word, b"-") {
        return Bytes::from_slice(&[]).ok_or(Fault::Long);
    }
    if word.is_empty() {
        return Err(Fault::Form);
    }
    decode(word)
}

/// The bytes that a word spells where all of them stand for themselves and are at most 256, which are not moved again.
#[tactic(auto, using(crate::proofs::Texts::plain_kept))]
pub(crate) fn plain_bytes(word: &[u8]) -> Option<Bytes>
    ensures { IfSome result (λ bytes. bytes_of word.now ≡ Ok bytes) }
{
    if word.is_empty() || !all_plain(word) {
        return None;
    }
    Bytes::from_slice(word)
}

// A word whose bytes all stand for themselves spells them.
fn read_plain(word: &[u8]) -> Result<Bytes, Fault>
    requires { list_all is_plain word.now ≡ true }
    ensures { result ≡ spelled word.now }
{
    Bytes::from_slice(word).ok_or(Fault::Long)
}

fn decode(word: &[u8]) -> Result<Bytes, Fault>
    ensures { result ≡ spelled word.now }
{
    if all_plain(word) {
        return read_plain(word);
    }
    // One byte more than a text may have shows that it is too long.
    let mut kept = ArrayVec::<u8, 257>::new();
    let mut rest = word;
    while !rest.is_empty() {
        let (byte, after) = read_byte(rest)?;
        if !kept.is_full() {
            kept.push(byte);
        }
        rest = after;
    }
    Bytes::from_slice(kept.as_slice()).ok_or(Fault::Long)
}

/// The first byte that is spelled, and what stands behind its spelling.
fn read_byte(text: &[u8]) -> Result<(u8, &[u8]), Fault>
    ensures exact { Gives (λ x. (x.0, x.1.now)) result (byte_at text.now) }
    ensures shorter { IfOk result (λ x. length x.1.now < length text.now) }
{
    match text {
        [byte, rest @ ..] if is_plain(*byte) => Ok((*byte, rest)),
        [b'%', high, low, rest @ ..] => Ok((unescape(*high, *low)?, rest)),
        _ => Err(Fault::Form),
    }
}

fn unescape(high: u8, low: u8) -> Result<u8, Fault>
    ensures { result ≡ escaped high low }
{
    let (high, low) = (digit_value(high), digit_value(low));
    if high < 16 && low < 16 && !is_plain(16 * high + low) {
        Ok(16 * high + low)
    } else {
        Err(Fault::Form)
    }
}

/// The value of an upper-case hexadecimal digit, and 16 where a byte is none.
pub fn digit_value(digit: u8) -> u8
    ensures { result ≡ hex_value digit }
{
    match digit {
        b'0'..=b'9' => digit - b'0',
        b'A'..=b'F' => digit - (b'A' - 10),
        _ => 16,
    }
}
