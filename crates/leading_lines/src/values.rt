//! Values that a text begins with, and what stands behind them. `None` promises nothing.
ghost use Rattle.std.specs.Prelude.{◌≡◌, ◌≤◌, ◌∷◌, ◌++◌, [], IfSome, codes, length, take, true};
ghost use Rattle.std.specs.List.{list_all};
ghost use Rattle.charlotte_calls.specs.Ranges.{IsPid, IsU8, IsU32};
ghost use Rattle.charlotte_text.specs.Spelling.{AreBytes, IsEnd, bytes_text, end_text, is_plain, number_text, process_text, side_text, way_text};
ghost use Rattle.transcript_lines.specs.Transcript.{numbers_text, suffix_text};

use crate::behind::{behind_byte, behind_short, behind_word};
use crate::number::leading_number;
use charlotte_calls::{Bytes, EndId, LinkId, Pid, Side, Way};
use charlotte_text::is_plain;

/// A number below 256.
#[inline(always)]
pub(crate) fn leading_u8(text: &[u8]) -> Option<(u8, &[u8])>
    ensures spelled { IfSome result (λ x. text.now ≡ number_text x.0 ++ x.1.now) }
    ensures fits { IfSome result (λ x. IsU8 x.0) }
{
    let (number, rest) = leading_number(text)?;
    if number >= 256 {
        return None;
    }
    Some((number as u8, rest))
}

/// A number of 32 bits.
#[inline(always)]
pub(crate) fn leading_u32(text: &[u8]) -> Option<(u32, &[u8])>
    ensures spelled { IfSome result (λ x. text.now ≡ number_text x.0 ++ x.1.now) }
    ensures fits { IfSome result (λ x. IsU32 x.0) }
{
    let (number, rest) = leading_number(text)?;
    if number >= 4_294_967_296 {
        return None;
    }
    Some((number as u32, rest))
}

/// A blank and a number of 32 bits.
#[inline(always)]
pub(crate) fn leading_count(text: &[u8]) -> Option<(u32, &[u8])>
    ensures spelled { IfSome result (λ x. text.now ≡ numbers_text (x.0 ∷ []) ++ x.1.now) }
    ensures fits { IfSome result (λ x. IsU32 x.0) }
{
    leading_u32(behind_byte(text, b' ')?)
}

/// A blank, the kernel of an end, a blank and its hops.
#[inline(always)]
pub(crate) fn leading_place(text: &[u8]) -> Option<((u8, u32), &[u8])>
    ensures spelled { IfSome result (λ x. text.now ≡ numbers_text (x.0.0 ∷ x.0.1 ∷ []) ++ x.1.now) }
    ensures fits { IfSome result (λ x. IsU8 x.0.0 × IsU32 x.0.1) }
{
    let (at, rest) = leading_u8(behind_byte(text, b' ')?)?;
    let (hops, rest) = leading_count(rest)?;
    Some(((at, hops), rest))
}

/// An end, as `0.1b`.
#[inline(always)]
pub(crate) fn leading_end(text: &[u8]) -> Option<(EndId, &[u8])>
    ensures spelled { IfSome result (λ x. text.now ≡ end_text x.0 ++ x.1.now) }
    ensures fits { IfSome result (λ x. IsEnd x.0) }
{
    let (maker, rest) = leading_number(text)?;
    let (count, rest) = leading_number(behind_byte(rest, b'.')?)?;
    let (side, rest) = leading_side(rest)?;
    if maker >= 256 || count >= 4_294_967_296 {
        return None;
    }
    let link = LinkId {
        maker: maker as u8,
        count: count as u32,
    };
    Some((EndId { link, side }, rest))
}

#[inline(always)]
fn leading_side(text: &[u8]) -> Option<(Side, &[u8])>
    ensures { IfSome result (λ x. text.now ≡ side_text x.0 ++ x.1.now) }
{
    match text {
        [b'a', rest @ ..] => Some((Side::A, rest)),
        [b'b', rest @ ..] => Some((Side::B, rest)),
        _ => None,
    }
}

/// An end behind a word with its blank.
#[inline(always)]
pub(crate) fn leading_on<'a>(text: &'a [u8], word: &[u8]) -> Option<(EndId, &'a [u8])>
    ensures spelled { IfSome result (λ x. text.now ≡ word.now ++ end_text x.0 ++ x.1.now) }
    ensures fits { IfSome result (λ x. IsEnd x.0) }
{
    leading_end(behind_word(text, word)?)
}

/// An end and a number, behind a word with its blank.
#[inline(always)]
pub(crate) fn leading_numbered<'a>(text: &'a [u8], word: &[u8]) -> Option<((EndId, u32), &'a [u8])>
    ensures spelled { IfSome result (λ x. text.now ≡ word.now ++ end_text x.0.0 ++ numbers_text (x.0.1 ∷ []) ++ x.1.now) }
    ensures fits { IfSome result (λ x. IsEnd x.0.0 × IsU32 x.0.1) }
{
    let (on, rest) = leading_on(text, word)?;
    let (number, rest) = leading_count(rest)?;
    Some(((on, number), rest))
}

/// A process, as `p7`.
#[inline(always)]
pub(crate) fn leading_process(text: &[u8]) -> Option<(Pid, &[u8])>
    ensures spelled { IfSome result (λ x. text.now ≡ process_text x.0 ++ x.1.now) }
    ensures fits { IfSome result (λ x. IsPid x.0) }
{
    let (number, rest) = leading_number(behind_byte(text, b'p')?)?;
    if number >= 65536 {
        return None;
    }
    Some((Pid(number as u16), rest))
}

/// A process behind a word with its blank.
#[inline(always)]
pub(crate) fn leading_of<'a>(text: &'a [u8], word: &[u8]) -> Option<(Pid, &'a [u8])>
    ensures spelled { IfSome result (λ x. text.now ≡ word.now ++ process_text x.0 ++ x.1.now) }
    ensures fits { IfSome result (λ x. IsPid x.0) }
{
    leading_process(behind_word(text, word)?)
}

/// A direction, `in` or `out`.
#[inline(always)]
pub(crate) fn leading_way(text: &[u8]) -> Option<(Way, &[u8])>
    ensures { IfSome result (λ x. text.now ≡ way_text x.0 ++ x.1.now) }
{
    match text {
        [b'i', b'n', rest @ ..] => Some((Way::Inward, rest)),
        [b'o', b'u', b't', rest @ ..] => Some((Way::Outward, rest)),
        _ => None,
    }
}

/// Whether a blank and a word stand there.
#[inline(always)]
pub(crate) fn leading_suffix<'a>(text: &'a [u8], word: &[u8]) -> (bool, &'a [u8])
    ensures { text.now ≡ suffix_text result.0 word.now ++ result.1.now }
{
    match behind_blank(text, word) {
        Some(rest) => (true, rest),
        None => (false, text),
    }
}

#[inline(always)]
fn behind_blank<'a>(text: &'a [u8], word: &[u8]) -> Option<&'a [u8]>
    ensures { IfSome result (λ rest. text.now ≡ codes " " ++ word.now ++ rest.now) }
{
    behind_short(behind_byte(text, b' ')?, word)
}

/// A string of bytes that stand for themselves, or of none.
pub(crate) fn leading_bytes(text: &[u8]) -> Option<(Bytes, &[u8])>
    ensures spelled { IfSome result (λ x. text.now ≡ bytes_text x.0 ++ x.1.now) }
    ensures each { IfSome result (λ x. AreBytes x.0) }
    ensures few { IfSome result (λ x. length x.0 ≤ 256) }
{
    match text {
        [b'-', rest @ ..] => {
            let bytes = Bytes::from_slice(&[])?;
            Some((bytes, rest))
        }
        _ => leading_plain(text),
    }
}

fn leading_plain(text: &[u8]) -> Option<(Bytes, &[u8])>
    ensures spelled { IfSome result (λ x. text.now ≡ bytes_text x.0 ++ x.1.now) }
    ensures each { IfSome result (λ x. AreBytes x.0) }
    ensures few { IfSome result (λ x. length x.0 ≤ 256) }
{
    let (word, rest) = text.split_at(plain_count(text));
    if word.is_empty() {
        return None;
    }
    let bytes = Bytes::from_slice(word)?;
    Some((bytes, rest))
}

/// How many bytes that stand for themselves a text begins with.
pub(crate) fn plain_count(text: &[u8]) -> usize
    ensures within { result ≤ length text.now }
    ensures plain { list_all is_plain (take result text.now) ≡ true }
{
    let mut count = 0;
    while count < text.len() && is_plain(text[count]) {
        count += 1;
    }
    count
}
