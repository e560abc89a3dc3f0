//! What stands behind strings of bytes, ends and values that a text begins with, of which none is kept. `None` promises nothing.
ghost use Rattle.std.specs.Prelude.{◌≡◌, ◌∷◌, ◌++◌, [], IfSome};
ghost use Rattle.charlotte_calls.specs.Ranges.{IsU8, IsU32};
ghost use Rattle.charlotte_packets.specs.Ranges.{IsValueInRange};
ghost use Rattle.leading_lines.specs.Past.{HasBytes, HasEnds, HasValues};
ghost use Rattle.transcript_lines.specs.Transcript.{bit, fields_text, value_text};

use crate::behind::{behind_byte, behind_short};
use crate::values::{leading_end, leading_u8, leading_u32, plain_count};
use charlotte_packets::MovingPicture;

/// Behind a string of bytes that stand for themselves, or of none.
pub(crate) fn past_bytes(text: &[u8]) -> Option<&[u8]>
    ensures { IfSome result (λ rest. HasBytes text.now rest.now) }
{
    match behind_byte(text, b'-') {
        Some(rest) => Some(rest),
        None => past_plain(text),
    }
}

fn past_plain(text: &[u8]) -> Option<&[u8]>
    ensures { IfSome result (λ rest. HasBytes text.now rest.now) }
{
    let (word, rest) = text.split_at(plain_count(text));
    if word.is_empty() {
        return None;
    }
    if word.len() > 256 {
        return None;
    }
    Some(rest)
}

/// Behind ends, at most so many, each behind a blank and a plus.
pub(crate) fn past_ends(text: &[u8], most: usize) -> Option<&[u8]>
    ensures { IfSome result (λ rest. HasEnds most text.now rest.now) }
{
    let Some(word) = behind_short(text, b" +") else {
        return Some(text);
    };
    if most == 0 {
        return None;
    }
    let (end, rest) = leading_end(word)?;
    past_ends(rest, most - 1)
}

/// Behind the values of ends, at most so many, each behind a blank and a plus.
pub(crate) fn past_values(text: &[u8], most: usize) -> Option<&[u8]>
    ensures { IfSome result (λ rest. HasValues most text.now rest.now) }
{
    let Some(word) = behind_short(text, b" +") else {
        return Some(text);
    };
    if most == 0 {
        return None;
    }
    let (value, rest) = leading_value(word)?;
    past_values(rest, most - 1)
}

/// An end and nine numbers, each behind a colon.
fn leading_value(text: &[u8]) -> Option<(MovingPicture, &[u8])>
    ensures spelled { IfSome result (λ x. text.now ≡ value_text x.0 ++ x.1.now) }
    ensures fits { IfSome result (λ x. IsValueInRange x.0) }
{
    let (end, rest) = leading_end(text)?;
    let ((hops, hint), rest) = leading_heard(rest)?;
    let ((sent, asked, served, want), rest) = leading_counts(rest)?;
    let ((dead, trail), rest) = leading_marks(rest)?;
    let value = MovingPicture {
        end,
        hops,
        hint,
        sent,
        asked,
        served,
        want,
        dead,
        trail,
    };
    Some((value, rest))
}

/// A number of 32 bits behind a colon.
#[inline(always)]
fn leading_field(text: &[u8]) -> Option<(u32, &[u8])>
    ensures spelled { IfSome result (λ x. text.now ≡ fields_text (x.0 ∷ []) ++ x.1.now) }
    ensures fits { IfSome result (λ x. IsU32 x.0) }
{
    leading_u32(behind_byte(text, b':')?)
}

/// A number below 256 behind a colon.
#[inline(always)]
fn leading_small(text: &[u8]) -> Option<(u8, &[u8])>
    ensures spelled { IfSome result (λ x. text.now ≡ fields_text (x.0 ∷ []) ++ x.1.now) }
    ensures fits { IfSome result (λ x. IsU8 x.0) }
{
    leading_u8(behind_byte(text, b':')?)
}

/// The hops of an end, and where its opposite end is.
#[inline(always)]
fn leading_heard(text: &[u8]) -> Option<((u32, (u8, u32)), &[u8])>
    ensures spelled { IfSome result (λ x. text.now ≡ fields_text (x.0.0 ∷ x.0.1.0 ∷ x.0.1.1 ∷ []) ++ x.1.now) }
    ensures fits { IfSome result (λ x. IsU32 x.0.0 × IsU8 x.0.1.0 × IsU32 x.0.1.1) }
{
    let (hops, rest) = leading_field(text)?;
    let (at, rest) = leading_small(rest)?;
    let (far, rest) = leading_field(rest)?;
    Some(((hops, (at, far)), rest))
}

/// The numbers of the activities of an end.
#[inline(always)]
fn leading_counts(text: &[u8]) -> Option<((u32, u32, u32, u32), &[u8])>
    ensures spelled { IfSome result (λ x. text.now ≡ fields_text (x.0.0 ∷ x.0.1 ∷ x.0.2 ∷ x.0.3 ∷ []) ++ x.1.now) }
    ensures fits { IfSome result (λ x. IsU32 x.0.0 × IsU32 x.0.1 × IsU32 x.0.2 × IsU32 x.0.3) }
{
    let (sent, rest) = leading_field(text)?;
    let (asked, rest) = leading_field(rest)?;
    let (served, rest) = leading_field(rest)?;
    let (want, rest) = leading_field(rest)?;
    Some(((sent, asked, served, want), rest))
}

/// Whether the death of a link was noticed, and the trail of an end.
#[inline(always)]
fn leading_marks(text: &[u8]) -> Option<((bool, u8), &[u8])>
    ensures spelled { IfSome result (λ x. text.now ≡ fields_text (bit x.0.0 ∷ x.0.1 ∷ []) ++ x.1.now) }
    ensures fits { IfSome result (λ x. IsU8 x.0.1) }
{
    let (said, rest) = leading_small(text)?;
    if said > 1 {
        return None;
    }
    let (trail, rest) = leading_small(rest)?;
    Some(((said == 1, trail), rest))
}
