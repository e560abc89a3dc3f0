//! The packet that a text begins with. `None` promises nothing: of packets with values only those are found that carry none.
ghost use Rattle.std.specs.Prelude.{◌≡◌, ◌∷◌, ◌++◌, [], ℕ, IfSome};
ghost use Rattle.charlotte_calls.specs.Ranges.{IsU8, IsU32};
ghost use Rattle.charlotte_packets.specs.Ranges.{IsPacketInRange};
ghost use Rattle.charlotte_text.specs.Spelling.{IsEnd, end_text};
ghost use Rattle.transcript_lines.specs.Transcript.{numbers_text, packet_text};
ghost use Rattle.transcript_lines.specs.TranscriptText.{HasFewPacket};

use crate::behind::behind_byte;
use crate::values::{
    leading_bytes, leading_count, leading_numbered, leading_on, leading_place, leading_u8,
};
use charlotte_calls::EndId;
use charlotte_packets::{CargoPicture, PictureWhat};

/// A packet of any kind.
#[inline(always)]
pub(crate) fn leading_packet(text: &[u8]) -> Option<(PictureWhat, &[u8])>
    ensures spelled { IfSome result (λ x. text.now ≡ packet_text x.0 ++ x.1.now) }
    ensures range { IfSome result (λ x. IsPacketInRange x.0) }
    ensures few { IfSome result (λ x. (v : ℕ) → HasFewPacket v x.0) }
{
    match text {
        [b'w', ..] => leading_want(text),
        [b'p', ..] => leading_parcel(text),
        [b't', ..] => leading_taken(text),
        [b'u', _, _, _, _, _, b' ', ..] => leading_unwant(text),
        [b'u', ..] => leading_unwanted(text),
        [b'b', ..] => leading_back(text),
        [b'g', _, _, _, b' ', ..] => leading_gone(text),
        [b'g', ..] => leading_gone_seen(text),
        [b'm', ..] => leading_moved(text),
        [b'k', ..] => leading_known(text),
        [b'f', ..] => leading_forget(text),
        _ => None,
    }
}

/// An end and what a packet tells of an activity, behind a word with its blank.
#[inline(always)]
fn leading_about<'a>(text: &'a [u8], word: &[u8]) -> Option<((EndId, u32, u8, u32), &'a [u8])>
    ensures spelled { IfSome result (λ x. text.now ≡ word.now ++ end_text x.0.0 ++ numbers_text (x.0.1 ∷ x.0.2 ∷ x.0.3 ∷ []) ++ x.1.now) }
    ensures fits { IfSome result (λ x. IsEnd x.0.0 × IsU32 x.0.1 × IsU8 x.0.2 × IsU32 x.0.3) }
{
    let ((to, number), rest) = leading_numbered(text, word)?;
    let ((at, hops), rest) = leading_place(rest)?;
    Some(((to, number, at, hops), rest))
}

#[inline(always)]
fn leading_want(text: &[u8]) -> Option<(PictureWhat, &[u8])>
    ensures spelled { IfSome result (λ x. text.now ≡ packet_text x.0 ++ x.1.now) }
    ensures range { IfSome result (λ x. IsPacketInRange x.0) }
    ensures few { IfSome result (λ x. (v : ℕ) → HasFewPacket v x.0) }
{
    let ((to, w, at, hops), rest) = leading_about(text, b"want ")?;
    Some((PictureWhat::Want { to, w, at, hops }, rest))
}

#[inline(always)]
fn leading_unwant(text: &[u8]) -> Option<(PictureWhat, &[u8])>
    ensures spelled { IfSome result (λ x. text.now ≡ packet_text x.0 ++ x.1.now) }
    ensures range { IfSome result (λ x. IsPacketInRange x.0) }
    ensures few { IfSome result (λ x. (v : ℕ) → HasFewPacket v x.0) }
{
    let ((to, w, at, hops), rest) = leading_about(text, b"unwant ")?;
    Some((PictureWhat::Unwant { to, w, at, hops }, rest))
}

#[inline(always)]
fn leading_unwanted(text: &[u8]) -> Option<(PictureWhat, &[u8])>
    ensures spelled { IfSome result (λ x. text.now ≡ packet_text x.0 ++ x.1.now) }
    ensures range { IfSome result (λ x. IsPacketInRange x.0) }
    ensures few { IfSome result (λ x. (v : ℕ) → HasFewPacket v x.0) }
{
    let ((to, w, at, hops), rest) = leading_about(text, b"unwanted ")?;
    Some((PictureWhat::Unwanted { to, w, at, hops }, rest))
}

#[inline(always)]
fn leading_taken(text: &[u8]) -> Option<(PictureWhat, &[u8])>
    ensures spelled { IfSome result (λ x. text.now ≡ packet_text x.0 ++ x.1.now) }
    ensures range { IfSome result (λ x. IsPacketInRange x.0) }
    ensures few { IfSome result (λ x. (v : ℕ) → HasFewPacket v x.0) }
{
    let ((to, n, at, hops), rest) = leading_about(text, b"taken ")?;
    Some((PictureWhat::Taken { to, n, at, hops }, rest))
}

#[inline(always)]
fn leading_parcel(text: &[u8]) -> Option<(PictureWhat, &[u8])>
    ensures spelled { IfSome result (λ x. text.now ≡ packet_text x.0 ++ x.1.now) }
    ensures range { IfSome result (λ x. IsPacketInRange x.0) }
    ensures few { IfSome result (λ x. (v : ℕ) → HasFewPacket v x.0) }
{
    let ((to, n), rest) = leading_numbered(text, b"parcel ")?;
    let (w, rest) = leading_count(rest)?;
    let ((at, hops), rest) = leading_place(rest)?;
    let (bytes, rest) = leading_bytes(behind_byte(rest, b' ')?)?;
    let moving = CargoPicture::from_slice(&[])?;
    let what = PictureWhat::Parcel {
        to,
        n,
        w,
        at,
        hops,
        bytes,
        moving,
    };
    Some((what, rest))
}

#[inline(always)]
fn leading_back(text: &[u8]) -> Option<(PictureWhat, &[u8])>
    ensures spelled { IfSome result (λ x. text.now ≡ packet_text x.0 ++ x.1.now) }
    ensures range { IfSome result (λ x. IsPacketInRange x.0) }
    ensures few { IfSome result (λ x. (v : ℕ) → HasFewPacket v x.0) }
{
    let ((to, n), rest) = leading_numbered(text, b"back ")?;
    let moving = CargoPicture::from_slice(&[])?;
    Some((PictureWhat::Back { to, n, moving }, rest))
}

#[inline(always)]
fn leading_gone(text: &[u8]) -> Option<(PictureWhat, &[u8])>
    ensures spelled { IfSome result (λ x. text.now ≡ packet_text x.0 ++ x.1.now) }
    ensures range { IfSome result (λ x. IsPacketInRange x.0) }
    ensures few { IfSome result (λ x. (v : ℕ) → HasFewPacket v x.0) }
{
    let (to, rest) = leading_on(text, b"gone ")?;
    let (at, rest) = leading_u8(behind_byte(rest, b' ')?)?;
    Some((PictureWhat::Gone { to, at }, rest))
}

#[inline(always)]
fn leading_moved(text: &[u8]) -> Option<(PictureWhat, &[u8])>
    ensures spelled { IfSome result (λ x. text.now ≡ packet_text x.0 ++ x.1.now) }
    ensures range { IfSome result (λ x. IsPacketInRange x.0) }
    ensures few { IfSome result (λ x. (v : ℕ) → HasFewPacket v x.0) }
{
    let (to, rest) = leading_on(text, b"moved ")?;
    let ((at, hops), rest) = leading_place(rest)?;
    Some((PictureWhat::Moved { to, at, hops }, rest))
}

#[inline(always)]
fn leading_known(text: &[u8]) -> Option<(PictureWhat, &[u8])>
    ensures spelled { IfSome result (λ x. text.now ≡ packet_text x.0 ++ x.1.now) }
    ensures range { IfSome result (λ x. IsPacketInRange x.0) }
    ensures few { IfSome result (λ x. (v : ℕ) → HasFewPacket v x.0) }
{
    let ((to, hops), rest) = leading_numbered(text, b"known ")?;
    Some((PictureWhat::Known { to, hops }, rest))
}

#[inline(always)]
fn leading_forget(text: &[u8]) -> Option<(PictureWhat, &[u8])>
    ensures spelled { IfSome result (λ x. text.now ≡ packet_text x.0 ++ x.1.now) }
    ensures range { IfSome result (λ x. IsPacketInRange x.0) }
    ensures few { IfSome result (λ x. (v : ℕ) → HasFewPacket v x.0) }
{
    let ((to, hops), rest) = leading_numbered(text, b"forget ")?;
    Some((PictureWhat::Forget { to, hops }, rest))
}

#[inline(always)]
fn leading_gone_seen(text: &[u8]) -> Option<(PictureWhat, &[u8])>
    ensures spelled { IfSome result (λ x. text.now ≡ packet_text x.0 ++ x.1.now) }
    ensures range { IfSome result (λ x. IsPacketInRange x.0) }
    ensures few { IfSome result (λ x. (v : ℕ) → HasFewPacket v x.0) }
{
    let (to, rest) = leading_on(text, b"goneseen ")?;
    Some((PictureWhat::GoneSeen { to }, rest))
}
