//! Whether a text begins with a packet.
ghost use Rattle.std.specs.Prelude.{◌≡◌, ◌∷◌, ◌++◌, [], IfSome, codes};
ghost use Rattle.charlotte_packets.specs.Packets.{what_picture};
ghost use Rattle.charlotte_text.specs.Spelling.{bytes_text, end_text, colon};
ghost use Rattle.transcript_lines.specs.Transcript.{numbers_behind, numbers_text, packet_text, value_text, values_text};

use crate::behind::{behind_bytes, behind_end, behind_number};
use crate::step::{behind_count, behind_numbered, behind_on};
use charlotte_calls::EndId;
use charlotte_packets::{MovingPicture, What};
use leading_lines::{behind_byte, behind_word};
use transcript_lines::value_fields;

/// What a packet tells of an activity: its number, and the kernel and the hops of the opposite end.
#[derive(Clone, Copy)]
struct About {
    number: u32,
    at: u8,
    hops: u32,
}

impl About {
    #[inline(always)]
    fn new(number: u32, at: u8, hops: u32) -> About
        ensures { result ≡ record { number = number; at = at; hops = hops } }
    {
        About { number, at, hops }
    }
}

/// What stands behind a packet, as `want 0.0a 1 0 0`, in a text that begins with it. `None` promises nothing.
pub fn behind_packet<'a>(text: &'a [u8], what: &What) -> Option<&'a [u8]>
    ensures { IfSome result (λ rest. text.now ≡ packet_text (what_picture what.now) ++ rest.now) }
{
    match what {
        What::Want { to, w, at, hops } => {
            behind_about(text, b"want ", *to, About::new(*w, *at, *hops))
        }
        What::Unwant { to, w, at, hops } => {
            behind_about(text, b"unwant ", *to, About::new(*w, *at, *hops))
        }
        What::Unwanted { to, w, at, hops } => {
            behind_about(text, b"unwanted ", *to, About::new(*w, *at, *hops))
        }
        What::Parcel {
            to,
            n,
            w,
            at,
            hops,
            bytes,
            moving,
        } => {
            let rest = behind_parcel(text, *to, *n, About::new(*w, *at, *hops))?;
            behind_carried(rest, bytes.as_slice(), moving.values())
        }
        What::Taken { to, n, at, hops } => {
            behind_about(text, b"taken ", *to, About::new(*n, *at, *hops))
        }
        What::Back { to, n, moving } => {
            behind_values(behind_numbered(text, b"back ", *to, *n)?, moving.values())
        }
        What::Gone { to, at } => behind_numbered(text, b"gone ", *to, u32::from(*at)),
        What::Moved { to, at, hops } => behind_place(behind_on(text, b"moved ", *to)?, *at, *hops),
        What::Known { to, hops } => behind_numbered(text, b"known ", *to, *hops),
        What::Forget { to, hops } => behind_numbered(text, b"forget ", *to, *hops),
        What::GoneSeen { to } => behind_on(text, b"goneseen ", *to),
    }
}

/// Behind the kernel of an end and its hops.
#[inline(always)]
fn behind_place(text: &[u8], at: u8, hops: u32) -> Option<&[u8]>
    ensures { IfSome result (λ rest. text.now ≡ numbers_text (at ∷ hops ∷ []) ++ rest.now) }
{
    behind_count(behind_count(text, u32::from(at))?, hops)
}

/// Behind a word with its blank, an end, and what a packet tells of an activity.
#[inline(always)]
fn behind_about<'a>(text: &'a [u8], word: &[u8], to: EndId, about: About) -> Option<&'a [u8]>
    ensures { IfSome result (λ rest. text.now ≡ word.now ++ end_text to ++ numbers_text (about.number ∷ about.at ∷ about.hops ∷ []) ++ rest.now) }
{
    let rest = behind_numbered(text, word, to, about.number)?;
    behind_place(rest, about.at, about.hops)
}

/// Behind a parcel up to its numbers: that of the message, and what it tells of the receive.
#[inline(always)]
fn behind_parcel(text: &[u8], to: EndId, n: u32, receive: About) -> Option<&[u8]>
    ensures { IfSome result (λ rest. text.now ≡ codes "parcel " ++ end_text to ++ numbers_text (n ∷ receive.number ∷ receive.at ∷ receive.hops ∷ []) ++ rest.now) }
{
    let rest = behind_numbered(text, b"parcel ", to, n)?;
    let rest = behind_count(rest, receive.number)?;
    behind_place(rest, receive.at, receive.hops)
}

/// Behind what a parcel carries: its bytes, and its values.
#[inline(always)]
fn behind_carried<'a>(text: &'a [u8], bytes: &[u8], values: &[MovingPicture]) -> Option<&'a [u8]>
    ensures { IfSome result (λ rest. text.now ≡ codes " " ++ bytes_text bytes.now ++ values_text values.now ++ rest.now) }
{
    let rest = behind_bytes(behind_byte(text, b' ')?, bytes)?;
    behind_values(rest, values)
}

#[inline(always)]
fn behind_values<'a>(text: &'a [u8], values: &[MovingPicture]) -> Option<&'a [u8]>
    ensures { IfSome result (λ rest. text.now ≡ values_text values.now ++ rest.now) }
{
    let mut rest = text;
    for value in values {
        rest = behind_value(behind_word(rest, b" +")?, value)?;
    }
    Some(rest)
}

fn behind_value<'a>(text: &'a [u8], value: &MovingPicture) -> Option<&'a [u8]>
    ensures { IfSome result (λ rest. text.now ≡ value_text value.now ++ rest.now) }
{
    behind_fields(behind_end(text, value.end)?, &value_fields(value))
}

/// Behind numbers, each behind a colon.
fn behind_fields<'a>(text: &'a [u8], numbers: &[u32]) -> Option<&'a [u8]>
    ensures { IfSome result (λ rest. text.now ≡ numbers_behind colon numbers.now ++ rest.now) }
{
    let mut rest = text;
    for number in numbers {
        rest = behind_number(behind_byte(rest, b':')?, u64::from(*number))?;
    }
    Some(rest)
}
