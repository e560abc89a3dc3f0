//! What stands behind the line of an entry or of a step that a text begins with, of which no value is kept. `None` promises nothing.
ghost use Rattle.std.specs.Prelude.{◌++◌, IfSome};
ghost use Rattle.leading_lines.specs.Ahead.{head_text};
ghost use Rattle.leading_lines.specs.Past.{HasCall, HasLine, HasPacket, HasResult, HasStep};
ghost use Rattle.leading_lines.specs.declared.guess.Ahead.TheVariants as heads;

use crate::behind::{behind_byte, behind_word};
use crate::call::read_leading_call;
use crate::enclosed::{past_bytes, past_ends, past_values};
use crate::guess::{Ahead, CallAhead, PacketAhead, look_ahead};
use crate::packet::leading_packet;
use crate::step::leading_step;
use crate::values::{
    leading_count, leading_end, leading_numbered, leading_of, leading_on, leading_place,
};
use charlotte_calls::Call;
use charlotte_text::most_ends;
use kernel_entries::{tell_pid, tell_u8, tell_u64};

/// Behind the line of an entry or of a step, of the most common forms or with what it encloses.
#[inline(always)]
pub fn past_line(text: &[u8], version: u8) -> Option<&[u8]>
    ensures { IfSome result (λ rest. HasLine version text.now rest.now) }
{
    match text {
        [b'.', ..] => past_service(text, version),
        _ => past_entry(text, version),
    }
}

#[inline(always)]
#[tactic(auto, unfolding(transcript_reading::specs::Order::next))]
fn past_service(text: &[u8], version: u8) -> Option<&[u8]>
    ensures { IfSome result (λ rest. HasLine version text.now rest.now) }
{
    past_step(text, version)
}

#[inline(always)]
fn past_entry(text: &[u8], version: u8) -> Option<&[u8]>
    ensures { IfSome result (λ rest. HasLine version text.now rest.now) }
{
    let (ahead, rest) = look_ahead(text)?;
    match ahead {
        Ahead::Call(ahead) => past_asked(ahead, rest, version),
        Ahead::Packet(ahead) => past_took(ahead, rest, version),
    }
}

/// Behind the entry of a call, from behind its head.
#[inline(always)]
fn past_asked(ahead: CallAhead, text: &[u8], version: u8) -> Option<&[u8]>
    ensures { IfSome result (λ rest. HasLine version (head_text (heads.Call ahead) ++ text.now) rest.now) }
{
    tell_u64(ahead.stamp);
    tell_u8(ahead.kernel);
    tell_pid(ahead.p);
    past_call(text, version)
}

/// Behind the entry of a packet, from behind its head.
#[inline(always)]
fn past_took(ahead: PacketAhead, text: &[u8], version: u8) -> Option<&[u8]>
    ensures { IfSome result (λ rest. HasLine version (head_text (heads.Packet ahead) ++ text.now) rest.now) }
{
    tell_u64(ahead.stamp);
    tell_u8(ahead.kernel);
    tell_u8(ahead.from);
    past_packet(text, version)
}

/// Behind a call.
#[inline(always)]
fn past_call(text: &[u8], version: u8) -> Option<&[u8]>
    ensures { IfSome result (λ rest. HasCall version text.now rest.now) }
{
    match text {
        [b's', ..] => past_send_call(text, version),
        _ => past_other_call(text, version),
    }
}

#[inline(always)]
fn past_other_call(text: &[u8], version: u8) -> Option<&[u8]>
    ensures { IfSome result (λ rest. HasCall version text.now rest.now) }
{
    let mut call = Call::Make;
    let rest = read_leading_call(text, version, &mut call)?;
    Some(rest)
}

/// Behind a send of bytes that stand for themselves, with its ends.
#[inline(always)]
fn past_send_call(text: &[u8], version: u8) -> Option<&[u8]>
    ensures { IfSome result (λ rest. HasCall version text.now rest.now) }
{
    let (on, rest) = leading_end(behind_word(text, b"send ")?)?;
    let behind = past_bytes(behind_byte(rest, b' ')?)?;
    past_ends(behind, most_ends(version))
}

/// Behind a packet.
#[inline(always)]
fn past_packet(text: &[u8], version: u8) -> Option<&[u8]>
    ensures { IfSome result (λ rest. HasPacket version text.now rest.now) }
{
    match text {
        [b'p', ..] => past_parcel(text, version),
        [b'b', ..] => past_back(text, version),
        _ => past_other_packet(text, version),
    }
}

#[inline(always)]
fn past_other_packet(text: &[u8], version: u8) -> Option<&[u8]>
    ensures { IfSome result (λ rest. HasPacket version text.now rest.now) }
{
    let (what, rest) = leading_packet(text)?;
    Some(rest)
}

#[inline(always)]
fn past_parcel(text: &[u8], version: u8) -> Option<&[u8]>
    ensures { IfSome result (λ rest. HasPacket version text.now rest.now) }
{
    let ((to, n), rest) = leading_numbered(text, b"parcel ")?;
    let (w, rest) = leading_count(rest)?;
    let ((at, hops), rest) = leading_place(rest)?;
    let behind = past_bytes(behind_byte(rest, b' ')?)?;
    past_values(behind, most_ends(version))
}

#[inline(always)]
fn past_back(text: &[u8], version: u8) -> Option<&[u8]>
    ensures { IfSome result (λ rest. HasPacket version text.now rest.now) }
{
    let ((to, n), rest) = leading_numbered(text, b"back ")?;
    past_values(rest, most_ends(version))
}

/// Behind a step, from its dot on.
#[inline(always)]
fn past_step(text: &[u8], version: u8) -> Option<&[u8]>
    ensures { IfSome result (λ rest. HasStep version text.now rest.now) }
{
    match text {
        [_, _, b's', ..] => past_send(text, version),
        [_, _, b'r', b'e', b'p', ..] => past_report(text, version),
        _ => past_other_step(text, version),
    }
}

#[inline(always)]
fn past_other_step(text: &[u8], version: u8) -> Option<&[u8]>
    ensures { IfSome result (λ rest. HasStep version text.now rest.now) }
{
    let (step, rest) = leading_step(text)?;
    Some(rest)
}

#[inline(always)]
fn past_send(text: &[u8], version: u8) -> Option<&[u8]>
    ensures { IfSome result (λ rest. HasStep version text.now rest.now) }
{
    let ((on, n), rest) = leading_numbered(text, b". send ")?;
    past_ends(rest, most_ends(version))
}

#[inline(always)]
fn past_report(text: &[u8], version: u8) -> Option<&[u8]>
    ensures { IfSome result (λ rest. HasStep version text.now rest.now) }
{
    let (p, rest) = leading_of(text, b". report ")?;
    let (on, rest) = leading_on(rest, b" ")?;
    past_result(rest, version)
}

/// Behind how an activity at an end was over: a send whose message was taken, or a receive.
#[inline(always)]
fn past_result(text: &[u8], version: u8) -> Option<&[u8]>
    ensures { IfSome result (λ rest. HasResult version text.now rest.now) }
{
    match behind_word(text, b" out done") {
        Some(rest) => Some(rest),
        None => past_received(text, version),
    }
}

#[inline(always)]
fn past_received(text: &[u8], version: u8) -> Option<&[u8]>
    ensures { IfSome result (λ rest. HasResult version text.now rest.now) }
{
    let behind = past_bytes(behind_word(text, b" in done ")?)?;
    past_ends(behind, most_ends(version))
}
