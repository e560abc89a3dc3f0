//! The line of an entry, of a step or of a note that a text begins with, up to its line feed. `None` promises nothing.
ghost use Rattle.std.specs.Prelude.{◌≡◌, ◌++◌, IfSome, Ok};
ghost use Rattle.transcript_reading.specs.Spelling.{IsKind, kind_text};
ghost use Rattle.transcript_lines.specs.Transcript.{note_text};
ghost use Rattle.transcript_lines.specs.TranscriptText.{IsNoteInRange};
ghost use Rattle.leading_lines.specs.Ahead.{head_text};
ghost use Rattle.leading_lines.specs.declared.guess.Ahead.TheVariants as heads;
ghost use Rattle.transcript_reading.specs.Order.{Entry, next};

use crate::behind::behind_word;
use crate::call::read_leading_call;
use crate::guess::{Ahead, CallAhead, PacketAhead, look_ahead};
use crate::packet::leading_packet;
use crate::step::leading_step;
use crate::values::leading_u32;
use charlotte_calls::Call;
use charlotte_packets::Picture;
use kernel_entries::{tell_pid, tell_u8, tell_u64};
use transcript_lines::ScriptNote;
use transcript_reading::LineKind;

/// What a line shows that is one of an entry or of a step of the most common forms.
#[inline(always)]
pub fn leading_line(text: &[u8], version: u8) -> Option<(LineKind, &[u8])>
    ensures spelled { IfSome result (λ x. text.now ≡ kind_text x.0 ++ x.1.now) }
    ensures fits { IfSome result (λ x. IsKind version x.0) }
    ensures stands { IfSome result (λ x. next Entry x.0 ≡ Ok Entry) }
{
    match text {
        [b'.', ..] => leading_service(text, version),
        _ => leading_entry(text, version),
    }
}

#[inline(always)]
#[tactic(auto, unfolding(transcript_reading::specs::Order::next))]
fn leading_service(text: &[u8], version: u8) -> Option<(LineKind, &[u8])>
    ensures spelled { IfSome result (λ x. text.now ≡ kind_text x.0 ++ x.1.now) }
    ensures fits { IfSome result (λ x. IsKind version x.0) }
    ensures stands { IfSome result (λ x. next Entry x.0 ≡ Ok Entry) }
{
    let (step, rest) = leading_step(text)?;
    Some((LineKind::Service(step), rest))
}

#[inline(always)]
fn leading_entry(text: &[u8], version: u8) -> Option<(LineKind, &[u8])>
    ensures spelled { IfSome result (λ x. text.now ≡ kind_text x.0 ++ x.1.now) }
    ensures fits { IfSome result (λ x. IsKind version x.0) }
    ensures stands { IfSome result (λ x. next Entry x.0 ≡ Ok Entry) }
{
    let (ahead, rest) = look_ahead(text)?;
    match ahead {
        Ahead::Call(ahead) => leading_asked(ahead, rest, version),
        Ahead::Packet(ahead) => leading_took(ahead, rest, version),
    }
}

/// The entry of a call, behind its head.
#[inline(always)]
#[tactic(auto, unfolding(transcript_reading::specs::Order::next))]
fn leading_asked(ahead: CallAhead, text: &[u8], version: u8) -> Option<(LineKind, &[u8])>
    ensures spelled { IfSome result (λ x. head_text (heads.Call ahead) ++ text.now ≡ kind_text x.0 ++ x.1.now) }
    ensures fits { IfSome result (λ x. IsKind version x.0) }
    ensures stands { IfSome result (λ x. next Entry x.0 ≡ Ok Entry) }
{
    let CallAhead { stamp, kernel, p } = ahead;
    tell_u64(stamp);
    tell_u8(kernel);
    tell_pid(p);
    let mut call = Call::Make;
    let rest = read_leading_call(text, version, &mut call)?;
    let what = LineKind::CallEntry {
        stamp,
        kernel,
        p,
        call,
    };
    Some((what, rest))
}

/// The entry of a packet, behind its head.
#[inline(always)]
#[tactic(auto, unfolding(transcript_reading::specs::Order::next))]
fn leading_took(ahead: PacketAhead, text: &[u8], version: u8) -> Option<(LineKind, &[u8])>
    ensures spelled { IfSome result (λ x. head_text (heads.Packet ahead) ++ text.now ≡ kind_text x.0 ++ x.1.now) }
    ensures fits { IfSome result (λ x. IsKind version x.0) }
    ensures stands { IfSome result (λ x. next Entry x.0 ≡ Ok Entry) }
{
    let PacketAhead {
        stamp,
        kernel,
        from,
    } = ahead;
    tell_u64(stamp);
    tell_u8(kernel);
    tell_u8(from);
    let (what, rest) = leading_packet(text)?;
    let picture = Picture { stamp: 0, what };
    let what = LineKind::PacketEntry {
        stamp,
        kernel,
        from,
        picture,
    };
    Some((what, rest))
}

/// A note.
#[inline(always)]
pub fn leading_note(text: &[u8]) -> Option<(ScriptNote, &[u8])>
    ensures spelled { IfSome result (λ x. text.now ≡ note_text x.0 ++ x.1.now) }
    ensures fits { IfSome result (λ x. IsNoteInRange x.0) }
{
    let (line, rest) = leading_u32(behind_word(text, b"note ")?)?;
    match behind_word(rest, b" nothing") {
        Some(rest) => Some((ScriptNote { line, waits: false }, rest)),
        None => {
            let rest = behind_word(rest, b" waits")?;
            Some((ScriptNote { line, waits: true }, rest))
        }
    }
}
