//! The call that a text begins with.
ghost use Rattle.std.specs.Prelude.{◌≡◌, ◌++◌, ℕ, IfSome};
ghost use Rattle.charlotte_text.specs.Spelling.{IsCall, call_text};

use crate::behind::{behind_byte, behind_word};
use crate::values::{leading_bytes, leading_end};
use charlotte_calls::{Call, Ends};
use charlotte_text::read_call_into;

/// Puts the call that a text begins with into its place: what stands behind it. `None` promises nothing, and leaves any call there.
pub fn read_leading_call<'a>(text: &'a [u8], version: u8, call: &mut Call) -> Option<&'a [u8]>
    ensures spelled { IfSome result (λ rest. text.now ≡ call_text call.new ++ rest.now) }
    ensures fits { IfSome result (λ rest. IsCall version call.new) }
{
    match text {
        [b'w', ..] => read_wait(text, call),
        [b'r', ..] => read_receive(text, call),
        [b's', ..] => read_send(text, version, call),
        [b'm', ..] => read_make(text, call),
        [b'd', ..] => read_destroy(text, call),
        _ => read_any(text, version, call),
    }
}

fn read_wait<'a>(text: &'a [u8], call: &mut Call) -> Option<&'a [u8]>
    ensures spelled { IfSome result (λ rest. text.now ≡ call_text call.new ++ rest.now) }
    ensures fits { IfSome result (λ rest. (v : ℕ) → IsCall v call.new) }
{
    let rest = behind_word(text, b"wait")?;
    match call {
        Call::Wait => {}
        _ => *call = Call::Wait,
    }
    Some(rest)
}

fn read_make<'a>(text: &'a [u8], call: &mut Call) -> Option<&'a [u8]>
    ensures spelled { IfSome result (λ rest. text.now ≡ call_text call.new ++ rest.now) }
    ensures fits { IfSome result (λ rest. (v : ℕ) → IsCall v call.new) }
{
    let rest = behind_word(text, b"make")?;
    *call = Call::Make;
    Some(rest)
}

fn read_receive<'a>(text: &'a [u8], call: &mut Call) -> Option<&'a [u8]>
    ensures spelled { IfSome result (λ rest. text.now ≡ call_text call.new ++ rest.now) }
    ensures fits { IfSome result (λ rest. (v : ℕ) → IsCall v call.new) }
{
    let (on, rest) = leading_end(behind_word(text, b"receive ")?)?;
    *call = Call::Receive { on };
    Some(rest)
}

fn read_destroy<'a>(text: &'a [u8], call: &mut Call) -> Option<&'a [u8]>
    ensures spelled { IfSome result (λ rest. text.now ≡ call_text call.new ++ rest.now) }
    ensures fits { IfSome result (λ rest. (v : ℕ) → IsCall v call.new) }
{
    let (on, rest) = leading_end(behind_word(text, b"destroy ")?)?;
    *call = Call::Destroy { on };
    Some(rest)
}

/// Most sends have bytes that stand for themselves, and no ends.
fn read_send<'a>(text: &'a [u8], version: u8, call: &mut Call) -> Option<&'a [u8]>
    ensures spelled { IfSome result (λ rest. text.now ≡ call_text call.new ++ rest.now) }
    ensures fits { IfSome result (λ rest. IsCall version call.new) }
{
    match read_plain_send(text, call) {
        Some(rest) => Some(rest),
        None => read_any(text, version, call),
    }
}

fn read_plain_send<'a>(text: &'a [u8], call: &mut Call) -> Option<&'a [u8]>
    ensures spelled { IfSome result (λ rest. text.now ≡ call_text call.new ++ rest.now) }
    ensures fits { IfSome result (λ rest. (v : ℕ) → IsCall v call.new) }
{
    let (on, rest) = leading_end(behind_word(text, b"send ")?)?;
    let (bytes, rest) = leading_bytes(behind_byte(rest, b' ')?)?;
    if rest.first() != Some(&b'\n') {
        return None;
    }
    let enclose = Ends::from_slice(&[])?;
    *call = Call::Send { on, bytes, enclose };
    Some(rest)
}

/// A call of any kind, up to the end of its line.
fn read_any<'a>(text: &'a [u8], version: u8, call: &mut Call) -> Option<&'a [u8]>
    ensures spelled { IfSome result (λ rest. text.now ≡ call_text call.new ++ rest.now) }
    ensures fits { IfSome result (λ rest. IsCall version call.new) }
{
    let end = text.iter().position(|byte| *byte == b'\n')?;
    let (words, rest) = text.split_at(end);
    match read_call_into(Some(words), version, call) {
        Ok(()) => Some(rest),
        Err(_) => None,
    }
}
