ghost use Rattle.std.specs.Prelude.{◌≡◌, ◌++◌, OnOk, codes};
ghost use Rattle.charlotte_text.specs.Spelling.{end_text, ends_text, bytes_text, way_text, call_text};
ghost use Rattle.compact_calls.specs.Stored.{call_of};

use crate::packet::push_on;
use charlotte_calls::{EndId, NoMemory, Way};
use charlotte_text::{push_bytes, push_ends, push_way};
use compact_calls::{Message, StoredCall};

fn push_word(out: &mut Vec<u8>, word: &[u8]) -> Result<(), NoMemory>
    ensures { OnOk result (out.new.items ≡ out.old.items ++ word.now) }
{
    out.extend_from_slice(word)?;
    Ok(())
}

fn push_send(out: &mut Vec<u8>, on: EndId, message: &Message) -> Result<(), NoMemory>
    ensures { OnOk result (out.new.items ≡ out.old.items ++ codes "send " ++ end_text on ++ codes " " ++ bytes_text message.now.bytes ++ ends_text message.now.enclose) }
{
    push_on(out, b"send ", on)?;
    out.push(b' ')?;
    push_bytes(out, message.bytes())?;
    push_ends(out, message.enclose())
}

fn push_cancel(out: &mut Vec<u8>, on: EndId, way: Way) -> Result<(), NoMemory>
    ensures { OnOk result (out.new.items ≡ out.old.items ++ codes "cancel " ++ end_text on ++ codes " " ++ way_text way) }
{
    push_on(out, b"cancel ", on)?;
    out.push(b' ')?;
    push_way(out, way)
}

fn push_print(out: &mut Vec<u8>, bytes: &[u8]) -> Result<(), NoMemory>
    ensures { OnOk result (out.new.items ≡ out.old.items ++ codes "print " ++ bytes_text bytes.now) }
{
    push_word(out, b"print ")?;
    push_bytes(out, bytes)
}

/// Appends a call as it is kept, as `send 0.0a hello +0.1a`.
pub(crate) fn push_kept_call(out: &mut Vec<u8>, call: &StoredCall) -> Result<(), NoMemory>
    ensures { OnOk result (out.new.items ≡ out.old.items ++ call_text (call_of call.now)) }
{
    match call {
        StoredCall::Make => push_word(out, b"make"),
        StoredCall::Destroy { on } => push_on(out, b"destroy ", *on),
        StoredCall::Send { on, message } => push_send(out, *on, message),
        StoredCall::Receive { on } => push_on(out, b"receive ", *on),
        StoredCall::Cancel { on, way } => push_cancel(out, *on, *way),
        StoredCall::Wait => push_word(out, b"wait"),
        StoredCall::Print { bytes } => push_print(out, bytes.as_slice()),
        StoredCall::Exit => push_word(out, b"exit"),
    }
}
