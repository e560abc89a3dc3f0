//! What a process does, in words.

use charlotte_calls::{Call, EndId, Ends, Next, Side};
use lynx_packets::{RtPacket, RtValue, decode};
use std::alloc::{AllocError, Global};
use std::str;

/// A call with its ends and the packet that it sends, as `send 0b retry 1 +5a`, or `pause` or `ended`.
pub(crate) fn told(alloc: Global, version: u8, next: &Next) -> Result<String, AllocError> {
    let mut text = String::new(alloc);
    match next {
        Next::Ask(call) => push_call(&mut text, alloc, version, call)?,
        Next::Pause => text.push_str("pause")?,
        Next::Ended => text.push_str("ended")?,
    }
    Ok(text)
}

fn push_call(text: &mut String, alloc: Global, version: u8, call: &Call) -> Result<(), AllocError> {
    match call {
        Call::Make => text.push_str("make")?,
        Call::Destroy { on } => push_end(text, "destroy ", *on)?,
        Call::Send { on, bytes, enclose } => {
            push_end(text, "send ", *on)?;
            push_bytes(text, alloc, version, bytes.as_slice())?;
            push_ends(text, enclose)?;
        }
        Call::Receive { on } => push_end(text, "receive ", *on)?,
        Call::Cancel { on, .. } => push_end(text, "cancel ", *on)?,
        Call::Wait => text.push_str("wait")?,
        Call::Print { bytes } => {
            text.push_str("print ")?;
            text.push_str(str::from_utf8(bytes.as_slice()).unwrap_or("?"))?;
        }
        Call::Exit => text.push_str("exit")?,
    }
    Ok(())
}

fn push_end(text: &mut String, before: &str, end: EndId) -> Result<(), AllocError> {
    let count = end.link.count;
    let side = match end.side {
        Side::A => "a",
        Side::B => "b",
    };
    write!(text, "{before}{count}{side}")?;
    Ok(())
}

fn push_ends(text: &mut String, ends: &Ends) -> Result<(), AllocError> {
    for end in ends.as_slice() {
        push_end(text, " +", *end)?;
    }
    Ok(())
}

/// The packet that the bytes spell.
fn push_bytes(
    text: &mut String,
    alloc: Global,
    version: u8,
    bytes: &[u8],
) -> Result<(), AllocError> {
    if version == 0 || version > 2 || bytes.len() > 256 {
        return Ok(());
    }
    match decode(alloc, version, bytes) {
        Ok(packet) => push_packet(text, &packet)?,
        Err(_) => text.push_str(" no packet")?,
    }
    Ok(())
}

fn push_packet(text: &mut String, packet: &RtPacket) -> Result<(), AllocError> {
    match packet {
        RtPacket::Request {
            number,
            signature,
            values,
        } => {
            let word = str::from_utf8(signature.as_slice()).unwrap_or("?");
            write!(text, " request {number} {word}")?;
            push_values(text, values.as_slice())?;
        }
        RtPacket::Reply {
            number,
            status,
            values,
        } => {
            write!(text, " reply {number} {status}")?;
            push_values(text, values.as_slice())?;
        }
        RtPacket::Retry(number) => write!(text, " retry {number}")?,
        RtPacket::Forbid(number) => write!(text, " forbid {number}")?,
        RtPacket::Allow(number) => write!(text, " allow {number}")?,
        RtPacket::GoAhead(number) => write!(text, " goahead {number}")?,
        RtPacket::Enc {
            kind,
            number,
            index,
        } => write!(text, " enc {kind} {number} {index}")?,
    }
    Ok(())
}

fn push_values(text: &mut String, values: &[RtValue]) -> Result<(), AllocError> {
    for value in values {
        match value {
            RtValue::Int(number) => write!(text, " {number}")?,
            RtValue::Link => text.push_str(" link")?,
            _ => text.push_str(" value")?,
        }
    }
    Ok(())
}
