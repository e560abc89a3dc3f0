//! What a packet says, in words.

use lynx_packets::{DecodeFault, RtPacket, RtValue, decode, encode};
use std::alloc::{AllocError, Global};
use std::str;
use std::test::Fail;

pub(crate) fn holds(is: bool, what: &str) -> Result<(), Fail> {
    if is { Ok(()) } else { Err(what.into()) }
}

fn push_value(text: &mut String, value: &RtValue) -> Result<(), AllocError> {
    match value {
        RtValue::Int(number) => write!(text, " {number}")?,
        RtValue::Bool(truth) => write!(text, " {truth}")?,
        RtValue::Text(bytes) => {
            let word = str::from_utf8(bytes.as_slice()).unwrap_or("?");
            write!(text, " '{word}'")?;
        }
        RtValue::Row(row) => {
            let mut mark = '[';
            text.push_str(" ")?;
            for number in row.as_slice() {
                write!(text, "{mark}{number}")?;
                mark = ' ';
            }
            text.push_str("]")?;
        }
        RtValue::Link => text.push_str(" link")?,
    }
    Ok(())
}

fn push_values(text: &mut String, values: &[RtValue]) -> Result<(), AllocError> {
    for value in values {
        push_value(text, value)?;
    }
    Ok(())
}

fn push_packet(text: &mut String, packet: &RtPacket) -> Result<(), AllocError> {
    match packet {
        RtPacket::Request {
            number,
            signature,
            values,
        } => {
            let word = str::from_utf8(signature.as_slice()).unwrap_or("?");
            write!(text, "request {number} {word}")?;
            push_values(text, values.as_slice())?;
        }
        RtPacket::Reply {
            number,
            status,
            values,
        } => {
            write!(text, "reply {number} {status}")?;
            push_values(text, values.as_slice())?;
        }
        RtPacket::Retry(number) => write!(text, "retry {number}")?,
        RtPacket::Forbid(number) => write!(text, "forbid {number}")?,
        RtPacket::Allow(number) => write!(text, "allow {number}")?,
        RtPacket::GoAhead(number) => write!(text, "goahead {number}")?,
        RtPacket::Enc {
            kind,
            number,
            index,
        } => write!(text, "enc {kind} {number} {index}")?,
    }
    Ok(())
}

/// What decoding the bytes answers, in words; a packet that is found is encoded again, to the same bytes.
pub(crate) fn told(alloc: Global, version: u8, bytes: &[u8]) -> Result<String, AllocError> {
    let mut text = String::new(alloc);
    if version == 0 || version > 2 || bytes.len() > 300 {
        return Ok(text);
    }
    match decode(alloc, version, bytes) {
        Ok(packet) => {
            push_packet(&mut text, &packet)?;
            let same = match encode(&packet) {
                Ok(again) => again.as_slice() == bytes,
                Err(_) => bytes.len() > 256,
            };
            if !same {
                text.push_str(" and other bytes")?;
            }
        }
        Err(DecodeFault::BadPacket { at }) => write!(text, "bad {at}")?,
        Err(DecodeFault::NoMemory) => text.push_str("no memory")?,
    }
    Ok(text)
}

pub(crate) fn is_answer(alloc: Global, version: u8, bytes: &[u8], want: &str) -> Result<(), Fail> {
    let mut found = told(alloc, version, bytes)?;
    if found.as_str() == want {
        Ok(())
    } else {
        write!(found, " and not {want}")?;
        Err(found.as_str().into())
    }
}
