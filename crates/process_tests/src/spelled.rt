//! What a process is given, of words.

use crate::runs::end;
use charlotte_calls::{Answer, Bytes, Cause, EndId, Ends, Outcome, Report, Side, Way};
use std::str;

/// The most values of a packet.
const MOST_VALUES: u32 = 64;

/// The bytes before the first such mark, and those after it and a blank.
pub(crate) fn cut(bytes: &[u8], mark: u8) -> (&[u8], &[u8]) {
    match bytes.iter().position(|byte| *byte == mark) {
        Some(at) => {
            let after = &bytes[at + 1..];
            match after {
                [b' ', rest @ ..] => (&bytes[..at], rest),
                _ => (&bytes[..at], after),
            }
        }
        None => (bytes, &[]),
    }
}

/// The answer that these words tell: `ok`, the cause of a refusal, `made`, or a report.
pub(crate) fn answer_of(words: &[u8]) -> Option<Answer> {
    let (kind, rest) = cut(words, b' ');
    match kind {
        b"ok" => Some(Answer::Ok),
        b"made" => {
            let (a, b) = cut(rest, b' ');
            Some(Answer::Made(end_of(a)?, end_of(b)?))
        }
        b"dead" => Some(Answer::Refused(Cause::Dead)),
        b"late" => Some(Answer::Refused(Cause::Late)),
        b"full" => Some(Answer::Refused(Cause::LinksFull)),
        b"nothing" => Some(Answer::Refused(Cause::NoActivity)),
        _ => report_of(kind, rest),
    }
}

/// A report: a message came on an end, a send is over, or both are since the link is dead, and ends came back.
fn report_of(kind: &[u8], words: &[u8]) -> Option<Answer> {
    let (way, outcome) = match kind {
        b"came" => (Way::Inward, Outcome::Done),
        b"died" => (Way::Inward, Outcome::Destroyed),
        b"sent" => (Way::Outward, Outcome::Done),
        b"back" => (Way::Outward, Outcome::Destroyed),
        _ => return None,
    };
    let (on, rest) = cut(words, b' ');
    let (packet, enclosed) = cut(rest, b'+');
    Some(Answer::Reported(Report {
        on: end_of(on)?,
        way,
        outcome,
        bytes: bytes_of(packet)?,
        enclosed: ends_of(enclosed)?,
    }))
}

/// An end of kernel 0, as `5a`.
fn end_of(word: &[u8]) -> Option<EndId> {
    match word {
        [count @ .., b'a'] => Some(end(number_of(count)?, Side::A)),
        [count @ .., b'b'] => Some(end(number_of(count)?, Side::B)),
        _ => None,
    }
}

fn number_of(word: &[u8]) -> Option<u32> {
    str::from_utf8(word).ok()?.parse::<u32>().ok()
}

/// Ends with a plus between them, at most eight.
fn ends_of(words: &[u8]) -> Option<Ends> {
    let mut ends = [end(0, Side::A); 8];
    let mut rest = words;
    for count in 0..8 {
        if rest.is_empty() {
            return Ends::from_slice(ends.get(..count)?);
        }
        let (word, others) = cut(rest, b'+');
        *ends.get_mut(count)? = end_of(without_blank(word))?;
        rest = others;
    }
    Ends::from_slice(&ends)
}

pub(crate) fn without_blank(word: &[u8]) -> &[u8] {
    match word {
        [front @ .., b' '] => front,
        _ => word,
    }
}

/// Bytes that are put together.
#[derive(Drop)]
struct Room {
    bytes: [u8; 256],
    count: usize,
}

impl Room {
    fn put(&mut self, bytes: &[u8]) -> Option<()> {
        for byte in bytes {
            *self.bytes.get_mut(self.count)? = *byte;
            self.count += 1;
        }
        Some(())
    }
}

/// The bytes of a packet: its kind, the number, and what belongs to its kind.
fn bytes_of(words: &[u8]) -> Option<Bytes> {
    let mut room = Room {
        bytes: [0; 256],
        count: 0,
    };
    if !words.is_empty() {
        put_packet(&mut room, words)?;
    }
    Bytes::from_slice(room.bytes.get(..room.count)?)
}

fn put_packet(room: &mut Room, words: &[u8]) -> Option<()> {
    let (kind, rest) = cut(words, b' ');
    if kind == b"enc".as_slice() {
        return put_enc(room, rest);
    }
    let (number, rest) = cut(rest, b' ');
    room.put(&[code_of(kind)?])?;
    room.put(&number_of(number)?.to_be_bytes())?;
    match kind {
        b"request" => {
            let (signature, values) = cut(rest, b' ');
            room.put(&[u8::try_from(signature.len()).ok()?])?;
            room.put(signature)?;
            put_values(room, values)
        }
        b"reply" => {
            let (status, values) = cut(rest, b' ');
            room.put(&[byte_of(status)?])?;
            put_values(room, values)
        }
        _ => Some(()),
    }
}

/// As `enc 1 9 2`: its kind, the number of the request, the index.
fn put_enc(room: &mut Room, words: &[u8]) -> Option<()> {
    let (kind, rest) = cut(words, b' ');
    let (number, rest) = cut(rest, b' ');
    let (index, _) = cut(rest, b' ');
    room.put(&[7, byte_of(kind)?])?;
    room.put(&number_of(number)?.to_be_bytes())?;
    room.put(&[byte_of(index)?])
}

/// The first byte of a packet of this kind. No packet begins with that of the last one.
fn code_of(kind: &[u8]) -> Option<u8> {
    match kind {
        b"request" => Some(1),
        b"reply" => Some(2),
        b"retry" => Some(3),
        b"forbid" => Some(4),
        b"allow" => Some(5),
        b"goahead" => Some(6),
        b"wrong" => Some(8),
        _ => None,
    }
}

fn byte_of(word: &[u8]) -> Option<u8> {
    u8::try_from(number_of(word)?).ok()
}

fn put_values(room: &mut Room, words: &[u8]) -> Option<()> {
    let mut rest = words;
    for _ in 0..MOST_VALUES {
        if rest.is_empty() {
            return Some(());
        }
        let (word, others) = cut(rest, b' ');
        put_value(room, word)?;
        rest = others;
    }
    None
}

fn put_value(room: &mut Room, word: &[u8]) -> Option<()> {
    if word == b"link".as_slice() {
        return room.put(&[5]);
    }
    let number = str::from_utf8(word).ok()?.parse::<i64>().ok()?;
    room.put(&[1])?;
    room.put(&number.to_be_bytes())
}
