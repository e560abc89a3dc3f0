//! Packets are read.

ghost use Rattle.std.specs.Prelude.{◌≡◌, ◌≤◌, ◌<◌, ◌⊎◌, ℕ, length, IfOk, Err};
ghost use Rattle.lynx_packets.specs.Spelling.{Spells, IsWrongAt, IsUnlessMemory};
ghost use Rattle.lynx_packets.specs.Reading.{Gives};
ghost use Rattle.lynx_packets.specs.Packets.{Tells, numbered, ended, request_of, results_of, reply_of, numbered_of, enc_of, of_kind, last_kind, packet_of};

use crate::fault::{DecodeFault, Unread};
use crate::fields::{byte, number};
use crate::packet::RtPacket;
use crate::signature::{MOST_LINKS, signature};
use crate::values::{arguments, results};
use charlotte_calls::Items;
use std::alloc::Global;

/// The packet, if nothing follows.
fn ended(packet: RtPacket, rest: &[u8]) -> Result<RtPacket, Unread>
    ensures { Gives (λ p. p) result (ended packet rest.now) }
{
    if !rest.is_empty() {
        return Err(Unread::Wrong(rest.len()));
    }
    Ok(packet)
}

#[tactic(auto, unfolding(crate::specs::Packets::request_of))]
fn request(alloc: Global, bytes: &[u8]) -> Result<RtPacket, Unread>
    ensures { Gives (λ p. p) result (request_of bytes.now) }
{
    let (number, rest) = number(bytes)?;
    let (signature, rest) = signature(alloc, rest)?;
    let (values, rest) = arguments(alloc, &signature.arguments, rest)?;
    let text = Vec::from_slice(alloc, signature.text)?;
    let packet = RtPacket::Request {
        number,
        signature: Items::of(text),
        values: Items::of(values),
    };
    ended(packet, rest)
}

#[tactic(auto, unfolding(crate::specs::Packets::reply_of))]
fn reply(alloc: Global, bytes: &[u8]) -> Result<RtPacket, Unread>
    ensures { Gives (λ p. p) result (reply_of bytes.now) }
{
    let (number, rest) = number(bytes)?;
    let (status, rest) = byte(0, 1, rest)?;
    results_of(alloc, number, status, rest)
}

/// The values of a reply: none where the request failed.
fn results_of(alloc: Global, number: u32, status: u8, rest: &[u8]) -> Result<RtPacket, Unread>
    requires { status ≤ 1 }
    ensures { Gives (λ p. p) result (results_of number status rest.now) }
{
    let values = match status {
        0 => results(alloc, MOST_LINKS, rest)?,
        _ => Vec::new(alloc),
    };
    let packet = RtPacket::Reply {
        number,
        status,
        values: Items::of(values),
    };
    match status {
        0 => Ok(packet),
        _ => ended(packet, rest),
    }
}

fn numbered(kind: u8, number: u32) -> RtPacket
    ensures { result ≡ numbered kind number }
{
    match kind {
        3 => RtPacket::Retry(number),
        4 => RtPacket::Forbid(number),
        5 => RtPacket::Allow(number),
        _ => RtPacket::GoAhead(number),
    }
}

/// A packet that is a number alone.
#[tactic(auto, unfolding(crate::specs::Packets::numbered_of))]
fn number_alone(kind: u8, bytes: &[u8]) -> Result<RtPacket, Unread>
    ensures { Gives (λ p. p) result (numbered_of kind bytes.now) }
{
    let (number, rest) = number(bytes)?;
    ended(numbered(kind, number), rest)
}

#[tactic(auto, unfolding(crate::specs::Packets::enc_of))]
fn enc(bytes: &[u8]) -> Result<RtPacket, Unread>
    ensures { Gives (λ p. p) result (enc_of bytes.now) }
{
    let (kind, rest) = byte(1, 2, bytes)?;
    let (number, rest) = number(rest)?;
    let (index, rest) = byte(2, 8, rest)?;
    ended(
        RtPacket::Enc {
            kind,
            number,
            index,
        },
        rest,
    )
}

/// What stands behind the byte that tells the kind.
fn of_kind(alloc: Global, kind: u8, bytes: &[u8]) -> Result<RtPacket, Unread>
    ensures { Gives (λ p. p) result (of_kind kind bytes.now) }
{
    match kind {
        1 => request(alloc, bytes),
        2 => reply(alloc, bytes),
        7 => enc(bytes),
        _ => number_alone(kind, bytes),
    }
}

/// Version 1 has each packet, version 2 neither goahead nor enc.
fn last_kind(version: u8) -> u8
    ensures { result ≡ last_kind version }
{
    if version == 1 { 7 } else { 5 }
}

#[tactic(auto, unfolding(crate::specs::Packets::packet_of))]
fn packet(alloc: Global, version: u8, bytes: &[u8]) -> Result<RtPacket, Unread>
    ensures { Gives (λ p. p) result (packet_of version bytes.now) }
{
    let (kind, rest) = byte(1, last_kind(version), bytes)?;
    of_kind(alloc, kind, rest)
}

fn told(alloc: Global, version: u8, bytes: &[u8]) -> Result<RtPacket, DecodeFault>
    requires { length bytes.now < 4294967295 }
    ensures { Tells (length bytes.now) result (packet_of version bytes.now) }
{
    match packet(alloc, version, bytes) {
        Ok(packet) => Ok(packet),
        Err(Unread::Wrong(left)) => Err(DecodeFault::BadPacket {
            at: bytes.len().saturating_sub(left) as u32,
        }),
        Err(Unread::Memory) => Err(DecodeFault::NoMemory),
    }
}

/// The packet that all of the bytes spell in version 1 or 2. BadPacket exactly where none does, with the length of the longest front of the
/// bytes that begins the spelling of one.
pub fn decode(alloc: Global, version: u8, bytes: &[u8]) -> Result<RtPacket, DecodeFault>
    requires version { (version ≡ 1) ⊎ (version ≡ 2) }
    requires size { length bytes.now < 4294967295 }
    ensures found { IfOk result (λ p. Spells version p bytes.now) }
    ensures only { (p : RtPacket) → Spells version p bytes.now → IsUnlessMemory result p }
    ensures wrong { (at : ℕ) → result ≡ Err (DecodeFault.BadPacket at) → IsWrongAt version bytes.now at }
{
    told(alloc, version, bytes)
}
