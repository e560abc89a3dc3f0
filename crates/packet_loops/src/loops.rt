//! One packet that is read or written again and again.

use lynx_packets::{RtPacket, decode, encode};
use std::alloc::Global;

/// The most bytes of a packet.
pub(crate) const MOST_BYTES: usize = 256;

/// The packet that the bytes spell in version 1.
fn packet_of(alloc: Global, bytes: &[u8]) -> Option<RtPacket> {
    if bytes.len() > MOST_BYTES {
        return None;
    }
    decode(alloc, 1, bytes).ok()
}

/// Reads the packet so many times. The sum of its numbers.
pub(crate) fn read_again(alloc: Global, bytes: &[u8], turns: u32) -> Option<u64> {
    let mut sum: u64 = 0;
    for _ in 0..turns {
        let packet = packet_of(alloc, bytes)?;
        sum = sum.wrapping_add(u64::from(number_of(&packet)));
    }
    Some(sum)
}

/// Writes the packet so many times. The sum of its lengths and last bytes.
pub(crate) fn written_again(alloc: Global, bytes: &[u8], turns: u32) -> Option<u64> {
    let packet = packet_of(alloc, bytes)?;
    let mut sum: u64 = 0;
    for _ in 0..turns {
        let spelled = encode(&packet).ok()?;
        let last = spelled.as_slice().last()?;
        sum = sum.wrapping_add(spelled.as_slice().len() as u64 + u64::from(*last));
    }
    Some(sum)
}

/// The number of the request of which a packet speaks.
fn number_of(packet: &RtPacket) -> u32 {
    match packet {
        RtPacket::Request { number, .. }
        | RtPacket::Reply { number, .. }
        | RtPacket::Retry(number)
        | RtPacket::Forbid(number)
        | RtPacket::Allow(number)
        | RtPacket::GoAhead(number)
        | RtPacket::Enc { number, .. } => *number,
    }
}
