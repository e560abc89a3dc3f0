//! Run-time packets.

use crate::value::RtValue;
use charlotte_calls::Items;

/// What one LYNX runtime sends another in a message. The number is that of the request of which the packet speaks.
#[derive(Debug, Drop)]
pub enum RtPacket {
    /// A thread connects: the signature of the operation, and the arguments.
    Request {
        number: u32,
        signature: Items<u8>,
        values: Items<RtValue>,
    },
    /// The request is done (status 0) with these results, or failed (status 1) without any.
    Reply {
        number: u32,
        status: u8,
        values: Items<RtValue>,
    },
    /// The request came back, and may be sent again at once.
    Retry(u32),
    /// The request came back, and waits for an allow.
    Forbid(u32),
    /// The request that was forbidden may be sent again.
    Allow(u32),
    /// The request is wanted: its further ends may come.
    GoAhead(u32),
    /// A further end of a request (kind 1) or a reply (kind 2); its place among the ends is the index, from 2 to 8.
    Enc {
        kind: u8,
        number: u32,
        index: u8,
    },
}
