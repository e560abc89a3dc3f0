//! Why a packet is not written or read.

ghost use Rattle.std.specs.Prelude.{◌≡◌};
ghost use Rattle.lynx_packets.specs.declared.fault.Unread.TheVariants as unread;

use std::alloc::{AllocError, AllocFailed};
use std::error::Error;
use std::fmt;

/// The spelling of a packet passes the 256 bytes of a message.
#[derive(Clone, Copy, Debug, PartialEq, Eq)]
pub struct TooLong;

impl fmt::Display for TooLong {
    fn fmt<W: fmt::Write>(&self, f: &mut fmt::Formatter<W>) -> fmt::Result {
        f.write_str("the packet passes 256 bytes")
    }
}

impl Error for TooLong {}

/// Why bytes give no packet.
#[derive(Clone, Copy, Debug, PartialEq, Eq)]
pub enum DecodeFault {
    /// No packet is spelled so. The first so many bytes begin a spelling, and no more do.
    BadPacket { at: u32 },
    /// There was not memory enough.
    NoMemory,
}

impl fmt::Display for DecodeFault {
    fn fmt<W: fmt::Write>(&self, f: &mut fmt::Formatter<W>) -> fmt::Result {
        match self {
            DecodeFault::BadPacket { at } => write!(f, "no packet goes on so at byte {at}"),
            DecodeFault::NoMemory => f.write_str("no memory"),
        }
    }
}

impl Error for DecodeFault {}

/// Why a reader read nothing.
#[derive(Clone, Copy, Debug, Drop)]
pub(crate) enum Unread {
    /// Nothing goes on so: so many bytes stand from the first wrong one on, and none where the bytes end too early.
    Wrong(usize),
    Memory,
}

impl From<AllocError> for Unread {
    ghost from_gives = { λ _ e. e ≡ unread.Memory };

    fn from(_error: AllocError) -> Unread {
        Unread::Memory
    }
}

impl<T: Drop> From<AllocFailed<T>> for Unread {
    ghost from_gives = { λ _ e. e ≡ unread.Memory };

    fn from(_error: AllocFailed<T>) -> Unread {
        Unread::Memory
    }
}
