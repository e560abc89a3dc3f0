//! The packet's file.

use crate::loops::MOST_BYTES;
use std::fs;
use std::io::Read;

/// The bytes of a file, and of a long one only that it is too long.
pub(crate) fn bytes_of(rt: &HostRuntime, name: &str) -> Option<Vec<u8>> {
    let file = fs::open(rt, name).ok()?;
    let mut bytes = Vec::new(rt.alloc());
    file.take(MOST_BYTES as u64 + 1)
        .read_to_end(&mut bytes)
        .ok()?;
    Some(bytes)
}
