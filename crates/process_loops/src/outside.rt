//! The module's file.

use crate::trouble::Trouble;
use std::fs;
use std::io::Read;

/// The most bytes of a module.
pub(crate) const MOST_BYTES: u64 = 1_048_576;

/// The bytes of a file, up to the most.
pub(crate) fn read_module(rt: &HostRuntime, name: &str) -> Result<Vec<u8>, Trouble> {
    let file = fs::open(rt, name).map_err(|_| Trouble::File)?;
    let mut bytes = Vec::new(rt.alloc());
    file.take(MOST_BYTES)
        .read_to_end(&mut bytes)
        .map_err(|_| Trouble::File)?;
    Ok(bytes)
}
