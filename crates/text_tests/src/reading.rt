//! What each test of transcripts asks of a text.

use crate::journals::holds;
use std::alloc::Global;
use std::test::Fail;
use transcript_reader::{LineFault, read_transcript};

/// The first bad line of a text, and 0 where there is none.
pub(crate) fn bad_line(alloc: Global, text: &[u8]) -> Result<u32, Fail> {
    if 1_000_000 < text.len() {
        return Err("the text is too long".into());
    }
    match read_transcript(alloc, text) {
        Ok(_) => Ok(0),
        Err(LineFault::BadLine { line }) => Ok(line),
        Err(LineFault::NoMemory) => Err("no memory".into()),
    }
}

/// The text has this first bad line, or none where it is 0.
pub(crate) fn has_bad_line(alloc: Global, text: &[u8], line: u32, what: &str) -> Result<(), Fail> {
    holds(bad_line(alloc, text)? == line, what)
}

/// The text of a head, a line and a last line.
pub(crate) fn with_line(alloc: Global, head: &str, line: &str) -> Result<Vec<u8>, Fail> {
    let mut text = Vec::new(alloc);
    text.extend_from_slice(head.as_bytes())?;
    text.extend_from_slice(line.as_bytes())?;
    text.extend_from_slice(b"\nquiet\n")?;
    Ok(text)
}
