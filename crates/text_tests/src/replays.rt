//! A transcript that is replayed, and what is answered where one of its lines is another.

use crate::scripts::TRANSCRIPT;
use kernel_journal::{Last, LineFault, ReplayFault, read_transcript, replay};
use std::alloc::{AllocError, Global};
use std::test::Fail;

/// The most bytes of a transcript that is read.
const MOST_BYTES: usize = 67_108_864;

/// The transcript with another text, of any lines, in place of one line.
fn with_line(alloc: Global, number: u32, text: &str) -> Result<Vec<u8>, AllocError> {
    let mut out = Vec::new(alloc);
    let mut line: u32 = 1;
    for byte in TRANSCRIPT.as_bytes() {
        if line != number {
            out.extend_from_slice(&[*byte])?;
        }
        if *byte == b'\n' {
            if line == number {
                out.extend_from_slice(text.as_bytes())?;
            }
            line = line.saturating_add(1);
        }
    }
    Ok(out)
}

/// What a text is replayed to.
fn replayed(alloc: Global, text: &[u8]) -> Result<Result<Last, ReplayFault>, LineFault> {
    if text.len() > MOST_BYTES {
        return Err(LineFault::NoMemory);
    }
    let lines = read_transcript(alloc, text)?;
    Ok(replay(alloc, lines.as_slice()))
}

fn gives(alloc: Global, text: &[u8], expected: Result<Last, ReplayFault>) -> Result<(), Fail> {
    if replayed(alloc, text)? == expected {
        Ok(())
    } else {
        Err("what a transcript is replayed to".into())
    }
}

/// With another text in place of a line, this is the first line that differs.
fn differs(alloc: Global, number: u32, text: &str, line: u32) -> Result<(), Fail> {
    let other = with_line(alloc, number, text)?;
    gives(alloc, other.as_slice(), Err(ReplayFault::Differs { line }))
}

/// Texts, and their last lines.
const WHOLE: [(&str, Last); 3] = [
    (TRANSCRIPT, Last::Quiet),
    ("transcript 2\nkernels 8\nspent 7\n", Last::Spent(7)),
    (
        "transcript 1\nkernels 1\nprocess 0 on 0\nwire 0 0\n1 k0 p0 receive 0.0b\n. receive 0.0b\nopen\n",
        Last::Unsettled,
    ),
];

#[test]
fn a_transcript_is_replayed(rt: HostRuntime) -> Result<(), Fail> {
    for (text, last) in WHOLE {
        gives(rt.alloc(), text.as_bytes(), Ok(last))?;
    }
    let without_note = with_line(rt.alloc(), 21, "")?;
    gives(rt.alloc(), without_note.as_slice(), Ok(Last::Quiet))
}

/// A line, the text in its place, and the first line that differs.
const DIFFERENT: &[(u32, &str, u32)] = &[
    // The stamp, the kernel and the process of a call.
    (6, "2 k0 p1 cancel 0.0a out\n", 6),
    (6, "1 k1 p1 cancel 0.0a out\n", 6),
    (6, "1 k7 p1 cancel 0.0a out\n", 6),
    (6, "1 k0 p7 cancel 0.0a out\n", 6),
    // A step that is another, missing, too many, or of another form.
    (7, ". refuse p1 NoEnd\n", 7),
    (7, "", 7),
    (7, ". refuse p1 NoActivity\n. refuse p1 NoActivity\n", 8),
    (9, ". wait p0\n", 9),
    // A stamp that does not rise.
    (8, "1 k0 p1 receive 0.0a\n", 8),
    // A packet of another kernel, with another number, with other bytes, and one that was not sent.
    (12, "3 k0 from 0 want 0.0a 1 1 0\n", 12),
    (16, "5 k0 from 1 taken 0.0a 2 1 0\n", 16),
    (14, "4 k1 from 0 parcel 0.0b 1 1 0 0 hullo\n", 14),
    (21, "6 k1 from 0 taken 0.0a 1 1 0\n", 21),
    // A report, and a last line that lies.
    (20, ". report p0 0.0b in done hallo\n", 20),
    (22, "open\n", 22),
    (21, "6 k1 p0 receive 0.0b\n. receive 0.0b\n", 23),
];

#[test]
fn a_line_that_differs_is_named(rt: HostRuntime) -> Result<(), Fail> {
    for (number, text, line) in DIFFERENT {
        differs(rt.alloc(), *number, text, *line)?;
    }
    Ok(())
}

#[test]
fn an_end_that_lies_is_named(rt: HostRuntime) -> Result<(), Fail> {
    gives(
        rt.alloc(),
        b"transcript 2\nkernels 2\nspent 2\n",
        Err(ReplayFault::Differs { line: 3 }),
    )
}
