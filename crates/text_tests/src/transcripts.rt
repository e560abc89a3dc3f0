//! Whole transcripts: which line is the first that cannot stand in its place.

use crate::reading::has_bad_line;
use std::alloc::Global;
use std::test::Fail;

/// Two ends in one message.
const TRANSCRIPT: &str = "transcript 2
kernels 2
process 0 on 0
process 1 on 1
wire 0 1
wire 0 1
wire 0 1
1 k1 p1 receive 0.0b
. receive 0.0b
2 k0 from 1 want 0.0a 1 1 0
3 k0 p0 send 0.0a x +0.1a +0.2a
. send 0.0a 1 +0.1a +0.2a
. match 0.0a 1
4 k1 from 0 parcel 0.0b 1 1 0 0 x +0.1a:1:1:0:0:0:0:0:0:1 +0.2a:1:1:0:0:0:0:0:0:1
. take 0.0a 1 p1
5 k0 from 1 taken 0.0a 1 1 0
. complete 0.0a 1
9 k1 p1 wait
. wait p1
. report p1 0.0b in done x +0.1a +0.2a
note 4 nothing
note 5 waits
open
";

/// Texts and their first bad line, or 0. More of them are tried on the program (.ci/rows/texts).
const TEXTS: &[(&[u8], u32)] = &[
    (b"transcript 1\nkernels 1\nquiet\n", 0),
    (b"", 1),
    (b"\xff\xfe\n", 1),
    (b"transcript 1\nkernels 1\n", 3),
    (b"transcript 1\nkernels 1\nquiet", 3),
    (b"transcript 1\nkernels 1\nquiet\nx", 4),
    (
        b"transcript 1\nkernels 1\n9 k0 p0 make\n1 k0 p0 make\nquiet\n",
        0,
    ),
];

#[test]
fn the_first_line_that_cannot_stand_is_named(rt: HostRuntime) -> Result<(), Fail> {
    for (text, line) in TEXTS {
        has_bad_line(rt.alloc(), text, *line, "a row of texts")?;
    }
    Ok(())
}

/// A text that is cut ends too soon: at a line's end the line behind it is missing, and elsewhere that line is not finished.
fn is_cut(alloc: Global, text: &[u8]) -> Result<(), Fail> {
    let mut lines: u32 = 0;
    for from in 0..text.len() {
        has_bad_line(alloc, &text[..from], lines.saturating_add(1), "a cut text")?;
        if text[from] == b'\n' {
            lines = lines.saturating_add(1);
        }
    }
    Ok(())
}

#[test]
fn a_cut_transcript_lacks_a_line(rt: HostRuntime) -> Result<(), Fail> {
    has_bad_line(rt.alloc(), TRANSCRIPT.as_bytes(), 0, "a transcript")?;
    is_cut(rt.alloc(), TRANSCRIPT.as_bytes())
}
