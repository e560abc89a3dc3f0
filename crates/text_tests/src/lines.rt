//! The forms of lines of transcripts: right ones, and each with a field or a blank changed.

use crate::reading::{has_bad_line, with_line};
use std::alloc::Global;
use std::test::Fail;

/// Four lines, and a fifth below which steps may stand.
const FIRST: &str = "transcript 1\nkernels 1\nprocess 0 on 0\nwire 0 0\n1 k0 p0 make\n";

const SECOND: &str = "transcript 2\nkernels 1\nprocess 0 on 0\nwire 0 0\n1 k0 p0 make\n";

/// Lines, and the first line of a text that cannot stand, where one of them is the sixth, in each version; 0 where each can. More of them are tried on
/// the program (.ci/rows/lines).
const ROWS: &[(&str, u32, u32)] = &[
    ("18446744073709551615 k255 p65535 make", 0, 0),
    (
        "2 k0 from 0 parcel 0.0a 1 2 3 4 - +0.1a:4294967295:255:4294967295:4294967295:4294967295:4294967295:4294967295:1:255",
        0,
        0,
    ),
    (". report p0 0.0a in done hello +0.1a", 0, 0),
    ("note 4294967295 waits", 0, 0),
    ("2 k0 p0 send 0.0a x +0.1a +0.2a", 6, 0),
    (". report p0 0.0a in done - +0.1a +0.2a", 6, 0),
    ("18446744073709551616 k0 p0 make", 6, 6),
    (". take 0.0a 1 p0 dead", 6, 6),
    ("", 6, 6),
];

/// A line stands behind the five of a version, or is the first that cannot stand.
fn stands(alloc: Global, head: &str, line: &str, bad: u32) -> Result<(), Fail> {
    let text = with_line(alloc, head, line)?;
    has_bad_line(alloc, text.as_slice(), bad, line)
}

#[test]
fn lines_are_read_by_their_forms(rt: HostRuntime) -> Result<(), Fail> {
    for (line, first, second) in ROWS {
        stands(rt.alloc(), FIRST, line, *first)?;
        stands(rt.alloc(), SECOND, line, *second)?;
    }
    Ok(())
}
