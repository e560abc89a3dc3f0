//! What lines of transcripts show, and their numbers.

use crate::journals::holds;
use std::alloc::{AllocError, Global};
use std::test::Fail;
use transcript_reader::{Line, Reader, read_transcript};

const TRANSCRIPT: &[u8] = b"transcript 2
kernels 3
process 0 on 2
wire 0 0
7 k1 p4 cancel 0.1a out
. take 0.1a 5 p6 late
8 k2 from 3 parcel 0.1a 1 2 3 4 xy +0.1a:5:6:7:8:9:10:11:1:12
note 9 waits
open
";

/// The lines as they are printed for debugging: each field has its own number. A picture that a line has bears the stamp 0.
const LINES: [&str; 9] = [
    "1 First { version: 2 }",
    "2 Kernels(3)",
    "3 Process { p: Pid(0), kernel: 2 }",
    "4 Wire { first: Pid(0), second: Pid(0) }",
    "5 CallEntry { stamp: 7, kernel: 1, p: Pid(4), call: Cancel { on: EndId { link: LinkId { maker: 0, count: 1 }, side: A }, way: Outward } }",
    "6 Service(Take { on: EndId { link: LinkId { maker: 0, count: 1 }, side: A }, n: 5, p: Pid(6), late: true })",
    "7 PacketEntry { stamp: 8, kernel: 2, from: 3, picture: Picture { stamp: 0, what: Parcel { to: EndId { link: LinkId { maker: 0, count: 1 }, side: A }, n: 1, w: 2, at: 3, hops: 4, bytes: Short { items: [120, 121] }, moving: Short { items: [MovingPicture { end: EndId { link: LinkId { maker: 0, count: 1 }, side: A }, hops: 5, hint: (6, 7), sent: 8, asked: 9, served: 10, want: 11, dead: true, trail: 12 }] } } } }",
    "8 Note(ScriptNote { line: 9, waits: true })",
    "9 End(Unsettled)",
];

fn told(alloc: Global, line: &Line) -> Result<String, AllocError> {
    format!(in alloc; "{} {:?}", line.number, line.what)
}

fn shows(alloc: Global, line: &Line, want: &str) -> Result<(), Fail> {
    let text = told(alloc, line)?;
    holds(text.as_str() == want, want)
}

#[test]
fn lines_show_their_values(rt: HostRuntime) -> Result<(), Fail> {
    let lines = read_transcript(rt.alloc(), TRANSCRIPT)?;
    holds(lines.len() == LINES.len(), "how many lines there are")?;
    for (line, want) in lines.iter().zip(&LINES) {
        shows(rt.alloc(), line, want)?;
    }
    Ok(())
}

/// A reader gives the same fault or end again.
fn ends_with(bytes: &[u8], lines: u32, bad: bool) -> Result<(), Fail> {
    if 1_000_000 < bytes.len() {
        return Err("the text is too long".into());
    }
    let mut reader = Reader::new(bytes);
    for _ in 0..lines {
        holds(matches!(reader.next_line(), Ok(Some(_))), "a line")?;
    }
    let ends = (reader.next_line().is_err(), reader.next_line().is_err());
    holds(ends == (bad, bad), "the end, and once more")
}

#[test]
fn a_reader_stays_at_its_end() -> Result<(), Fail> {
    ends_with(TRANSCRIPT, 9, false)?;
    ends_with(&TRANSCRIPT[..12], 0, true)
}
