//! Packets and their bytes, and where bytes are no packet.

use crate::samples::{holds, is_answer, told};
use lynx_packets::{RtPacket, encode};
use std::alloc::Global;
use std::rt::HostRuntime;
use std::test::Fail;

/// Forbid number 7.
#[test]
fn forbid_is_five_bytes() -> Result<(), Fail> {
    match encode(&RtPacket::Forbid(7)) {
        Ok(bytes) => holds(bytes.as_slice() == b"\x04\0\0\0\x07".as_slice(), "forbid"),
        Err(_) => Err("forbid".into()),
    }
}

/// The request `add(int,int):(int)` of 20 and 22.
const REQUEST: &[u8] =
    b"\x01\0\0\0\x01\x12add(int,int):(int)\x01\0\0\0\0\0\0\0\x14\x01\0\0\0\0\0\0\0\x16";

#[test]
fn request_comes_back(rt: HostRuntime) -> Result<(), Fail> {
    let alloc = rt.alloc();
    holds(REQUEST.len() == 42, "42 bytes")?;
    is_answer(alloc, 1, REQUEST, "request 1 add(int,int):(int) 20 22")
}

/// Bytes, and what decoding them in the version answers.
type Row = (u8, &'static [u8], &'static str);

const ROWS: &[Row] = &[
    (1, b"\x04\0\0", "bad 3"),
    (1, b"\x08", "bad 0"),
    (1, b"\x04\0\0\0\x07\0", "bad 5"),
    (2, b"\x06\0\0\0\x01", "bad 0"),
    (1, b"\x06\0\0\0\x01", "goahead 1"),
    (1, b"", "bad 0"),
    (1, b"\0", "bad 0"),
    (1, b"\x03\0\0\x01\0", "retry 256"),
    (2, b"\x04\0\0\0\x07", "forbid 7"),
    (2, b"\x05\xff\xff\xff\xff", "allow 4294967295"),
    (1, b"\x07\x01\0\0\0\x09\x02", "enc 1 9 2"),
    (1, b"\x07\x03\0\0\0\x09\x02", "bad 1"),
    (1, b"\x07\x02\0\0\0\x09\x01", "bad 6"),
    (1, b"\x07\x02\0\0\0\x09\x09", "bad 6"),
    (2, b"\x07\x01\0\0\0\x09\x02", "bad 0"),
];

/// Replies: each type of value, and what ends them early.
const REPLIES: &[Row] = &[
    (1, b"\x02\0\0\0\x01\0", "reply 1 0"),
    (1, b"\x02\0\0\0\x01\x01", "reply 1 1"),
    (1, b"\x02\0\0\0\x01\x01\x05", "bad 6"),
    (1, b"\x02\0\0\0\x01\x02", "bad 5"),
    (
        2,
        b"\x02\0\0\0\x01\0\x02\x01\x02\0\x05",
        "reply 1 0 true false link",
    ),
    (2, b"\x02\0\0\0\x01\0\x02\x02", "bad 7"),
    (2, b"\x02\0\0\0\x01\0\x03\x03abc", "reply 1 0 'abc'"),
    (2, b"\x02\0\0\0\x01\0\x03\x04abc", "bad 11"),
    (2, b"\x02\0\0\0\x01\0\x03\x41abc", "bad 7"),
    (
        2,
        b"\x02\0\0\0\x01\0\x01\xff\xff\xff\xff\xff\xff\xff\xff",
        "reply 1 0 -1",
    ),
    (
        2,
        b"\x02\0\0\0\x01\0\x04\x02\0\0\0\0\0\0\0\x07\xff\xff\xff\xff\xff\xff\xff\xfe",
        "reply 1 0 [7 -2]",
    ),
    (2, b"\x02\0\0\0\x01\0\x04\0", "bad 7"),
    (2, b"\x02\0\0\0\x01\0\x04\x11", "bad 7"),
    (
        2,
        b"\x02\0\0\0\x01\0\x05\x05\x05\x05\x05\x05\x05\x05",
        "reply 1 0 link link link link link link link link",
    ),
    (
        2,
        b"\x02\0\0\0\x01\0\x05\x05\x05\x05\x05\x05\x05\x05\x05",
        "bad 14",
    ),
    (2, b"\x02\0\0\0\x01\0\x06", "bad 6"),
];

/// Requests: the signature is of the size that is told, its name is no keyword, and the values have its types.
const REQUESTS: &[Row] = &[
    (1, b"\x01\0\0\0\x01\x06o():()", "request 1 o():()"),
    (1, b"\x01\0\0\0\x01\x05o():()", "bad 5"),
    (1, b"\x01\0\0\0\x01\x07o():()", "bad 7"),
    (1, b"\x01\0\0\0\x01\x08o():()", "bad 7"),
    (1, b"\x01\0\0\0\x01\x09o():()", "bad 11"),
    (1, b"\x01\0\0\0\x01\x07if():()", "bad 7"),
    (1, b"\x01\0\0\0\x01\x0aif(int):()", "bad 8"),
    (1, b"\x01\0\0\0\x01\x08ifx():()", "request 1 ifx():()"),
    (1, b"\x01\0\0\0\x01\x069():()", "bad 6"),
    (1, b"\x01\0\0\0\x01\x09o(int):()\x02\x01", "bad 15"),
    (1, b"\x01\0\0\0\x01\x0bo(row16):()", "bad 17"),
    (1, b"\x01\0\0\0\x01\x0bo(row17):()", "bad 12"),
    (1, b"\x01\0\0\0\x01\x0bo(row01):()", "bad 11"),
    (1, b"\x01\0\0\0\x01\x0ao(row2):()\x04\x01", "bad 17"),
    (1, b"\x01\0\0\0\x01\x0ao(bool):()\x02\x01\x02", "bad 18"),
    (1, b"\x01\0\0\0\x01\x09o():(row)", "bad 11"),
    (1, b"\x01\0\0\0\x01\x0ao():(row)", "bad 14"),
];

fn tried(alloc: Global, rows: &[Row]) -> Result<(), Fail> {
    for (version, bytes, want) in rows {
        is_answer(alloc, *version, bytes, want)?;
    }
    Ok(())
}

#[test]
fn kinds_are_read(rt: HostRuntime) -> Result<(), Fail> {
    let alloc = rt.alloc();
    tried(alloc, ROWS)
}

#[test]
fn replies_are_read(rt: HostRuntime) -> Result<(), Fail> {
    let alloc = rt.alloc();
    tried(alloc, REPLIES)
}

#[test]
fn requests_are_read(rt: HostRuntime) -> Result<(), Fail> {
    let alloc = rt.alloc();
    tried(alloc, REQUESTS)
}

/// The ninth link among the arguments is none; among the results it is.
#[test]
fn ninth_link_is_refused(rt: HostRuntime) -> Result<(), Fail> {
    let alloc = rt.alloc();
    let nine = b"\x01\0\0\0\x01\x32o(link,link,link,link,link,link,link,link,link):()";
    is_answer(alloc, 1, nine, "bad 48")?;
    let results = b"\x01\0\0\0\x01\x32o():(link,link,link,link,link,link,link,link,link)";
    is_answer(
        alloc,
        1,
        results,
        "request 1 o():(link,link,link,link,link,link,link,link,link)",
    )
}
