//! Each read and each put fails in turn.

use crate::sinks::{held, holds};
use charlotte_calls::NoMemory;
use kernel_worker::NoGate;
use lynx_outside::{ListFiles, ListSink, Status};
use lynx_run::lynx;
use std::alloc::{AllocError, Global};
use std::test::Fail;
use std::thread::Threads;

const SCRIPT: &[u8] = b"kernels 1\nprocess 0 on 0\np0 print 1\n";

const TRANSCRIPT: &str = "transcript 1\nkernels 1\nprocess 0 on 0\n1 k0 p0 print 1\nquiet\n";

const LISTING: &str = "code m\npart main\n0 end\n";

const PLAN: &[u8] = b"kernels 1\nprocess 0 on 0 runs m\n";

const QUIET: &str = "transcript 1\nkernels 1\nprocess 0 on 0\n1 k0 p0 exit\n. exit p0\nquiet\n";

const SUMMARY: &str =
    "seed 1\ncalls 74\nwaits 4926\nnothing 4985\nevents 105\nrefused 25\nmatches 6\ntakes 6\ncompletes 6\n";

const SPENT: &str = "transcript 1\nkernels 1\nprocess 0 on 0\n1 k0 p0 exit\n. exit p0\nspent 0\n";

/// Room for every text of these tests.
const AMPLE: u32 = 100;

fn words_of(alloc: Global, line: &str) -> Result<Vec<String>, AllocError> {
    let mut words = Vec::new(alloc);
    for word in line.split(' ') {
        words.push(String::from_str(alloc, word)?)?;
    }
    Ok(words)
}

fn file(alloc: Global, name: &str, bytes: &[u8]) -> Result<(String, Vec<u8>), AllocError> {
    Ok((String::from_str(alloc, name)?, bytes.to_vec(alloc)?))
}

/// The files `s`, a script, `m`, a module, and `p`, a plan that runs it. The read of this number fails.
fn files_of(alloc: Global, failing: u32) -> Result<ListFiles, AllocError> {
    let script = file(alloc, "s", SCRIPT)?;
    let module = file(alloc, "m", b"module m; begin end.\n")?;
    let plan = file(alloc, "p", PLAN)?;
    Ok(ListFiles::of(
        vec![in alloc; script, module, plan]?,
        vec![in alloc; failing]?,
    ))
}

/// With room for so many bytes. The put of this number fails.
fn sink_of(alloc: Global, room: u32, failing: u32) -> Result<ListSink, NoMemory> {
    ListSink::with(alloc, room, vec![in alloc; failing]?)
}

/// A line of words; the numbers, from 1, of the read, the put on out and the put on err that fail, where 0 is none; the room of out; the
/// status; and what out and err hold then.
type Row = (
    &'static str,
    (u32, u32, u32),
    u32,
    Status,
    &'static str,
    &'static str,
);

const ROWS: &[Row] = &[
    ("help", (0, 0, 0), 4, Status::Usage, "", "lynx: usage\n"),
    ("help", (0, 0, 1), 4, Status::WriteFault, "", ""),
    ("bench 1", (1, 0, 1), AMPLE, Status::Done, SUMMARY, ""),
    (
        "bench 1",
        (0, 2, 0),
        AMPLE,
        Status::WriteFault,
        "seed 1\n",
        "",
    ),
    (
        "snapshot p 0",
        (0, 0, 0),
        4,
        Status::Refused,
        "",
        "lynx: snapshot: not built\n",
    ),
    // the plan is read, and then its module
    (
        "run p",
        (1, 0, 0),
        4,
        Status::ReadFault,
        "",
        "lynx: p: read fault\n",
    ),
    (
        "run p",
        (2, 0, 0),
        4,
        Status::ReadFault,
        "",
        "lynx: m: read fault\n",
    ),
    (
        "run q",
        (0, 0, 0),
        4,
        Status::NoFile,
        "",
        "lynx: q: absent\n",
    ),
    ("run s", (0, 0, 0), 4, Status::Refused, "", "s:2: plan 1\n"),
    ("run p", (3, 0, 1), AMPLE, Status::Done, QUIET, ""),
    ("run p --serial", (3, 0, 1), AMPLE, Status::Done, QUIET, ""),
    (
        "run p --turns 1",
        (3, 0, 1),
        AMPLE,
        Status::Spent,
        SPENT,
        "",
    ),
    (
        "run p",
        (3, 2, 1),
        AMPLE,
        Status::WriteFault,
        "transcript 1\n",
        "",
    ),
    (
        "drive s",
        (1, 0, 0),
        4,
        Status::ReadFault,
        "",
        "lynx: s: read fault\n",
    ),
    (
        "check m",
        (1, 0, 0),
        4,
        Status::ReadFault,
        "",
        "lynx: m: read fault\n",
    ),
    (
        "code m",
        (1, 0, 0),
        4,
        Status::ReadFault,
        "",
        "lynx: m: read fault\n",
    ),
    ("drive s", (1, 0, 1), 4, Status::WriteFault, "", ""),
    (
        "drive t",
        (0, 0, 0),
        4,
        Status::NoFile,
        "",
        "lynx: t: absent\n",
    ),
    (
        "drive m",
        (2, 0, 0),
        4,
        Status::Refused,
        "",
        "m:1: script 1\n",
    ),
    (
        "check s",
        (2, 0, 0),
        4,
        Status::Refused,
        "",
        "s:1:1: syntax\n",
    ),
    ("check s", (0, 0, 1), 4, Status::WriteFault, "", ""),
    (
        "code s",
        (2, 0, 0),
        4,
        Status::Refused,
        "",
        "s:1:1: syntax\n",
    ),
    // out has room for four bytes
    ("check m", (0, 0, 0), 4, Status::WriteFault, "ok m", ""),
    ("drive s", (0, 0, 0), 4, Status::WriteFault, "tran", ""),
    // out has room for the first line and a part of the second
    (
        "code m",
        (0, 0, 0),
        12,
        Status::WriteFault,
        "code m\npart ",
        "",
    ),
    // each put on out, and nothing is put on err then
    ("drive s", (0, 1, 1), AMPLE, Status::WriteFault, "", ""),
    (
        "drive s",
        (0, 2, 1),
        AMPLE,
        Status::WriteFault,
        "transcript 1\n",
        "",
    ),
    (
        "drive s",
        (0, 3, 1),
        AMPLE,
        Status::WriteFault,
        "transcript 1\nkernels 1\n",
        "",
    ),
    (
        "drive s",
        (0, 4, 1),
        AMPLE,
        Status::WriteFault,
        "transcript 1\nkernels 1\nprocess 0 on 0\n",
        "",
    ),
    (
        "drive s",
        (0, 5, 1),
        AMPLE,
        Status::WriteFault,
        "transcript 1\nkernels 1\nprocess 0 on 0\n1 k0 p0 print 1\n",
        "",
    ),
    ("drive s", (0, 6, 1), AMPLE, Status::Done, TRANSCRIPT, ""),
    (
        "code m",
        (0, 3, 1),
        AMPLE,
        Status::WriteFault,
        "code m\npart main\n",
        "",
    ),
    ("code m", (0, 4, 1), AMPLE, Status::Done, LISTING, ""),
];

fn ends_so<R: Threads + Sync>(rt: &R, alloc: Global, row: &Row) -> Result<(), Fail> {
    let (line, (read, put, told), room, status, out_text, err_text) = *row;
    let mut files = files_of(alloc, read)?;
    let mut out = sink_of(alloc, room, put)?;
    let mut err = sink_of(alloc, AMPLE, told)?;
    let ended = lynx(
        rt,
        alloc,
        words_of(alloc, line)?,
        &mut files,
        &mut out,
        &mut err,
        &NoGate,
    );
    holds(ended == status, line)?;
    held(&out, out_text)?;
    held(&err, err_text)
}

#[test]
fn reads_and_puts_fail_in_turn(rt: HostRuntime) -> Result<(), Fail> {
    for row in ROWS {
        ends_so(&rt, rt.alloc(), row)?;
    }
    Ok(())
}
