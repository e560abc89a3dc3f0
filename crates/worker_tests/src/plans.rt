//! Runs of plans by the program's top call.

use crate::gates::BothPass;
use crate::nodes::holds;
use lynx_outside::{ListFiles, ListSink, Status};
use lynx_run::lynx;
use std::alloc::{AllocError, Global};
use std::test::Fail;

/// Two kernels, and on each a process that runs one module.
const PLAN: &[u8] = b"kernels 2\nprocess 0 on 0 runs w\nprocess 1 on 1 runs w\n";

const MODULE: &[u8] = b"module w; begin write 1; end.\n";

/// What a run of it puts.
const TRANSCRIPT: &str = "transcript 1
kernels 2
process 0 on 0
process 1 on 1
1 k0 p0 print 1
1 k1 p1 print 1
2 k0 p0 exit
. exit p0
2 k1 p1 exit
. exit p1
quiet
";

/// Room for that text.
const ROOM: u32 = 200;

fn words_of(alloc: Global, line: &str) -> Result<Vec<String>, AllocError> {
    let mut words = Vec::new(alloc);
    for word in line.split(' ') {
        words.push(String::from_str(alloc, word)?)?;
    }
    Ok(words)
}

/// The files `p`, the plan, and `w`, the module.
fn files_of(alloc: Global) -> Result<ListFiles, AllocError> {
    let plan = (String::from_str(alloc, "p")?, PLAN.to_vec(alloc)?);
    let module = (String::from_str(alloc, "w")?, MODULE.to_vec(alloc)?);
    Ok(ListFiles::of(vec![in alloc; plan, module]?, Vec::new(alloc)))
}

/// `run` drives each kernel by a worker of its own, and with `--serial` both by one thread, which passes no gate.
#[test]
fn a_plan_is_run_by_workers(rt: HostRuntime) -> Result<(), Fail> {
    let alloc = rt.alloc();
    for (line, beside) in [("run p", true), ("run p --serial", false)] {
        let gate = BothPass::new();
        let mut files = files_of(alloc)?;
        let mut out = ListSink::with(alloc, ROOM, Vec::new(alloc))?;
        let mut err = ListSink::with(alloc, ROOM, Vec::new(alloc))?;
        let words = words_of(alloc, line)?;
        let status = lynx(&rt, alloc, words, &mut files, &mut out, &mut err, &gate);
        holds(status == Status::Done, line)?;
        holds(out.held() == TRANSCRIPT.as_bytes(), "its transcript")?;
        holds(err.held().is_empty(), "no failure")?;
        holds(gate.is_passed() == beside, "workers, or one thread")?;
    }
    Ok(())
}
