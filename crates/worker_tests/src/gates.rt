//! Two workers that wait for each other at the gate.

use crate::nodes::holds;
use crate::runs::AMPLE;
use crate::workers::work;
use kernel_worker::Gate;
use std::sync::atomic::{AtomicBool, AtomicU32, Ordering};
use std::test::Fail;
use std::thread;

/// The passes at which a kernel waits.
const PASSES: u32 = 8;

/// How often it looks for the other at most.
const TRIES: u32 = 10_000_000;

/// Two processes that print and exit, and what they leave.
pub(crate) const PRINT_AND_EXIT: (&str, &str) = (
    "version 2
kernels 2
process 0 on 0
process 1 on 1
p0 print a
p0 exit
p1 print b
p1 exit
",
    "transcript 2
kernels 2
process 0 on 0
process 1 on 1
1 k0 p0 print a
1 k1 p1 print b
2 k0 p0 exit
. exit p0
2 k1 p1 exit
. exit p1
quiet
",
);

/// At each of its first passes a kernel waits until the other has made as many.
#[derive(Drop)]
pub(crate) struct BothPass {
    /// The passes of kernel 0.
    first: AtomicU32,
    /// The passes of kernel 1.
    second: AtomicU32,
    /// One of them waited in vain.
    alone: AtomicBool,
}

impl BothPass {
    /// None passed yet.
    pub(crate) fn new() -> BothPass {
        BothPass {
            first: AtomicU32::new(0),
            second: AtomicU32::new(0),
            alone: AtomicBool::new(false),
        }
    }

    /// Whether each made all these passes beside the other.
    pub(crate) fn is_passed(&self) -> bool {
        !self.alone.load(Ordering::SeqCst)
            && self.first.load(Ordering::SeqCst) == PASSES
            && self.second.load(Ordering::SeqCst) == PASSES
    }

    /// Waits until a kernel has made so many passes.
    fn wait(&self, other: &AtomicU32, turn: u32) {
        for _ in 0..TRIES {
            if other.load(Ordering::SeqCst) >= turn {
                return;
            }
            thread::yield_now();
        }
        self.alone.store(true, Ordering::SeqCst);
    }
}

impl Gate for BothPass {
    fn pass(&self, kernel: u8, turn: u32) {
        if turn > PASSES || self.alone.load(Ordering::SeqCst) {
            return;
        }
        let (own, other) = if kernel == 0 {
            (&self.first, &self.second)
        } else {
            (&self.second, &self.first)
        };
        own.store(turn, Ordering::SeqCst);
        self.wait(other, turn);
    }
}

/// A body that makes the turns of both kernels on one thread fails this.
#[test]
fn workers_run_beside_each_other(rt: HostRuntime) -> Result<(), Fail> {
    let (script, text) = PRINT_AND_EXIT;
    let gate = BothPass::new();
    let ran = work(&rt, rt.alloc(), AMPLE, script, &gate)?;
    holds(ran.text.as_slice() == text.as_bytes(), text)?;
    holds(gate.is_passed(), "each waited for the other")
}
