//! Markers, and the courses of nodes.

use crate::nodes::{Making, Ran, holds, run};
use kernel_worker::Course;
use std::alloc::Global;
use std::test::Fail;

/// A message that is asked for, but not taken yet.
pub(crate) const SCRIPT: &str = "version 2
kernels 2
process 0 on 0
process 1 on 1
wire 0 1
p0 send 0.0a x
p1 receive 0.0b
";

/// The run of two nodes, of which kernel 0 begins after its first turn.
fn snapshot(alloc: Global) -> Result<Ran, Fail> {
    let making = Making {
        letters: 64,
        limit: 100,
        begins: Some(1),
    };
    run(alloc, making, SCRIPT)
}

/// Where a course of two kernels has begun, and where it has the marker of each.
fn is_course(course: &Course, begun: u32, marked: [u32; 2]) -> bool {
    course.begun() == Some(begun)
        && course.marked(0) == Some(marked[0])
        && course.marked(1) == Some(marked[1])
        && course.marked(2).is_none()
        && course.complete(2)
}

#[test]
fn a_snapshot_of_two_nodes(rt: HostRuntime) -> Result<(), Fail> {
    let ran = snapshot(rt.alloc())?;
    let [first, second] = ran.courses.as_slice() else {
        return Err("two courses".into());
    };
    holds(is_course(first, 1, [1, 2]), "the course of kernel 0")?;
    holds(is_course(second, 1, [1, 1]), "the course of kernel 1")
}

#[test]
fn a_run_made_twice_is_the_same(rt: HostRuntime) -> Result<(), Fail> {
    let first = snapshot(rt.alloc())?;
    let second = snapshot(rt.alloc())?;
    holds(
        first.text.as_slice() == second.text.as_slice(),
        "the transcripts",
    )?;
    for (one, other) in first.courses.iter().zip(&second.courses) {
        holds(one.begun() == other.begun(), "where they began")?;
        holds(one.marked(0) == other.marked(0), "the markers of kernel 0")?;
        holds(one.marked(1) == other.marked(1), "the markers of kernel 1")?;
    }
    Ok(())
}
