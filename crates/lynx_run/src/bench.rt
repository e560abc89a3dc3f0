//! The command that performs the script of a seed.
ghost use Rattle.lynx_command.specs.Course.{Course, outside, Took};
ghost use Rattle.lynx_command.specs.Found.{found_of};
ghost use Rattle.lynx_outside.specs.Files.{Source};
ghost use Rattle.lynx_run.specs.Bench.{Benches, FindsSummary};

use lynx_command::{End, Failure, Lines, Output, end_with};
use lynx_outside::{Sink, Status};
use run_counts::summary_of;
use std::alloc::Global;

/// Performs the script of a seed, and puts its summary on out, one put a line: the nine lines are the counts over the run. It reads no file.
pub fn bench_seed<O: Sink, E: Sink>(alloc: Global, seed: u32, out: &mut O, err: &mut E) -> Status
    ensures { (course : Course) × Benches seed course × ((files : Source)
        → Took course result (outside files (O.state out.old) (E.state err.old)) (outside files (O.state out.new) (E.state err.new))) }
{
    let found = find_summary(alloc, seed);
    end_with(alloc, "", found, out, err)
}

// The summary of a seed.
fn find_summary(alloc: Global, seed: u32) -> Result<Output<Lines>, Failure>
    ensures { FindsSummary seed (found_of (λ lines. lines) result) }
{
    let lines = summary_of(alloc, seed)?;
    Ok(Output {
        text: Lines::of(lines),
        end: End::Done,
    })
}
