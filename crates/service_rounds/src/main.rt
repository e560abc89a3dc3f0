//! A measure of the link service: makes steps of one kind, one after the other, and tells how many there were. Where a step is not
//! allowed it tells that in place, with status 1.
#![tactic(auto)]

mod exits;
mod measure;
mod rounds;
mod trouble;

use crate::exits::exits;
use crate::measure::Measure;
use crate::rounds::rounds;
use crate::trouble::Trouble;
use std::env;
use std::process::ExitCode;

fn main(rt: HostRuntime) -> ExitCode {
    match measured(&rt) {
        Ok(steps) => told(println!(rt; "{steps} steps").is_ok()),
        Err(trouble) => {
            let text = trouble.text();
            let _ = println!(rt; "{text}");
            ExitCode::FAILURE
        }
    }
}

fn told(well: bool) -> ExitCode {
    if well {
        ExitCode::SUCCESS
    } else {
        ExitCode::FAILURE
    }
}

/// Makes the steps that the program's words ask for.
fn measured(rt: &HostRuntime) -> Result<u64, Trouble> {
    let alloc = rt.alloc();
    let args = env::args(rt).map_err(|_| Trouble::NoMemory)?;
    let words: Vec<String> = args.skip(1).collect(alloc).map_err(|_| Trouble::NoMemory)?;
    match Measure::of(&words).ok_or(Trouble::Words)? {
        Measure::Rounds { links, steps } => rounds(alloc, links, steps),
        Measure::Exits { steps } => exits(alloc, steps),
    }
}
