//! A measure of processes: two of them talk over links, without a kernel. Tells how many steps they made, and a sum of what they did by which two
//! programs can be compared. Where it cannot, it tells why, with status 1.
#![tactic(auto)]

mod links;
mod modules;
mod outside;
mod seats;
mod sums;
mod trouble;

use crate::outside::read_module;
use crate::seats::talk;
use crate::sums::Sum;
use crate::trouble::Trouble;
use std::env;
use std::process::ExitCode;

fn main(rt: HostRuntime) -> ExitCode {
    match measured(&rt) {
        Ok(sum) => {
            let (steps, sum) = (sum.steps, sum.sum);
            status(println!(rt; "{steps} steps, sum {sum}").is_ok())
        }
        Err(trouble) => {
            let text = trouble.text();
            let _ = println!(rt; "{text}");
            ExitCode::FAILURE
        }
    }
}

fn status(well: bool) -> ExitCode {
    if well {
        ExitCode::SUCCESS
    } else {
        ExitCode::FAILURE
    }
}

/// Lets the processes of two modules talk, as the program's words tell: the version, the most steps, and the files of the modules.
fn measured(rt: &HostRuntime) -> Result<Sum, Trouble> {
    let alloc = rt.alloc();
    let args = env::args(rt).map_err(|_| Trouble::NoMemory)?;
    let words: Vec<String> = args.skip(1).collect(alloc).map_err(|_| Trouble::NoMemory)?;
    let [version, steps, first, second] = words.as_slice() else {
        return Err(Trouble::Words);
    };
    let version = match version.as_str() {
        "1" => 1,
        "2" => 2,
        _ => return Err(Trouble::Words),
    };
    let Ok(steps) = steps.as_str().parse::<u32>() else {
        return Err(Trouble::Words);
    };
    let first = read_module(rt, first.as_str())?;
    let second = read_module(rt, second.as_str())?;
    talk(alloc, version, (&first, &second), steps)
}
