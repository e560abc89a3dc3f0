//! A measure of the machine: runs a loop of a module by so many turns, and tells how many instructions that were. Where it cannot, it tells why,
//! with status 1.
#![tactic(auto)]

mod loops;
mod module;
mod outside;
mod trouble;

use crate::loops::{Told, run_loop};
use crate::module::machine_of;
use crate::outside::read_module;
use crate::trouble::Trouble;
use std::env;
use std::process::ExitCode;

/// The most turns of a loop.
const MOST_TURNS: i64 = 100_000_000;

fn main(rt: HostRuntime) -> ExitCode {
    match measured(&rt) {
        Ok(told) => {
            let (instructions, answer) = (told.instructions, told.answer);
            status(println!(rt; "{instructions} instructions, answer {answer}").is_ok())
        }
        Err(trouble) => {
            let text = trouble.text();
            let _ = println!(rt; "{text}");
            ExitCode::FAILURE
        }
    }
}

fn status(well: bool) -> ExitCode {
    if well {
        ExitCode::SUCCESS
    } else {
        ExitCode::FAILURE
    }
}

/// Runs the loop that the program's words name: the file of a module, and the number of turns.
fn measured(rt: &HostRuntime) -> Result<Told, Trouble> {
    let alloc = rt.alloc();
    let args = env::args(rt).map_err(|_| Trouble::NoMemory)?;
    let words: Vec<String> = args.skip(1).collect(alloc).map_err(|_| Trouble::NoMemory)?;
    let [file, turns] = words.as_slice() else {
        return Err(Trouble::Words);
    };
    let turns = number(turns.as_str()).ok_or(Trouble::Words)?;
    let source = read_module(rt, file.as_str())?;
    run_loop(alloc, machine_of(alloc, &source)?, turns)
}

/// A number from 1 to the most turns.
fn number(word: &str) -> Option<i64> {
    let value = word.parse::<i64>().ok()?;
    if 1 <= value && value <= MOST_TURNS {
        Some(value)
    } else {
        None
    }
}
