//! Runs programs on kernels side by side, one turn after the other or with a worker for each kernel, and prints the transcript, or how many
//! events there were. With words that it does not know it tells them, with status 1.
#![tactic(auto)]

mod cycle;
mod kinds;
mod moves;
mod options;
mod printing;
mod rounds;
mod trouble;

use crate::options::Options;
use crate::rounds::run;
use crate::trouble::Trouble;
use std::env;
use std::process::ExitCode;
use std::thread::Threads;

fn main(rt: HostRuntime) -> ExitCode {
    match told(&rt, &rt) {
        Ok(()) => ExitCode::SUCCESS,
        Err(trouble) => {
            let text = trouble.text();
            let _ = println!(rt; "{text}");
            ExitCode::FAILURE
        }
    }
}

/// Makes the run that the program's words ask for.
fn told<R: Threads + Sync>(rt: &HostRuntime, threads: &R) -> Result<(), Trouble> {
    let alloc = rt.alloc();
    let args = env::args(rt).map_err(|_| Trouble::NoMemory)?;
    let words: Vec<String> = args.skip(1).collect(alloc).map_err(|_| Trouble::NoMemory)?;
    let options = Options::of(&words).ok_or(Trouble::Words)?;
    run(rt, threads, &options)
}
