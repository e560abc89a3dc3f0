//! Reads a transcript on standard input and makes the step of each of its service lines on the link service, one after the other. It tells
//! how many steps there were, all of them allowed; or else the first line that no transcript has there, or whose step is not allowed,
//! with status 1.
#![tactic(auto)]

mod serving;
mod setting;
mod trouble;
mod whole;

use crate::serving::served;
use crate::trouble::Trouble;
use std::io::Read;
use std::process::ExitCode;

/// The most bytes of a transcript.
const MOST_BYTES: u64 = 67_108_864;

fn main(rt: HostRuntime) -> ExitCode {
    match told(&rt) {
        Ok(steps) => {
            if println!(rt; "{steps} steps").is_ok() {
                return ExitCode::SUCCESS;
            }
            ExitCode::FAILURE
        }
        Err(trouble) => {
            // Nothing is left to do where this cannot be told.
            let _ = println!(rt; "{trouble}");
            ExitCode::FAILURE
        }
    }
}

/// The steps of the transcript on standard input.
fn told(rt: &HostRuntime) -> Result<u64, Trouble> {
    let alloc = rt.alloc();
    let mut bytes = Vec::new(alloc);
    if rt
        .reader()
        .take(MOST_BYTES + 1)
        .read_to_end(&mut bytes)
        .is_err()
    {
        return Err(Trouble::Read);
    }
    if bytes.len() as u64 > MOST_BYTES {
        return Err(Trouble::TooLong);
    }
    served(alloc, bytes.as_slice())
}
