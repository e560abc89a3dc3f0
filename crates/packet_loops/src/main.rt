//! A measure of packets: reads the packet of a file, or writes it, so many times, and tells a sum by which two programs can be compared. Where it
//! cannot, it tells what it wants, with status 1.
#![tactic(auto)]

mod loops;
mod outside;

use crate::loops::{read_again, written_again};
use crate::outside::bytes_of;
use std::env;
use std::process::ExitCode;

fn main(rt: HostRuntime) -> ExitCode {
    match measured(&rt) {
        Some(sum) => {
            let _ = println!(rt; "sum {sum}");
            ExitCode::SUCCESS
        }
        None => {
            let _ = println!(rt;
                "words: decode|encode FILE TURNS; the file holds one packet of version 1"
            );
            ExitCode::FAILURE
        }
    }
}

/// The sum over the turns that the program's words ask for.
fn measured(rt: &HostRuntime) -> Option<u64> {
    let alloc = rt.alloc();
    let args = env::args(rt).ok()?;
    let words: Vec<String> = args.skip(1).collect(alloc).ok()?;
    let [what, file, turns] = words.as_slice() else {
        return None;
    };
    let turns = turns.as_str().parse::<u32>().ok()?;
    let bytes = bytes_of(rt, file.as_str())?;
    match what.as_str() {
        "decode" => read_again(alloc, &bytes, turns),
        "encode" => written_again(alloc, &bytes, turns),
        _ => None,
    }
}
