//! The program `lynx`: it does what its words ask for, over the files and streams of the host.
#![tactic(auto)]

use kernel_worker::NoGate;
use lynx_command::Failure;
use lynx_outside::{HostFiles, HostSink, HostWords, read_words};
use lynx_run::{fail, lynx};
use std::process::ExitCode;

fn main(rt: HostRuntime) -> ExitCode {
    let alloc = rt.alloc();
    let mut files = HostFiles::of(&rt);
    let mut out = HostSink::of(rt.stdout());
    let mut err = HostSink::of(rt.stderr());
    let status = match read_words(alloc, &HostWords::of(&rt)) {
        Ok(words) => lynx(&rt, alloc, words, &mut files, &mut out, &mut err, &NoGate),
        Err(fault) => fail(alloc, Failure::of_words(fault), &mut err),
    };
    ExitCode::from(status.number())
}
