//! The program `lynx_why`: it audits the transcript of a file as `lynx audit` does, and tells why a line of it is not that of a run. It does so
//! over the files and streams of the host.
#![tactic(auto)]

mod command;
mod top;

use crate::top::why;
use lynx_command::{Failure, tell};
use lynx_outside::{HostFiles, HostSink, HostWords, read_words};
use std::process::ExitCode;

fn main(rt: HostRuntime) -> ExitCode {
    let alloc = rt.alloc();
    let mut files = HostFiles::of(&rt);
    let mut out = HostSink::of(rt.stdout());
    let mut err = HostSink::of(rt.stderr());
    let status = match read_words(alloc, &HostWords::of(&rt)) {
        Ok(words) => why(alloc, words, &mut files, &mut out, &mut err),
        Err(fault) => tell(alloc, "", Failure::of_words(fault), &mut err),
    };
    ExitCode::from(status.number())
}
