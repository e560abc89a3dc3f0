//! The program `lynx_service`: whether the history of a file is one lawful run of the link service. It does so over the files and streams of the
//! host.
//!
//! # What is proved
//! Of words that name a file, that is read once, and what is put follows from its bytes: `yes` on out where all lines have their forms and their steps
//! are one run of the service, each by the owner of its end; else on err the first line where that is not so, and which of the two. The words behind
//! `no:` are any.
//! By the clause of `told`; `Answers`, `Took` in `specs/`.
#![tactic(auto)]

mod judging;
mod putting;
mod top;
mod verdict;

use crate::putting::tell;
use crate::top::told;
use crate::verdict::Verdict;
use lynx_outside::{HostFiles, HostSink, HostWords, WordsFault, read_words};
use std::process::ExitCode;

fn main(rt: HostRuntime) -> ExitCode {
    let alloc = rt.alloc();
    let mut files = HostFiles::of(&rt);
    let mut out = HostSink::of(rt.stdout());
    let mut err = HostSink::of(rt.stderr());
    let status = match read_words(alloc, &HostWords::of(&rt)) {
        Ok(words) => told(alloc, words, &mut files, &mut out, &mut err),
        Err(WordsFault::NotText) => tell(alloc, "", Verdict::Usage, &mut err),
        Err(WordsFault::NoMemory) => tell(alloc, "", Verdict::NoMemory, &mut err),
    };
    ExitCode::from(status.number())
}
