//! A verdict is put.
ghost use Rattle.std.specs.Prelude.{List};
ghost use Rattle.lynx_service.specs.Service.{Ends, PutsSo, Tells};
ghost use Rattle.lynx_outside.specs.Logged.{Put};
ghost use Rattle.lynx_outside.specs.Sink.{WerePut};

use crate::verdict::Verdict;
use lynx_outside::{Sink, Status};
use std::alloc::Global;

/// Puts the line of a verdict on its sink, with one put, and gives its status. Where there is no memory for the line, that is told.
pub(crate) fn tell<S: Sink>(alloc: Global, name: &str, verdict: Verdict, sink: &mut S) -> Status
    ensures { (puts : List Put) × Tells name.now verdict result puts × WerePut (S.state sink.old) (S.state sink.new) puts }
{
    match verdict.text(alloc, name) {
        Ok(text) => put(text.as_slice(), verdict.status(), sink),
        Err(_) => put(b"lynx: no memory\n", Status::NoMemory, sink),
    }
}

/// Puts bytes: the status is this one, and 3 where the put fails.
fn put<S: Sink>(text: &[u8], status: Status, sink: &mut S) -> Status
    ensures { (puts : List Put) × PutsSo text.now status result puts × WerePut (S.state sink.old) (S.state sink.new) puts }
{
    match sink.put(text) {
        Ok(()) => status,
        Err(_) => Status::WriteFault,
    }
}

/// A history that is one lawful run is told on out, all else on err.
pub(crate) fn end_with<O: Sink, E: Sink>(
    alloc: Global,
    name: &str,
    verdict: Verdict,
    out: &mut O,
    err: &mut E,
) -> Status
    ensures { (outs : List Put) × (errs : List Put) × Ends name.now verdict result outs errs
        × WerePut (O.state out.old) (O.state out.new) outs × WerePut (E.state err.old) (E.state err.new) errs }
{
    if verdict.is_yes() {
        return put(b"yes\n", Status::Done, out);
    }
    tell(alloc, name, verdict, err)
}
