//! A failure is told on err.
ghost use Rattle.std.specs.Prelude.{List};
ghost use Rattle.lynx_command.specs.Ending.{Tells, PutsFailure, PutsText};
ghost use Rattle.lynx_outside.specs.Logged.{Put};
ghost use Rattle.lynx_outside.specs.Sink.{WerePut};

use crate::failure::Failure;
use lynx_outside::{Sink, Status};
use std::alloc::Global;

/// Puts the line of a failure on err, with one put, and gives its status. Where there is no memory for the line, the failure
/// is want of memory.
pub fn tell<E: Sink>(alloc: Global, name: &str, failure: Failure, err: &mut E) -> Status
    ensures { (errs : List Put) × Tells name.now failure result errs × WerePut (E.state err.old) (E.state err.new) errs }
{
    match failure.text(alloc, name) {
        Ok(text) => put_line(failure, text.as_slice(), err),
        Err(_) => put_line(Failure::NoMemory, b"lynx: no memory\n", err),
    }
}

// Puts a line on err: the status is that of the failure, and 3 where the put fails.
fn put_line<E: Sink>(failure: Failure, text: &[u8], err: &mut E) -> Status
    ensures { (errs : List Put) × PutsFailure failure text.now result errs × WerePut (E.state err.old) (E.state err.new) errs }
{
    tell_text(failure.status(), text, err)
}

/// Puts the line of a failure on err, with one put, and gives its status, or 3 where the put fails.
pub fn tell_text<E: Sink>(status: Status, text: &[u8], err: &mut E) -> Status
    ensures { (errs : List Put) × PutsText status text.now result errs × WerePut (E.state err.old) (E.state err.new) errs }
{
    match err.put(text) {
        Ok(()) => status,
        Err(_) => Status::WriteFault,
    }
}
