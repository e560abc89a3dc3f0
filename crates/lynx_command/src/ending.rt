//! How a command ends.
ghost use Rattle.std.specs.Prelude.{List};
ghost use Rattle.lynx_command.specs.Ending.{Ends, EndsSo};
ghost use Rattle.lynx_command.specs.Found.{found_of};
ghost use Rattle.lynx_outside.specs.Logged.{Put};
ghost use Rattle.lynx_outside.specs.Sink.{WerePut};

use crate::failure::Failure;
use crate::putting::{PutFault, put_text};
use crate::telling::tell;
use crate::text::Text;
use lynx_outside::{Sink, Status};
use std::alloc::Global;

/// How a command ends that put its text whole.
#[derive(Clone, Copy, Debug, PartialEq, Eq)]
pub enum End {
    /// It was done.
    Done,
    /// A kernel's turns were used up.
    Spent,
    /// This is why it was not done, which is told behind the text.
    Failed(Failure),
}

/// A text that a command is to put, and how it ends then.
#[derive(Drop)]
pub struct Output<T> {
    pub text: T,
    pub end: End,
}

/// Puts the text on out, or tells the failure on err. After a put that failed nothing more is put. Where memory lacks for a
/// line of the text, want of memory is told, and out keeps the lines before it. A failure that stands behind the text is told once it was put whole.
pub fn end_with<T: Text + Drop, O: Sink, E: Sink>(
    alloc: Global,
    name: &str,
    found: Result<Output<T>, Failure>,
    out: &mut O,
    err: &mut E,
) -> Status
    ensures { (outs : List Put) × (errs : List Put)
        × Ends name.now (found_of T.lines_left found) result outs errs
        × WerePut (O.state out.old) (O.state out.new) outs
        × WerePut (E.state err.old) (E.state err.new) errs }
{
    let mut output = match found {
        Ok(output) => output,
        Err(failure) => return tell(alloc, name, failure, err),
    };
    match put_text(alloc, &mut output.text, out) {
        Ok(()) => end_so(alloc, name, output.end, err),
        Err(PutFault::Failed) => Status::WriteFault,
        Err(PutFault::NoMemory) => tell(alloc, name, Failure::NoMemory, err),
    }
}

/// Ends as a text says that was put whole.
fn end_so<E: Sink>(alloc: Global, name: &str, end: End, err: &mut E) -> Status
    ensures { (errs : List Put) × EndsSo end name.now result errs × WerePut (E.state err.old) (E.state err.new) errs }
{
    match end {
        End::Done => Status::Done,
        End::Spent => Status::Spent,
        End::Failed(failure) => tell(alloc, name, failure, err),
    }
}
