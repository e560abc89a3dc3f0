//! The lines of a text, each with one put.
ghost use Rattle.std.specs.Prelude.{◌≡◌, ◌∷◌, [], List};
ghost use Rattle.lynx_command.specs.declared.putting.PutFault.TheVariants as faults;
ghost use Rattle.lynx_command.specs.Text.{PutsLines};
ghost use Rattle.lynx_outside.specs.Logged.{Put};
ghost use Rattle.lynx_outside.specs.Sink.{put_of, WerePut};

use crate::text::Text;
use charlotte_calls::NoMemory;
use lynx_outside::{Failed, Sink};
use std::alloc::Global;

/// Why a text was not put whole.
#[derive(Clone, Copy, Debug, PartialEq, Eq)]
pub enum PutFault {
    /// A put failed.
    Failed,
    /// There was not memory enough for the next line.
    NoMemory,
}

impl From<Failed> for PutFault {
    ghost from_gives = { λ _ e. e ≡ faults.Failed };

    fn from(_error: Failed) -> PutFault {
        PutFault::Failed
    }
}

impl From<NoMemory> for PutFault {
    ghost from_gives = { λ _ e. e ≡ faults.NoMemory };

    fn from(_error: NoMemory) -> PutFault {
        PutFault::NoMemory
    }
}

// Puts a line with one put.
fn put_line<S: Sink>(line: &[u8], sink: &mut S) -> Result<(), Failed>
    ensures { WerePut (S.state sink.old) (S.state sink.new) (put_of line.now result ∷ []) }
{
    sink.put(line)
}

/// Puts the lines that are left of a text, one put a line. After a put that failed nothing more is put.
pub fn put_text<T: Text, S: Sink>(alloc: Global, text: &mut T, sink: &mut S) -> Result<(), PutFault>
    ensures { (puts : List Put) × PutsLines (T.lines_left text.old) result puts × WerePut (S.state sink.old) (S.state sink.new) puts }
{
    let mut line = Vec::new(alloc);
    while text.next_line(&mut line)? {
        put_line(line.as_slice(), sink)?;
    }
    Ok(())
}
