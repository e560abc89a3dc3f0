//! What the system was asked, as proofs keep it. It takes no memory, and nothing is done for it at run time.
ghost use Rattle.std.specs.Prelude.{◌≡◌, List, [], ◌∷◌, ◌++◌};
ghost use base.Fml.{ftrue};
ghost use Rattle.lynx_outside.specs.System.{SystemCall, calls_code};

use crate::FileAnswer;
use std::marker::Model;

/// What a write answered.
#[derive(Clone, Copy)]
pub enum WriteAnswer {
    /// It took so many of the bytes.
    Took(usize),
    /// A signal came first.
    Interrupted,
    /// It failed.
    Failed,
}

/// The calls of the system so far, in order.
#[derive(Drop)]
pub(crate) struct CallLog {
    ghost calls: { List SystemCall } by { calls_code },
}

impl Model for CallLog {
    ghost also_owns = { λ _. ftrue };
}

// A call of the system, with its answer.
#[derive(Clone, Copy, Drop)]
pub(crate) enum CallNote<'a> {
    // A file of this name was to be opened, and was, or why it was not.
    Open(&'a str, Option<FileAnswer>),
    // These bytes were to be written.
    Write(&'a [u8], WriteAnswer),
}

impl CallLog {
    ghost use Rattle.lynx_outside.specs.Noted.{noted_call};

    pub(crate) fn new() -> CallLog
        ensures { result.calls ≡ [] }
    {
        CallLog {}
    }

    // With one call more.
    #[inline(always)]
    pub(crate) fn then(&self, _note: &CallNote<'_>) -> CallLog
        ensures { result.calls ≡ self.now.calls ++ noted_call _note.now ∷ [] }
    {
        CallLog {}
    }
}
