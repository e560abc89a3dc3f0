//! Histories of reads and puts, which exist in proofs alone. They take no memory, and nothing is done for them at run time.
ghost use Rattle.std.specs.Prelude.{◌≡◌, List, [], ◌∷◌, ◌++◌};
ghost use base.Fml.{ftrue};
ghost use Rattle.lynx_outside.specs.Logged.{Read, Put, reads_code, puts_code};

use crate::FileAnswer;
use std::marker::Model;

/// The reads of a source so far, in order.
#[derive(Drop)]
pub(crate) struct ReadLog {
    ghost reads: { List Read } by { reads_code },
}

impl Model for ReadLog {
    ghost also_owns = { λ _. ftrue };
}

/// The puts to a sink so far, in order.
#[derive(Drop)]
pub(crate) struct PutLog {
    ghost puts: { List Put } by { puts_code },
}

impl Model for PutLog {
    ghost also_owns = { λ _. ftrue };
}

// A read, with its answer.
#[derive(Clone, Copy, Drop)]
pub(crate) struct ReadNote<'a> {
    pub(crate) name: &'a str,
    pub(crate) most: u32,
    pub(crate) answer: &'a Result<Vec<u8>, FileAnswer>,
}

// A put, and whether all its bytes were taken.
#[derive(Clone, Copy, Drop)]
pub(crate) struct PutNote<'a> {
    pub(crate) bytes: &'a [u8],
    pub(crate) taken: bool,
}

impl ReadLog {
    ghost use Rattle.lynx_outside.specs.Noted.{noted_read};

    pub(crate) fn new() -> ReadLog
        ensures { result.reads ≡ [] }
    {
        ReadLog {}
    }

    // With one read more.
    #[inline(always)]
    pub(crate) fn then(&self, _note: &ReadNote<'_>) -> ReadLog
        ensures { result.reads ≡ self.now.reads ++ noted_read _note.now ∷ [] }
    {
        ReadLog {}
    }
}

impl PutLog {
    ghost use Rattle.lynx_outside.specs.Noted.{noted_put};

    pub(crate) fn new() -> PutLog
        ensures { result.puts ≡ [] }
    {
        PutLog {}
    }

    // With one put more.
    #[inline(always)]
    pub(crate) fn then(&self, _note: &PutNote<'_>) -> PutLog
        ensures { result.puts ≡ self.now.puts ++ noted_put _note.now ∷ [] }
    {
        PutLog {}
    }
}
