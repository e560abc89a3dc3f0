//! Why no run was made.

use charlotte_calls::NoMemory;
use std::alloc::{AllocError, AllocFailed};

/// What went wrong.
#[derive(Drop)]
pub(crate) enum Trouble {
    /// The words ask for nothing that can be run.
    Words,
    /// A kind has no setting, or not a program for each process.
    Setting,
    NoMemory,
    /// The text could not be written.
    Write,
    /// The run ended where a kernel's turns were used up.
    Spent,
}

impl Trouble {
    /// What is told of it.
    pub(crate) fn text(&self) -> &'static str {
        match self {
            Trouble::Words => {
                "words: KIND ROUNDS, then workers, print, both or nothing; KIND is ping, ring, pairs, all, hot, crowd, think or alone; 1 to 100000 ROUNDS"
            }
            Trouble::Setting => "a kind that is no setting",
            Trouble::NoMemory => "no memory",
            Trouble::Write => "the text could not be written",
            Trouble::Spent => "the turns of a kernel are used up",
        }
    }
}

impl From<NoMemory> for Trouble {
    fn from(_: NoMemory) -> Trouble {
        Trouble::NoMemory
    }
}

impl From<AllocError> for Trouble {
    fn from(_: AllocError) -> Trouble {
        Trouble::NoMemory
    }
}

impl<T: Drop> From<AllocFailed<T>> for Trouble {
    fn from(_: AllocFailed<T>) -> Trouble {
        Trouble::NoMemory
    }
}
