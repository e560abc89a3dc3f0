//! Why no processes were run.

use charlotte_calls::NoMemory;
use std::alloc::{AllocError, AllocFailed};

/// What went wrong.
#[derive(Drop)]
pub(crate) enum Trouble {
    Words,
    File,
    /// The file holds no module of the language.
    Module,
    /// The two modules have not as many params.
    Params,
    /// The links gave an answer that is none to the call.
    Answer,
    NoMemory,
}

impl Trouble {
    /// What is told of it.
    pub(crate) fn text(&self) -> &'static str {
        match self {
            Trouble::Words => {
                "words: VERSION STEPS FILE FILE; the two files hold modules with as many params"
            }
            Trouble::File => "the file cannot be read",
            Trouble::Module => "the file holds no module",
            Trouble::Params => "the modules have not as many params",
            Trouble::Answer => "an answer that is none to the call",
            Trouble::NoMemory => "no memory",
        }
    }
}

impl From<NoMemory> for Trouble {
    fn from(_: NoMemory) -> Trouble {
        Trouble::NoMemory
    }
}

impl From<AllocError> for Trouble {
    fn from(_: AllocError) -> Trouble {
        Trouble::NoMemory
    }
}

impl<T: Drop> From<AllocFailed<T>> for Trouble {
    fn from(_: AllocFailed<T>) -> Trouble {
        Trouble::NoMemory
    }
}
