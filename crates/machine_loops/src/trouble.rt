//! Why no loop was run.

use lynx_lexer::NoMemory;
use std::alloc::{AllocError, AllocFailed};

/// What went wrong.
#[derive(Drop)]
pub(crate) enum Trouble {
    Words,
    File,
    /// The file holds no module of the language.
    Module,
    /// The module has other declarations than a loop, or asks for what a loop does not ask for.
    Loop,
    NoMemory,
}

impl Trouble {
    /// What is told of it.
    pub(crate) fn text(&self) -> &'static str {
        match self {
            Trouble::Words => "words: FILE TURNS; 1 to 100000000 turns",
            Trouble::File => "the file cannot be read",
            Trouble::Module => "the file holds no module",
            Trouble::Loop => "the module is no loop",
            Trouble::NoMemory => "no memory",
        }
    }
}

impl From<NoMemory> for Trouble {
    fn from(_: NoMemory) -> Trouble {
        Trouble::NoMemory
    }
}

impl From<AllocError> for Trouble {
    fn from(_: AllocError) -> Trouble {
        Trouble::NoMemory
    }
}

impl<T: Drop> From<AllocFailed<T>> for Trouble {
    fn from(_: AllocFailed<T>) -> Trouble {
        Trouble::NoMemory
    }
}
