//! Why not all steps of a transcript were made.

use charlotte_calls::NoMemory;
use std::alloc::{AllocError, AllocFailed};
use std::fmt;
use transcript_reader::LineFault;

/// What went wrong.
#[derive(Clone, Copy)]
pub(crate) enum Trouble {
    /// The input could not be read.
    Read,
    TooLong,
    NoMemory,
    /// The first line that no transcript has in that place.
    BadLine(u32),
    /// The header is that of no setting.
    Header,
    /// The first line whose step the entry above it leaves unclear.
    NotWhole(u32),
    /// The first line whose step is not allowed, and the number of the step, 1 to 16.
    NotAllowed(u32, u8),
}

impl fmt::Display for Trouble {
    fn fmt<W: fmt::Write>(&self, f: &mut fmt::Formatter<W>) -> fmt::Result {
        match self {
            Trouble::Read => f.write_str("the input cannot be read"),
            Trouble::TooLong => f.write_str("the input is longer than a transcript"),
            Trouble::NoMemory => f.write_str("no memory"),
            Trouble::BadLine(line) => write!(f, "line {line}: no transcript has it there"),
            Trouble::Header => f.write_str("the header has no setting"),
            Trouble::NotWhole(line) => write!(f, "line {line}: the entry above does not fit"),
            Trouble::NotAllowed(line, step) => write!(f, "line {line}: step {step} is not allowed"),
        }
    }
}

impl From<LineFault> for Trouble {
    fn from(fault: LineFault) -> Trouble {
        match fault {
            LineFault::BadLine { line } => Trouble::BadLine(line),
            LineFault::NoMemory => Trouble::NoMemory,
        }
    }
}

impl From<NoMemory> for Trouble {
    fn from(_: NoMemory) -> Trouble {
        Trouble::NoMemory
    }
}

impl From<AllocError> for Trouble {
    fn from(_: AllocError) -> Trouble {
        Trouble::NoMemory
    }
}

impl<T: Drop> From<AllocFailed<T>> for Trouble {
    fn from(_: AllocFailed<T>) -> Trouble {
        Trouble::NoMemory
    }
}
