//! Why a source has no tokens.

ghost use Rattle.std.specs.Prelude.{◌≡◌};
ghost use Rattle.lynx_lexer.specs.declared.fault.LexFault.TheVariants as faults;

use std::alloc::{AllocError, AllocFailed};

/// What is wrong where no token can be, or where one passes a limit.
#[derive(Clone, Copy, Debug)]
pub enum FaultKind {
    /// No token and no separator begins with the byte.
    BadByte,
    /// A text is not closed.
    OpenText,
    /// A number is above the greatest i64.
    NumberTooWide,
    /// A text has more than 64 bytes.
    TextTooLong,
    /// A name has more than 32 bytes.
    NameTooLong,
}

impl FaultKind {
    ghost use Rattle.lynx_lexer.specs.Source.{number_of};

    /// The number by which people know the fault.
    pub fn number(self) -> u8
        ensures { result ≡ number_of self }
    {
        match self {
            FaultKind::BadByte => 1,
            FaultKind::OpenText => 2,
            FaultKind::NumberTooWide => 3,
            FaultKind::TextTooLong => 4,
            FaultKind::NameTooLong => 5,
        }
    }
}

/// Why a source has no tokens within the limits.
#[derive(Clone, Copy, Debug, PartialEq, Eq)]
pub enum LexFault {
    /// The first fault: the place of the first byte of the token in which it stands, counted from 0,
    /// and its number. 1: no token and no separator begins with that byte. 2: a text is not closed.
    /// 3: a number is above 9223372036854775807. 4: a text has more than 64 bytes. 5: a name has more
    /// than 32 bytes.
    At { place: u32, no: u8 },
    /// There was not memory enough.
    NoMemory,
}

impl From<AllocError> for LexFault {
    ghost from_gives = { λ _ e. e ≡ faults.NoMemory };

    fn from(_error: AllocError) -> LexFault {
        LexFault::NoMemory
    }
}

impl<T: Drop> From<AllocFailed<T>> for LexFault {
    ghost from_gives = { λ _ e. e ≡ faults.NoMemory };

    fn from(_error: AllocFailed<T>) -> LexFault {
        LexFault::NoMemory
    }
}
