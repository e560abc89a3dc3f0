//! Why a module is not compiled.

ghost use Rattle.std.specs.Prelude.{◌≡◌};
ghost use Rattle.compiler_emission.specs.declared.fault.CompileFault.TheVariants as faults;

use lynx_lexer::NoMemory;
use std::alloc::{AllocError, AllocFailed};

/// Why a module is not compiled.
#[derive(Clone, Copy, Debug, PartialEq, Eq)]
pub enum CompileFault {
    /// Its code has more than 65,535 instructions.
    CodeTooLong,
    /// There was not memory enough.
    NoMemory,
}

impl From<NoMemory> for CompileFault {
    ghost from_gives = { λ _ e. e ≡ faults.NoMemory };

    fn from(_error: NoMemory) -> CompileFault {
        CompileFault::NoMemory
    }
}

impl From<AllocError> for CompileFault {
    ghost from_gives = { λ _ e. e ≡ faults.NoMemory };

    fn from(_error: AllocError) -> CompileFault {
        CompileFault::NoMemory
    }
}

impl<T: Drop> From<AllocFailed<T>> for CompileFault {
    ghost from_gives = { λ _ e. e ≡ faults.NoMemory };

    fn from(_error: AllocFailed<T>) -> CompileFault {
        CompileFault::NoMemory
    }
}
