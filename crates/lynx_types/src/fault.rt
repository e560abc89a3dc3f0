//! Why a module is not well typed.

ghost use Rattle.std.specs.Prelude.{◌≡◌};
ghost use Rattle.lynx_types.specs.declared.fault.TypeFault.TheVariants as faults;

use lynx_lexer::NoMemory;

/// Why a module is not well typed.
#[derive(Clone, Copy, Debug, PartialEq, Eq)]
pub enum TypeFault {
    /// A rule fails: `place` is the first one at which one does, by the number of its token in the module's list, from 0, and `rule` the
    /// least that fails there, from 1 to 24.
    At { place: u32, rule: u8 },
    /// There was not memory enough.
    NoMemory,
}

impl From<NoMemory> for TypeFault {
    ghost from_gives = { λ _ e. e ≡ faults.NoMemory };

    fn from(_error: NoMemory) -> TypeFault {
        TypeFault::NoMemory
    }
}
