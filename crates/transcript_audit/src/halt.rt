ghost use Rattle.std.specs.Prelude.{◌≡◌};
ghost use Rattle.transcript_audit.specs.Audit.{halt_of_lines, halt_of_replay};

use kernel_journal::ReplayFault;
use transcript_reader::LineFault;

/// Why the replay of a text halts.
#[derive(Clone, Copy, Debug, PartialEq, Eq)]
pub(crate) enum Halt {
    /// This line cannot stand in its place.
    Bad { line: u32 },
    /// This line differs from what the kernels give there.
    Differs { line: u32 },
    /// There was not memory enough.
    NoMemory,
}

impl From<LineFault> for Halt {
    ghost from_gives = { λ f e. e ≡ halt_of_lines f };

    fn from(fault: LineFault) -> Halt {
        match fault {
            LineFault::BadLine { line } => Halt::Bad { line },
            LineFault::NoMemory => Halt::NoMemory,
        }
    }
}

impl From<ReplayFault> for Halt {
    ghost from_gives = { λ f e. e ≡ halt_of_replay f };

    fn from(fault: ReplayFault) -> Halt {
        match fault {
            ReplayFault::Differs { line } => Halt::Differs { line },
            ReplayFault::NoMemory => Halt::NoMemory,
        }
    }
}
