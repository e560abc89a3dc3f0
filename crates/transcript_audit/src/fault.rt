ghost use Rattle.std.specs.Prelude.{◌≡◌};
ghost use Rattle.transcript_audit.specs.Audit.{fault_of_lines};

use std::error::Error;
use std::fmt;
use transcript_reader::LineFault;

/// Why a text is not accepted.
#[derive(Clone, Copy, Debug, PartialEq, Eq)]
pub enum AuditFault {
    /// The first line that no transcript has in that place; where each line can stand where it stands, the first one that differs from
    /// what the kernels give there. Lines are counted from 1.
    NoTranscript { line: u32 },
    /// There was not memory enough.
    NoMemory,
}

impl fmt::Display for AuditFault {
    fn fmt<W: fmt::Write>(&self, f: &mut fmt::Formatter<W>) -> fmt::Result {
        match self {
            AuditFault::NoTranscript { line } => write!(f, "line {line} is not that of a run"),
            AuditFault::NoMemory => f.write_str("no memory"),
        }
    }
}

impl Error for AuditFault {}

impl From<LineFault> for AuditFault {
    ghost from_gives = { λ f e. e ≡ fault_of_lines f };

    fn from(fault: LineFault) -> AuditFault {
        match fault {
            LineFault::BadLine { line } => AuditFault::NoTranscript { line },
            LineFault::NoMemory => AuditFault::NoMemory,
        }
    }
}
