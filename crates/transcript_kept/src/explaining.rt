//! Why a line is not that of a run, by the kernels of this crate.
ghost use Rattle.std.specs.Prelude.{◌<◌, IfOk, length, map};
ghost use Rattle.transcript_why.specs.Why.{AreWhy};

use crate::run::Run;
use charlotte_calls::NoMemory;
use std::alloc::Global;

/// Why the line of a number, which an audit named, is not that of a run of kernels, in three lines: the line as it stands, what was expected
/// in its place, and of what the kernels and the service keep then what bears on it. Lines are counted from 1.
pub fn explain(alloc: Global, bytes: &[u8], number: u32) -> Result<Vec<Vec<u8>>, NoMemory>
    requires { length bytes.now < 4294967295 }
    ensures { IfOk result (λ lines. AreWhy bytes.now number (map (λ l. l.items) lines.items)) }
{
    transcript_why::explain::<Run>(alloc, bytes, number)
}
