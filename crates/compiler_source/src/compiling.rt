//! The code of a source.

ghost use Rattle.std.specs.Prelude.{◌≡◌, ◌<◌, length, IfOk};
ghost use Rattle.lynx_code.specs.Checked.{IsCheckedCode};
ghost use Rattle.compiler_source.specs.Compiled.{GivesCode, source_fault};

use lynx_code::Code;
use lynx_source::{SourceFault, check_source};
use lynx_threads::{CompileFault, compile};
use std::alloc::Global;

/// Why a module that breaks no typing rule has no code.
fn source_fault(fault: CompileFault) -> SourceFault
    ensures { result ≡ source_fault fault }
{
    match fault {
        CompileFault::CodeTooLong => SourceFault::CodeTooLong,
        CompileFault::NoMemory => SourceFault::NoMemory,
    }
}

/// The code of the module that a source spells, or its first fault: that of the tokens, the grammar and its nesting or the typing rules,
/// and where there is none of these, that the code has more than 65,535 instructions. The code does what the source means, and borrows nothing
/// from it.
pub fn compile_source(alloc: Global, source: &[u8]) -> Result<Code, SourceFault>
    requires { length source.now < 4294967295 }
    ensures code { GivesCode source.now result }
    ensures checked { IfOk result IsCheckedCode }
{
    let checked = check_source(alloc, source)?;
    match compile(alloc, &checked) {
        Ok(code) => Ok(code),
        Err(fault) => Err(source_fault(fault)),
    }
}
