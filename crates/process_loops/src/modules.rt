//! The code of a module.

ghost use Rattle.std.specs.Prelude.{IfOk};
ghost use Rattle.compiler_runnable.specs.Runnable.{IsRunnable};

use crate::trouble::Trouble;
use lynx_code::Code;
use lynx_source::check_source;
use lynx_threads::compile;
use std::alloc::Global;

/// The code of the module that a source spells.
pub(crate) fn code_of(alloc: Global, source: &[u8]) -> Result<Code, Trouble>
    ensures { IfOk result IsRunnable }
{
    if source.len() > 1_048_576 {
        return Err(Trouble::Module);
    }
    let Ok(checked) = check_source(alloc, source) else {
        return Err(Trouble::Module);
    };
    match compile(alloc, &checked) {
        Ok(code) => Ok(code),
        Err(_) => Err(Trouble::Module),
    }
}
