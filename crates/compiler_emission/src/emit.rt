//! Instructions one after the other.

ghost use Rattle.std.specs.Prelude.{◌≡◌, ◌≢◌, ◌<◌, ◌≤◌, ◌+◌, ◌∷◌, [], ◌++◌, List, length, Err, IfOk, OnOk};
ghost use Rattle.lynx_code.specs.declared.instruction.Instruction.{Instruction};
ghost use Rattle.compiler_emission.specs.declared.fault.CompileFault.TheVariants as faults;

use crate::fault::CompileFault;
use lynx_code::Instruction;

/// The most instructions that code may have.
pub const MOST: usize = 65535;

/// Adds an instruction.
pub fn push(code: &mut Vec<Instruction>, instruction: Instruction) -> Result<(), CompileFault>
    ensures ok { OnOk result (code.new.items ≡ code.old.items ++ instruction ∷ []) }
    ensures fits { OnOk result (length code.old.items < 65535) }
    ensures long { result ≡ Err faults.CodeTooLong → 65535 ≤ length code.old.items }
{
    if code.len() >= MOST {
        return Err(CompileFault::CodeTooLong);
    }
    code.push(instruction)?;
    Ok(())
}

/// A number of 16 bits. One that is larger comes from code that is too long, and never from want of memory.
pub fn short(number: usize) -> Result<u16, CompileFault>
    ensures ok { IfOk result (λ n. n ≡ number) }
    ensures long { result ≡ Err faults.CodeTooLong → 65535 < number }
    ensures memory { result ≢ Err faults.NoMemory }
{
    match u16::try_from(number) {
        Ok(number) => Ok(number),
        Err(_) => Err(CompileFault::CodeTooLong),
    }
}

/// The address behind the next so many instructions.
pub fn behind(code: &[Instruction], more: u16) -> Result<u16, CompileFault>
    ensures ok { IfOk result (λ address. address ≡ length code.now + more) }
    ensures long { result ≡ Err faults.CodeTooLong → 65535 < length code.now + more }
{
    short(code.len() + usize::from(more))
}

/// Writes a jump in the place that was kept for it.
pub fn set(code: &mut Vec<Instruction>, at: usize, jump: Instruction)
    requires { at < length code.old.items }
    ensures { (before behind : List Instruction) (kept : Instruction) → at ≡ length before → code.old.items ≡ before ++ kept ∷ behind → code.new.items ≡ before ++ jump ∷ behind }
{
    code[at] = jump;
}
