//! Copies of code.

ghost use Rattle.std.specs.Prelude.{◌≡◌, map, IfOk};
ghost use Rattle.lynx_code.specs.Checked.{IsCheckedCode};
ghost use Rattle.lynx_code.specs.Modules.{IsCodeOf};
ghost use Rattle.lynx_code.specs.Told.{code_told, op_told, part_told};
ghost use Rattle.lynx_tree.specs.Trees.{ModuleTree};

use crate::code::{Code, CodeOp, Part};
use crate::instruction::Instruction;
use lynx_lexer::NoMemory;
use std::alloc::Global;

impl CodeOp {
    /// An operation that is equal.
    fn copy(&self, alloc: Global) -> Result<CodeOp, NoMemory>
        ensures { IfOk result (λ copy. op_told copy ≡ op_told self.now) }
    {
        let signature = self.signature.to_vec(alloc)?;
        let arguments = self.arguments.to_vec(alloc)?;
        let results = self.results.to_vec(alloc)?;
        Ok(CodeOp {
            signature,
            arguments,
            results,
        })
    }
}

impl Part {
    /// A part that is equal.
    fn copy(&self, alloc: Global) -> Result<Part, NoMemory>
        ensures { IfOk result (λ copy. part_told copy ≡ part_told self.now) }
    {
        let locals = self.locals.to_vec(alloc)?;
        Ok(Part {
            name: self.name.copy(),
            op: self.op,
            start: self.start,
            locals,
        })
    }
}

fn copy_ops(alloc: Global, ops: &[CodeOp]) -> Result<Vec<CodeOp>, NoMemory>
    ensures { IfOk result (λ copies. map op_told copies.items ≡ map op_told ops.now) }
{
    let mut copies = Vec::new(alloc);
    copies.reserve(ops.len())?;
    for op in ops {
        let copy = op.copy(alloc)?;
        copies.push(copy)?;
    }
    Ok(copies)
}

fn copy_parts(alloc: Global, parts: &[Part]) -> Result<Vec<Part>, NoMemory>
    ensures { IfOk result (λ copies. map part_told copies.items ≡ map part_told parts.now) }
{
    let mut copies = Vec::new(alloc);
    copies.reserve(parts.len())?;
    for part in parts {
        let copy = part.copy(alloc)?;
        copies.push(copy)?;
    }
    Ok(copies)
}

fn copy_instructions(
    alloc: Global,
    instructions: &[Instruction],
) -> Result<Vec<Instruction>, NoMemory>
    ensures { IfOk result (λ copies. copies.items ≡ instructions.now) }
{
    let mut copies = Vec::with_capacity(alloc, instructions.len())?;
    for instruction in instructions {
        copies.push_reserved(instruction.copy(alloc)?);
    }
    Ok(copies)
}

impl Code {
    /// Code that is equal, and so the code of the same modules.
    pub fn copy(&self, alloc: Global) -> Result<Code, NoMemory>
        ensures same { IfOk result (λ copy. code_told copy ≡ code_told self.now) }
        ensures code { (m : ModuleTree) → IsCodeOf m self.now → IfOk result (IsCodeOf m) }
        ensures checked { IsCheckedCode self.now → IfOk result IsCheckedCode }
    {
        let globals = self.globals.to_vec(alloc)?;
        let ops = copy_ops(alloc, &self.ops)?;
        let parts = copy_parts(alloc, &self.parts)?;
        let instructions = copy_instructions(alloc, &self.instructions)?;
        Ok(Code {
            name: self.name.copy(),
            globals,
            params: self.params,
            ops,
            parts,
            instructions,
        })
    }
}
