//! The code of a module.

ghost use Rattle.std.specs.Prelude.{◌≡◌, ◌<◌, ◌≤◌, length, map, Err, IfOk, OnOk};
ghost use Rattle.lynx_tree.specs.Grammar.{HasTokens, module_marks};
ghost use Rattle.lynx_tree.specs.Trees.{module_tree, op_tree};
ghost use Rattle.lynx_code.specs.Checked.{IsCheckedCode};
ghost use Rattle.lynx_code.specs.Modules.{module_code, variables, ArePairs, IsOpOf, IsCodeOf};
ghost use Rattle.lynx_threads.specs.Agreement.{AgreesWithSource};
ghost use Rattle.compiler_emission.specs.declared.fault.CompileFault.TheVariants as faults;

use compiler_emission::{CompileFault, compile_parts, push_kinds};
use lynx_code::{Code, CodeOp};
use lynx_lexer::NoMemory;
use lynx_tree::{Module, OpDecl, TypeName};
use lynx_types::{Checked, signature};
use std::alloc::Global;

/// An operation, as it stands in code.
fn code_op(alloc: Global, op: &OpDecl) -> Result<CodeOp, NoMemory>
    ensures { IfOk result (IsOpOf (op_tree op.now)) }
{
    let signature = signature(alloc, op)?;
    let arguments = op.arguments.to_vec(alloc)?;
    let results = op.results.to_vec(alloc)?;
    Ok(CodeOp {
        signature,
        arguments,
        results,
    })
}

fn code_ops(alloc: Global, ops: &[OpDecl]) -> Result<Vec<CodeOp>, NoMemory>
    ensures { IfOk result (λ made. ArePairs IsOpOf (map op_tree ops.now) made.items) }
{
    let mut made = Vec::new(alloc);
    made.reserve(ops.len())?;
    for op in ops {
        let new = code_op(alloc, op)?;
        made.push(new)?;
    }
    Ok(made)
}

/// The types of the variables of a module.
fn global_types(alloc: Global, tree: &Module) -> Result<Vec<TypeName>, NoMemory>
    ensures { IfOk result (λ types. types.items ≡ map (λ v. v.kind) (variables (module_tree tree.now))) }
{
    let mut types = Vec::new(alloc);
    push_kinds(&mut types, &tree.params)?;
    push_kinds(&mut types, &tree.vars)?;
    Ok(types)
}

/// How many params a module has.
fn count_params(tree: &Module) -> u32
    requires { length (module_marks (module_tree tree.now)) < 4294967296 }
    ensures { result ≡ length (module_tree tree.now).params }
{
    tree.params.len() as u32
}

/// The code of the tree of a module.
fn code_of(alloc: Global, tree: &Module) -> Result<Code, CompileFault>
    requires grammar { HasTokens (module_tree tree.now) }
    requires fits { length (module_marks (module_tree tree.now)) < 4294967296 }
    ensures code { IfOk result (IsCodeOf (module_tree tree.now)) }
    ensures fits { OnOk result (length (module_code (module_tree tree.now)) ≤ 65535) }
    ensures long { result ≡ Err faults.CodeTooLong → 65535 < length (module_code (module_tree tree.now)) }
{
    let emitted = compile_parts(alloc, tree)?;
    let globals = global_types(alloc, tree)?;
    let ops = code_ops(alloc, &tree.ops)?;
    Ok(Code {
        name: tree.name.to_ident(),
        globals,
        params: count_params(tree),
        ops,
        parts: emitted.parts,
        instructions: emitted.instructions,
    })
}

/// The code of a module, each part of which does what its source means. `CodeTooLong` comes exactly where the code has more than 65,535
/// instructions. The time is linear in the module.
pub fn compile(alloc: Global, checked: &Checked) -> Result<Code, CompileFault>
    ensures code { IfOk result (IsCodeOf (module_tree checked.now)) }
    ensures checked { IfOk result IsCheckedCode }
    ensures agrees { IfOk result (AgreesWithSource (module_tree checked.now)) }
    ensures fits { OnOk result (length (module_code (module_tree checked.now)) ≤ 65535) }
    ensures long { result ≡ Err faults.CodeTooLong → 65535 < length (module_code (module_tree checked.now)) }
{
    code_of(alloc, checked.module())
}
