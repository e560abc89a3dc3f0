//! The parts of a module's code.

ghost use Rattle.std.specs.Prelude.{◌≡◌, ◌<◌, ◌≤◌, ◌+◌, ◌++◌, [], List, length, map, codes, Err, IfOk, OnOk};
ghost use Rattle.std.specs.List.{AllByRecursion};
ghost use Rattle.lynx_tree.specs.Grammar.{AreStmts, HasTokens, module_marks};
ghost use Rattle.lynx_tree.specs.Trees.{ModuleTree, stmt_list, entry_tree, module_tree, var_tree};
ghost use Rattle.typing_rules.specs.Names.{arguments_of, known, module_scope};
ghost use Rattle.lynx_code.specs.Modules.{PartCode, body_code, main_part, entry_part, entry_parts, parts_of, module_code, instructions_of, ArePairs, IsPartOf};
ghost use Rattle.compiler_emission.specs.declared.fault.CompileFault.TheVariants as faults;
ghost use Rattle.compiler_emission.specs.Places.{IsTableOf};
ghost use Rattle.compiler_emission.specs.Tables.{AreTablesOf, IsFit, names_in};

use crate::emit::{MOST, behind, push};
use crate::emit_statement::emit_stmts;
use crate::fault::CompileFault;
use crate::naming::tables_of;
use crate::places::Places;
use crate::scope::Scope;
use crate::tables::Tables;
use lynx_code::{Instruction, Part};
use lynx_lexer::{Ident, IdentRef, NoMemory};
use lynx_tree::{EntryDecl, Module, Stmt, TypeName, VarDecl};
use std::alloc::Global;

/// The parts of a module, with their instructions one after the other.
#[derive(Drop)]
pub struct Emitted {
    pub parts: Vec<Part>,
    pub instructions: Vec<Instruction>,
}

/// Adds the code of a body, and its end.
fn emit_body<'t, 'm>(
    body: &'t [Stmt<'m>],
    code: &mut Vec<Instruction>,
    names: &Scope,
) -> Result<(), CompileFault>
    requires { AreStmts (stmt_list body.now) }
    ensures ok { OnOk result (code.new.items ≡ code.old.items ++ body_code (names_in names.now) (length code.old.items) (stmt_list body.now)) }
    ensures fits { OnOk result (length code.new.items ≤ 65535) }
    ensures long { result ≡ Err faults.CodeTooLong → 65535 < length code.old.items + length (body_code (names_in names.now) (length code.old.items) (stmt_list body.now)) }
{
    // Each statement has an instruction, and the end has one.
    if body.len() >= MOST {
        return Err(CompileFault::CodeTooLong);
    }
    emit_stmts(body, code, names)?;
    push(code, Instruction::End)?;
    Ok(())
}

/// Adds the types of variables.
pub fn push_kinds(types: &mut Vec<TypeName>, vars: &[VarDecl]) -> Result<(), NoMemory>
    ensures { OnOk result (types.new.items ≡ types.old.items ++ map (λ v. v.kind) (map var_tree vars.now)) }
{
    types.reserve(vars.len())?;
    for var in vars {
        types.push(var.kind)?;
    }
    Ok(())
}

/// The types of the arguments of the operation of a name; none where it is no operation.
fn arguments<'t, 'm>(
    tree: &'t Module<'m>,
    tables: &Tables<'m>,
    name: &IdentRef<'m>,
) -> &'t [TypeName]
    requires { AreTablesOf (module_tree tree.now) tables.now }
    ensures { result.now ≡ known (arguments_of (module_scope (module_tree tree.now) name.now)) }
{
    let Some(place) = tables.ops.look(name) else {
        return &[];
    };
    match tree.ops.get(place as usize) {
        Some(op) => &op.arguments,
        None => &[],
    }
}

/// The types of the parameters and of the variables of an entry.
fn entry_locals<'t, 'm>(
    alloc: Global,
    entry: &'t EntryDecl<'m>,
    tree: &'t Module<'m>,
    tables: &Tables<'m>,
) -> Result<Vec<TypeName>, NoMemory>
    requires { AreTablesOf (module_tree tree.now) tables.now }
    ensures { IfOk result (λ types. types.items ≡ known (arguments_of (module_scope (module_tree tree.now) (entry_tree entry.now).op)) ++ map (λ v. v.kind) (entry_tree entry.now).vars) }
{
    let mut types = arguments(tree, tables, &entry.op).to_vec(alloc)?;
    push_kinds(&mut types, &entry.vars)?;
    Ok(types)
}

/// Adds the code of an entry, and its local names to a table, which is empty.
fn emit_named<'t, 'm>(
    entry: &'t EntryDecl<'m>,
    code: &mut Vec<Instruction>,
    names: &mut Places<'m>,
    tables: &Tables<'m>,
) -> Result<(), CompileFault>
    requires empty { IsTableOf [] names.old }
    requires fits { IsFit (entry_tree entry.now) }
    ensures ok { (m : ModuleTree) → AreTablesOf m tables.now → OnOk result (code.new.items ≡ code.old.items ++ (entry_part m (length code.old.items) (entry_tree entry.now)).instructions) }
    ensures fits { OnOk result (length code.new.items ≤ 65535) }
    ensures long { (m : ModuleTree) → AreTablesOf m tables.now → result ≡ Err faults.CodeTooLong → 65535 < length code.old.items + length (entry_part m (length code.old.items) (entry_tree entry.now)).instructions }
{
    names.add_names(&entry.parameters)?;
    names.add_vars(&entry.vars)?;
    emit_body(&entry.body, code, &tables.scope(names))
}

/// Adds the code of an entry.
fn emit_entry<'t, 'm>(
    alloc: Global,
    entry: &'t EntryDecl<'m>,
    code: &mut Vec<Instruction>,
    tables: &Tables<'m>,
) -> Result<(), CompileFault>
    requires { IsFit (entry_tree entry.now) }
    ensures ok { (m : ModuleTree) → AreTablesOf m tables.now → OnOk result (code.new.items ≡ code.old.items ++ (entry_part m (length code.old.items) (entry_tree entry.now)).instructions) }
    ensures fits { OnOk result (length code.new.items ≤ 65535) }
    ensures long { (m : ModuleTree) → AreTablesOf m tables.now → result ≡ Err faults.CodeTooLong → 65535 < length code.old.items + length (entry_part m (length code.old.items) (entry_tree entry.now)).instructions }
{
    let mut names = Places::new(alloc);
    emit_named(entry, code, &mut names, tables)
}

/// Compiles an entry: adds its code, and answers its part.
fn compile_entry<'t, 'm>(
    alloc: Global,
    entry: &'t EntryDecl<'m>,
    tree: &'t Module<'m>,
    code: &mut Vec<Instruction>,
    tables: &Tables<'m>,
) -> Result<Part, CompileFault>
    requires tables { AreTablesOf (module_tree tree.now) tables.now }
    requires fits { IsFit (entry_tree entry.now) }
    ensures part { IfOk result (IsPartOf (entry_part (module_tree tree.now) (length code.old.items) (entry_tree entry.now))) }
    ensures ok { OnOk result (code.new.items ≡ code.old.items ++ (entry_part (module_tree tree.now) (length code.old.items) (entry_tree entry.now)).instructions) }
    ensures fits { OnOk result (length code.new.items ≤ 65535) }
    ensures long { result ≡ Err faults.CodeTooLong → 65535 < length code.old.items + length (entry_part (module_tree tree.now) (length code.old.items) (entry_tree entry.now)).instructions }
{
    let start = behind(code, 0)?;
    emit_entry(alloc, entry, code, tables)?;
    let locals = entry_locals(alloc, entry, tree, tables)?;
    Ok(Part {
        name: entry.name.to_ident(),
        op: Some(tables.ops.place(&entry.op)),
        start,
        locals,
    })
}

/// Compiles entries of a module: adds their code and their parts.
fn compile_entries<'t, 'm>(
    alloc: Global,
    entries: &'t [EntryDecl<'m>],
    tree: &'t Module<'m>,
    code: &mut Vec<Instruction>,
    parts: &mut Vec<Part>,
    tables: &Tables<'m>,
) -> Result<(), CompileFault>
    requires tables { AreTablesOf (module_tree tree.now) tables.now }
    requires entries { AllByRecursion IsFit (map entry_tree entries.now) }
    requires fits { length code.old.items ≤ 65535 }
    ensures parts { (before : List PartCode) → ArePairs IsPartOf before parts.old.items → OnOk result (ArePairs IsPartOf (before ++ entry_parts (module_tree tree.now) (length code.old.items) (map entry_tree entries.now)) parts.new.items) }
    ensures ok { OnOk result (code.new.items ≡ code.old.items ++ instructions_of (entry_parts (module_tree tree.now) (length code.old.items) (map entry_tree entries.now))) }
    ensures fits { OnOk result (length code.new.items ≤ 65535) }
    ensures long { result ≡ Err faults.CodeTooLong → 65535 < length code.old.items + length (instructions_of (entry_parts (module_tree tree.now) (length code.old.items) (map entry_tree entries.now))) }
{
    for entry in entries {
        let part = compile_entry(alloc, entry, tree, code, tables)?;
        parts.push(part)?;
    }
    Ok(())
}

fn main_name() -> Ident
    ensures { result ≡ codes "main" }
{
    Ident::from_slice(b"main").unwrap()
}

/// Adds the code of the body of a module, at the first address.
fn emit_main<'t, 'm>(
    alloc: Global,
    tree: &'t Module<'m>,
    code: &mut Vec<Instruction>,
    tables: &Tables<'m>,
) -> Result<(), CompileFault>
    requires tables { AreTablesOf (module_tree tree.now) tables.now }
    requires first { code.old.items ≡ [] }
    requires grammar { AreStmts (module_tree tree.now).body }
    ensures ok { OnOk result (code.new.items ≡ (main_part (module_tree tree.now)).instructions) }
    ensures fits { OnOk result (length code.new.items ≤ 65535) }
    ensures long { result ≡ Err faults.CodeTooLong → 65535 < length (main_part (module_tree tree.now)).instructions }
{
    let none = Places::new(alloc);
    emit_body(&tree.body, code, &tables.scope(&none))
}

/// The part of the body of a module.
fn body_part(alloc: Global) -> Part
    ensures { (m : ModuleTree) → IsPartOf (main_part m) result }
{
    Part {
        name: main_name(),
        op: None,
        start: 0,
        locals: Vec::new(alloc),
    }
}

/// Compiles the body of a module and its entries: adds their code and their parts.
fn emit_parts<'t, 'm>(
    alloc: Global,
    tree: &'t Module<'m>,
    code: &mut Vec<Instruction>,
    parts: &mut Vec<Part>,
    tables: &Tables<'m>,
) -> Result<(), CompileFault>
    requires tables { AreTablesOf (module_tree tree.now) tables.now }
    requires grammar { HasTokens (module_tree tree.now) }
    requires fits { length (module_marks (module_tree tree.now)) < 4294967296 }
    requires code { code.old.items ≡ [] }
    requires parts { parts.old.items ≡ [] }
    ensures parts { OnOk result (ArePairs IsPartOf (parts_of (module_tree tree.now)) parts.new.items) }
    ensures ok { OnOk result (code.new.items ≡ module_code (module_tree tree.now)) }
    ensures fits { OnOk result (length code.new.items ≤ 65535) }
    ensures long { result ≡ Err faults.CodeTooLong → 65535 < length (module_code (module_tree tree.now)) }
{
    emit_main(alloc, tree, code, tables)?;
    parts.push(body_part(alloc))?;
    compile_entries(alloc, &tree.entries, tree, code, parts, tables)?;
    Ok(())
}

/// Compiles the parts of a module by its tables.
fn compile_all<'t, 'm>(
    alloc: Global,
    tree: &'t Module<'m>,
    tables: &Tables<'m>,
) -> Result<Emitted, CompileFault>
    requires tables { AreTablesOf (module_tree tree.now) tables.now }
    requires grammar { HasTokens (module_tree tree.now) }
    requires fits { length (module_marks (module_tree tree.now)) < 4294967296 }
    ensures parts { IfOk result (λ made. ArePairs IsPartOf (parts_of (module_tree tree.now)) made.parts.items) }
    ensures ok { IfOk result (λ made. made.instructions.items ≡ module_code (module_tree tree.now)) }
    ensures fits { OnOk result (length (module_code (module_tree tree.now)) ≤ 65535) }
    ensures long { result ≡ Err faults.CodeTooLong → 65535 < length (module_code (module_tree tree.now)) }
{
    let mut instructions = Vec::new(alloc);
    let mut parts = Vec::new(alloc);
    emit_parts(alloc, tree, &mut instructions, &mut parts, tables)?;
    Ok(Emitted {
        parts,
        instructions,
    })
}

/// Compiles the parts of a module.
pub fn compile_parts(alloc: Global, tree: &Module) -> Result<Emitted, CompileFault>
    requires grammar { HasTokens (module_tree tree.now) }
    requires fits { length (module_marks (module_tree tree.now)) < 4294967296 }
    ensures parts { IfOk result (λ made. ArePairs IsPartOf (parts_of (module_tree tree.now)) made.parts.items) }
    ensures ok { IfOk result (λ made. made.instructions.items ≡ module_code (module_tree tree.now)) }
    ensures fits { OnOk result (length (module_code (module_tree tree.now)) ≤ 65535) }
    ensures long { result ≡ Err faults.CodeTooLong → 65535 < length (module_code (module_tree tree.now)) }
{
    // Each entry has an instruction, and the body has one.
    if tree.entries.len() >= MOST {
        return Err(CompileFault::CodeTooLong);
    }
    let tables = tables_of(alloc, tree)?;
    compile_all(alloc, tree, &tables)
}
