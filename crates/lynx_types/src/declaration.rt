//! Types, operations and variables that are declared.

ghost use Rattle.std.specs.Prelude.{◌≡◌, ℕ, List, [], ◌∷◌, ◌+◌, ◌<◌, ◌++◌, length, map, OnOk};
ghost use Rattle.std.specs.List.{flat_map};
ghost use Rattle.lynx_lexer.specs.declared.keyword.Keyword.TheVariants as keywords;
ghost use Rattle.lynx_tree.specs.Grammar.{type_marks, types_marks, op_marks, var_marks, vars_marks};
ghost use Rattle.lynx_tree.specs.Trees.{op_tree, var_tree};
ghost use Rattle.typing_rules.specs.Meanings.{look, meaning_of};
ghost use Rattle.typing_rules.specs.Modules.{type_faults, types_faults, op_faults, var_faults, param_faults};
ghost use Rattle.typing_rules.specs.Names.{each_at, op_size, op_named, var_size, var_named};
ghost use Rattle.typing_rules.specs.Progress.{first_with};
ghost use Rattle.lynx_types.specs.News.{then_declared, news_faults};

use crate::width::{fits_packets, has_few_links};
use lynx_lexer::{IdentRef, NoMemory};
use lynx_tree::{OpDecl, TypeName, VarDecl};
use typing_rules::rule::{
    MODULE_NAME_IS_NEW, OP_FITS_PACKETS, OP_HAS_FEW_LINKS, PARAM_IS_LINK, ROW_HAS_LENGTH,
};
use typing_rules::{Named, Names, Walk, has_length, is_link};

/// How many tokens a type has.
fn type_size(kind: TypeName) -> u32
    ensures { result ≡ length (type_marks 0 kind) }
{
    match kind {
        TypeName::Row(_) => 2,
        TypeName::Int | TypeName::Bool | TypeName::Text | TypeName::Link => 1,
    }
}

/// Goes over a type.
fn type_name(kind: TypeName, walk: &mut Walk)
    requires { walk.old.at + length (type_marks 0 kind) < 4294967296 }
    ensures at { walk.new.at ≡ walk.old.at + length (type_marks 0 kind) }
    ensures first { walk.new.first ≡ first_with walk.old.first (type_faults walk.old.at kind) }
{
    if !has_length(kind) {
        walk.demand(ROW_HAS_LENGTH, walk.at() + 1, false);
    }
    walk.skip(type_size(kind));
}

/// Goes over types in brackets.
fn types(types: &[TypeName], walk: &mut Walk)
    requires { walk.old.at + length (types_marks types.now) < 4294967296 }
    ensures at { walk.new.at ≡ walk.old.at + length (types_marks types.now) }
    ensures first { walk.new.first ≡ first_with walk.old.first (types_faults (walk.old.at + 1) types.now) }
{
    walk.skip(1);
    if types.is_empty() {
        walk.skip(1);
        return;
    }
    for kind in types {
        type_name(*kind, walk);
        walk.skip(1);
    }
}

/// Declares the name at the walk's next token but one.
fn declared<'m>(
    name: &'m IdentRef,
    meaning: Named<'m>,
    rule: u8,
    walk: &mut Walk,
    names: &mut Names<'m>,
) -> Result<(), NoMemory>
    requires { walk.old.at + 2 < 4294967296 }
    ensures at { OnOk result (walk.new.at ≡ walk.old.at + 2) }
    ensures first { OnOk result (walk.new.first ≡ first_with walk.old.first (news_faults rule (look names.old) (record { place = walk.old.at + 1; name = name.now; meaning = meaning_of meaning.entry } ∷ []))) }
    ensures names { OnOk result ((q : List ℕ) → look names.new q ≡ then_declared (look names.old) (record { place = walk.old.at + 1; name = name.now; meaning = meaning_of meaning.entry } ∷ []) q) }
{
    walk.skip(1);
    let new = names.declare(name, meaning)?;
    walk.demand(rule, walk.at(), new);
    walk.skip(1);
    Ok(())
}

/// Goes over an operation, and declares it.
fn op<'m>(op: &'m OpDecl, walk: &mut Walk, names: &mut Names<'m>) -> Result<(), NoMemory>
    requires { walk.old.at + op_size (op_tree op.now) < 4294967296 }
    ensures at { OnOk result (walk.new.at ≡ walk.old.at + op_size (op_tree op.now)) }
    ensures first { OnOk result (walk.new.first ≡ first_with walk.old.first (news_faults 1 (look names.old) (op_named walk.old.at (op_tree op.now)) ++ op_faults walk.old.at (op_tree op.now))) }
    ensures names { OnOk result ((q : List ℕ) → look names.new q ≡ then_declared (look names.old) (op_named walk.old.at (op_tree op.now)) q) }
{
    let meaning = Named::Operation {
        arguments: &op.arguments,
        results: &op.results,
    };
    let place = walk.at() + 1;
    declared(&op.name, meaning, MODULE_NAME_IS_NEW, walk, names)?;
    walk.demand(OP_HAS_FEW_LINKS, place, has_few_links(op));
    walk.demand(OP_FITS_PACKETS, place, fits_packets(op));
    types(&op.arguments, walk);
    walk.skip(1);
    types(&op.results, walk);
    walk.skip(1);
    Ok(())
}

/// Goes over operations, and declares them.
pub(crate) fn ops<'m>(
    ops: &'m [OpDecl],
    walk: &mut Walk,
    names: &mut Names<'m>,
) -> Result<(), NoMemory>
    requires { walk.old.at + length (flat_map op_marks (map op_tree ops.now)) < 4294967296 }
    ensures at { OnOk result (walk.new.at ≡ walk.old.at + length (flat_map op_marks (map op_tree ops.now))) }
    ensures first { OnOk result (walk.new.first ≡ first_with walk.old.first (news_faults 1 (look names.old) (each_at op_size op_named walk.old.at (map op_tree ops.now)) ++ each_at op_size op_faults walk.old.at (map op_tree ops.now))) }
    ensures names { OnOk result ((q : List ℕ) → look names.new q ≡ then_declared (look names.old) (each_at op_size op_named walk.old.at (map op_tree ops.now)) q) }
{
    for item in ops {
        op(item, walk, names)?;
    }
    Ok(())
}

/// Goes over a param or a variable, and declares it by the rule that its name is new.
fn var<'m>(
    var: &'m VarDecl,
    rule: u8,
    walk: &mut Walk,
    names: &mut Names<'m>,
) -> Result<(), NoMemory>
    requires { walk.old.at + var_size (var_tree var.now) < 4294967296 }
    ensures at { OnOk result (walk.new.at ≡ walk.old.at + var_size (var_tree var.now)) }
    ensures first { OnOk result (walk.new.first ≡ first_with walk.old.first (news_faults rule (look names.old) (var_named walk.old.at (var_tree var.now)) ++ var_faults walk.old.at (var_tree var.now))) }
    ensures names { OnOk result ((q : List ℕ) → look names.new q ≡ then_declared (look names.old) (var_named walk.old.at (var_tree var.now)) q) }
{
    declared(&var.name, Named::Variable(var.kind), rule, walk, names)?;
    walk.skip(1);
    type_name(var.kind, walk);
    walk.skip(1);
    Ok(())
}

/// Goes over variables, and declares them by the rule that their names are new.
pub(crate) fn vars<'m>(
    vars: &'m [VarDecl],
    rule: u8,
    walk: &mut Walk,
    names: &mut Names<'m>,
) -> Result<(), NoMemory>
    requires { walk.old.at + length (vars_marks (map var_tree vars.now)) < 4294967296 }
    ensures at { OnOk result (walk.new.at ≡ walk.old.at + length (vars_marks (map var_tree vars.now))) }
    ensures first { OnOk result (walk.new.first ≡ first_with walk.old.first (news_faults rule (look names.old) (each_at var_size var_named walk.old.at (map var_tree vars.now)) ++ each_at var_size var_faults walk.old.at (map var_tree vars.now))) }
    ensures names { OnOk result ((q : List ℕ) → look names.new q ≡ then_declared (look names.old) (each_at var_size var_named walk.old.at (map var_tree vars.now)) q) }
{
    for item in vars {
        var(item, rule, walk, names)?;
    }
    Ok(())
}

/// Goes over params, and declares them.
pub(crate) fn params<'m>(
    params: &'m [VarDecl],
    walk: &mut Walk,
    names: &mut Names<'m>,
) -> Result<(), NoMemory>
    requires { walk.old.at + length (flat_map (var_marks keywords.Param) (map var_tree params.now)) < 4294967296 }
    ensures at { OnOk result (walk.new.at ≡ walk.old.at + length (flat_map (var_marks keywords.Param) (map var_tree params.now))) }
    ensures first { OnOk result (walk.new.first ≡ first_with walk.old.first (news_faults 1 (look names.old) (each_at var_size var_named walk.old.at (map var_tree params.now)) ++ each_at var_size param_faults walk.old.at (map var_tree params.now))) }
    ensures names { OnOk result ((q : List ℕ) → look names.new q ≡ then_declared (look names.old) (each_at var_size var_named walk.old.at (map var_tree params.now)) q) }
{
    for param in params {
        let place = walk.at();
        var(param, MODULE_NAME_IS_NEW, walk, names)?;
        walk.demand(PARAM_IS_LINK, place + 3, is_link(param.kind));
    }
    Ok(())
}
