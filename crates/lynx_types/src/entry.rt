//! Entries.

ghost use Rattle.std.specs.Prelude.{◌≡◌, ℕ, List, ◌+◌, ◌<◌, ◌++◌, length, map, IfOk, OnOk};
ghost use Rattle.std.specs.List.{flat_map};
ghost use Rattle.lynx_tree.specs.Grammar.{names_marks, vars_marks, entry_marks};
ghost use Rattle.lynx_tree.specs.Trees.{entry_tree};
ghost use Rattle.typing_rules.specs.Meanings.{look, types_known};
ghost use Rattle.typing_rules.specs.Modules.{var_faults, entry_faults};
ghost use Rattle.typing_rules.specs.Names.{meaning_in, each_at, var_size, entry_size, entry_named, parameters_named};
ghost use Rattle.typing_rules.specs.Progress.{first_with};
ghost use Rattle.typing_rules.specs.Rules.{demand};
ghost use Rattle.lynx_types.specs.News.{nowhere, then_declared, news_faults, are_new, told_faults, first_or_int, locals_named};
ghost use Rattle.lynx_types.specs.Parts.{heading_faults};

use crate::declaration::vars;
use lynx_lexer::{IdentRef, NoMemory};
use lynx_tree::{EntryDecl, TypeName};
use std::alloc::Global;
use typing_rules::rule::{
    ENTRY_HAS_PARAMETERS, ENTRY_IS_OF_OP, LOCAL_NAME_IS_NEW, MODULE_NAME_IS_NEW,
};
use typing_rules::{Named, Names, Scope, Walk, arguments_of, results_of};
use typing_statements::{Request, behind_first, is_number_of, known, statements};

/// Declares entries, and tells of each name whether it is new.
pub(crate) fn declare_entries<'m>(
    alloc: Global,
    entries: &'m [EntryDecl],
    names: &mut Names<'m>,
) -> Result<Vec<bool>, NoMemory>
    ensures news { (at : ℕ) → IfOk result (λ news. news.items ≡ are_new (look names.old) (each_at entry_size entry_named at (map entry_tree entries.now))) }
    ensures names { (at : ℕ) (q : List ℕ) → OnOk result (look names.new q ≡ then_declared (look names.old) (each_at entry_size entry_named at (map entry_tree entries.now)) q) }
{
    let mut news = Vec::new(alloc);
    for entry in entries {
        news.push(names.declare(&entry.name, Named::Entry)?)?;
    }
    Ok(news)
}

/// Goes over an entry up to its parameters.
fn heading(new: bool, parameters: usize, arguments: Option<&[TypeName]>, walk: &mut Walk)
    requires { walk.old.at + 4 < 4294967296 }
    ensures at { walk.new.at ≡ walk.old.at + 4 }
    ensures first { walk.new.first ≡ first_with walk.old.first (heading_faults walk.old.at new parameters (types_known arguments.entry)) }
{
    walk.skip(1);
    walk.demand(MODULE_NAME_IS_NEW, walk.at(), new);
    walk.demand(
        ENTRY_HAS_PARAMETERS,
        walk.at(),
        is_number_of(parameters, arguments),
    );
    walk.skip(2);
    walk.demand(ENTRY_IS_OF_OP, walk.at(), arguments.is_some());
    walk.skip(1);
}

/// The type of a parameter, by those that are left for it and the ones behind it.
fn parameter_type(types: &[TypeName]) -> TypeName
    ensures { result ≡ first_or_int types.now }
{
    types.first().copied().unwrap_or(TypeName::Int)
}

/// Goes over the parameters of an entry in brackets, and declares them as variables of these types.
fn parameters<'m>(
    parameters: &'m [IdentRef],
    types: &[TypeName],
    walk: &mut Walk,
    names: &mut Names<'m>,
) -> Result<(), NoMemory>
    requires { walk.old.at + length (names_marks 0 parameters.now) < 4294967296 }
    ensures at { OnOk result (walk.new.at ≡ walk.old.at + length (names_marks 0 parameters.now)) }
    ensures first { OnOk result (walk.new.first ≡ first_with walk.old.first (news_faults 2 (look names.old) (parameters_named (walk.old.at + 1) parameters.now types.now))) }
    ensures names { OnOk result ((q : List ℕ) → look names.new q ≡ then_declared (look names.old) (parameters_named (walk.old.at + 1) parameters.now types.now) q) }
{
    walk.skip(1);
    if parameters.is_empty() {
        walk.skip(1);
        return Ok(());
    }
    let mut left = types;
    for parameter in parameters {
        let kind = parameter_type(left);
        let new = names.declare(parameter, Named::Variable(kind))?;
        walk.demand(LOCAL_NAME_IS_NEW, walk.at(), new);
        left = behind_first(left);
        walk.skip(2);
    }
    Ok(())
}

/// Goes over the parameters of an entry, which have these types, and its variables, and answers their names.
fn locals<'m>(
    alloc: Global,
    entry: &'m EntryDecl,
    types: &[TypeName],
    walk: &mut Walk,
) -> Result<Names<'m>, NoMemory>
    requires { walk.old.at + length (names_marks 0 (entry_tree entry.now).parameters) + length (vars_marks (entry_tree entry.now).vars) < 4294967296 }
    ensures at { OnOk result (walk.new.at ≡ walk.old.at + length (names_marks 0 (entry_tree entry.now).parameters) + length (vars_marks (entry_tree entry.now).vars)) }
    ensures first { OnOk result (walk.new.first ≡ first_with walk.old.first (news_faults 2 nowhere (locals_named walk.old.at (entry_tree entry.now) types.now) ++ each_at var_size var_faults (walk.old.at + length (names_marks 0 (entry_tree entry.now).parameters)) (entry_tree entry.now).vars)) }
    ensures names { IfOk result (λ names. (q : List ℕ) → look names q ≡ meaning_in (locals_named walk.old.at (entry_tree entry.now) types.now) q) }
{
    let count = entry.parameters.len().saturating_add(entry.vars.len());
    let mut names = Names::with_capacity(alloc, count)?;
    parameters(&entry.parameters, types, walk, &mut names)?;
    vars(&entry.vars, LOCAL_NAME_IS_NEW, walk, &mut names)?;
    Ok(names)
}

/// Goes over an entry, whose name is new in its module or not.
fn entry<'m>(
    alloc: Global,
    entry: &'m EntryDecl,
    new: bool,
    walk: &mut Walk,
    outside: &Names<'m>,
) -> Result<(), NoMemory>
    requires { walk.old.at + entry_size (entry_tree entry.now) < 4294967296 }
    ensures at { OnOk result (walk.new.at ≡ walk.old.at + entry_size (entry_tree entry.now)) }
    ensures first { OnOk result (walk.new.first ≡ first_with walk.old.first (demand 1 (walk.old.at + 1) new ++ entry_faults (look outside.now) walk.old.at (entry_tree entry.now))) }
{
    let meaning = outside.look(&entry.op);
    let arguments = arguments_of(meaning);
    heading(new, entry.parameters.len(), arguments, walk);
    let locals = locals(alloc, entry, known(arguments), walk)?;
    walk.skip(1);
    let scope = Scope::inside(&locals, outside);
    let request = Request::Asks(results_of(meaning));
    statements(&entry.body, request, walk, &scope);
    walk.skip(2);
    Ok(())
}

/// Goes over entries, of each of which it is told whether its name is new.
pub(crate) fn entries<'m>(
    alloc: Global,
    entries: &'m [EntryDecl],
    news: &[bool],
    walk: &mut Walk,
    outside: &Names<'m>,
) -> Result<(), NoMemory>
    requires each { length news.now ≡ length entries.now }
    requires fits { walk.old.at + length (flat_map entry_marks (map entry_tree entries.now)) < 4294967296 }
    ensures at { OnOk result (walk.new.at ≡ walk.old.at + length (flat_map entry_marks (map entry_tree entries.now))) }
    ensures first { OnOk result (walk.new.first ≡ first_with walk.old.first (told_faults 1 news.now (each_at entry_size entry_named walk.old.at (map entry_tree entries.now)) ++ each_at entry_size (entry_faults (look outside.now)) walk.old.at (map entry_tree entries.now))) }
{
    for (new, item) in news.iter().zip(entries) {
        entry(alloc, item, *new, walk, outside)?;
    }
    Ok(())
}
