//! Variables as a thread begins.

ghost use Rattle.std.specs.Prelude.{◌≡◌, ◌≤◌, [], ◌++◌, length, map, nat_abs, pos, replicate, IsTrue, IfOk, OnOk};
ghost use Rattle.lynx_meaning.specs.Values.{Link};
ghost use Rattle.lynx_meaning.specs.Values as meaning;
ghost use Rattle.lynx_tree.specs.declared.declaration.TypeName.TheVariants as types;
ghost use Rattle.machine_values.specs.Told.{value_of, values_of};
ghost use Rattle.typing_rules.specs.Types.{has_length};
ghost use Rattle.compiler_runnable.specs.Runnable.{HaveStarts, start_locals};

use lynx_lexer::NoMemory;
use lynx_tree::TypeName;
use machine_stack::Variables;
use machine_values::{LinkRef, Value};
use std::alloc::Global;
use typing_rules::{Row16, ShortText};

/// Variables that hold these links.
pub(crate) fn push_links(
    alloc: Global,
    variables: &mut Variables,
    links: &[LinkRef],
) -> Result<(), NoMemory>
    ensures { OnOk result (variables.new ≡ variables.old ++ map (λ l. Link l.0) links.now) }
{
    for link in links {
        variables.push(alloc, Value::Link(*link))?;
    }
    Ok(())
}

/// The variables of an entry, whose parameters have these values.
pub(crate) fn entry_variables(
    alloc: Global,
    kinds: &[TypeName],
    values: Vec<Value>,
) -> Result<Variables, NoMemory>
    requires kinds { HaveStarts kinds.now }
    requires values { length values.items ≤ length kinds.now }
    ensures { IfOk result (λ variables. variables ≡ start_locals kinds.now (values_of values.items)) }
{
    let mut variables = Variables::new(alloc);
    let parameters = values.len();
    push_values(alloc, &mut variables, values)?;
    push_starts(alloc, &mut variables, &kinds[parameters..])?;
    Ok(variables)
}

/// Variables that hold these values.
fn push_values(alloc: Global, variables: &mut Variables, values: Vec<Value>) -> Result<(), NoMemory>
    ensures { OnOk result (variables.new ≡ variables.old ++ values_of values.items) }
{
    let mut rest = values;
    rest.reverse();
    'values: while let Some(value) = rest.pop() {
        variables.push(alloc, value)?;
    }
    Ok(())
}

/// Variables of these types, as they are at the start.
pub(crate) fn push_starts(
    alloc: Global,
    variables: &mut Variables,
    kinds: &[TypeName],
) -> Result<(), NoMemory>
    requires { HaveStarts kinds.now }
    ensures { OnOk result (variables.new ≡ variables.old ++ map meaning.start_value kinds.now) }
{
    for kind in kinds {
        variables.push(alloc, start_value(*kind))?;
    }
    Ok(())
}

// What a variable of a type holds at the start.
fn start_value(kind: TypeName) -> Value
    requires { IsTrue (has_length kind) }
    ensures { value_of result ≡ meaning.start_value kind }
{
    match kind {
        TypeName::Int => Value::Int(0),
        TypeName::Bool => Value::Bool(false),
        TypeName::Link => Value::Link(LinkRef(0)),
        TypeName::Text => Value::Text(empty_text()),
        TypeName::Row(length) => Value::Row(row_of_zeros(length)),
    }
}

fn empty_text() -> ShortText
    ensures { result ≡ [] }
{
    match ShortText::from_slice(&[]) {
        Some(text) => text,
        None => unreachable!(),
    }
}

fn row_of_zeros(length: i64) -> Row16
    requires { IsTrue (has_length (types.Row length)) }
    ensures { result ≡ replicate (nat_abs length) (pos 0) }
{
    match Row16::from_slice(&[0; 16][..length as usize]) {
        Some(row) => row,
        None => unreachable!(),
    }
}
