//! Modules whose threads are run, and are given what they need.

ghost use Rattle.std.specs.Prelude.{◌≡◌, ◌+◌, length, Some, slice_get, IfOk, IfSome, OnOk};
ghost use Rattle.lynx_meaning.specs.Values.{HasType, HaveTypes};
ghost use Rattle.code_shapes.specs.Shapes.{code_types};
ghost use Rattle.lynx_meaning.specs.Needs.{wanted_by, wanted_types};
ghost use Rattle.machine_turns.specs.Turns.{is_ready_after};
ghost use Rattle.machine_values.specs.Told.{value_of, values_of};
ghost use Rattle.machine_thread.specs.Told.{action_of, outcome_of};
ghost use Rattle.compiler_runnable.specs.Runnable.{IsRunnable};
ghost use Rattle.machine_sound.specs.Sound.{IsAsking};
ghost use Rattle.lynx_interp.specs.Machines.{IsEntryFor, IsMachine, state_of};

use crate::words::{push_action, push_number, push_stop};
use lynx_code::Code;
use lynx_interp::{Action, Given, LinkRef, Machine, Stop, Value};
use lynx_source::check_source;
use lynx_threads::compile;
use lynx_tree::TypeName;
use std::alloc::{AllocError, Global};
use std::test::Fail;
use typing_rules::{Exception, ShortText};

/// Runs a module with so much fuel. A digit starts a thread of the entry of this number. Any other letter runs the machine and tells the
/// action at which it stops. That is given the values that it needs where the letter is a point, and else the exception of this letter;
/// where it is a dash, only after one more run, in which no thread can go on.
/// At the end the machine is run once more, and how it stops is told with the fuel that is left.
pub(crate) fn played(
    alloc: Global,
    source: &str,
    fuel: u32,
    letters: &str,
) -> Result<String, Fail> {
    let mut machine = machine(alloc, source)?;
    let mut told = String::new(alloc);
    let mut left = fuel;
    for letter in letters.as_bytes() {
        left = played_letter(alloc, &mut machine, &mut told, left, *letter)?;
    }
    let Ok((stop, left)) = machine.run(left) else {
        return Err("no memory".into());
    };
    match stop {
        Stop::Spent => push_stop(&mut told, "spent", left)?,
        Stop::AllBlocked => push_stop(&mut told, "blocked", left)?,
        Stop::Finished => push_stop(&mut told, "finished", left)?,
        Stop::Act { thread, action } => {
            push_action(&mut told, thread, &action)?;
            push_stop(&mut told, "left", left)?;
        }
    }
    Ok(told)
}

/// Tries a module, what its threads are given and what they do.
pub(crate) fn played_so(
    alloc: Global,
    source: &str,
    fuel: u32,
    letters: &str,
    want: &str,
) -> Result<(), Fail> {
    let told = played(alloc, source, fuel, letters)?;
    if told.as_str() == want {
        Ok(())
    } else {
        Err(told.as_str().into())
    }
}

/// A module, what its threads are given, and what they do.
pub(crate) type Row = (&'static str, &'static str, &'static str);

/// Tries a module with fuel for all that it does.
pub(crate) fn tried(alloc: Global, (source, letters, want): Row) -> Result<(), Fail> {
    played_so(alloc, source, 1000, letters, want)
}

// One letter. Answers the fuel that is left.
fn played_letter(
    alloc: Global,
    machine: &mut Machine,
    told: &mut String,
    fuel: u32,
    letter: u8,
) -> Result<u32, Fail>
    requires { IsMachine machine.old }
    ensures { OnOk result (IsMachine machine.new) }
{
    if letter.is_ascii_digit() {
        match started(alloc, machine, u16::from(letter) - 48)? {
            Some(number) => push_number(told, i64::from(number))?,
            None => told.push_str("none")?,
        }
        told.push_str(" starts; ")?;
        return Ok(fuel);
    }
    if letter == b'-' {
        return played_late(alloc, machine, told, fuel);
    }
    let Ok((stop, left)) = machine.run(fuel) else {
        return Err("no memory".into());
    };
    match stop {
        Stop::Act { thread, action } => {
            push_action(told, thread, &action)?;
            let outcome = outcome(alloc, machine, &action, letter)?;
            match machine.give(thread, outcome) {
                Ok(()) => Ok(left),
                Err(_) => Err("no memory".into()),
            }
        }
        _ => Err("it asks for no action".into()),
    }
}

// An action whose outcome comes late. Answers the fuel that is left.
fn played_late(
    alloc: Global,
    machine: &mut Machine,
    told: &mut String,
    fuel: u32,
) -> Result<u32, Fail>
    requires { IsMachine machine.old }
    ensures { OnOk result (IsMachine machine.new) }
{
    let Ok((first, left)) = machine.run(fuel) else {
        return Err("no memory".into());
    };
    let Stop::Act { thread, action } = first else {
        return Err("it asks for no action".into());
    };
    push_action(told, thread, &action)?;
    if !blocks(&action) {
        return Err("it does not block".into());
    }
    let outcome = outcome(alloc, machine, &action, b'.')?;
    let Ok((second, left)) = machine.run(left) else {
        return Err("no memory".into());
    };
    match second {
        Stop::AllBlocked => told.push_str("blocked; ")?,
        _ => return Err("a thread goes on".into()),
    }
    match machine.give(thread, outcome) {
        Ok(()) => Ok(left),
        Err(_) => Err("no memory".into()),
    }
}

// Its thread is blocked.
fn blocks(action: &Action) -> bool
    ensures { result ≡ is_ready_after (Some (wanted_by (action_of action.now))) }
{
    match action {
        Action::Connect(..) | Action::Accept(..) => true,
        _ => false,
    }
}

/// The machine of a module. Its params hold the links 1, 2 and so on.
pub(crate) fn machine(alloc: Global, source: &str) -> Result<Machine, Fail>
    ensures { IfOk result IsMachine }
{
    let code = code(alloc, source)?;
    let links = links(alloc, code.params)?;
    match Machine::start(alloc, code, links) {
        Ok(machine) => Ok(machine),
        Err(_) => Err("no memory".into()),
    }
}

fn code(alloc: Global, source: &str) -> Result<Code, Fail>
    ensures { IfOk result IsRunnable }
{
    if source.len() > 1_048_576 {
        return Err("too long".into());
    }
    let Ok(checked) = check_source(alloc, source.as_bytes()) else {
        return Err("no module".into());
    };
    match compile(alloc, &checked) {
        Ok(code) => Ok(code),
        Err(_) => Err("no code".into()),
    }
}

fn links(alloc: Global, count: u32) -> Result<Vec<LinkRef>, AllocError>
    ensures { IfOk result (λ links. length links.items ≡ count) }
{
    let mut links = Vec::new(alloc);
    for number in 0..count {
        links.push(LinkRef(number + 1))?;
    }
    Ok(links)
}

/// A thread of this entry, whose parameters have some values.
pub(crate) fn started(alloc: Global, machine: &mut Machine, entry: u16) -> Result<Option<u8>, Fail>
    requires { IsMachine machine.old }
    ensures { OnOk result (IsMachine machine.new) }
{
    let values = parameters(alloc, machine, entry)?;
    match machine.spawn(entry, values) {
        Ok(number) => Ok(number),
        Err(_) => Err("no memory".into()),
    }
}

fn parameters(alloc: Global, machine: &Machine, entry: u16) -> Result<Vec<Value>, Fail>
    ensures { IfOk result (λ values. IsEntryFor entry (values_of values.items) machine.now) }
{
    let code = machine.code();
    let Some(part) = code.parts.get(usize::from(entry) + 1) else {
        return Err("no entry".into());
    };
    let Some(number) = part.op else {
        return Err("no entry".into());
    };
    match code.ops.get(number as usize) {
        Some(op) => values(alloc, &op.arguments),
        None => Err("no operation".into()),
    }
}

/// What an action is given: the values that it needs, or an exception.
pub(crate) fn outcome(
    alloc: Global,
    machine: &Machine,
    action: &Action,
    letter: u8,
) -> Result<Given, Fail>
    ensures { IfOk result (λ outcome. IfOk (outcome_of outcome) (HaveTypes (wanted_types machine.now.types.ops (wanted_by (action_of action.now))))) }
{
    let exception = match letter {
        b'B' => Exception::BusyLink,
        b'D' => Exception::DeadLink,
        b'N' => Exception::NoLink,
        b'F' => Exception::Failed,
        b'R' => Exception::Replied,
        b'L' => Exception::LinksFull,
        _ => return Ok(Given::Values(needed(alloc, machine, action)?)),
    };
    Ok(Given::Raise(exception))
}

fn needed(alloc: Global, machine: &Machine, action: &Action) -> Result<Vec<Value>, Fail>
    ensures { IfOk result (λ values. HaveTypes (wanted_types machine.now.types.ops (wanted_by (action_of action.now))) (values_of values.items)) }
{
    match action {
        Action::New => Ok(vec![in alloc; Value::Link(LinkRef(50)), Value::Link(LinkRef(51))]?),
        Action::Connect(_, number, _) => match machine.code().ops.get(*number as usize) {
            Some(op) => values(alloc, &op.results),
            None => Err("no operation".into()),
        },
        Action::Accept(_, number) => match machine.code().ops.get(*number as usize) {
            Some(op) => values(alloc, &op.arguments),
            None => Err("no operation".into()),
        },
        _ => Ok(Vec::new(alloc)),
    }
}

// A value for each type: 7, true, `t`, the link 9.
fn values(alloc: Global, kinds: &[TypeName]) -> Result<Vec<Value>, Fail>
    ensures { IfOk result (λ values. HaveTypes kinds.now (values_of values.items)) }
{
    let mut values = Vec::new(alloc);
    for kind in kinds {
        match value(*kind) {
            Some(value) => values.push(value)?,
            None => return Err("no value".into()),
        }
    }
    Ok(values)
}

fn value(kind: TypeName) -> Option<Value>
    ensures { IfSome result (λ value. HasType kind (value_of value)) }
{
    match kind {
        TypeName::Int => Some(Value::Int(7)),
        TypeName::Bool => Some(Value::Bool(true)),
        TypeName::Text => match ShortText::from_slice(b"t") {
            Some(text) => Some(Value::Text(text)),
            None => None,
        },
        TypeName::Link => Some(Value::Link(LinkRef(9))),
        TypeName::Row(_) => None,
    }
}
