//! Loops: an entry that takes a number of turns, or a thread's number besides and is run by as many threads as there may be.

ghost use Rattle.std.specs.Prelude.{◌≡◌, [], List, IfOk, IfSome, OnOk};
ghost use Rattle.lynx_meaning.specs.Values.{HasType, HaveTypes};
ghost use Rattle.lynx_meaning.specs.Needs.{OpTypes, wanted_by, wanted_types};
ghost use Rattle.machine_values.specs.Told.{value_of, values_of};
ghost use Rattle.machine_thread.specs.Told.{action_of};
ghost use Rattle.lynx_interp.specs.Machines.{IsEntryFor, IsMachine};

use crate::trouble::Trouble;
use lynx_interp::{Action, Given, Machine, Stop, Value};
use lynx_tree::TypeName;
use std::alloc::Global;

/// The threads of a loop that is shared.
const THREADS: i64 = 32;

/// The fuel of one run of the machine, as of one step of a process.
const FUEL: u32 = 1_000;

/// The most runs of the machine.
const MOST_RUNS: u32 = 1_000_000_000;

/// What a loop tells.
#[derive(Clone, Copy)]
pub(crate) struct Told {
    /// How many instructions were run.
    pub(crate) instructions: u64,
    /// The value of the last reply.
    pub(crate) answer: i64,
}

/// What the module's entry takes.
#[derive(Clone, Copy)]
enum Takes {
    /// The number of turns.
    Turns,
    /// The number of its thread, and its share of the turns.
    ThreadAndTurns,
}

/// Runs the module's body, and then its loop by so many turns.
pub(crate) fn run_loop(alloc: Global, machine: Machine, turns: i64) -> Result<Told, Trouble>
    requires { IsMachine machine }
{
    let mut machine = machine;
    let mut told = Told {
        instructions: 0,
        answer: 0,
    };
    finish(alloc, &mut machine, &mut told)?;
    match taken(&machine)? {
        Takes::Turns => start(alloc, &mut machine, &[turns])?,
        Takes::ThreadAndTurns => {
            for number in 0..THREADS {
                start(alloc, &mut machine, &[number, turns / THREADS])?;
            }
        }
    }
    finish(alloc, &mut machine, &mut told)?;
    Ok(told)
}

/// What the module's first entry takes.
fn taken(machine: &Machine) -> Result<Takes, Trouble> {
    match machine.code().ops.as_slice() {
        [op] => match op.arguments.as_slice() {
            [TypeName::Int] => Ok(Takes::Turns),
            [TypeName::Int, TypeName::Int] => Ok(Takes::ThreadAndTurns),
            _ => Err(Trouble::Loop),
        },
        _ => Err(Trouble::Loop),
    }
}

/// Starts a thread of the first entry with these numbers.
fn start(alloc: Global, machine: &mut Machine, numbers: &[i64]) -> Result<(), Trouble>
    requires { IsMachine machine.old }
    ensures { OnOk result (IsMachine machine.new) }
{
    let values = parameters(alloc, machine, numbers)?;
    match machine.spawn(0, values)? {
        Some(_) => Ok(()),
        None => Err(Trouble::Loop),
    }
}

/// The values of these numbers, where they are what the first entry takes.
fn parameters(alloc: Global, machine: &Machine, numbers: &[i64]) -> Result<Vec<Value>, Trouble>
    ensures { IfOk result (λ values. IsEntryFor 0 (values_of values.items) machine.now) }
{
    let code = machine.code();
    let Some(part) = code.parts.get(1) else {
        return Err(Trouble::Loop);
    };
    let Some(number) = part.op else {
        return Err(Trouble::Loop);
    };
    match code.ops.get(number as usize) {
        Some(op) => values_for(alloc, &op.arguments, numbers),
        None => Err(Trouble::Loop),
    }
}

/// The values of these numbers, where these are the types of as many numbers.
fn values_for(alloc: Global, kinds: &[TypeName], numbers: &[i64]) -> Result<Vec<Value>, Trouble>
    ensures { IfOk result (λ values. HaveTypes kinds.now (values_of values.items)) }
{
    let mut values = Vec::new(alloc);
    for kind in kinds {
        let Some(number) = numbers.get(values.len()) else {
            return Err(Trouble::Loop);
        };
        match value_for(*kind, *number) {
            Some(value) => values.push(value)?,
            None => return Err(Trouble::Loop),
        }
    }
    Ok(values)
}

/// The value of a number, where this is the type of numbers.
fn value_for(kind: TypeName, number: i64) -> Option<Value>
    ensures { IfSome result (λ value. HasType kind (value_of value)) }
{
    match kind {
        TypeName::Int => Some(Value::Int(number)),
        _ => None,
    }
}

/// Runs the machine until no thread stands.
fn finish(alloc: Global, machine: &mut Machine, told: &mut Told) -> Result<(), Trouble>
    requires { IsMachine machine.old }
    ensures { OnOk result (IsMachine machine.new) }
{
    for _ in 0..MOST_RUNS {
        if finishes(alloc, machine, told)? {
            return Ok(());
        }
    }
    Err(Trouble::Loop)
}

/// Runs the machine once, and gives the outcome of what it asks for. Tells whether no thread stands.
fn finishes(alloc: Global, machine: &mut Machine, told: &mut Told) -> Result<bool, Trouble>
    requires { IsMachine machine.old }
    ensures { OnOk result (IsMachine machine.new) }
{
    let (stop, left) = machine.run(FUEL)?;
    told.instructions = told
        .instructions
        .saturating_add(u64::from(FUEL.saturating_sub(left)));
    match stop {
        Stop::Spent => Ok(false),
        Stop::Act { thread, action } => {
            answered(told, &action)?;
            machine.give(thread, Given::Values(Vec::new(alloc)))?;
            Ok(false)
        }
        Stop::AllBlocked => Err(Trouble::Loop),
        Stop::Finished => Ok(true),
    }
}

/// The loops close their requests and reply with a number, and ask for nothing else.
fn answered(told: &mut Told, action: &Action) -> Result<(), Trouble>
    ensures { OnOk result ((ops : List OpTypes) → wanted_types ops (wanted_by (action_of action.now)) ≡ []) }
{
    match action {
        Action::Close => Ok(()),
        Action::Reply(values) => match values.as_slice() {
            [Value::Int(answer)] => {
                told.answer = *answer;
                Ok(())
            }
            _ => Err(Trouble::Loop),
        },
        _ => Err(Trouble::Loop),
    }
}
