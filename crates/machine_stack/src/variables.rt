//! The variables of a module, or of an entry.

ghost use Rattle.std.specs.Prelude.{◌≡◌, ◌<◌, [], ◌∷◌, ◌++◌, length, slice_get, slice_set, Some, OnOk, IfOk};
ghost use Rattle.lynx_meaning.specs.Values as meaning;
ghost use Rattle.lynx_meaning.specs.Values.{Row, Text};
ghost use Rattle.machine_values.specs.Told.{value_of, told};
ghost use Rattle.machine_stack.specs.Stacks.{IsRow, IsRowSet, IsMemberSet, IsStored, TopIsLike, TopIsRow, TopIsText, member_of, variable_value};

use crate::operands::Operands;
use lynx_lexer::NoMemory;
use machine_values::{Exception, LinkRef, Numbers, ShortText, Value};
use std::alloc::Global;
use std::marker::Model;

/// A variable, which holds values of one kind.
#[derive(Debug, Drop)]
pub(crate) enum Variable {
    Int(i64),
    Bool(bool),
    Link(LinkRef),
    Text(Box<ShortText>),
    Row(Box<Numbers>),
}

impl Variable {
    // The value on top of the stack, which is of the variable's kind, goes into it.
    fn take(&mut self, operands: &mut Operands)
        requires { TopIsLike (Some (variable_value self.old)) operands.old }
        ensures { operands.old ≡ variable_value self.new ∷ operands.new }
    {
        match self {
            Variable::Int(number) => *number = operands.pop_int(),
            Variable::Bool(truth) => *truth = operands.pop_bool(),
            Variable::Link(link) => *link = operands.pop_link(),
            Variable::Text(text) => take_text(text, operands),
            Variable::Row(numbers) => take_row(numbers, operands),
        }
    }

    // Changes a member of the row in it. RANGE where there is none.
    fn set_member(&mut self, index: i64, number: i64) -> Result<(), Exception>
        requires { IsRow (Some (variable_value self.old)) }
        ensures { IsRowSet index number (variable_value self.old) (variable_value self.new) result }
    {
        match self {
            Variable::Row(numbers) => numbers.set_member(index, number),
            _ => unreachable!(),
        }
    }
}

/// Variables by their slots. Contracts see their values.
#[derive(Debug, Drop)]
pub struct Variables {
    variables: Vec<Variable>,
}

impl Model for Variables {
    ghost use Rattle.std.specs.Prelude.{List};
    ghost use Rattle.lynx_meaning.specs.Values as meaning;
    ghost use Rattle.machine_stack.specs.Stacks.{variable_values};

    ghost Value = { List meaning.Value };

    ghost view = { λ s. variable_values s.variables.items };
}

impl Variables {
    /// No variables.
    pub fn new(alloc: Global) -> Variables
        ensures { result ≡ [] }
    {
        Variables {
            variables: Vec::new(alloc),
        }
    }

    /// One variable more, with this value.
    pub fn push(&mut self, alloc: Global, value: Value) -> Result<(), NoMemory>
        ensures { OnOk result (self.new ≡ self.old ++ value_of value ∷ []) }
    {
        let variable = match value {
            Value::Int(number) => Variable::Int(number),
            Value::Bool(truth) => Variable::Bool(truth),
            Value::Link(link) => Variable::Link(link),
            Value::Text(text) => Variable::Text(Box::new(alloc, text)?),
            Value::Row(row) => Variable::Row(Box::new(alloc, Numbers::of(&row))?),
        };
        self.variables.push(variable)?;
        Ok(())
    }

    /// The value of a variable comes on the stack.
    #[inline(always)]
    pub fn load(&self, slot: usize, operands: &mut Operands) -> Result<(), NoMemory>
        requires { slot < length self.now }
        ensures { OnOk result ((v : meaning.Value) → slice_get self.now slot ≡ Some v → operands.new ≡ v ∷ operands.old) }
    {
        match &self.variables[slot] {
            Variable::Int(number) => operands.push_int(*number),
            Variable::Bool(truth) => operands.push_bool(*truth),
            Variable::Link(link) => operands.push_link(*link),
            Variable::Text(text) => operands.push_text(text.as_slice()),
            Variable::Row(numbers) => operands.push_row(numbers),
        }
    }

    /// The value on top of the stack, which is of the variable's kind, goes into it.
    pub fn store(&mut self, slot: usize, operands: &mut Operands)
        requires { TopIsLike (slice_get self.old slot) operands.old }
        ensures { IsStored slot operands.old operands.new self.old self.new }
    {
        self.variables[slot].take(operands);
    }

    /// A member of a row. RANGE where there is none.
    pub fn member(&self, slot: usize, index: i64) -> Result<i64, Exception>
        requires { IsRow (slice_get self.now slot) }
        ensures { told result ≡ member_of (slice_get self.now slot) index }
    {
        match &self.variables[slot] {
            Variable::Row(numbers) => numbers.member(index),
            _ => unreachable!(),
        }
    }

    /// Changes a member of a row. RANGE where there is none.
    pub fn set_member(&mut self, slot: usize, index: i64, number: i64) -> Result<(), Exception>
        requires { IsRow (slice_get self.old slot) }
        ensures { IsMemberSet slot index number self.old self.new result }
    {
        self.variables[slot].set_member(index, number)
    }
}

// The text on top of the stack takes the place of this one.
#[inline(never)]
fn take_text(text: &mut ShortText, operands: &mut Operands)
    requires { TopIsText operands.old }
    ensures { operands.old ≡ Text text.new ∷ operands.new }
{
    *text = operands.pop_text();
}

// The row on top of the stack takes the place of this one.
#[inline(never)]
fn take_row(numbers: &mut Numbers, operands: &mut Operands)
    requires { TopIsRow operands.old }
    ensures { operands.old ≡ Row numbers.new ∷ operands.new }
{
    *numbers = operands.pop_row();
}
