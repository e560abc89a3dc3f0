//! The stack of operands.

ghost use Rattle.std.specs.Prelude.{◌≡◌, ◌≤◌, ◌+◌, ◌-◌, [], ◌∷◌, ◌++◌, length, take, drop, reverse, IfOk, OnOk, MatchOption};
ghost use Rattle.lynx_meaning.specs.Values.{Int, Truth, Text, Row, Link};
ghost use Rattle.machine_stack.specs.Stacks.{TopIsInt, TopIsTruth, TopIsLink, TopIsText, TopIsRow, AreAlikeOnTop, AreTextsOnTop, IsTop, IsTaken, IsCompared};
ghost use Rattle.machine_values.specs.Told.{value_of, values_of};

use lynx_lexer::NoMemory;
use machine_values::{LinkRef, Numbers, ShortText, Value};
use std::alloc::Global;
use std::marker::Model;

/// An operand. A text of so many bytes stands last among the bytes, and a row last among the rows.
#[derive(Clone, Copy, Debug)]
pub(crate) enum Operand {
    Int(i64),
    Bool(bool),
    Link(LinkRef),
    Text(usize),
    Row,
}

/// A stack of operands. Contracts see their values, the last one first.
#[derive(Debug, Drop)]
pub struct Operands {
    operands: Vec<Operand>,
    bytes: Vec<u8>,
    rows: Vec<Numbers>,
}

impl Model for Operands {
    ghost use Rattle.std.specs.Prelude.{List, reverse};
    ghost use Rattle.lynx_meaning.specs.Values as meaning;
    ghost use Rattle.machine_stack.specs.Stacks.{stacked, AreTogether};

    ghost Value = { List meaning.Value };

    ghost view = { λ s. stacked (reverse s.operands.items) s.bytes.items (reverse s.rows.items) };

    ghost invariant = { λ s. AreTogether (reverse s.operands.items) s.bytes.items (reverse s.rows.items) };
}

#[tactic(auto, using(crate::proofs::Stacked::on_top, crate::proofs::Stacked::together_on_top, crate::proofs::Stacked::text_on_top, crate::proofs::Stacked::text_together, crate::proofs::Stacked::row_on_top, crate::proofs::Stacked::row_together))]
impl Operands {
    /// No operands.
    pub fn new(alloc: Global) -> Operands
        ensures { result ≡ [] }
    {
        Operands {
            operands: Vec::new(alloc),
            bytes: Vec::new(alloc),
            rows: Vec::new(alloc),
        }
    }

    /// A number on top.
    pub fn push_int(&mut self, number: i64) -> Result<(), NoMemory>
        ensures { OnOk result (self.new ≡ Int number ∷ self.old) }
    {
        self.operands.push(Operand::Int(number))?;
        Ok(())
    }

    /// A truth on top.
    pub fn push_bool(&mut self, truth: bool) -> Result<(), NoMemory>
        ensures { OnOk result (self.new ≡ Truth truth ∷ self.old) }
    {
        self.operands.push(Operand::Bool(truth))?;
        Ok(())
    }

    /// A link on top.
    pub fn push_link(&mut self, link: LinkRef) -> Result<(), NoMemory>
        ensures { OnOk result (self.new ≡ Link link.0 ∷ self.old) }
    {
        self.operands.push(Operand::Link(link))?;
        Ok(())
    }

    /// A text of these bytes on top.
    #[inline(never)]
    pub fn push_text(&mut self, text: &[u8]) -> Result<(), NoMemory>
        requires { length text.now ≤ 64 }
        ensures { OnOk result (self.new ≡ Text text.now ∷ self.old) }
    {
        self.operands.reserve(1)?;
        self.bytes.extend_from_slice(text)?;
        self.operands.push_reserved(Operand::Text(text.len()));
        Ok(())
    }

    /// A row on top.
    #[inline(never)]
    pub fn push_row(&mut self, numbers: &Numbers) -> Result<(), NoMemory>
        ensures { OnOk result (self.new ≡ Row numbers.now ∷ self.old) }
    {
        self.operands.reserve(1)?;
        self.rows.push(numbers.copy())?;
        self.operands.push_reserved(Operand::Row);
        Ok(())
    }

    /// Takes the number on top.
    pub fn pop_int(&mut self) -> i64
        requires { TopIsInt self.old }
        ensures { self.old ≡ Int result ∷ self.new }
    {
        match self.operands.pop() {
            Some(Operand::Int(number)) => number,
            _ => unreachable!(),
        }
    }

    /// Takes the truth on top.
    pub fn pop_bool(&mut self) -> bool
        requires { TopIsTruth self.old }
        ensures { self.old ≡ Truth result ∷ self.new }
    {
        match self.operands.pop() {
            Some(Operand::Bool(truth)) => truth,
            _ => unreachable!(),
        }
    }

    /// Takes the link on top.
    pub fn pop_link(&mut self) -> LinkRef
        requires { TopIsLink self.old }
        ensures { self.old ≡ Link result.0 ∷ self.new }
    {
        match self.operands.pop() {
            Some(Operand::Link(link)) => link,
            _ => unreachable!(),
        }
    }

    /// Takes the text on top.
    #[inline(never)]
    pub fn pop_text(&mut self) -> ShortText
        requires { TopIsText self.old }
        ensures { self.old ≡ Text result ∷ self.new }
    {
        let Some(Operand::Text(length)) = self.operands.pop() else {
            unreachable!()
        };
        let (below, bytes) = self.bytes.split_at(self.bytes.len() - length);
        let text = short(bytes);
        let left = below.len();
        self.bytes.truncate(left);
        text
    }

    /// Takes the row on top.
    #[inline(never)]
    pub fn pop_row(&mut self) -> Numbers
        requires { TopIsRow self.old }
        ensures { self.old ≡ Row result ∷ self.new }
    {
        self.operands.pop();
        match self.rows.pop() {
            Some(numbers) => numbers,
            None => unreachable!(),
        }
    }

    /// Takes the value on top.
    #[inline(never)]
    pub fn pop(&mut self) -> Option<Value>
        ensures { IsTaken self.old self.new result }
    {
        let value = self.top()?;
        self.drop_top();
        Some(value)
    }

    /// Takes two numbers, truths or texts from the top, and tells whether they are equal.
    pub fn pop_alike(&mut self) -> bool
        requires { AreAlikeOnTop self.old }
        ensures { IsCompared self.old self.new result }
    {
        match self.operands.last() {
            Some(Operand::Int(_)) => self.pop_int() == self.pop_int(),
            Some(Operand::Bool(_)) => self.pop_bool() == self.pop_bool(),
            _ => self.pop_texts_alike(),
        }
    }

    // Takes two texts from the top, and tells whether they are equal.
    #[inline(never)]
    fn pop_texts_alike(&mut self) -> bool
        requires { AreTextsOnTop self.old }
        ensures { IsCompared self.old self.new result }
    {
        let (Some(Operand::Text(second)), Some(Operand::Text(first))) = (
            self.operands.pop(),
            self.operands.pop(),
        ) else {
            unreachable!()
        };
        let (below, last) = self.bytes.split_at(self.bytes.len() - second);
        let (below, before) = below.split_at(below.len() - first);
        let alike = before == last;
        let left = below.len();
        self.bytes.truncate(left);
        alike
    }

    // The value on top is dropped, if there is one.
    fn drop_top(&mut self)
        ensures { self.new ≡ drop 1 self.old }
    {
        match self.operands.pop() {
            Some(Operand::Text(length)) => self.bytes.truncate(self.bytes.len() - length),
            Some(Operand::Row) => {
                let _gone = self.rows.pop();
            }
            _ => {}
        }
    }

    /// The truth on top.
    pub fn truth(&self) -> bool
        requires { TopIsTruth self.now }
        ensures { IsTop (Truth result) self.now }
    {
        match self.operands.split_last() {
            Some((Operand::Bool(truth), _)) => *truth,
            _ => unreachable!(),
        }
    }

    /// The link on top.
    pub fn link(&self) -> LinkRef
        requires { TopIsLink self.now }
        ensures { IsTop (Link result.0) self.now }
    {
        match self.operands.split_last() {
            Some((Operand::Link(link), _)) => *link,
            _ => unreachable!(),
        }
    }

    /// The value on top.
    #[inline(never)]
    pub fn top(&self) -> Option<Value>
        ensures { MatchOption result (self.now ≡ []) (λ v. IsTop (value_of v) self.now) }
    {
        self.from_top().next()
    }

    /// So many values below those on top that are passed over, in the order in which they came.
    #[inline(never)]
    pub fn values(&self, alloc: Global, passed: usize, count: usize) -> Result<Vec<Value>, NoMemory>
        requires { passed + count ≤ length self.now }
        ensures { IfOk result (λ values. values_of values.items ≡ reverse (take count (drop passed self.now))) }
    {
        let mut rest = self.from_top();
        'passed: for _ in 0..passed {
            let _above = rest.next();
        }
        let mut values = rest.gather(alloc, count)?;
        values.reverse();
        Ok(values)
    }

    fn from_top(&self) -> FromTop<'_>
        ensures { result ≡ self.now }
    {
        FromTop {
            operands: self.operands.as_slice(),
            bytes: self.bytes.as_slice(),
            rows: self.rows.as_slice(),
        }
    }

    /// A value on top.
    #[inline(never)]
    pub fn push(&mut self, value: &Value) -> Result<(), NoMemory>
        ensures { OnOk result (self.new ≡ value_of value.now ∷ self.old) }
    {
        match value {
            Value::Int(number) => self.push_int(*number),
            Value::Bool(truth) => self.push_bool(*truth),
            Value::Link(link) => self.push_link(*link),
            Value::Text(text) => self.push_text(text.as_slice()),
            Value::Row(row) => self.push_row(&Numbers::of(row)),
        }
    }

    /// Values on top, one after the other.
    #[inline(never)]
    pub fn push_all(&mut self, values: &[Value]) -> Result<(), NoMemory>
        ensures { OnOk result (self.new ≡ reverse (values_of values.now) ++ self.old) }
    {
        for value in values {
            self.push(value)?;
        }
        Ok(())
    }

    /// Only the lowest operands stay, so many.
    #[inline(never)]
    #[tactic(auto, using(crate::proofs::Stacked::cut_one, crate::proofs::Stacked::cut_shorter, crate::proofs::Stacked::cut_done))]
    pub fn cut(&mut self, height: usize)
        ensures { self.new ≡ drop (length self.old - height) self.old }
    {
        'above: while height < self.len() {
            self.drop_top();
        }
    }

    /// How many operands there are.
    #[tactic(auto, using(crate::proofs::Stacked::deep))]
    pub fn len(&self) -> usize
        ensures { result ≡ length self.now }
    {
        self.operands.len()
    }
}

/// What is left of a stack that is read from its top.
#[derive(Debug, Drop)]
struct FromTop<'a> {
    operands: &'a [Operand],
    bytes: &'a [u8],
    rows: &'a [Numbers],
}

impl<'a> Model for FromTop<'a> {
    ghost use Rattle.std.specs.Prelude.{List, reverse};
    ghost use Rattle.lynx_meaning.specs.Values as meaning;
    ghost use Rattle.machine_stack.specs.Stacks.{stacked, AreTogether};

    ghost Value = { List meaning.Value };

    ghost view = { λ s. stacked (reverse s.operands.now) s.bytes.now (reverse s.rows.now) };

    ghost invariant = { λ s. AreTogether (reverse s.operands.now) s.bytes.now (reverse s.rows.now) };
}

#[tactic(auto, using(crate::proofs::Stacked::on_top, crate::proofs::Stacked::together_on_top, crate::proofs::Stacked::text_on_top, crate::proofs::Stacked::text_together, crate::proofs::Stacked::row_on_top, crate::proofs::Stacked::row_together))]
impl<'a> FromTop<'a> {
    // The next value below.
    fn next(&mut self) -> Option<Value>
        ensures { IsTaken self.old self.new result }
    {
        let (operand, below) = self.operands.split_last()?;
        self.operands = below;
        match operand {
            Operand::Int(number) => Some(Value::Int(*number)),
            Operand::Bool(truth) => Some(Value::Bool(*truth)),
            Operand::Link(link) => Some(Value::Link(*link)),
            Operand::Text(length) => {
                let (below, text) = self.bytes.split_at(self.bytes.len() - *length);
                self.bytes = below;
                Some(Value::Text(short(text)))
            }
            Operand::Row => {
                let (numbers, below) = self.rows.split_last()?;
                self.rows = below;
                Some(Value::Row(numbers.row()))
            }
        }
    }

    // The next values below, from the top.
    fn gather(&mut self, alloc: Global, count: usize) -> Result<Vec<Value>, NoMemory>
        requires { count ≤ length self.old }
        ensures { IfOk result (λ values. values_of values.items ≡ take count self.old) }
    {
        let mut values = Vec::with_capacity(alloc, count)?;
        for _ in 0..count {
            match self.next() {
                Some(value) => values.push(value)?,
                None => unreachable!(),
            }
        }
        Ok(values)
    }
}

// The text of these bytes.
fn short(bytes: &[u8]) -> ShortText
    requires { length bytes.now ≤ 64 }
    ensures { result ≡ bytes.now }
{
    match ShortText::from_slice(bytes) {
        Some(text) => text,
        None => unreachable!(),
    }
}
