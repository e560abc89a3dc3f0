//! Literals and operators.

ghost use Rattle.std.specs.Prelude.{◌≡◌, ◌<◌, ℕ, List, ◌∷◌, Bool, false, not, int_lt, int_le, IfOk, OnOk};
ghost use Rattle.lynx_code.specs.declared.instruction.Instruction.TheVariants as code;
ghost use Rattle.lynx_meaning.specs.Code.{Program, gives, goes};
ghost use Rattle.lynx_meaning.specs.Values as meaning;
ghost use Rattle.lynx_meaning.specs.Values.{Int, Truth, value_eq};
ghost use Rattle.machine_stack.specs.Stacks.{TopIsInt, TopIsTruth, AreAlikeOnTop};
ghost use Rattle.machine_values.specs.Told as values;
ghost use Rattle.machine_turns.specs.Threads.{in_turn, made};
ghost use Rattle.machine_thread.specs.Told.{told};
ghost use Rattle.machine_steps.specs.Operands.{does, AreInts};

use crate::action::Move;
use crate::thread::Thread;
use lynx_code::Literal;
use lynx_lexer::NoMemory;
use machine_values::{add, divide, multiply, negate, reduce, subtract};
use typing_rules::Exception;

impl Thread {
    pub(crate) fn push(&mut self, literal: &Literal) -> Result<Move, NoMemory>
        requires { self.old.address < usize.MAX }
        ensures { IfOk result (λ move. (p : Program) (globals : List meaning.Value) → told move globals self.new ≡ does p (code.Push literal.now) globals self.old) }
    {
        match literal {
            Literal::Int(number) => self.push_int(*number)?,
            Literal::Bool(truth) => self.push_bool(*truth)?,
            Literal::Text(text) => self.push_text(text)?,
        }
        Ok(self.goes())
    }

    // In place of two numbers comes what an operator gives of them; an exception leaves them there.
    #[inline(always)]
    fn gives_of_two(
        &mut self,
        first: i64,
        second: i64,
        found: Result<i64, Exception>,
    ) -> Result<Move, NoMemory>
        requires { self.old.address < usize.MAX }
        ensures { IfOk result (λ move. (globals : List meaning.Value) → let s = record self.old { stack = Int second ∷ Int first ∷ self.old.stack } in told move globals self.new ≡ made false s (gives (values.told found) self.old.stack (in_turn globals s))) }
    {
        match found {
            Ok(number) => {
                self.push_int(number)?;
                Ok(self.goes())
            }
            Err(exception) => {
                self.push_int(first)?;
                self.push_int(second)?;
                self.raises(exception)
            }
        }
    }

    // In place of a number comes what an operator gives of it; an exception leaves it there.
    pub(crate) fn gives_of_one(
        &mut self,
        number: i64,
        found: Result<i64, Exception>,
    ) -> Result<Move, NoMemory>
        requires { self.old.address < usize.MAX }
        ensures { IfOk result (λ move. (globals : List meaning.Value) → let s = record self.old { stack = Int number ∷ self.old.stack } in told move globals self.new ≡ made false s (gives (values.told found) self.old.stack (in_turn globals s))) }
    {
        match found {
            Ok(other) => {
                self.push_int(other)?;
                Ok(self.goes())
            }
            Err(exception) => {
                self.push_int(number)?;
                self.raises(exception)
            }
        }
    }

    // A truth comes on the stack.
    fn finds(&mut self, truth: bool) -> Result<Move, NoMemory>
        requires { self.old.address < usize.MAX }
        ensures { IfOk result (λ move. (globals : List meaning.Value) → told move globals self.new ≡ made false self.old (goes (Truth truth ∷ self.old.stack) (in_turn globals self.old))) }
    {
        self.push_bool(truth)?;
        Ok(self.goes())
    }

    pub(crate) fn adds(&mut self) -> Result<Move, NoMemory>
        requires place { self.old.address < usize.MAX }
        requires operands { AreInts self.old.stack }
        ensures { IfOk result (λ move. (p : Program) (globals : List meaning.Value) → told move globals self.new ≡ does p code.Add globals self.old) }
    {
        let second = self.pop_int();
        let first = self.pop_int();
        self.gives_of_two(first, second, add(first, second))
    }

    pub(crate) fn subtracts(&mut self) -> Result<Move, NoMemory>
        requires place { self.old.address < usize.MAX }
        requires operands { AreInts self.old.stack }
        ensures { IfOk result (λ move. (p : Program) (globals : List meaning.Value) → told move globals self.new ≡ does p code.Sub globals self.old) }
    {
        let second = self.pop_int();
        let first = self.pop_int();
        self.gives_of_two(first, second, subtract(first, second))
    }

    pub(crate) fn multiplies(&mut self) -> Result<Move, NoMemory>
        requires place { self.old.address < usize.MAX }
        requires operands { AreInts self.old.stack }
        ensures { IfOk result (λ move. (p : Program) (globals : List meaning.Value) → told move globals self.new ≡ does p code.Mul globals self.old) }
    {
        let second = self.pop_int();
        let first = self.pop_int();
        self.gives_of_two(first, second, multiply(first, second))
    }

    pub(crate) fn divides(&mut self) -> Result<Move, NoMemory>
        requires place { self.old.address < usize.MAX }
        requires operands { AreInts self.old.stack }
        ensures { IfOk result (λ move. (p : Program) (globals : List meaning.Value) → told move globals self.new ≡ does p code.Div globals self.old) }
    {
        let second = self.pop_int();
        let first = self.pop_int();
        self.gives_of_two(first, second, divide(first, second))
    }

    pub(crate) fn reduces(&mut self) -> Result<Move, NoMemory>
        requires place { self.old.address < usize.MAX }
        requires operands { AreInts self.old.stack }
        ensures { IfOk result (λ move. (p : Program) (globals : List meaning.Value) → told move globals self.new ≡ does p code.Mod globals self.old) }
    {
        let second = self.pop_int();
        let first = self.pop_int();
        self.gives_of_two(first, second, reduce(first, second))
    }

    pub(crate) fn negates(&mut self) -> Result<Move, NoMemory>
        requires place { self.old.address < usize.MAX }
        requires operands { TopIsInt self.old.stack }
        ensures { IfOk result (λ move. (p : Program) (globals : List meaning.Value) → told move globals self.new ≡ does p code.Neg globals self.old) }
    {
        let number = self.pop_int();
        self.gives_of_one(number, negate(number))
    }

    pub(crate) fn equals(&mut self) -> Result<Move, NoMemory>
        requires place { self.old.address < usize.MAX }
        requires operands { AreAlikeOnTop self.old.stack }
        ensures { IfOk result (λ move. (p : Program) (globals : List meaning.Value) → told move globals self.new ≡ does p code.Eq globals self.old) }
    {
        let alike = self.pop_alike();
        self.finds(alike)
    }

    pub(crate) fn differs(&mut self) -> Result<Move, NoMemory>
        requires place { self.old.address < usize.MAX }
        requires operands { AreAlikeOnTop self.old.stack }
        ensures { IfOk result (λ move. (p : Program) (globals : List meaning.Value) → told move globals self.new ≡ does p code.Ne globals self.old) }
    {
        let alike = self.pop_alike();
        self.finds(!alike)
    }

    pub(crate) fn is_less(&mut self) -> Result<Move, NoMemory>
        requires place { self.old.address < usize.MAX }
        requires operands { AreInts self.old.stack }
        ensures { IfOk result (λ move. (p : Program) (globals : List meaning.Value) → told move globals self.new ≡ does p code.Lt globals self.old) }
    {
        let second = self.pop_int();
        let first = self.pop_int();
        self.finds(first < second)
    }

    pub(crate) fn is_at_most(&mut self) -> Result<Move, NoMemory>
        requires place { self.old.address < usize.MAX }
        requires operands { AreInts self.old.stack }
        ensures { IfOk result (λ move. (p : Program) (globals : List meaning.Value) → told move globals self.new ≡ does p code.Le globals self.old) }
    {
        let second = self.pop_int();
        let first = self.pop_int();
        self.finds(first <= second)
    }

    pub(crate) fn is_greater(&mut self) -> Result<Move, NoMemory>
        requires place { self.old.address < usize.MAX }
        requires operands { AreInts self.old.stack }
        ensures { IfOk result (λ move. (p : Program) (globals : List meaning.Value) → told move globals self.new ≡ does p code.Gt globals self.old) }
    {
        let second = self.pop_int();
        let first = self.pop_int();
        self.finds(first > second)
    }

    pub(crate) fn is_at_least(&mut self) -> Result<Move, NoMemory>
        requires place { self.old.address < usize.MAX }
        requires operands { AreInts self.old.stack }
        ensures { IfOk result (λ move. (p : Program) (globals : List meaning.Value) → told move globals self.new ≡ does p code.Ge globals self.old) }
    {
        let second = self.pop_int();
        let first = self.pop_int();
        self.finds(first >= second)
    }

    pub(crate) fn negates_truth(&mut self) -> Result<Move, NoMemory>
        requires place { self.old.address < usize.MAX }
        requires operands { TopIsTruth self.old.stack }
        ensures { IfOk result (λ move. (p : Program) (globals : List meaning.Value) → told move globals self.new ≡ does p code.Not globals self.old) }
    {
        let truth = self.pop_bool();
        self.finds(!truth)
    }
}
