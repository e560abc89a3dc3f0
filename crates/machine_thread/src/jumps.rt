//! Jumps, awaits and tries.

ghost use Rattle.std.specs.Prelude.{◌≡◌, ◌+◌, ◌<◌, List, [], ◌∷◌, ◌++◌, drop, not, true, false, Some, Ok, IfOk};
ghost use Rattle.lynx_code.specs.declared.instruction.Instruction.TheVariants as code;
ghost use Rattle.lynx_meaning.specs.Code.{Program, decides};
ghost use Rattle.lynx_meaning.specs.Values as meaning;
ghost use Rattle.machine_stack.specs.Stacks.{TopIsTruth};
ghost use Rattle.machine_turns.specs.Threads.{Went, Awaits, in_turn, is_fresh, made};
ghost use Rattle.machine_thread.specs.Told.{told};
ghost use Rattle.machine_steps.specs.Operands.{does, IsOpen, IsPending};

use crate::action::{Given, Move};
use crate::exceptions::Raised;
use crate::thread::Thread;
use lynx_lexer::NoMemory;
use typing_rules::Exception;

impl Thread {
    /// What decides stays on the stack, and what does not is dropped.
    pub(crate) fn decides(&mut self, truth: bool, address: u16) -> Move
        requires place { self.old.address < usize.MAX }
        requires operands { TopIsTruth self.old.stack }
        ensures { (globals : List meaning.Value) → told result globals self.new ≡ made false self.old (decides truth address (in_turn globals self.old)) }
    {
        if self.truth() == truth {
            return self.jumps(address);
        }
        self.pop_bool();
        self.goes()
    }

    pub(crate) fn jumps_if_false(&mut self, address: u16) -> Move
        requires place { self.old.address < usize.MAX }
        requires operands { TopIsTruth self.old.stack }
        ensures { (p : Program) (globals : List meaning.Value) → told result globals self.new ≡ does p (code.JumpF address) globals self.old }
    {
        if self.pop_bool() {
            return self.goes();
        }
        self.jumps(address)
    }

    /// Goes on where the truth on top is true; else the condition is to be evaluated once more, from this address on.
    #[inline(never)]
    pub(crate) fn awaits(&mut self, address: u16) -> Result<Move, NoMemory>
        requires place { self.old.address < usize.MAX }
        requires operands { TopIsTruth self.old.stack }
        ensures { IfOk result (λ move. (p : Program) (globals : List meaning.Value) → told move globals self.new ≡ does p (code.Await address) globals self.old) }
    {
        if self.truth() {
            return Ok(self.finds_true());
        }
        if self.is_fresh() {
            return self.finds_false();
        }
        match self.first_exception() {
            Some(exception) => self.raises_after(Raised {
                exception,
                taken: 1,
                heard: 1,
                closed: 0,
            }),
            None => Ok(self.tries_again(address)),
        }
    }

    // The await is over.
    fn finds_true(&mut self) -> Move
        requires place { self.old.address < usize.MAX }
        requires operands { TopIsTruth self.old.stack }
        ensures { (globals : List meaning.Value) → told result globals self.new ≡ Went globals (record self.old { address = self.old.address + 1; stack = drop 1 self.old.stack; given = []; wanted = None; again = not (is_fresh self.old) }) }
    {
        self.again = !self.is_fresh();
        self.drops(1);
        self.goes()
    }

    // The thread awaits. It is given no value.
    fn finds_false(&mut self) -> Result<Move, NoMemory>
        ensures { IfOk result (λ move. (globals : List meaning.Value) → told move globals self.new ≡ Awaits globals (record self.old { given = self.old.given ++ Ok [] ∷ [] })) }
    {
        self.hears(Given::Values(Vec::new(self.alloc)))?;
        Ok(Move::Awaits)
    }

    // The condition begins at this address.
    fn tries_again(&mut self, address: u16) -> Move
        requires { TopIsTruth self.old.stack }
        ensures { (globals : List meaning.Value) → told result globals self.new ≡ Went globals (record self.old { address = address; stack = drop 1 self.old.stack; given = []; wanted = None; again = not (is_fresh self.old) }) }
    {
        self.again = !self.is_fresh();
        self.drops(1);
        self.jumps(address)
    }

    /// A `try` is open from here on.
    #[inline(never)]
    pub(crate) fn opens(&mut self, handlers: u16) -> Result<Move, NoMemory>
        requires { self.old.address < usize.MAX }
        ensures { IfOk result (λ move. (p : Program) (globals : List meaning.Value) → told move globals self.new ≡ does p (code.Try handlers) globals self.old) }
    {
        self.push_try(handlers)?;
        self.again = false;
        Ok(self.goes())
    }

    /// The innermost open `try` is closed.
    #[inline(never)]
    pub(crate) fn unopens(&mut self) -> Move
        requires place { self.old.address < usize.MAX }
        requires tries { IsOpen self.old.tries }
        ensures { (p : Program) (globals : List meaning.Value) → told result globals self.new ≡ does p code.Untry globals self.old }
    {
        let _closed = self.pop_try();
        self.again = false;
        self.goes()
    }

    /// Goes on where this exception is pending, and jumps where it is another one.
    #[inline(never)]
    pub(crate) fn handles(&mut self, exception: Exception, address: u16) -> Move
        requires place { self.old.address < usize.MAX }
        requires pending { IsPending self.old.pending }
        ensures { (p : Program) (globals : List meaning.Value) → told result globals self.new ≡ does p (code.Case exception address) globals self.old }
    {
        if self.pending_exception().as_slice() == exception.as_slice() {
            return self.goes();
        }
        self.jumps(address)
    }

    /// Raises the pending exception once more.
    #[inline(never)]
    pub(crate) fn raises_again(&mut self) -> Result<Move, NoMemory>
        requires { IsPending self.old.pending }
        ensures { IfOk result (λ move. (p : Program) (globals : List meaning.Value) → told move globals self.new ≡ does p code.Again globals self.old) }
    {
        let exception = self.pending_exception();
        self.raises(exception)
    }

    fn pending_exception(&self) -> Exception
        requires { IsPending self.now.pending }
        ensures { self.now.pending ≡ Some result }
    {
        match self.pending {
            Some(exception) => exception,
            None => unreachable!(),
        }
    }
}
