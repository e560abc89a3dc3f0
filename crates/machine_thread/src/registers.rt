//! What instructions read and change of a thread.

ghost use Rattle.std.specs.Prelude.{◌≡◌, ◌+◌, ◌-◌, ◌<◌, ◌≤◌, ℕ, List, [], ◌∷◌, ◌++◌, length, drop, reverse, true, false, None, Some, IfOk, OnOk, MatchOption, slice_get, slice_set};
ghost use Rattle.lynx_meaning.specs.Values as meaning;
ghost use Rattle.lynx_meaning.specs.Values.{Int, Truth, Text};
ghost use Rattle.machine_stack.specs.Stacks.{TopIsInt, TopIsTruth, AreAlikeOnTop, IsCompared, IsTop};
ghost use Rattle.machine_values.specs.Told.{value_of, values_of};
ghost use Rattle.machine_turns.specs.Threads.{Went, Acts, is_empty};
ghost use Rattle.lynx_meaning.specs.Needs.{wanted_by};
ghost use Rattle.machine_thread.specs.Told.{action_of, outcome_of, told};
ghost use Rattle.machine_thread.specs.Kept.{opened_of};

use crate::action::{Action, Given, Move};
use crate::thread::{Opened, Thread};
use lynx_code::KeptText;
use lynx_lexer::NoMemory;
use machine_stack::Variables;
use typing_rules::Exception;

impl Thread {
    /// The instruction asks for an action.
    pub(crate) fn asks(&mut self, action: Action) -> Result<Move, NoMemory>
        ensures { IfOk result (λ move. (globals : List meaning.Value) → told move globals self.new ≡ Acts (action_of action) globals (record self.old { wanted = Some (wanted_by (action_of action)) })) }
    {
        let wanted = action.wanted();
        let boxed = Box::new(self.alloc, action)?;
        self.wanted = Some(wanted);
        Ok(Move::Acts(boxed))
    }

    /// To the next instruction.
    pub(crate) fn goes(&mut self) -> Move
        requires { self.old.address < usize.MAX }
        ensures { (globals : List meaning.Value) → told result globals self.new ≡ Went globals (record self.old { address = self.old.address + 1; given = []; wanted = None }) }
    {
        self.address += 1;
        self.is_done();
        Move::GoesOn
    }

    /// To the instruction at this address.
    pub(crate) fn jumps(&mut self, address: u16) -> Move
        ensures { (globals : List meaning.Value) → told result globals self.new ≡ Went globals (record self.old { address = address; given = []; wanted = None }) }
    {
        self.address = usize::from(address);
        self.is_done();
        Move::GoesOn
    }

    // Its instruction is done.
    fn is_done(&mut self)
        ensures { self.new ≡ record self.old { given = []; wanted = None } }
    {
        if !self.is_fresh() {
            self.forgets();
        }
        self.wanted = None;
    }

    // What it was given.
    #[inline(never)]
    fn forgets(&mut self)
        ensures { self.new ≡ record self.old { given = [] } }
    {
        self.given.clear();
    }

    /// It is given one outcome more. Few instructions are given a second one, so there is no room for it beforehand.
    pub(crate) fn hears(&mut self, outcome: Given) -> Result<(), NoMemory>
        ensures { OnOk result (self.new ≡ record self.old { given = self.old.given ++ outcome_of outcome ∷ [] }) }
    {
        self.given.reserve_exact(1)?;
        self.given.push_reserved(outcome);
        Ok(())
    }

    /// Its instruction begins.
    pub(crate) fn is_fresh(&self) -> bool
        ensures { result ≡ is_empty self.now.given }
    {
        self.given.is_empty()
    }

    pub(crate) fn pop_int(&mut self) -> i64
        requires { TopIsInt self.old.stack }
        ensures { self.old ≡ record self.new { stack = Int result ∷ self.new.stack } }
    {
        self.operands.pop_int()
    }

    pub(crate) fn pop_bool(&mut self) -> bool
        requires { TopIsTruth self.old.stack }
        ensures { self.old ≡ record self.new { stack = Truth result ∷ self.new.stack } }
    {
        self.operands.pop_bool()
    }

    /// Takes two numbers, truths or texts from the top, and tells whether they are equal.
    pub(crate) fn pop_alike(&mut self) -> bool
        requires { AreAlikeOnTop self.old.stack }
        ensures { IsCompared self.old.stack self.new.stack result × (self.new ≡ record self.old { stack = self.new.stack }) }
    {
        self.operands.pop_alike()
    }

    /// The truth on top.
    pub(crate) fn truth(&self) -> bool
        requires { TopIsTruth self.now.stack }
        ensures { IsTop (Truth result) self.now.stack }
    {
        self.operands.truth()
    }

    pub(crate) fn push_int(&mut self, number: i64) -> Result<(), NoMemory>
        ensures { OnOk result (self.new ≡ record self.old { stack = Int number ∷ self.old.stack }) }
    {
        self.operands.push_int(number)
    }

    pub(crate) fn push_bool(&mut self, truth: bool) -> Result<(), NoMemory>
        ensures { OnOk result (self.new ≡ record self.old { stack = Truth truth ∷ self.old.stack }) }
    {
        self.operands.push_bool(truth)
    }

    pub(crate) fn push_text(&mut self, literal: &KeptText) -> Result<(), NoMemory>
        ensures { OnOk result (self.new ≡ record self.old { stack = Text literal.now ∷ self.old.stack }) }
    {
        self.operands.push_text(literal.as_slice())
    }

    /// So many operands are dropped.
    pub(crate) fn drops(&mut self, count: usize)
        requires { count ≤ length self.old.stack }
        ensures { self.new ≡ record self.old { stack = drop count self.old.stack } }
    {
        self.operands.cut(self.operands.len() - count);
    }

    /// Only the lowest operands stay, so many.
    pub(crate) fn cuts(&mut self, height: usize)
        ensures { self.new ≡ record self.old { stack = drop (length self.old.stack - height) self.old.stack } }
    {
        self.operands.cut(height);
    }

    /// A request is open, and is the innermost one.
    pub(crate) fn opens_request(&mut self, op: u32) -> Result<(), NoMemory>
        ensures { OnOk result (self.new ≡ record self.old { requests = op ∷ self.old.requests }) }
    {
        self.requests.push(op)
    }

    /// So many of the innermost open requests are closed.
    #[tactic(auto, using(crate::proofs::Cutting::innermost))]
    pub(crate) fn closes_innermost(&mut self, count: usize)
        ensures { self.new ≡ record self.old { requests = drop count self.old.requests } }
    {
        let left = self.requests.len().saturating_sub(count);
        self.requests.cut(left);
    }

    /// A `try` is opened.
    pub(crate) fn push_try(&mut self, handlers: u16) -> Result<(), NoMemory>
        ensures { OnOk result (self.new ≡ record self.old { tries = record { handlers = handlers; height = length self.old.stack; depth = length self.old.requests } ∷ self.old.tries }) }
    {
        self.tries.push(Opened {
            handlers,
            height: self.operands.len(),
            depth: self.requests.len(),
        })?;
        Ok(())
    }

    /// The innermost open `try` is closed.
    pub(crate) fn pop_try(&mut self) -> Option<Opened>
        ensures { MatchOption result ((self.old.tries ≡ []) × (self.new ≡ self.old)) (λ o. self.old ≡ record self.new { tries = opened_of o ∷ self.new.tries }) }
    {
        self.tries.pop()
    }
}
