//! Exceptions, and the end of a thread.

ghost use Rattle.std.specs.Prelude.{◌≡◌, ◌+◌, ◌-◌, ◌≤◌, List, [], length, take, drop, map, Bool, false, None, Some, IfOk};
ghost use Rattle.lynx_code.specs.declared.instruction.Instruction.TheVariants as code;
ghost use Rattle.lynx_meaning.specs.Code.{Program, cut, instead, raises};
ghost use Rattle.lynx_meaning.specs.Courses as courses;
ghost use Rattle.lynx_meaning.specs.Values as meaning;
ghost use Rattle.machine_turns.specs.Threads.{Went, in_turn, made};
ghost use Rattle.machine_thread.specs.Told.{told, outcome_of};
ghost use Rattle.machine_thread.specs.Kept.{opened_of};
ghost use Rattle.machine_steps.specs.Operands.{does};
ghost use Rattle.machine_thread.specs.Closes.{lasting, kept_depth, raising};

use crate::action::{Action, Given, Move};
use crate::thread::{Opened, Thread};
use lynx_lexer::NoMemory;
use typing_rules::Exception;

/// An exception as it is raised: its instruction took so many operands, heard so many outcomes and closed so many requests.
#[derive(Clone, Copy, Debug)]
pub(crate) struct Raised {
    pub(crate) exception: Exception,
    pub(crate) taken: usize,
    pub(crate) heard: usize,
    pub(crate) closed: usize,
}

impl Thread {
    /// An exception before the instruction took or heard anything.
    #[inline(never)]
    pub(crate) fn raises(&mut self, exception: Exception) -> Result<Move, NoMemory>
        ensures { IfOk result (λ move. (b : Bool) (globals : List meaning.Value) → told move globals self.new ≡ made b self.old (raises exception (in_turn globals self.old))) }
    {
        self.raises_after(Raised {
            exception,
            taken: 0,
            heard: 0,
            closed: 0,
        })
    }

    /// An exception closes the requests that were opened in the innermost open `try`, or all where none is open. Then it goes to the
    /// handlers of that `try`, or ends the thread.
    #[inline(never)]
    pub(crate) fn raises_after(&mut self, raised: Raised) -> Result<Move, NoMemory>
        requires taken { raised.taken ≤ length self.old.stack }
        requires heard { raised.heard ≤ length self.old.given }
        ensures { IfOk result (λ move. (b : Bool) (globals : List meaning.Value) (actions : List courses.Action) → told move globals self.new ≡ made b self.old (raises raised.exception (raising globals actions raised.taken raised.heard raised.closed self.old))) }
    {
        let closes = self.closes_for(raised.closed);
        if self.outcomes() - raised.heard < closes {
            return self.asks(Action::Close);
        }
        let exception = self.exception_after(&raised, closes);
        match self.pop_try() {
            Some(opened) => Ok(self.lands(exception, opened, &raised)),
            None => Ok(Move::Ends),
        }
    }

    // So many outcomes were given.
    fn outcomes(&self) -> usize
        ensures { result ≡ length self.now.given }
    {
        self.given.len()
    }

    // The exception that is under way after so many closes.
    fn exception_after(&self, raised: &Raised, closes: usize) -> Exception
        requires { raised.now.heard + closes ≤ length self.now.given }
        ensures { result ≡ lasting raised.now.exception (take closes (drop raised.now.heard self.now.given)) }
    {
        let heard = raised.heard;
        lasting(raised.exception, &self.given[heard..heard + closes])
    }

    // How many requests were opened in the innermost open `try` and are open, where so many are closed already.
    fn closes_for(&self, closed: usize) -> usize
        ensures { result ≡ length self.now.requests - closed - kept_depth self.now.tries }
    {
        let kept = self.tries.last().map_or(0, |opened| opened.depth);
        self.requests
            .len()
            .saturating_sub(closed)
            .saturating_sub(kept)
    }

    // At the handlers of a `try` that was open.
    fn lands(&mut self, exception: Exception, opened: Opened, raised: &Raised) -> Move
        requires { raised.now.taken ≤ length self.old.stack }
        ensures { (globals : List meaning.Value) → told result globals self.new ≡ Went globals (record self.old { address = opened.handlers; stack = cut opened.height (drop raised.now.taken self.old.stack); requests = cut opened.depth (drop raised.now.closed self.old.requests); pending = Some exception; given = []; wanted = None; again = false }) }
    {
        self.drops(raised.taken);
        self.cuts(opened.height);
        self.closes_innermost(raised.closed);
        self.requests.cut(opened.depth);
        self.pending = Some(exception);
        self.again = false;
        self.jumps(opened.handlers)
    }

    /// The thread ends; each open request is closed before.
    #[inline(never)]
    pub(crate) fn ends(&mut self) -> Result<Move, NoMemory>
        ensures { IfOk result (λ move. (p : Program) (globals : List meaning.Value) → told move globals self.new ≡ does p code.End globals self.old) }
    {
        if self.outcomes() < self.requests.len() {
            return self.asks(Action::Close);
        }
        Ok(Move::Ends)
    }
}

// The exception that is under way after these outcomes of closes.
fn lasting(exception: Exception, given: &[Given]) -> Exception
    ensures { result ≡ lasting exception (map outcome_of given.now) }
{
    let mut last = exception;
    for outcome in given {
        last = instead(outcome, last);
    }
    last
}

// An exception takes the place of the one that is under way.
fn instead(outcome: &Given, exception: Exception) -> Exception
    ensures { result ≡ instead (outcome_of outcome.now) exception }
{
    match outcome {
        Given::Raise(other) => *other,
        Given::Values(_) => exception,
    }
}
