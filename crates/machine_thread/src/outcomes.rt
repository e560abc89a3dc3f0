//! How an instruction goes on with the outcome of its action.

ghost use Rattle.std.specs.Prelude.{◌≡◌, ◌<◌, ◌≤◌, List, ◌++◌, length, drop, reverse, false, IfOk, OnOk};
ghost use Rattle.lynx_meaning.specs.Code.{answered, asks};
ghost use Rattle.lynx_meaning.specs.Courses as courses;
ghost use Rattle.lynx_meaning.specs.Values as meaning;
ghost use Rattle.machine_turns.specs.Threads.{in_turn, made};
ghost use Rattle.machine_thread.specs.Told.{told};
ghost use Rattle.machine_thread.specs.Closes.{raising};
ghost use Rattle.machine_thread.specs.Outcomes.{first_given, raised_by, values_by};

use crate::action::{Given, Move};
use crate::exceptions::Raised;
use crate::thread::Thread;
use lynx_lexer::NoMemory;
use typing_rules::Exception;

/// What an action leaves: so many operands were taken for it, and so many of the innermost requests are closed by it.
#[derive(Clone, Copy, Debug)]
pub(crate) struct Answered {
    pub(crate) taken: usize,
    pub(crate) closed: usize,
}

impl Thread {
    /// The values that its action was given come on the stack, or the exception is raised.
    #[inline(never)]
    pub(crate) fn answered(&mut self, action: Answered) -> Result<Move, NoMemory>
        requires place { self.old.address < usize.MAX }
        requires taken { action.taken ≤ length self.old.stack }
        requires given { 0 < length self.old.given }
        ensures { IfOk result (λ move. (globals : List meaning.Value) (actions : List courses.Action) → told move globals self.new ≡ made false self.old (answered (first_given self.old.given) (λ now. now) (raising globals actions action.taken 1 action.closed self.old))) }
    {
        if let Some(exception) = self.first_exception() {
            return self.raises_after(Raised {
                exception,
                taken: action.taken,
                heard: 1,
                closed: action.closed,
            });
        }
        self.drops(action.taken);
        self.closes_innermost(action.closed);
        self.push_given()?;
        Ok(self.goes())
    }

    /// The same for an action that changes nothing but the stack.
    #[inline(never)]
    pub(crate) fn answered_after(&mut self, taken: usize) -> Result<Move, NoMemory>
        requires place { self.old.address < usize.MAX }
        requires taken { taken ≤ length self.old.stack }
        requires given { 0 < length self.old.given }
        ensures { IfOk result (λ move. (globals : List meaning.Value) (action : courses.Action) → told move globals self.new ≡ made false self.old (asks action (drop taken self.old.stack) (in_turn globals self.old) (λ now. now))) }
    {
        self.answered(Answered { taken, closed: 0 })
    }

    /// The exception that its first action was given.
    pub(crate) fn first_exception(&self) -> Option<Exception>
        ensures { result ≡ raised_by (first_given self.now.given) }
    {
        match self.given.first() {
            Some(Given::Raise(exception)) => Some(*exception),
            Some(Given::Values(_)) | None => None,
        }
    }

    // The values that its first action was given come on the stack.
    fn push_given(&mut self) -> Result<(), NoMemory>
        ensures { OnOk result (self.new ≡ record self.old { stack = reverse (values_by (first_given self.old.given)) ++ self.old.stack }) }
    {
        match self.given.first() {
            Some(Given::Values(values)) => self.operands.push_all(values),
            Some(Given::Raise(_)) | None => Ok(()),
        }
    }
}
