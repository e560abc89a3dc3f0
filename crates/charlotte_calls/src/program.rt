ghost use Rattle.std.specs.Prelude.{◌≡◌, ◌⊎◌, ℕ, IfOk, Option, Some};
ghost use Rattle.charlotte_calls.specs.Program.{MayFollow, EndsAfterExit, IsOfVersion};
ghost use Rattle.charlotte_calls.specs.declared.calls.Answer.{Answer};
ghost use Rattle.charlotte_calls.specs.declared.program.Next.{Next};

use crate::{Answer, Call, NoMemory};
use std::alloc::Global;

/// What a program does in one step.
#[derive(Debug, Drop)]
pub enum Next {
    /// It asks its kernel for this. Its next step is given the answer.
    Ask(Call),
    /// It goes on later. Its next step is given no answer.
    Pause,
    /// It has ended, and makes no step any more.
    Ended,
}

impl Next {
    /// An equal step.
    pub fn copy(&self) -> Next
        ensures { result ≡ self.now }
    {
        match self {
            Next::Ask(call) => Next::Ask(call.copy()),
            Next::Pause => Next::Pause,
            Next::Ended => Next::Ended,
        }
    }
}

/// What a process runs. Its meaning is a state, a step function and a version.
///
/// A step that is not made for want of memory leaves the program spoiled: nothing is known of it, and so no further
/// step of it is allowed.
pub trait Program {
    /// The states of such programs.
    ghost State: { Type 0 };

    /// The state.
    ghost state: { Self → Self.State };

    /// The step function: what is done in a state with an answer, or with none, and the state after it.
    ghost step: { Self.State → Option Answer → Next × Self.State };

    /// The last step; `None` at the start.
    ghost last: { Self → Option Next };

    /// 1 or 2. In version 1 a program asks no Send that encloses more than one end.
    ghost version: { Self → ℕ };

    /// Makes the next step. The answer to the last call is given exactly where the last step asked one.
    fn next(&mut self, alloc: Global, answer: Option<Answer>) -> Result<Next, NoMemory>
        requires { MayFollow (last self.old) answer }
        ensures step { IfOk result (λ n. (n, state self.new) ≡ step (state self.old) answer) }
        ensures last { IfOk result (λ n. last self.new ≡ Some n) }
        ensures exit { IfOk result (λ n. EndsAfterExit (last self.old) n) }
        ensures limit { IfOk result (λ n. IsOfVersion (version self.old) n) }
        ensures one_or_two { (version self.old ≡ 1) ⊎ (version self.old ≡ 2) }
        ensures version { IfOk result (λ _. version self.new ≡ version self.old) };
}
