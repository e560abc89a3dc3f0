//! What a process of a plan is.

ghost use Rattle.lynx_load.specs.Roles.{last_of, state_of, version_of};
ghost use Rattle.process_run.specs.Runs.{step};
ghost use Rattle.process_run.specs.States.{State};

use charlotte_calls::{Answer, Next, NoMemory, Program};
use lynx_rt::LynxProcess;
use std::alloc::Global;

/// The program of a process of a plan.
#[derive(Drop)]
pub enum Role {
    /// It runs its module, and stays where it is.
    Plain(LynxProcess),
}

impl Program for Role {
    ghost State = { State };

    ghost state = { state_of };

    ghost step = { step };

    ghost last = { last_of };

    ghost version = { version_of };

    fn next(&mut self, alloc: Global, answer: Option<Answer>) -> Result<Next, NoMemory> {
        match self {
            Role::Plain(process) => process.next(alloc, answer),
        }
    }
}
