//! A program that asks a list of calls, and the run of any program.
ghost use Rattle.std.specs.Prelude.{◌≡◌, [], ◌∷◌, IfOk};
ghost use Rattle.charlotte_calls.specs.declared.calls.Call.TheVariants as call;
ghost use Rattle.charlotte_tests.specs.Listed.{Listed, listed_step, done_of, asked_of};
ghost use Rattle.charlotte_calls.specs.Program.{steps, state_after, MayBeGiven, MayFollow, EndsAfterExit, IsOfVersion};

use crate::samples::{end, holds};
use charlotte_calls::{Answer, Call, Next, NoMemory, Program, Side};
use std::alloc::Global;
use std::collections::VecDeque;
use std::marker::Model;
use std::test::Fail;

/// Asks a list of calls, and ends after the last and after an Exit.
#[derive(Drop)]
struct Asker {
    rest: VecDeque<Call>,
    last: Option<Next>,
}

impl Model for Asker {
    ghost Value = { Listed };

    ghost view = { λ a. record { rest = a.rest.items; last = a.last } };
}

impl Asker {
    /// A program that makes a link and exits.
    fn of_a_link(alloc: Global) -> Result<Asker, NoMemory>
        ensures { IfOk result (λ a. a ≡ record { rest = call.Make ∷ call.Exit ∷ []; last = None }) }
    {
        let mut rest = VecDeque::new(alloc);
        rest.push_back(Call::Make)?;
        rest.push_back(Call::Exit)?;
        Ok(Asker { rest, last: None })
    }

    fn step(&mut self) -> Next
        ensures { listed_step self.old None ≡ (result, self.new) }
    {
        let next = match self.last {
            Some(Next::Ask(Call::Exit)) => Next::Ended,
            _ => match self.rest.pop_front() {
                Some(call) => Next::Ask(call),
                None => Next::Ended,
            },
        };
        self.last = Some(next.copy());
        next
    }
}

impl Program for Asker {
    ghost State = { Listed };

    ghost state = { λ a. a };

    ghost step = { listed_step };

    ghost last = { λ a. a.last };

    ghost version = { λ _. 2 };

    fn next(&mut self, _alloc: Global, _answer: Option<Answer>) -> Result<Next, NoMemory> {
        Ok(self.step())
    }
}

fn copied(answer: &Option<Answer>) -> Option<Answer>
    ensures { result ≡ answer.now }
{
    match answer {
        None => None,
        Some(answer) => Some(answer.copy()),
    }
}

/// Gives a program these answers in order. What it did.
fn perform<P: Program>(
    alloc: Global,
    program: &mut P,
    given: &[Option<Answer>],
) -> Result<Vec<Next>, NoMemory>
    requires { MayBeGiven P.step (P.state program.old) (P.last program.old) given.now }
    ensures steps { IfOk result (λ done. done.items ≡ steps P.step (P.state program.old) given.now) }
    ensures state { IfOk result (λ _. P.state program.new ≡ state_after P.step (P.state program.old) given.now) }
{
    let mut done = Vec::new(alloc);
    for answer in given {
        let next = program.next(alloc, copied(answer))?;
        done.push(next)?;
    }
    Ok(done)
}

#[test]
fn a_program_asks_its_calls_and_ends(rt: HostRuntime) -> Result<(), Fail> {
    let mut program = Asker::of_a_link(rt.alloc())?;
    let given = [
        None,
        Some(Answer::Made(end(0, Side::A), end(0, Side::B))),
        Some(Answer::Ok),
    ];
    let done = perform(rt.alloc(), &mut program, &given)?;
    holds(
        matches!(
            done.as_slice(),
            [Next::Ask(Call::Make), Next::Ask(Call::Exit), Next::Ended]
        ),
        "what the program did",
    )?;
    Ok(())
}
