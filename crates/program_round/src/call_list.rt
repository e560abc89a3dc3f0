ghost use Rattle.std.specs.Prelude.{◌≡◌, ◌↔◌, ◌⊎◌, None, All, IsTrue, IsFalse};
ghost use Rattle.charlotte_calls.specs.Program.{EndsAfterExit, IsOfVersion};
ghost use Rattle.program_round.specs.Listed.{Listed, EnclosesOne, FitsVersion, listed_step};

use charlotte_calls::{Answer, Call, Next, NoMemory, Program};
use std::alloc::Global;
use std::collections::VecDeque;
use std::marker::Model;

/// A program that asks a list of calls, whatever it is answered, and ends after the last and after an Exit. For tests.
#[derive(Drop)]
pub struct CallList {
    rest: VecDeque<Call>,
    last: Option<Next>,
    version: u8,
}

impl Model for CallList {
    ghost use Rattle.program_round.specs.Listed.{Listed, FitsVersion};

    ghost Value = { Listed };

    ghost view = { λ a. record { rest = a.rest.items; last = a.last; version = a.version } };

    ghost invariant = { λ a. FitsVersion a.version a.rest.items };
}

impl CallList {
    /// Asks these calls. Its version is 2 exactly where one of its Sends encloses two or more ends.
    pub fn of(calls: Vec<Call>) -> CallList
        ensures rest { result.rest ≡ calls.items }
        ensures last { result.last ≡ None }
        ensures version { result.version ≡ 1 ↔ All EnclosesOne calls.items }
    {
        let version = if all_enclose_one(&calls) { 1 } else { 2 };
        CallList {
            rest: VecDeque::from(calls),
            last: None,
            version,
        }
    }

    fn step(&mut self) -> Next
        ensures step { listed_step self.old None ≡ (result, self.new) }
        ensures limit { IsOfVersion self.old.version result }
        ensures exit { EndsAfterExit self.old.last result }
        ensures one_or_two { (self.old.version ≡ 1) ⊎ (self.old.version ≡ 2) }
    {
        let next = match self.last {
            Some(Next::Ask(Call::Exit)) => Next::Ended,
            _ => match self.rest.pop_front() {
                Some(call) => Next::Ask(call),
                None => Next::Ended,
            },
        };
        self.last = Some(next.copy());
        next
    }
}

/// Whether none of these calls is a Send that encloses two or more ends.
fn all_enclose_one(calls: &[Call]) -> bool
    ensures { IsTrue result ↔ All EnclosesOne calls.now }
{
    calls.iter().all(|call| encloses_one(call))
}

/// Whether a call is no Send that encloses two or more ends.
fn encloses_one(call: &Call) -> bool
    ensures { IsTrue result ↔ EnclosesOne call.now }
{
    match call {
        Call::Send { enclose, .. } => enclose.as_slice().len() < 2,
        _ => true,
    }
}

impl Program for CallList {
    ghost State = { Listed };

    ghost state = { λ a. a };

    ghost step = { listed_step };

    ghost last = { λ a. a.last };

    ghost version = { λ a. a.version };

    fn next(&mut self, _alloc: Global, _answer: Option<Answer>) -> Result<Next, NoMemory> {
        Ok(self.step())
    }
}
