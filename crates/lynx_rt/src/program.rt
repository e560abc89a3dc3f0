//! A LYNX process as a program of a kernel.

ghost use Rattle.std.specs.Prelude.{◌≡◌, ◌⊎◌, None, length, IfOk};
ghost use Rattle.charlotte_calls.specs.Ranges.{AreBytes};
ghost use Rattle.compiler_runnable.specs.Runnable.{IsRunnable};
ghost use Rattle.process_run.specs.States.{State, start};
ghost use Rattle.process_run.specs.Runs.{step};
ghost use Rattle.process_sound.specs.Told.{IsTold};

use crate::process::Running;
use crate::seen::NextSeen;
use charlotte_calls::{Answer, EndId, Next, NoMemory, Program};
use lynx_code::Code;
use std::alloc::Global;
use std::marker::Model;

/// A process that runs the code of a module, as a program of a kernel.
#[derive(Drop)]
pub struct LynxProcess {
    process: Running,
    /// The last step; None at the start.
    last: Option<NextSeen>,
}

impl Model for LynxProcess {
    ghost use Rattle.std.specs.Prelude.{option_map};
    ghost use Rattle.lynx_rt.specs.Programs.{Program, MayBeSpoiled};

    ghost Value = { Program };

    ghost view = { λ p. record { process = p.process; last = option_map (λ s. s.next) p.last } };

    ghost invariant = { λ p. MayBeSpoiled (record { process = p.process; last = option_map (λ s. s.next) p.last }) };
}

impl LynxProcess {
    /// A process of version 1 or 2 before its first step, with one end for each param of its code, all different.
    pub fn start(
        alloc: Global,
        version: u8,
        code: Code,
        ends: Vec<EndId>,
    ) -> Result<LynxProcess, NoMemory>
        requires version { (version ≡ 1) ⊎ (version ≡ 2) }
        requires code { IsRunnable code }
        requires params { length ends.items ≡ code.params }
        ensures process { IfOk result (λ program. program.process ≡ start version code ends.items) }
        ensures last { IfOk result (λ program. program.last ≡ None) }
    {
        Ok(LynxProcess {
            process: Running::start(alloc, version, code, ends)?,
            last: None,
        })
    }
}

impl Program for LynxProcess {
    ghost State = { State };

    ghost state = { λ p. p.process };

    ghost step = { step };

    ghost last = { λ p. p.last };

    ghost version = { λ p. p.process.version };

    fn next(&mut self, _alloc: Global, answer: Option<Answer>) -> Result<Next, NoMemory> {
        told(&answer);
        // Where the step is not made, nothing is known of the process any more, and it makes none.
        let mut next = Next::Ended;
        self.last = Some(NextSeen::of(&next));
        self.process.step(&answer, &mut next)?;
        self.last = Some(NextSeen::of(&next));
        Ok(next)
    }
}

/// The bytes of a message that is reported are bytes, which their type tells. Nothing is done.
#[inline(always)]
fn told(answer: &Option<Answer>)
    ensures { IsTold answer.now }
{
    match answer {
        Some(Answer::Reported(report)) => told_bytes(report.bytes.as_slice()),
        _ => {}
    }
}

#[inline(always)]
fn told_bytes(_bytes: &[u8])
    ensures { AreBytes _bytes.now }
{}
