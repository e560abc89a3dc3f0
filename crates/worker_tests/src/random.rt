//! Runs of calls that are drawn, with a worker for each kernel.
ghost use Rattle.std.specs.Prelude.{◌<◌, ◌≤◌};

use crate::nodes::{Making, holds};
use crate::workers::work;
use charlotte_calls::NoMemory;
use kernel_worker::NoGate;
use std::alloc::Global;
use std::test::Fail;

/// How many runs are drawn.
const RUNS: u32 = 1_000;

/// How many calls a run has.
const CALLS: u32 = 24;

const DIGITS: [&str; 10] = ["0", "1", "2", "3", "4", "5", "6", "7", "8", "9"];

/// What runs are drawn from: the upper halves of a linear congruence's numbers modulo 2^32 (Press et al., Numerical Recipes, 1992).
#[derive(Drop)]
struct Draws {
    state: u32,
}

impl Draws {
    /// The next number, below a bound.
    fn below(&mut self, bound: u32) -> u32
        requires { 0 < bound }
        ensures { result < bound }
    {
        self.state = self
            .state
            .wrapping_mul(1_664_525)
            .wrapping_add(1_013_904_223);
        (self.state >> 16) % bound
    }

    /// The same of a digit.
    fn digit(&mut self, bound: u32) -> &'static str
        requires { (0 < bound) × (bound ≤ 10) }
    {
        DIGITS[self.below(bound) as usize]
    }

    fn side(&mut self) -> &'static str {
        if self.below(2) == 0 { "a" } else { "b" }
    }
}

fn push_all(script: &mut String, words: &[&str]) -> Result<(), NoMemory> {
    for word in words {
        script.push_str(word)?;
    }
    Ok(())
}

/// The lines of a setting: each process is on one of the kernels, and has a wire to the next.
fn push_setting(
    script: &mut String,
    draws: &mut Draws,
    kernels: u32,
    processes: u32,
) -> Result<(), NoMemory>
    requires kernels { (0 < kernels) × (kernels ≤ 8) }
    requires processes { (0 < processes) × (processes ≤ 8) }
{
    push_all(
        script,
        &["version 2\nkernels ", DIGITS[kernels as usize], "\n"],
    )?;
    for process in 0..processes {
        let number = DIGITS[process as usize];
        push_all(
            script,
            &["process ", number, " on ", draws.digit(kernels), "\n"],
        )?;
    }
    for process in 0..processes {
        let next = (process + 1) % processes;
        push_all(
            script,
            &[
                "wire ",
                DIGITS[process as usize],
                " ",
                DIGITS[next as usize],
                "\n",
            ],
        )?;
    }
    Ok(())
}

/// An end of one of the first links of a kernel, whoever owns it.
fn push_end(script: &mut String, draws: &mut Draws, kernels: u32) -> Result<(), NoMemory>
    requires { (0 < kernels) × (kernels ≤ 8) }
{
    push_all(
        script,
        &[draws.digit(kernels), ".", draws.digit(3), draws.side()],
    )
}

/// A call on an end, with what stands before and behind it.
fn push_on(
    script: &mut String,
    draws: &mut Draws,
    kernels: u32,
    around: (&str, &str),
) -> Result<(), NoMemory>
    requires { (0 < kernels) × (kernels ≤ 8) }
{
    script.push_str(around.0)?;
    push_end(script, draws, kernels)?;
    script.push_str(around.1)?;
    Ok(())
}

/// A Send, one of three with an end in it.
fn push_send(script: &mut String, draws: &mut Draws, kernels: u32) -> Result<(), NoMemory>
    requires { (0 < kernels) × (kernels ≤ 8) }
{
    push_on(script, draws, kernels, ("send ", " x"))?;
    if draws.below(3) == 0 {
        push_on(script, draws, kernels, (" +", ""))?;
    }
    script.push_str("\n")?;
    Ok(())
}

/// A call of one of the processes.
fn push_call(
    script: &mut String,
    draws: &mut Draws,
    kernels: u32,
    processes: u32,
) -> Result<(), NoMemory>
    requires kernels { (0 < kernels) × (kernels ≤ 8) }
    requires processes { (0 < processes) × (processes ≤ 8) }
{
    push_all(script, &["p", draws.digit(processes), " "])?;
    match draws.below(64) {
        0..=15 => push_send(script, draws, kernels)?,
        16..=35 => push_on(script, draws, kernels, ("receive ", "\n"))?,
        36..=39 => push_on(script, draws, kernels, ("cancel ", " out\n"))?,
        40..=43 => push_on(script, draws, kernels, ("cancel ", " in\n"))?,
        44..=45 => push_on(script, draws, kernels, ("destroy ", "\n"))?,
        46..=49 => script.push_str("make\n")?,
        50 => script.push_str("exit\n")?,
        51 => script.push_str("print x\n")?,
        _ => script.push_str("wait\n")?,
    }
    Ok(())
}

/// A script of one to eight kernels and two to eight processes.
fn drawn(alloc: Global, draws: &mut Draws) -> Result<String, NoMemory> {
    let kernels = 1 + draws.below(8);
    let processes = 2 + draws.below(7);
    let mut script = String::new(alloc);
    push_setting(&mut script, draws, kernels, processes)?;
    for _ in 0..CALLS {
        push_call(&mut script, draws, kernels, processes)?;
    }
    Ok(script)
}

/// Each is quiet at last, and its transcript is one that `audit` accepts. Rings hold one to three letters.
#[test]
fn a_thousand_random_runs(rt: HostRuntime) -> Result<(), Fail> {
    let mut draws = Draws { state: 1 };
    for _ in 0..RUNS {
        let script = drawn(rt.alloc(), &mut draws)?;
        let making = Making {
            letters: 1 + draws.below(3) as u16,
            limit: 1_000,
            begins: None,
        };
        let ran = work(&rt, rt.alloc(), making, script.as_str(), &NoGate)?;
        holds(ran.text.ends_with(b"quiet\n"), script.as_str())?;
    }
    Ok(())
}
