//! Two processes that talk: each goes on until it waits for a report, or pauses.
ghost use Rattle.std.specs.Prelude.{◌≡◌, ◌⊎◌, true, None, IfOk, OnOk, length};
ghost use Rattle.charlotte_calls.specs.Program.{MayFollow};

use crate::links::Links;
use crate::modules::code_of;
use crate::sums::Sum;
use crate::trouble::Trouble;
use charlotte_calls::{Answer, EndId, Next, Program};
use lynx_rt::LynxProcess;
use std::alloc::Global;

/// A process and its last step.
#[derive(Drop)]
struct Seat {
    process: u8,
    program: LynxProcess,
    last: Option<Next>,
}

/// How a process went on.
#[derive(Clone, Copy, PartialEq)]
enum Went {
    On,
    Paused,
    /// It waits for a report, or has ended.
    Stays,
}

/// Lets the processes of two modules talk, with a link between each two of their params, until neither can go on or so many steps are made.
pub(crate) fn talk(
    alloc: Global,
    version: u8,
    sources: (&[u8], &[u8]),
    steps: u32,
) -> Result<Sum, Trouble>
    requires { (version ≡ 1) ⊎ (version ≡ 2) }
{
    let first = code_of(alloc, sources.0)?;
    let second = code_of(alloc, sources.1)?;
    let count = first.params;
    if second.params != count {
        return Err(Trouble::Params);
    }
    let mut links = Links::new(alloc);
    let (near, far) = wires(alloc, &mut links, count)?;
    let one = seated(0, LynxProcess::start(alloc, version, first, near)?);
    let other = seated(1, LynxProcess::start(alloc, version, second, far)?);
    go_on(alloc, links, one, other, steps)
}

/// The processes go on by turns, a step of one of them at a time. The sum of what they did.
fn go_on(alloc: Global, links: Links, one: Seat, other: Seat, steps: u32) -> Result<Sum, Trouble>
    requires one { one.program.last ≡ one.last }
    requires other { other.program.last ≡ other.last }
{
    let mut links = links;
    let mut one = one;
    let mut other = other;
    let mut sum = Sum { steps: 0, sum: 0 };
    let mut is_one = true;
    let mut stays = false;
    for _ in 0..steps {
        let went = if is_one {
            one.step(alloc, &mut links, &mut sum)?
        } else {
            other.step(alloc, &mut links, &mut sum)?
        };
        if stays && went == Went::Stays {
            return Ok(sum);
        }
        stays = went == Went::Stays;
        if went != Went::On {
            is_one = !is_one;
        }
    }
    Ok(sum)
}

/// So many links between the processes: the ends of the first one, and those of the second.
fn wires(alloc: Global, links: &mut Links, count: u32) -> Result<(Vec<EndId>, Vec<EndId>), Trouble>
    ensures first { IfOk result (λ r. length r.0.items ≡ count) }
    ensures second { IfOk result (λ r. length r.1.items ≡ count) }
{
    let mut near = Vec::new(alloc);
    let mut far = Vec::new(alloc);
    for _ in 0..count {
        let (a, b) = links.make(0, 1)?;
        near.push(a)?;
        far.push(b)?;
    }
    Ok((near, far))
}

impl Seat {
    /// Makes a step, if the process has not ended and its call has an answer.
    fn step(&mut self, alloc: Global, links: &mut Links, sum: &mut Sum) -> Result<Went, Trouble>
        requires { self.old.program.last ≡ self.old.last }
        ensures { OnOk result (self.new.program.last ≡ self.new.last) }
    {
        let mut answer = None;
        if !self.answer(links, &mut answer)? {
            return Ok(Went::Stays);
        }
        match self.program.next(alloc, answer) {
            Ok(next) => {
                sum.add(&next);
                let went = if matches!(next, Next::Pause) {
                    Went::Paused
                } else {
                    Went::On
                };
                self.last = Some(next);
                Ok(went)
            }
            Err(_) => Err(Trouble::NoMemory),
        }
    }

    /// The answer to its call, if it asked one. Tells whether it may make a step.
    fn answer(&self, links: &mut Links, out: &mut Option<Answer>) -> Result<bool, Trouble>
        requires { out.old ≡ None }
        ensures { IfOk result (λ goes. goes ≡ true → MayFollow self.now.last out.new) }
    {
        match &self.last {
            None | Some(Next::Pause) => Ok(true),
            Some(Next::Ended) => Ok(false),
            Some(Next::Ask(call)) => {
                links.call(self.process, call, out)?;
                match &*out {
                    None => Ok(false),
                    Some(answer) if call.fits(answer) => Ok(true),
                    Some(_) => Err(Trouble::Answer),
                }
            }
        }
    }
}

/// A process before its first step.
fn seated(process: u8, program: LynxProcess) -> Seat
    requires { program.last ≡ None }
    ensures { result.program.last ≡ result.last }
{
    Seat {
        process,
        program,
        last: None,
    }
}
