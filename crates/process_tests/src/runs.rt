//! A run of one process, as a text that is read line by line.
ghost use Rattle.std.specs.Prelude.{◌≡◌, ◌⊎◌, None, Some, IfOk, length};
ghost use Rattle.charlotte_calls.specs.Program.{MayFollow};
ghost use Rattle.compiler_runnable.specs.Runnable.{IsRunnable};

use crate::spelled::{answer_of, cut, without_blank};
use crate::told::told;
use charlotte_calls::{Answer, EndId, LinkId, Next, Program, Side};
use lynx_code::Code;
use lynx_rt::LynxProcess;
use lynx_source::check_source;
use lynx_threads::compile;
use std::alloc::{AllocError, Global};
use std::str;
use std::test::Fail;

/// The most steps of a run.
const MOST_STEPS: u32 = 1_000;

/// The source of a module, and a run of it. Each line of a run is what the process does, and behind ` > ` the answer that it is given, in the last
/// line none.
pub(crate) type Row = (&'static str, &'static str);

/// Makes the run in both versions.
pub(crate) fn run_in_both(alloc: Global, row: Row) -> Result<(), Fail> {
    run(alloc, 1, row)?;
    run(alloc, 2, row)
}

/// Makes the run, and tells of the first line that differs what the process did in its place.
pub(crate) fn run(alloc: Global, version: u8, row: Row) -> Result<(), Fail>
    requires { (version ≡ 1) ⊎ (version ≡ 2) }
{
    let (source, lines) = row;
    let mut process = process(alloc, version, source)?;
    let mut given = None;
    let mut rest = lines.as_bytes();
    for _ in 0..MOST_STEPS {
        let (line, others) = cut(rest, b'\n');
        let (want, answer) = cut(line, b'>');
        let next = process.next(alloc, given)?;
        is_told(alloc, version, &next, without_blank(want))?;
        if others.is_empty() {
            return Ok(());
        }
        given = given_then(&next, answer)?;
        rest = others;
    }
    Err("too many steps".into())
}

/// What the process did is told so.
fn is_told(alloc: Global, version: u8, next: &Next, want: &[u8]) -> Result<(), Fail> {
    let mut found = told(alloc, version, next)?;
    if found.as_bytes() == want {
        return Ok(());
    }
    found.push_str(" and not ")?;
    found.push_str(str::from_utf8(want).unwrap_or("?"))?;
    Err(found.as_str().into())
}

/// What the process is given after this step: an answer that fits its call, and nothing after a pause.
fn given_then(next: &Next, words: &[u8]) -> Result<Option<Answer>, Fail>
    ensures { IfOk result (λ given. MayFollow (Some next.now) given) }
{
    match next {
        Next::Ask(call) => match answer_of(words) {
            Some(answer) if call.fits(&answer) => Ok(Some(answer)),
            _ => Err(str::from_utf8(words).unwrap_or("?").into()),
        },
        Next::Pause => Ok(None),
        Next::Ended => Err("it has ended".into()),
    }
}

/// A process of a module whose params are the ends 0b, 1b and so on.
fn process(alloc: Global, version: u8, source: &str) -> Result<LynxProcess, Fail>
    requires { (version ≡ 1) ⊎ (version ≡ 2) }
    ensures { IfOk result (λ process. process.last ≡ None) }
{
    let code = code(alloc, source)?;
    let ends = ends(alloc, code.params)?;
    Ok(LynxProcess::start(alloc, version, code, ends)?)
}

fn code(alloc: Global, source: &str) -> Result<Code, Fail>
    ensures { IfOk result IsRunnable }
{
    if source.len() > 1_048_576 {
        return Err("too long".into());
    }
    let Ok(checked) = check_source(alloc, source.as_bytes()) else {
        return Err("no module".into());
    };
    match compile(alloc, &checked) {
        Ok(code) => Ok(code),
        Err(_) => Err("no code".into()),
    }
}

fn ends(alloc: Global, count: u32) -> Result<Vec<EndId>, AllocError>
    ensures { IfOk result (λ ends. length ends.items ≡ count) }
{
    let mut ends = Vec::new(alloc);
    for number in 0..count {
        ends.push(end(number, Side::B))?;
    }
    Ok(ends)
}

/// An end of a link that kernel 0 made.
pub(crate) fn end(count: u32, side: Side) -> EndId {
    EndId {
        link: LinkId { maker: 0, count },
        side,
    }
}
