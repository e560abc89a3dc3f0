//! A script, from its text to its transcript. The others are performed by the program (.ci/rows).

use crate::journals::holds;
use charlotte_calls::{Pid, Setting};
use lynx_plan::{CompactScriptCall, PlanFault, Script, ScriptLine, read_script};
use script_run::{Performance, perform};
use std::alloc::Global;
use std::test::Fail;
use written_journal::TranscriptLines;

const SCRIPT: &str = "# one message
kernels 2
process 0 on 1
process 1 on 0
wire 1 0

p1 cancel 0.0a out
p0 receive 0.0b
p1 send 0.0a hello
take 0 1
settle
p0 wait
";

/// Its transcript: one message from process 1 to process 0, which are on two kernels.
pub(crate) const TRANSCRIPT: &str = "transcript 1
kernels 2
process 0 on 1
process 1 on 0
wire 1 0
1 k0 p1 cancel 0.0a out
. refuse p1 NoActivity
1 k1 p0 receive 0.0b
. receive 0.0b
2 k0 p1 send 0.0a hello
. send 0.0a 1
3 k0 from 1 want 0.0a 1 1 0
. match 0.0a 1
4 k1 from 0 parcel 0.0b 1 1 0 0 hello
. take 0.0a 1 p0
5 k0 from 1 taken 0.0a 1 1 0
. complete 0.0a 1
5 k1 p0 wait
. wait p0
. report p0 0.0b in done hello
note 10 nothing
quiet
";

/// What is said before the calls.
fn has_setting(setting: &Setting) -> bool {
    setting.version == 1
        && setting.kernels == 2
        && setting.homes.as_slice() == [1, 0].as_slice()
        && setting.wires.as_slice() == [(Pid(1), Pid(0))].as_slice()
}

/// The number of a line, and what it calls.
fn told_line(alloc: Global, line: &ScriptLine) -> Result<String, Fail> {
    let compact = CompactScriptCall::of(alloc, &line.what.script_call())?;
    let call = compact.script_call();
    Ok(format!(in alloc; "{}: {call:?}", line.line)?)
}

/// Some lines of the script, as they are printed for debugging.
const LINES: [(usize, &str); 4] = [
    (
        0,
        "7: Ask(Pid(1), Cancel { on: EndId { link: LinkId { maker: 0, count: 0 }, side: A }, way: Outward })",
    ),
    (
        1,
        "8: Ask(Pid(0), Receive { on: EndId { link: LinkId { maker: 0, count: 0 }, side: B } })",
    ),
    (3, "10: Take { from: 0, to: 1 }"),
    (4, "11: Settle"),
];

fn is_line(alloc: Global, lines: &[ScriptLine], (number, want): (usize, &str)) -> Result<(), Fail> {
    let line = lines.get(number).ok_or("no such line")?;
    let text = told_line(alloc, line)?;
    holds(text.as_str() == want, want)
}

#[test]
fn a_script_is_read(rt: HostRuntime) -> Result<(), Fail> {
    let script = read_script(rt.alloc(), SCRIPT.as_bytes())?;
    holds(has_setting(&script.setting), "the setting")?;
    holds(script.lines.len() == 6, "how many lines there are")?;
    for row in LINES {
        is_line(rt.alloc(), script.lines.as_slice(), row)?;
    }
    Ok(())
}

#[test]
fn a_script_is_refused(rt: HostRuntime) -> Result<(), Fail> {
    let refused = read_script(rt.alloc(), b"kernels 2\n\ntake 0 2").err();
    holds(
        refused == Some(PlanFault::BadPlan { line: 3, rule: 4 }),
        "the line and the rule of a script that is refused",
    )
}

/// The text of all lines.
fn text_of(alloc: Global, mut rest: TranscriptLines) -> Result<Vec<u8>, Fail> {
    let mut next = Vec::new(alloc);
    let mut text = Vec::new(alloc);
    for _ in 0..100 {
        if !rest.next_line(&mut next)? {
            return Ok(text);
        }
        text.extend_from_slice(next.as_slice())?;
    }
    Err("too many lines".into())
}

/// The lines that the script gives are those of the transcript.
#[test]
fn a_script_is_performed(rt: HostRuntime) -> Result<(), Fail> {
    let alloc = rt.alloc();
    let bytes = SCRIPT.as_bytes();
    assert!(rt; bytes.len() < 100_000);
    let Script { setting, lines } = read_script(alloc, bytes)?;
    let Performance {
        merged,
        notes,
        last,
    } = perform(alloc, &setting, lines)?;
    let text = text_of(alloc, TranscriptLines::of(setting, merged, notes, last))?;
    holds(text.as_slice() == TRANSCRIPT.as_bytes(), "the transcript")
}
