//! The script of a seed, beside what a plain program draws.

use crate::journals::holds;
use charlotte_calls::NoMemory;
use charlotte_text::{push_call, push_number, push_process};
use lynx_plan::{CompactScriptCall, Script, ScriptCall, ScriptLine, make_script};
use std::alloc::Global;
use std::test::Fail;

/// The first lines of seed 1, each with its number.
const FIRST: &str = "18 p7 wait
19 take 2 2
20 p3 receive 3.0a
21 take 1 2
22 p3 wait
23 take 0 2
24 p4 wait
25 take 0 1
26 p4 wait
27 take 2 1
28 p0 send 0.0a m
29 take 0 3
30 p2 receive 2.0a
31 take 2 2
";

/// Seeds, and the hashes of the texts of their lines, as another program draws and hashes them (FNV-1a, 64 bits).
const HASHES: [(u32, u64); 3] = [
    (0, 13_679_129_246_958_556_690),
    (1, 13_193_089_258_149_075_258),
    (4_294_967_295, 15_265_480_917_779_850_256),
];

fn push_what(out: &mut Vec<u8>, what: &CompactScriptCall) -> Result<(), NoMemory> {
    match what.script_call() {
        ScriptCall::Ask(process, call) => {
            push_process(out, process)?;
            out.push(b' ')?;
            push_call(out, &call)?;
        }
        ScriptCall::Take { from, to } => {
            out.extend_from_slice(b"take ")?;
            push_number(out, u64::from(from))?;
            out.push(b' ')?;
            push_number(out, u64::from(to))?;
        }
        ScriptCall::Settle => out.extend_from_slice(b"settle")?,
    }
    Ok(())
}

/// The text of lines, each behind its number.
fn text_of(alloc: Global, lines: &[ScriptLine]) -> Result<Vec<u8>, NoMemory> {
    let mut text = Vec::new(alloc);
    for line in lines {
        push_number(&mut text, u64::from(line.line))?;
        text.push(b' ')?;
        push_what(&mut text, &line.what)?;
        text.push(b'\n')?;
    }
    Ok(text)
}

fn hash(text: &[u8]) -> u64 {
    let mut hash: u64 = 14_695_981_039_346_656_037;
    for byte in text {
        hash = (hash ^ u64::from(*byte)).wrapping_mul(1_099_511_628_211);
    }
    hash
}

#[test]
fn a_script_is_made(rt: HostRuntime) -> Result<(), Fail> {
    let script = make_script(rt.alloc(), 1)?;
    let first = script.lines.as_slice().get(..14).ok_or("too few lines")?;
    let text = text_of(rt.alloc(), first)?;
    holds(text.as_slice() == FIRST.as_bytes(), "the first lines")
}

fn is_drawn(alloc: Global, seed: u32, want: u64) -> Result<(), Fail> {
    let Script { setting: _, lines } = make_script(alloc, seed)?;
    let text = text_of(alloc, lines.as_slice())?;
    holds(hash(text.as_slice()) == want, "all lines of a seed")
}

#[test]
fn scripts_are_those_that_are_drawn(rt: HostRuntime) -> Result<(), Fail> {
    for (seed, want) in HASHES {
        is_drawn(rt.alloc(), seed, want)?;
    }
    Ok(())
}
