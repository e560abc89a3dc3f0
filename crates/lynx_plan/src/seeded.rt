ghost use Rattle.std.specs.Prelude.{◌≡◌, ◌<◌, ◌≤◌, ◌+◌, ◌++◌, ◌∷◌, [], All, length, IfOk, OnOk, IsSome};
ghost use Rattle.charlotte_calls.specs.Setting.{IsValid};
ghost use Rattle.lynx_plan.specs.ScriptText.{AreRisingLines, FitsWhat};
ghost use Rattle.lynx_plan.specs.Seeded as seeded;

use crate::compact::CompactScriptCall;
use crate::draws::Draws;
use crate::script::{Script, ScriptLine};
use charlotte_calls::{Call, EndId, Ends, Items, LinkId, NoMemory, Pid, Setting, Short, Side, Way};
use compact_calls::CompactCall;
use std::alloc::Global;

/// How many calls are drawn.
const CALLS: u32 = 5000;

/// The number of the first line behind those of the setting.
const FIRST_LINE: u32 = 18;

/// The script of a seed, which measurements are made with: 5,000 calls that are drawn, on eight processes in a ring on four kernels.
pub fn make_script(alloc: Global, seed: u32) -> Result<Script, NoMemory>
    ensures exact { IfOk result (λ script. script ≡ seeded.script_of_seed seed) }
    // It can be performed, as one that was read.
    ensures valid { IfOk result (λ script. IsValid script.setting) }
    ensures calls { IfOk result (λ script. All (λ l. FitsWhat script.setting l.what) script.lines) }
    ensures rising { IfOk result (λ script. AreRisingLines script.lines) }
    ensures count { IfOk result (λ script. length script.lines ≡ 10100) }
{
    seeded_script(alloc, seed)
}

#[tactic(auto, unfolding(crate::specs::Seeded::script_of_seed))]
fn seeded_script(alloc: Global, seed: u32) -> Result<Script, NoMemory>
    ensures { IfOk result (λ script. script ≡ seeded.script_of_seed seed) }
{
    Ok(Script {
        setting: ring(alloc)?,
        lines: draw_lines(alloc, seed)?,
    })
}

/// Eight processes on four kernels, each wired to the next.
fn ring(alloc: Global) -> Result<Setting, NoMemory>
    ensures { IfOk result (λ setting. setting ≡ seeded.ring) }
{
    let homes = vec![in alloc; 0, 1, 2, 3, 0, 1, 2, 3]?;
    let wires = vec![in alloc;
        (Pid(0), Pid(1)),
        (Pid(1), Pid(2)),
        (Pid(2), Pid(3)),
        (Pid(3), Pid(4)),
        (Pid(4), Pid(5)),
        (Pid(5), Pid(6)),
        (Pid(6), Pid(7)),
        (Pid(7), Pid(0)),
    ]?;
    Ok(Setting {
        version: 1,
        kernels: 4,
        homes: Items::of(homes),
        wires: Items::of(wires),
    })
}

fn draw_lines(alloc: Global, seed: u32) -> Result<Items<ScriptLine>, NoMemory>
    ensures { IfOk result (λ lines. lines ≡ seeded.lines_from 18 (seeded.rounds 5000 seed).0) }
{
    let mut draws = Draws::new(seed);
    let mut lines = Vec::new(alloc);
    for drawn in 0..CALLS {
        draw_round(alloc, &mut draws, drawn + 1, &mut lines)?;
    }
    Ok(Items::of(lines))
}

/// Adds the lines of the call of this number.
#[tactic(auto, unfolding(crate::specs::Seeded::round))]
fn draw_round(
    alloc: Global,
    draws: &mut Draws,
    number: u32,
    lines: &mut Vec<ScriptLine>,
) -> Result<(), NoMemory>
    requires { length lines.old.items ≤ 15000 }
    ensures lines { OnOk result (lines.new.items ≡ lines.old.items ++ seeded.lines_from (18 + length lines.old.items) (seeded.round number draws.old).0) }
    ensures draws { OnOk result (draws.new ≡ (seeded.round number draws.old).1) }
{
    let ask = draw_ask(alloc, draws)?;
    let take = draw_take(draws);
    add(lines, ask)?;
    add(lines, take)?;
    if number % 50 == 0 {
        add(lines, CompactScriptCall::settle())?;
    }
    Ok(())
}

/// Adds a line, numbered as in a file without a version.
fn add(lines: &mut Vec<ScriptLine>, what: CompactScriptCall) -> Result<(), NoMemory>
    requires { length lines.old.items ≤ 15002 }
    ensures { OnOk result (lines.new.items ≡ lines.old.items ++ seeded.lines_from (18 + length lines.old.items) (what ∷ [])) }
{
    let line = FIRST_LINE + lines.len() as u32;
    lines.push(ScriptLine { line, what })?;
    Ok(())
}

/// A call of a process on an end that it was given.
#[tactic(auto, unfolding(crate::specs::Seeded::drawn_ask))]
fn draw_ask(alloc: Global, draws: &mut Draws) -> Result<CompactScriptCall, NoMemory>
    ensures { IfOk result (λ what. seeded.drawn_ask draws.old ≡ (what, draws.new)) }
{
    let (wire, side) = draw_end(draws);
    let kind = draws.draw(16);
    let call = draw_call(draws, kind, wired_end(wire, side));
    let call = CompactCall::of(alloc, &call)?;
    Ok(CompactScriptCall::ask(owner(wire, side), call))
}

#[tactic(auto, unfolding(crate::specs::Seeded::drawn_take))]
fn draw_take(draws: &mut Draws) -> CompactScriptCall
    ensures { seeded.drawn_take draws.old ≡ (result, draws.new) }
{
    let from = draws.draw(4);
    let to = draws.draw(4);
    CompactScriptCall::take(from, to)
}

/// A wire, and a side of it.
#[tactic(auto, unfolding(crate::specs::Seeded::drawn_end))]
fn draw_end(draws: &mut Draws) -> (u8, Side)
    ensures exact { seeded.drawn_end draws.old ≡ (result, draws.new) }
    ensures there { result.0 < 8 }
{
    let wire = draws.draw(8);
    let side = if draws.draw(2) == 0 { Side::A } else { Side::B };
    (wire, side)
}

/// The end of a wire, which is the next link of the kernel of its first process.
fn wired_end(wire: u8, side: Side) -> EndId
    ensures { result ≡ seeded.wired_end (wire, side) }
{
    EndId {
        link: LinkId {
            maker: wire % 4,
            count: u32::from(wire / 4),
        },
        side,
    }
}

/// The process that the end is given to.
fn owner(wire: u8, side: Side) -> Pid
    requires { wire < 8 }
    ensures { result ≡ seeded.owner_of wire side }
{
    match side {
        Side::A => Pid(u16::from(wire)),
        Side::B => Pid(u16::from((wire + 1) % 8)),
    }
}

#[tactic(auto, unfolding(crate::specs::Seeded::drawn_call))]
fn draw_call(draws: &mut Draws, kind: u8, on: EndId) -> Call
    ensures { seeded.drawn_call kind on draws.old ≡ (result, draws.new) }
{
    if kind < 5 {
        let enclose = draw_ends(draws);
        return Call::Send {
            on,
            bytes: short(b"m"),
            enclose,
        };
    }
    other_call(kind, on)
}

fn other_call(kind: u8, on: EndId) -> Call
    ensures { result ≡ seeded.other_call kind on }
{
    if kind < 10 {
        Call::Receive { on }
    } else if kind == 10 {
        Call::Cancel {
            on,
            way: Way::Outward,
        }
    } else if kind == 11 {
        Call::Cancel {
            on,
            way: Way::Inward,
        }
    } else {
        Call::Wait
    }
}

/// The ends that a message encloses.
#[tactic(auto, unfolding(crate::specs::Seeded::drawn_ends))]
fn draw_ends(draws: &mut Draws) -> Ends
    ensures { seeded.drawn_ends draws.old ≡ (result, draws.new) }
{
    if draws.draw(4) == 0 {
        let (wire, side) = draw_end(draws);
        return short(&[wired_end(wire, side)]);
    }
    short(&[])
}

/// The list of these items, which fit.
fn short<T: Copy + Default, const CAP: usize>(items: &[T]) -> Short<T, CAP>
    requires { length items.now ≤ CAP }
    ensures { result ≡ items.now }
{
    match Short::from_slice(items) {
        Some(short) => short,
        None => unreachable!(),
    }
}
