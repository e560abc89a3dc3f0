//! What the lines of a script do, on its kernels.
ghost use Rattle.std.specs.Prelude.{◌≡◌, ℕ, ◌+◌, ◌<◌, ◌≤◌, ◌^◌, IfOk, IfSome, OnOk, length, find, not, nat_eq};
ghost use Rattle.std.specs.List.{range_with_len};
ghost use Rattle.charlotte_calls.specs.Setting.{IsValid};
ghost use Rattle.charlotte_calls.specs.declared.setting.Setting.{Setting as ASetting};
ghost use Rattle.kernel_nodes.specs.Nodes.{AreNodes};
ghost use Rattle.lynx_plan.specs.ScriptText.{FitsWhat};
ghost use Rattle.lynx_plan.specs.declared.script.ScriptCall.TheVariants.{Ask, Take as TakeLine};
ghost use Rattle.script_run.specs.Recorded.{AreQuietBelow, AreReady, Goes, IsLineDone, first_pair, sent_from, world_at};
ghost use Rattle.script_run.specs.Performing.{most_settled, settled};

use crate::recorded::Recorded;
use charlotte_calls::{NoMemory, Pid, Setting};
use compact_calls::CompactCall;
use kernel_nodes::Request;
use lynx_plan::{ScriptLine, StoredScriptCall};
use transcript_lines::ScriptNote;

/// The packets that one settling takes at most.
const MOST_SETTLED: u32 = 10_000;

/// Does what a line names, and gives its note where it names no event.
pub(crate) fn do_line(
    setting: &Setting,
    run: &mut Recorded,
    line: ScriptLine,
) -> Result<Option<ScriptNote>, NoMemory>
    requires valid { IsValid setting.now }
    requires ready { (n : ℕ) × (n + most_settled < 2 ^ 32) × AreReady setting.now n run.old }
    requires fits { FitsWhat setting.now line.what }
    ensures { IfOk result (λ note. IsLineDone setting.now line.line line.what note run.old run.new) }
{
    let ScriptLine { line, what } = line;
    match what.into_stored() {
        StoredScriptCall::Ask(p, call) => ask(setting, run, line, p, call),
        StoredScriptCall::Take { from, to } => take(setting, run, line, from, to),
        StoredScriptCall::Settle => {
            settle(setting, run)?;
            Ok(None)
        }
    }
}

/// A process that runs makes its call; one that waits, or has exited, makes none.
fn ask(
    setting: &Setting,
    run: &mut Recorded,
    line: u32,
    p: Pid,
    asked: CompactCall,
) -> Result<Option<ScriptNote>, NoMemory>
    requires valid { IsValid setting.now }
    requires ready { (n : ℕ) × (n < 2 ^ 32) × AreReady setting.now n run.old }
    requires fits { FitsWhat setting.now (Ask p asked) }
    ensures { IfOk result (λ note. IsLineDone setting.now line (Ask p asked) note run.old run.new) }
{
    let home = setting.homes.as_slice()[usize::from(p.0)];
    if !run.nodes.running(home, p) {
        return Ok(Some(ScriptNote { line, waits: true }));
    }
    let call = asked.call();
    run.call(home, &Request { p, call })?;
    Ok(None)
}

/// A kernel takes the first packet from another, if there is one.
fn take(
    setting: &Setting,
    run: &mut Recorded,
    line: u32,
    from: u8,
    to: u8,
) -> Result<Option<ScriptNote>, NoMemory>
    requires ready { (n : ℕ) × (n < 2 ^ 32) × AreReady setting.now n run.old }
    requires fits { FitsWhat setting.now (TakeLine from to) }
    ensures { IfOk result (λ note. IsLineDone setting.now line (TakeLine from to) note run.old run.new) }
{
    if run.take_first(from, to)? {
        Ok(None)
    } else {
        Ok(Some(ScriptNote { line, waits: false }))
    }
}

/// Takes packets, the first of the first list that is not empty each time, until all lists are empty. The lists of the nodes before
/// that which sent a packet and that which took it stay empty, so the next search begins behind them.
fn settle(setting: &Setting, run: &mut Recorded) -> Result<(), NoMemory>
    requires valid { IsValid setting.now }
    requires ready { (n : ℕ) × (n + most_settled < 2 ^ 32) × AreReady setting.now n run.old }
    ensures { OnOk result (Goes setting.now run.old run.new (settled setting.now.kernels most_settled (world_at setting.now run.old))) }
{
    let mut quiet = 0;
    for _ in 0..MOST_SETTLED {
        let Some((from, to)) = first_sent(setting.kernels, quiet, run) else {
            return Ok(());
        };
        run.take_first(from, to)?;
        quiet = lesser(from, to);
    }
    Ok(())
}

/// The lesser of two numbers.
fn lesser(one: u8, other: u8) -> u8
    ensures { (result ≤ one) × (result ≤ other) }
{
    if one <= other { one } else { other }
}

/// Where the first packet stands that a settling takes: from which kernel, and to which. No packet of the first kernels, `quiet`
/// many, waits to be taken.
fn first_sent(kernels: u8, quiet: u8, run: &Recorded) -> Option<(u8, u8)>
    requires nodes { (s : ASetting) × AreNodes s run.now.nodes.nodes.items }
    requires before { AreQuietBelow kernels quiet run.now }
    ensures first { (s : ASetting) → result ≡ first_pair kernels (world_at s run.now) }
    ensures within { IfSome result (λ pair. (pair.0 < kernels) × (pair.1 < kernels)) }
    ensures before { IfSome result (λ pair. AreQuietBelow kernels pair.0 run.now) }
{
    for from in quiet..kernels {
        if let Some(to) = first_target(kernels, run, from) {
            return Some((from, to));
        }
    }
    None
}

/// The first kernel to which a packet from this one is under way.
fn first_target(kernels: u8, run: &Recorded, from: u8) -> Option<u8>
    requires { (s : ASetting) × AreNodes s run.now.nodes.nodes.items }
    ensures { result ≡ find (λ to. not (nat_eq (length (sent_from run.now from to)) 0)) (range_with_len 0 kernels) }
{
    (0..kernels).find(|to| run.has_sent(from, *to))
}
