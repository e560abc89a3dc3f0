ghost use Rattle.std.specs.Prelude.{◌≡◌, ◌≤◌, ◌+◌, ◌||◌, ◌==◌, nat_le, length};
ghost use Rattle.std.specs.List.{list_any};
ghost use Rattle.plan_text.specs.Rules.{is_host, is_of, checked, hosted, plain_rule, wire_rule, plan_judged};

use crate::draft::PlanDraft;
use crate::form::{PlanForm, Role};
use crate::plan::{Hosting, Name};
use charlotte_calls::Pid;
use charlotte_text::Number;
use lynx_plan::{Meaning, Rule, below, judge, known};

/// What a line says of the process that it declares.
#[derive(Debug, Drop)]
pub(crate) enum Place {
    /// Nothing, since it declares none.
    Plain,
    /// The file that the process runs.
    Runs(Name),
    /// The process that moves here, and after how many calls.
    Hosts(Pid, u32),
}

/// What a line of a form says after the lines before it, or the least rule that it fails.
#[tactic(auto, unfolding(crate::specs::Rules::plan_judged))]
pub(crate) fn judge_plan(draft: &PlanDraft, form: PlanForm) -> Result<(Meaning, Place), Rule>
    requires { length draft.now.header.homes ≤ 64 }
    ensures { result ≡ plan_judged draft.now form }
{
    let PlanForm { form, role } = form;
    let meaning = judge(draft.header(), form)?;
    check(draft, meaning, role)
}

/// What a line says that fails no rule of scripts, or the least rule of plans that it fails.
fn check(draft: &PlanDraft, meaning: Meaning, role: Role) -> Result<(Meaning, Place), Rule>
    requires { length draft.now.header.homes ≤ 64 }
    ensures { result ≡ checked draft.now meaning role }
{
    match role {
        Role::Plain => match judge_plain(draft, &meaning) {
            None => Ok((meaning, Place::Plain)),
            Some(rule) => Err(rule),
        },
        Role::Runs(name) => Ok((meaning, Place::Runs(name))),
        Role::Hosts(moved, after) => {
            let process = judge_host(draft, moved)?;
            Ok((meaning, Place::Hosts(process, after)))
        }
    }
}

fn judge_plain(draft: &PlanDraft, meaning: &Meaning) -> Option<Rule>
    ensures { result ≡ plain_rule draft.now meaning.now }
{
    match meaning {
        Meaning::Wire(first, second) => judge_wire(draft, *first, *second),
        _ => None,
    }
}

#[tactic(auto, unfolding(crate::specs::Rules::wire_rule))]
fn judge_wire(draft: &PlanDraft, first: Pid, second: Pid) -> Option<Rule>
    ensures { result ≡ wire_rule draft.now first second }
{
    let hosts = draft.hosts();
    if too_many(draft.header().wires(), hosts.len()) {
        Some(Rule::WiresAreTooMany)
    } else if is_host(hosts, first) || is_host(hosts, second) {
        Some(Rule::ProcessIsNotFree)
    } else {
        None
    }
}

/// Whether there is no room for one wire more.
fn too_many(wires: usize, hosts: usize) -> bool
    ensures { result ≡ nat_le 4096 (wires + hosts) }
{
    4096_usize.saturating_sub(hosts) <= wires
}

/// The process that moves, which is an earlier one, runs a file and has no host yet.
#[tactic(auto, unfolding(crate::specs::Rules::hosted))]
fn judge_host(draft: &PlanDraft, moved: Number) -> Result<Pid, Rule>
    requires { length draft.now.header.homes ≤ 64 }
    ensures { result ≡ hosted draft.now moved }
{
    if !below(moved, draft.header().processes() + 1) {
        return Err(Rule::ProcessIsNotThere);
    }
    match known(draft.header(), moved) {
        Some(process) if !is_taken(draft.hosts(), process) => Ok(process),
        _ => Err(Rule::ProcessIsNotFree),
    }
}

/// Whether the process is a host, or moves to one.
fn is_taken(hosts: &[Hosting], process: Pid) -> bool
    ensures { result ≡ list_any (is_of process) hosts.now }
{
    hosts.iter().any(|hosting| hosting.host.0 == process.0 || hosting.moved.0 == process.0)
}

fn is_host(hosts: &[Hosting], process: Pid) -> bool
    ensures { result ≡ is_host hosts.now process }
{
    hosts.iter().any(|hosting| hosting.host.0 == process.0)
}
