ghost use Rattle.std.specs.Prelude.{◌≡◌, ◌<◌, ◌≤◌, IsTrue, Some, None, if◌then◌else◌, length};
ghost use Rattle.lynx_plan.specs.Rules.{allows, is_below, is_number, value, known_process, ruled, judged};

use crate::compact::CompactScriptCall;
use crate::draft::Draft;
use crate::form::Form;
use crate::meaning::Meaning;
use crate::rule::Rule;
use crate::stage::Stage;
use charlotte_calls::Pid;
use charlotte_text::Number;

/// What a line of a form says after the lines before it, or the least rule that it fails.
#[tactic(auto, unfolding(crate::specs::Rules::judged, crate::specs::Rules::ruled))]
pub fn judge(draft: &Draft, form: Form) -> Result<Meaning, Rule>
    requires { length draft.now.homes ≤ 64 }
    ensures { result ≡ judged draft.now form }
{
    if allowed(&form, draft.stage()) {
        rule(draft, form)
    } else {
        Err(Rule::LineDoesNotStandThere)
    }
}

fn allowed(form: &Form, stage: Stage) -> bool
    ensures { result ≡ allows form.now stage }
{
    match form {
        Form::Version(_) => matches!(stage, Stage::Start),
        Form::Kernels(_) => matches!(stage, Stage::Start | Stage::Named),
        Form::Process(_, _) => matches!(stage, Stage::Processes),
        Form::Wire(_, _) => matches!(stage, Stage::Processes | Stage::Wires),
        Form::Ask(_, _) | Form::LongAsk(_) | Form::Take(_, _) | Form::Settle => {
            matches!(stage, Stage::Processes | Stage::Wires | Stage::Calls)
        }
    }
}

#[tactic(auto, unfolding(crate::specs::Rules::ruled))]
fn rule(draft: &Draft, form: Form) -> Result<Meaning, Rule>
    requires { length draft.now.homes ≤ 64 }
    ensures { result ≡ ruled draft.now form }
{
    match form {
        Form::Version(version) => rule_version(draft, version),
        Form::Kernels(kernels) => rule_kernels(draft, kernels),
        Form::Process(process, kernel) => rule_process(draft, process, kernel),
        Form::Wire(first, second) => rule_wire(draft, first, second),
        Form::Ask(process, call) => match known(draft, process) {
            Some(pid) => Ok(Meaning::Line(CompactScriptCall::ask(pid, call))),
            None => Err(Rule::ProcessIsNotThere),
        },
        Form::LongAsk(process) => match known(draft, process) {
            Some(_) => Err(Rule::TextIsTooLong),
            None => Err(Rule::ProcessIsNotThere),
        },
        Form::Take(from, to) => rule_take(draft, from, to),
        Form::Settle => Ok(Meaning::Line(CompactScriptCall::settle())),
    }
}

#[tactic(auto, unfolding(crate::specs::Rules::ruled))]
fn rule_version(draft: &Draft, version: Number) -> Result<Meaning, Rule>
    ensures { result ≡ ruled draft.now (Form.Version version) }
{
    if version == Number::Is(1) {
        Ok(Meaning::Version(1))
    } else if version == Number::Is(2) {
        Ok(Meaning::Version(2))
    } else {
        Err(Rule::VersionIsNotKnown)
    }
}

#[tactic(auto, unfolding(crate::specs::Rules::ruled))]
fn rule_kernels(draft: &Draft, kernels: Number) -> Result<Meaning, Rule>
    ensures { result ≡ ruled draft.now (Form.Kernels kernels) }
{
    if below(kernels, 1) || !below(kernels, 9) {
        return Err(Rule::KernelsAreTooManyOrNone);
    }
    Ok(Meaning::Kernels(value(kernels) as u8))
}

#[tactic(auto, unfolding(crate::specs::Rules::ruled))]
fn rule_process(draft: &Draft, process: Number, kernel: Number) -> Result<Meaning, Rule>
    ensures { result ≡ ruled draft.now (Form.Process process kernel) }
{
    if !is(process, draft.processes()) || !below(process, 64) {
        return Err(Rule::ProcessIsNotTheNext);
    }
    if !below(kernel, u64::from(draft.kernels())) {
        return Err(Rule::KernelIsNotThere);
    }
    Ok(Meaning::Process(value(kernel) as u8))
}

#[tactic(auto, unfolding(crate::specs::Rules::ruled))]
fn rule_wire(draft: &Draft, first: Number, second: Number) -> Result<Meaning, Rule>
    requires { length draft.now.homes ≤ 64 }
    ensures { result ≡ ruled draft.now (Form.Wire first second) }
{
    match (known(draft, first), known(draft, second)) {
        (Some(first), Some(second)) => {
            if 4096 <= draft.wires() {
                return Err(Rule::WiresAreTooMany);
            }
            Ok(Meaning::Wire(first, second))
        }
        _ => Err(Rule::ProcessIsNotThere),
    }
}

#[tactic(auto, unfolding(crate::specs::Rules::ruled))]
fn rule_take(draft: &Draft, from: Number, to: Number) -> Result<Meaning, Rule>
    ensures { result ≡ ruled draft.now (Form.Take from to) }
{
    let kernels = u64::from(draft.kernels());
    if !below(from, kernels) || !below(to, kernels) {
        return Err(Rule::KernelIsNotThere);
    }
    let what = CompactScriptCall::take(value(from) as u8, value(to) as u8);
    Ok(Meaning::Line(what))
}

/// The process of a number, where it is declared.
pub fn known(draft: &Draft, process: Number) -> Option<Pid>
    requires { length draft.now.homes ≤ 64 }
    ensures { result ≡ known_process draft.now process }
{
    if below(process, draft.processes()) {
        Some(Pid(value(process) as u16))
    } else {
        None
    }
}

/// Whether a number is below this one.
pub fn below(number: Number, limit: u64) -> bool
    ensures exact { result ≡ is_below number limit }
    ensures small { IsTrue result → value number < limit }
{
    match number {
        Number::Is(number) => number < limit,
        Number::Large => false,
    }
}

fn is(number: Number, other: u64) -> bool
    ensures { result ≡ is_number number other }
{
    match number {
        Number::Is(number) => number == other,
        Number::Large => false,
    }
}

fn value(number: Number) -> u64
    ensures { result ≡ value number }
{
    match number {
        Number::Is(number) => number,
        Number::Large => 0,
    }
}
