ghost use Rattle.std.specs.Prelude.{◌≡◌, ◌≢◌, ◌&&◌, true, nat_le, IfOk, option_copied};
ghost use Rattle.std.specs.List.{list_all};
ghost use Rattle.charlotte_text.specs.Reading.{Gives, rest_parts, words};
ghost use Rattle.charlotte_text.specs.Spelling.{blank};
ghost use Rattle.plan_text.specs.Forms.{file_role, host_role, is_name, plan_form_of, role_of, with_role, without_role};

use crate::plan::Name;
use charlotte_calls::NoMemory;
use charlotte_text::{
    Fault, Number, cut, end_of_line, is_word, next_word, read_below, read_number,
};
use lynx_plan::{Form, Lead, led_form, placed_process, read_lead};
use std::alloc::Global;
use std::str::from_utf8;

/// What a process line says beside the process and its kernel.
#[derive(Debug, Drop)]
pub(crate) enum Role {
    /// Nothing, since it is no process line.
    Plain,
    /// The file that the process runs.
    Runs(Name),
    /// The process that moves here, and after how many calls.
    Hosts(Number, u32),
}

/// The form of a line of a plan: what it would be in a script, and the role of a process.
#[derive(Debug, Drop)]
pub(crate) struct PlanForm {
    pub(crate) form: Form,
    pub(crate) role: Role,
}

/// The form of a line of a plan.
#[tactic(auto, unfolding(crate::specs::Forms::plan_form_of))]
pub(crate) fn plan_form(alloc: Global, line: &[u8]) -> Result<Result<PlanForm, Fault>, NoMemory>
    ensures { IfOk result (λ form. form ≡ plan_form_of (words line.now)) }
{
    let (word, rest) = cut(b' ', line);
    match read_lead(word) {
        Lead::Process => process_line(alloc, rest),
        Lead::Version => Ok(plain(Lead::Version, rest)),
        Lead::Kernels => Ok(plain(Lead::Kernels, rest)),
        Lead::Wire => Ok(plain(Lead::Wire, rest)),
        Lead::Take | Lead::Settle | Lead::Other => Ok(Err(Fault::Form)),
    }
}

/// A line that is no process line.
#[tactic(auto, unfolding(crate::specs::Forms::without_role))]
fn plain(lead: Lead, rest: Option<&[u8]>) -> Result<PlanForm, Fault>
    requires { lead ≢ Lead.Other }
    ensures { result ≡ without_role lead (rest_parts blank (option_copied rest.entry)) }
{
    let form = led_form(lead, rest)?;
    let role = Role::Plain;
    Ok(PlanForm { form, role })
}

/// `I on K` and a role.
#[tactic(auto, unfolding(crate::specs::Forms::with_role))]
fn process_line(alloc: Global, rest: Option<&[u8]>) -> Result<Result<PlanForm, Fault>, NoMemory>
    ensures { IfOk result (λ form. form ≡ with_role (rest_parts blank (option_copied rest.entry))) }
{
    let ((process, kernel), rest) = match placed_process(rest) {
        Ok(placed) => placed,
        Err(fault) => return Ok(Err(fault)),
    };
    let form = Form::Process(process, kernel);
    match read_role(alloc, rest)? {
        Ok(role) => Ok(Ok(PlanForm { form, role })),
        Err(fault) => Ok(Err(fault)),
    }
}

/// `runs FILE` or `hosts P after N`.
#[tactic(auto, unfolding(crate::specs::Forms::role_of))]
fn read_role(alloc: Global, rest: Option<&[u8]>) -> Result<Result<Role, Fault>, NoMemory>
    ensures { IfOk result (λ role. role ≡ role_of (rest_parts blank (option_copied rest.entry))) }
{
    let (verb, rest) = match next_word(rest) {
        Ok(word) => word,
        Err(fault) => return Ok(Err(fault)),
    };
    if is_word(verb, b"runs") {
        read_file(alloc, rest)
    } else if is_word(verb, b"hosts") {
        Ok(read_host(rest))
    } else {
        Ok(Err(Fault::Form))
    }
}

fn read_file(alloc: Global, rest: Option<&[u8]>) -> Result<Result<Role, Fault>, NoMemory>
    ensures { IfOk result (λ role. role ≡ file_role (rest_parts blank (option_copied rest.entry))) }
{
    match file_name(rest) {
        Ok(name) => Ok(Ok(Role::Runs(Name::of(alloc, name)?))),
        Err(fault) => Ok(Err(fault)),
    }
}

/// `FILE`.
#[tactic(auto, unfolding(crate::specs::Forms::file_role))]
fn file_name(rest: Option<&[u8]>) -> Result<&str, Fault>
    ensures { Gives (λ x. Role.Runs x.now) result (file_role (rest_parts blank (option_copied rest.entry))) }
{
    let (name, rest) = next_word(rest)?;
    end_of_line(rest)?;
    if is_name(name) {
        Ok(name_text(name))
    } else {
        Err(Fault::Form)
    }
}

/// A name as text.
fn name_text(name: &[u8]) -> &str
    requires { is_name name.now ≡ true }
    ensures { result.now ≡ name.now }
{
    let Ok(text) = from_utf8(name) else {
        unreachable!()
    };
    text
}

fn is_name(word: &[u8]) -> bool
    ensures { result ≡ is_name word.now }
{
    match word {
        [] => false,
        [_, ..] => all_printed(word),
    }
}

fn all_printed(word: &[u8]) -> bool
    ensures { result ≡ list_all (λ x. nat_le 33 x && nat_le x 126) word.now }
{
    word.iter().all(|byte| 33 <= *byte && *byte <= 126)
}

/// `P after N`.
#[tactic(auto, unfolding(crate::specs::Forms::host_role))]
fn read_host(rest: Option<&[u8]>) -> Result<Role, Fault>
    ensures { result ≡ host_role (rest_parts blank (option_copied rest.entry)) }
{
    let (word, rest) = next_word(rest)?;
    let moved = read_number(word)?;
    let (after, rest) = next_word(rest)?;
    if !is_word(after, b"after") {
        return Err(Fault::Form);
    }
    let (word, rest) = next_word(rest)?;
    let calls = read_below(word, 4_294_967_296)?;
    end_of_line(rest)?;
    Ok(Role::Hosts(moved, calls as u32))
}
