//! A plan is loaded.

ghost use Rattle.std.specs.Prelude.{◌≡◌, List, All, IfOk, Ok, Result, length};
ghost use Rattle.lynx_code.specs.Checked.{IsCheckedCode};
ghost use Rattle.lynx_load.specs.Loading.{FitsEnds, Loading, Loads, LoadsHosted, Unloaded};
ghost use Rattle.lynx_load.specs.Started.{IsLoadedAs, IsReady};
ghost use Rattle.lynx_load.specs.Whole.{IsWhole};
ghost use Rattle.lynx_outside.specs.Files.{WereRead};
ghost use Rattle.lynx_outside.specs.Logged.{Read};

use crate::codes::load_codes;
use crate::ends::ends_of_each;
use crate::fault::{LoadFault, told};
use crate::loaded::Loaded;
use crate::params::unfit_line;
use crate::programs::start_each;
use crate::reading::plan_at;
use lynx_code::Code;
use lynx_command::Failure;
use lynx_outside::Files;
use plan_text::Plan;
use std::alloc::Global;

/// Reads a plan, and its modules in the order of their processes, each once, and makes the programs of the processes before their first
/// steps. The first failure ends it: the plan is not read or breaks a rule, a module is not read or has no code, or a process has
/// another number of ends than its module has params (rule 8 of plans). A plan with hosts is refused by that name.
pub fn load_plan<F: Files>(alloc: Global, name: &str, files: &mut F) -> Result<Loaded, LoadFault>
    ensures loads { (reads : List Read) × (found : Result Loading Unloaded)
        × WereRead (F.state files.old) (F.state files.new) reads
        × Loads name.now reads found
        × IsLoadedAs result found }
    ensures ready { IfOk result IsReady }
{
    match plan_at(alloc, name, files) {
        Ok(plan) => load_modules(alloc, name, plan, files),
        Err(failure) => Err(told(alloc, name, failure)),
    }
}

/// The modules of a plan are loaded, unless a process is to move.
fn load_modules<F: Files>(
    alloc: Global,
    name: &str,
    plan: Plan,
    files: &mut F,
) -> Result<Loaded, LoadFault>
    requires { IsWhole plan }
    ensures loads { (reads : List Read) × (found : Result Loading Unloaded)
        × WereRead (F.state files.old) (F.state files.new) reads
        × LoadsHosted name.now plan plan.hosts reads found
        × IsLoadedAs result found }
    ensures ready { IfOk result IsReady }
{
    if !plan.hosts.is_empty() {
        return Err(told(alloc, "hosts", Failure::Unbuilt));
    }
    let mut codes = Vec::new(alloc);
    match load_codes(alloc, plan.files.as_slice(), files, &mut codes) {
        Ok(()) => start_programs(alloc, name, plan, codes),
        Err(fault) => Err(fault),
    }
}

/// The programs start, where each has an end for each param.
fn start_programs(
    alloc: Global,
    name: &str,
    plan: Plan,
    codes: Vec<Code>,
) -> Result<Loaded, LoadFault>
    requires whole { IsWhole plan }
    requires lines { length plan.lines ≡ length plan.setting.homes }
    requires codes { length codes.items ≡ length plan.setting.homes }
    requires checked { All IsCheckedCode codes.items }
    ensures fits { (found : Result Loading Unloaded) × FitsEnds name.now plan (Ok codes.items) found × IsLoadedAs result found }
    ensures ready { IfOk result IsReady }
{
    let Ok(each) = ends_of_each(alloc, &plan.setting) else {
        return Err(LoadFault::NoMemory);
    };
    if let Some(line) = unfit_line(codes.as_slice(), each.as_slice(), plan.lines.as_slice()) {
        return Err(told(alloc, name, Failure::Plan { line, rule: 8 }));
    }
    let Ok(programs) = start_each(alloc, plan.setting.version, codes, each) else {
        return Err(LoadFault::NoMemory);
    };
    Ok(Loaded {
        setting: plan.setting,
        programs,
    })
}
