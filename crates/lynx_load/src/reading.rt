//! The plan is read.

ghost use Rattle.std.specs.Prelude.{◌∷◌, ◌<◌, [], List, ℕ, IfOk, Ok, Result, length};
ghost use Rattle.lynx_command.specs.Found.{read};
ghost use Rattle.lynx_command.specs.Limits.{most_bytes};
ghost use Rattle.lynx_load.specs.Loading.{IsPlan};
ghost use Rattle.lynx_load.specs.Whole.{IsWhole};
ghost use Rattle.lynx_outside.specs.Files.{WereRead};
ghost use Rattle.lynx_outside.specs.declared.files.FileAnswer.{FileAnswer as AFileAnswer};

use lynx_command::{Failure, MOST_BYTES, read_file};
use lynx_outside::Files;
use plan_text::{Plan, read_plan};
use std::alloc::Global;

/// The plan of that name, which is read once.
pub(crate) fn plan_at<F: Files>(alloc: Global, name: &str, files: &mut F) -> Result<Plan, Failure>
    ensures plan { (answer : Result (List ℕ) AFileAnswer)
        × WereRead (F.state files.old) (F.state files.new) (read name.now most_bytes answer ∷ [])
        × IsPlan answer result }
    ensures whole { IfOk result IsWhole }
{
    match read_file(alloc, name, MOST_BYTES, files) {
        Ok(bytes) => plan_in(alloc, bytes.as_slice()),
        Err(failure) => Err(failure),
    }
}

/// The plan that the bytes spell.
fn plan_in(alloc: Global, bytes: &[u8]) -> Result<Plan, Failure>
    requires { length bytes.now < 4294967295 }
    ensures plan { IsPlan (Ok bytes.now) result }
    ensures whole { IfOk result IsWhole }
{
    match read_plan(alloc, bytes) {
        Ok(plan) => Ok(plan),
        Err(fault) => Err(Failure::of_plan(fault)),
    }
}
