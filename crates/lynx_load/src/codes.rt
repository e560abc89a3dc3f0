//! The modules of a plan are read and compiled.

ghost use Rattle.std.specs.Prelude.{◌≡◌, ◌∷◌, ◌++◌, ◌<◌, [], List, ℕ, All, IfOk, Ok, OnOk, Result, length};
ghost use Rattle.lynx_code.specs.Checked.{IsCheckedCode};
ghost use Rattle.lynx_command.specs.Found.{read};
ghost use Rattle.lynx_command.specs.Limits.{most_bytes};
ghost use Rattle.lynx_load.specs.Loading.{IsModule};
ghost use Rattle.lynx_load.specs.Told.{LoadsOnto};
ghost use Rattle.lynx_outside.specs.Files.{WereRead};
ghost use Rattle.lynx_outside.specs.declared.files.FileAnswer.{FileAnswer as AFileAnswer};

use crate::fault::{LoadFault, told};
use charlotte_calls::NoMemory;
use compiler_source::compile_source;
use lynx_code::Code;
use lynx_command::{Failure, MOST_BYTES, read_file};
use lynx_outside::Files;
use plan_text::Name;
use std::alloc::Global;

/// Reads the modules of these files and puts their codes behind those that are there, up to the first that has none.
pub(crate) fn load_codes<F: Files>(
    alloc: Global,
    names: &[Name],
    files: &mut F,
    codes: &mut Vec<Code>,
) -> Result<(), LoadFault>
    requires { All IsCheckedCode codes.old.items }
    ensures loads { LoadsOnto (F.state files.old) (F.state files.new) names.now result codes.old.items codes.new.items }
    ensures checked { All IsCheckedCode codes.new.items }
{
    let [first, others @ ..] = names else {
        return Ok(());
    };
    let name = first.as_str();
    let code = match load_code(alloc, name, files) {
        Ok(code) => code,
        Err(failure) => return Err(told(alloc, name, failure)),
    };
    match keep(codes, code) {
        Ok(()) => load_codes(alloc, others, files, codes),
        Err(_) => Err(LoadFault::NoMemory),
    }
}

/// Puts a code behind those that are there.
fn keep(codes: &mut Vec<Code>, code: Code) -> Result<(), NoMemory>
    requires all { All IsCheckedCode codes.old.items }
    requires one { IsCheckedCode code }
    ensures kept { OnOk result (codes.new.items ≡ codes.old.items ++ code ∷ []) }
    ensures checked { All IsCheckedCode codes.new.items }
{
    codes.push(code)?;
    Ok(())
}

/// The code of the module of that name, which is read once.
fn load_code<F: Files>(alloc: Global, name: &str, files: &mut F) -> Result<Code, Failure>
    ensures code { (answer : Result (List ℕ) AFileAnswer)
        × WereRead (F.state files.old) (F.state files.new) (read name.now most_bytes answer ∷ [])
        × IsModule answer result }
    ensures checked { IfOk result IsCheckedCode }
{
    match read_file(alloc, name, MOST_BYTES, files) {
        Ok(bytes) => compiled(alloc, bytes.as_slice()),
        Err(failure) => Err(failure),
    }
}

/// The code of the module that the bytes spell.
fn compiled(alloc: Global, bytes: &[u8]) -> Result<Code, Failure>
    requires { length bytes.now < 4294967295 }
    ensures code { IsModule (Ok bytes.now) result }
    ensures checked { IfOk result IsCheckedCode }
{
    let code = compile_source(alloc, bytes)?;
    Ok(code)
}
