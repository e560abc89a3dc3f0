//! The programs of processes are made.

ghost use Rattle.std.specs.Prelude.{◌≡◌, ◌⊎◌, ◌∷◌, ◌<◌, All, IfOk, OnOk, length, map};
ghost use Rattle.lynx_code.specs.Checked.{IsCheckedCode};
ghost use Rattle.lynx_load.specs.Roles.{IsAtStart};
ghost use Rattle.lynx_load.specs.Started.{AreFit, AreStarted, StartsOne, StartsOnto};

use crate::role::Role;
use charlotte_calls::{EndId, NoMemory};
use compiler_runnable::checked_code_is_runnable;
use lynx_code::Code;
use lynx_rt::LynxProcess;
use std::alloc::Global;
use std::collections::VecDeque;

/// The program of each process before its first step.
pub(crate) fn start_each(
    alloc: Global,
    version: u8,
    codes: Vec<Code>,
    each: Vec<Vec<EndId>>,
) -> Result<Vec<Role>, NoMemory>
    requires version { (version ≡ 1) ⊎ (version ≡ 2) }
    requires checked { All IsCheckedCode codes.items }
    requires fit { AreFit codes.items (map (λ ends. ends.items) each.items) }
    ensures { IfOk result (λ roles. AreStarted version codes.items (map (λ ends. ends.items) each.items) roles.items) }
{
    let mut codes = VecDeque::from(codes);
    let mut each = VecDeque::from(each);
    let mut roles = Vec::new(alloc);
    start_onto(alloc, version, &mut codes, &mut each, &mut roles)?;
    Ok(roles)
}

/// Puts the programs of these codes and ends behind those that are there.
fn start_onto(
    alloc: Global,
    version: u8,
    codes: &mut VecDeque<Code>,
    each: &mut VecDeque<Vec<EndId>>,
    roles: &mut Vec<Role>,
) -> Result<(), NoMemory>
    requires version { (version ≡ 1) ⊎ (version ≡ 2) }
    requires checked { All IsCheckedCode codes.old.items }
    requires fit { AreFit codes.old.items (map (λ ends. ends.items) each.old.items) }
    ensures { OnOk result (StartsOnto version codes.old.items (map (λ ends. ends.items) each.old.items) roles.old.items roles.new.items) }
{
    if codes.is_empty() {
        return Ok(());
    }
    start_one(alloc, version, codes, each, roles)?;
    start_onto(alloc, version, codes, each, roles)
}

/// Puts the program of the first code and the first ends behind those that are there.
fn start_one(
    alloc: Global,
    version: u8,
    codes: &mut VecDeque<Code>,
    each: &mut VecDeque<Vec<EndId>>,
    roles: &mut Vec<Role>,
) -> Result<(), NoMemory>
    requires version { (version ≡ 1) ⊎ (version ≡ 2) }
    requires some { 0 < length codes.old.items }
    requires checked { All IsCheckedCode codes.old.items }
    requires fit { AreFit codes.old.items (map (λ ends. ends.items) each.old.items) }
    ensures started { OnOk result (StartsOne version codes.old.items (map (λ ends. ends.items) each.old.items) codes.new.items (map (λ ends. ends.items) each.new.items) roles.old.items roles.new.items) }
    ensures fewer { OnOk result (length codes.new.items < length codes.old.items) }
    ensures checked { OnOk result (All IsCheckedCode codes.new.items) }
    ensures fit { OnOk result (AreFit codes.new.items (map (λ ends. ends.items) each.new.items)) }
{
    let code = first_of(codes);
    let ends = first_of(each);
    roles.push(start_role(alloc, version, code, ends)?)?;
    Ok(())
}

/// The first of a list that has one.
fn first_of<T: Drop>(list: &mut VecDeque<T>) -> T
    requires { 0 < length list.old.items }
    ensures { list.old.items ≡ result ∷ list.new.items }
{
    match list.pop_front() {
        Some(first) => first,
        None => unreachable!(),
    }
}

/// The program of a process that runs this code with these ends.
fn start_role(alloc: Global, version: u8, code: Code, ends: Vec<EndId>) -> Result<Role, NoMemory>
    requires version { (version ≡ 1) ⊎ (version ≡ 2) }
    requires checked { IsCheckedCode code }
    requires fit { length ends.items ≡ code.params }
    ensures { IfOk result (IsAtStart version code ends.items) }
{
    checked_code_is_runnable();
    Ok(Role::Plain(LynxProcess::start(alloc, version, code, ends)?))
}
