ghost use Rattle.std.specs.Prelude.{◌≡◌, ◌<◌, ◌≤◌, ℕ, [], IfOk, length, map, slice_index_or};
ghost use Rattle.charlotte_calls.specs.Setting.{IsValid};
ghost use Rattle.node_start.specs.Homes.{programs_on};

use charlotte_calls::{NoMemory, Pid, Setting};
use std::alloc::Global;

/// For each kernel the programs of its processes, in the order of their numbers. Programs stand by the numbers of their processes.
pub(crate) fn by_home<P: Drop>(
    alloc: Global,
    setting: &Setting,
    programs: Vec<P>,
) -> Result<Vec<Vec<(Pid, P)>>, NoMemory>
    requires valid { IsValid setting.now }
    requires count { length programs.items ≡ length setting.now.homes }
    ensures count { IfOk result (λ lists. length lists.items ≡ setting.now.kernels) }
    ensures lists { IfOk result (λ lists. (k : ℕ) → k < setting.now.kernels → slice_index_or (map (λ list. list.items) lists.items) k [] ≡ programs_on setting.now programs.items k) }
{
    let mut lists = empty_lists(alloc, setting.kernels)?;
    let mut number = 0u16;
    for program in programs {
        let home = setting.homes.as_slice()[usize::from(number)];
        lists[usize::from(home)].push((Pid(number), program))?;
        number += 1;
    }
    Ok(lists)
}

/// So many empty lists.
fn empty_lists<X: Drop>(alloc: Global, count: u8) -> Result<Vec<Vec<X>>, NoMemory>
    ensures count { IfOk result (λ lists. length lists.items ≡ count) }
    ensures empty { IfOk result (λ lists. (k : ℕ) → slice_index_or (map (λ list. list.items) lists.items) k [] ≡ []) }
{
    let mut lists = Vec::new(alloc);
    for _ in 0..count {
        lists.push(Vec::new(alloc))?;
    }
    Ok(lists)
}
