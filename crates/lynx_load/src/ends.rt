//! The ends that processes have at the start.

ghost use Rattle.std.specs.Prelude.{◌≡◌, ◌+◌, ◌++◌, ◌<◌, ◌≤◌, IfOk, OnOk, length, map, take};
ghost use Rattle.std.specs.List.{flat_map};
ghost use Rattle.charlotte_calls.specs.Setting.{IsValid};
ghost use Rattle.lynx_load.specs.Ends.{ends_from, ends_of_each, maker, own_of, wired_links};

use charlotte_calls::{EndId, LinkId, NoMemory, Pid, Setting, Side};
use std::alloc::Global;

/// A wire, and end a of its link.
#[derive(Clone, Copy, Debug, PartialEq, Eq)]
pub(crate) struct WiredLink {
    pub(crate) wire: (Pid, Pid),
    pub(crate) end: EndId,
}

/// The ends of each process, in the order of its params.
pub(crate) fn ends_of_each(alloc: Global, setting: &Setting) -> Result<Vec<Vec<EndId>>, NoMemory>
    requires { IsValid setting.now }
    ensures { IfOk result (λ each. map (λ ends. ends.items) each.items ≡ ends_of_each setting.now) }
{
    let links = wired_links(alloc, setting)?;
    let mut each = Vec::new(alloc);
    for process in 0..setting.homes.len() {
        each.push(own_ends(alloc, process as u16, links.as_slice())?)?;
    }
    Ok(each)
}

/// The links of a setting.
fn wired_links(alloc: Global, setting: &Setting) -> Result<Vec<WiredLink>, NoMemory>
    requires { IsValid setting.now }
    ensures { IfOk result (λ links. links.items ≡ wired_links setting.now) }
{
    let mut made = [0u32; 8];
    let wires = setting.wires.as_slice();
    let mut links = Vec::with_capacity(alloc, wires.len())?;
    for wire in wires {
        let maker = setting.homes.as_slice()[usize::from(wire.0.0)];
        let kernel = usize::from(maker);
        let count = made[kernel];
        links.push(wired_link(*wire, maker, count))?;
        made[kernel] = count + 1;
    }
    Ok(links)
}

fn wired_link(wire: (Pid, Pid), maker: u8, count: u32) -> WiredLink
    ensures { result ≡ record { wire = wire; end = record { link = record { maker = maker; count = count }; side = Side.A } } }
{
    let link = LinkId { maker, count };
    let side = Side::A;
    WiredLink {
        wire,
        end: EndId { link, side },
    }
}

/// The ends of a process.
fn own_ends(alloc: Global, process: u16, links: &[WiredLink]) -> Result<Vec<EndId>, NoMemory>
    ensures { IfOk result (λ ends. ends.items ≡ flat_map (own_of process) links.now) }
{
    let mut ends = Vec::new(alloc);
    for link in links {
        push_own(&mut ends, process, *link)?;
    }
    Ok(ends)
}

/// What a process has of a link.
fn push_own(ends: &mut Vec<EndId>, process: u16, link: WiredLink) -> Result<(), NoMemory>
    ensures { OnOk result (ends.new.items ≡ ends.old.items ++ own_of process link) }
{
    if link.wire.0.0 == process {
        ends.push(link.end)?;
    }
    if link.wire.1.0 == process {
        ends.push(link.end.opposite())?;
    }
    Ok(())
}
