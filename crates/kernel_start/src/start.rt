ghost use Rattle.std.specs.Prelude.{◌≡◌, ◌+◌, ◌<◌, length, slice_index, slice_index_or, slice_set, IfOk, OnOk};
ghost use Rattle.charlotte_calls.specs.Names.{opposite};
ghost use Rattle.charlotte_calls.specs.Setting.{IsValid};
ghost use Rattle.charlotte_calls.specs.declared.names.EndId.{EndId};
ghost use Rattle.charlotte_calls.specs.declared.names.Pid.{Pid};
ghost use Rattle.charlotte_calls.specs.declared.setting.Setting.{Setting};
ghost use Rattle.end_table.specs.Entries.{settled};
ghost use Rattle.end_table.specs.Table.{entries, IfHere, IsHere, IsIdle, KeepsOthers};
ghost use Rattle.end_table.specs.declared.entry.Entry.TheVariants.{Here};
ghost use Rattle.end_table.specs.declared.entry.Holder.TheVariants.{Owner};
ghost use Rattle.kernel_step.specs.Calls.{made_end};
ghost use Rattle.kernel_step.specs.Start.{home, keeps_at, wired};
ghost use Rattle.kernel_sound.specs.Sound.{IsSound};
ghost use Rattle.kernel_start.specs.Wired.{HasWired, with_link};

use charlotte_calls::{LinkId, NoMemory, Pid, Setting};
use charlotte_packets::Moving;
use end_table::{Holder, NotStored, Table};
use std::alloc::Global;

/// What one kernel has of the links that were wired so far.
#[derive(Drop)]
struct Wiring {
    table: Table,
    /// How many links each kernel has made.
    made: [u32; 8],
}

/// What kernel `id` has of the links of a setting: its table, and how many links it has made.
pub fn wire_links(alloc: Global, id: u8, setting: &Setting) -> Result<(Table, u32), NoMemory>
    requires valid { IsValid setting.now }
    requires below { id < setting.now.kernels }
    ensures kernel { IfOk result (λ r. r.0.kernel ≡ id) }
    ensures table { IfOk result (λ r. entries r.0 ≡ (wired setting.now).table id) }
    ensures made { IfOk result (λ r. r.1 ≡ (wired setting.now).made id) }
    ensures sound { IfOk result (λ r. IsSound id r.1 (length setting.now.homes) (entries r.0)) }
    ensures idle { IfOk result (λ r. (e : EndId) → IfHere (entries r.0 e) IsIdle) }
{
    let Wiring { table, made } = wire_each(alloc, id, setting)?;
    Ok((table, made[usize::from(id)]))
}

fn wire_each(alloc: Global, id: u8, setting: &Setting) -> Result<Wiring, NoMemory>
    requires valid { IsValid setting.now }
    requires below { id < setting.now.kernels }
    ensures kernel { IfOk result (λ w. w.table.kernel ≡ id) }
    ensures wired { IfOk result (HasWired setting.now (length setting.now.wires)) }
{
    let mut wiring = Wiring::new(alloc, id);
    for index in 0..setting.wires.len() {
        wiring.add(setting, index)?;
    }
    Ok(wiring)
}

impl Wiring {
    /// Before any link.
    fn new(alloc: Global, id: u8) -> Wiring
        requires { id < 8 }
        ensures kernel { result.table.kernel ≡ id }
        ensures nothing { (s : Setting) → HasWired s 0 result }
    {
        Wiring {
            table: Table::start(alloc, id),
            made: [0; 8],
        }
    }

    /// Wires one more link of a setting.
    fn add(&mut self, setting: &Setting, index: usize) -> Result<(), NoMemory>
        requires valid { IsValid setting.now }
        requires within { index < length setting.now.wires }
        requires so_far { HasWired setting.now index self.old }
        ensures wired { OnOk result (HasWired setting.now (index + 1) self.new) }
        ensures kernel { self.new.table.kernel ≡ self.old.table.kernel }
    {
        let wire = wire_of(setting, index);
        let maker = home(setting, wire.0);
        let other = home(setting, wire.1);
        let link = next_link(&mut self.made, maker);
        place_both(&mut self.table, link, wire, other)
    }
}

/// The processes of a wire.
fn wire_of(setting: &Setting, index: usize) -> (Pid, Pid)
    requires valid { IsValid setting.now }
    requires within { index < length setting.now.wires }
    ensures wire { (other : Pid × Pid) → result ≡ slice_index_or setting.now.wires index other }
    ensures first { result.0.0 < length setting.now.homes }
    ensures second { result.1.0 < length setting.now.homes }
{
    setting.wires.as_slice()[index]
}

/// The kernel of a process.
fn home(setting: &Setting, p: Pid) -> u8
    requires valid { IsValid setting.now }
    requires below { p.0 < length setting.now.homes }
    ensures home { result ≡ home setting.now p }
    ensures below { result < 8 }
{
    setting.homes.as_slice()[usize::from(p.0)]
}

/// The next link of a kernel, which is counted.
fn next_link(made: &mut [u32; 8], maker: u8) -> LinkId
    requires maker { maker < 8 }
    requires fits { slice_index made.old maker < 4096 }
    ensures link { result ≡ record { maker = maker; count = slice_index made.old maker } }
    ensures counted { made.new ≡ slice_set made.old maker (slice_index made.old maker + 1) }
{
    let made_by = &mut made[usize::from(maker)];
    let count = *made_by;
    *made_by += 1;
    LinkId { maker, count }
}

/// Puts both ends of a new link, whose end b is at kernel `other`, where they are at this kernel.
fn place_both(table: &mut Table, link: LinkId, wire: (Pid, Pid), other: u8) -> Result<(), NoMemory>
    requires a { IsHere (entries table.old (made_end link.maker link.count)) → ⊥ }
    requires b { IsHere (entries table.old (opposite (made_end link.maker link.count))) → ⊥ }
    ensures placed { OnOk result (entries table.new ≡ with_link link wire other table.old.kernel (entries table.old)) }
    ensures kernel { table.new.kernel ≡ table.old.kernel }
{
    let (a, b) = Moving::pair(link, link.maker, other);
    let a_placed = place(table, link.maker, a, wire.0);
    let b_placed = place(table, other, b, wire.1);
    a_placed?;
    b_placed
}

/// Puts an end with its owner into the table, where it is at this kernel.
fn place(table: &mut Table, at: u8, value: Moving, owner: Pid) -> Result<(), NoMemory>
    requires { IsHere (entries table.old value.end) → ⊥ }
    ensures placed { OnOk result (entries table.new
        ≡ keeps_at at value.end (Here (settled (Owner owner) value)) (λ _. entries table.old) table.old.kernel) }
    ensures kept { KeepsOthers table.old table.new value.end }
{
    if at != table.kernel() {
        value.destroy();
        return Ok(());
    }
    match table.install(value, Holder::Owner(owner)) {
        Ok(()) => Ok(()),
        Err(NotStored { moving }) => {
            moving.destroy();
            Err(NoMemory)
        }
    }
}
