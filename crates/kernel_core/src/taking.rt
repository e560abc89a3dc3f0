ghost use Rattle.std.specs.Prelude.{◌≡◌, true, IfOk, OnErr, OnOk};
ghost use Rattle.charlotte_packets.specs.Packets.{what_picture};
ghost use Rattle.end_table.specs.Table.{entries};
ghost use Rattle.kernel_process.specs.Parts.{with_parts, ended};
ghost use Rattle.kernel_core.specs.Consistent.{IsConsistent, Keeps, OnlyReserves};
ghost use Rattle.kernel_core.specs.Started.{IsReadyToTake, takes_addressed};
ghost use Rattle.kernel_step.specs.Kernel.{Kernel, begins, closes};
ghost use Rattle.kernel_step.specs.Progress.{progress};
ghost use Rattle.kernel_step.specs.Rows.{row};
ghost use Rattle.kernel_touched.specs.Found.{IsFound, IsHeard};

use crate::room::{reserve_brought, reserve_processes, room_of_packet};
use crate::state::{State, no_effect};
use charlotte_calls::NoMemory;
use charlotte_packets::{Effect, Packet, What};
use kernel_event::row;
use kernel_process::close;
use kernel_touched::{Found, find, refresh_if_heard};
use std::alloc::Global;

/// The packet that a kernel could not take for want of memory.
#[derive(Debug)]
pub struct NotTaken {
    pub packet: Packet,
}

/// The event in which a kernel takes a packet from a kernel, put into `effect`; all room that it needs was reserved.
#[inline(always)]
fn take(state: &mut State, from: u8, what: &mut What, to: Found, effect: &mut Effect)
    requires consistent { IsConsistent state.old }
    requires ready { IsReadyToTake state.old what.old state.old.event }
    requires found { IsFound (entries state.old.table) what.old to }
    ensures part { (s : Kernel) → ended (with_parts (entries state.new.table) state.new.processes (record s { stamp = effect.new.stamp })) effect.new
        ≡ closes (with_parts (entries state.old.table) state.old.processes s) (row state.old.table.kernel state.old.made from (what_picture what.old) (progress (entries state.old.table) state.old.event.work)) }
    ensures keeps { Keeps state.old state.new }
    ensures made { state.new.made ≡ state.old.made }
{
    row(
        &mut state.table,
        state.made,
        from,
        what,
        &mut state.event.work,
    );
    *effect = close(&mut state.table, &mut state.processes, &mut state.event);
    refresh_if_heard(
        &state.table,
        &mut state.processes,
        to.heard,
        to.owner,
        to.end,
    );
}

/// The event of a packet, of which each named kernel is there or which is dropped.
#[inline(always)]
fn take_packet(
    state: &mut State,
    kernels: u8,
    from: u8,
    packet: &mut Packet,
    to: Found,
    effect: &mut Effect,
)
    requires consistent { IsConsistent state.old }
    requires ready { IsReadyToTake state.old packet.old.what state.old.event }
    requires found { IsFound (entries state.old.table) packet.old.what to }
    ensures part { (s : Kernel) → ended (with_parts (entries state.new.table) state.new.processes (record s { stamp = effect.new.stamp })) effect.new
        ≡ closes (with_parts (entries state.old.table) state.old.processes s)
        (takes_addressed kernels state.old.table.kernel state.old.made from (what_picture packet.old.what) (progress (entries state.old.table) state.old.event.work)) }
    ensures keeps { Keeps state.old state.new }
    ensures made { state.new.made ≡ state.old.made }
{
    if packet.addressed(kernels) {
        take(state, from, &mut packet.what, to, effect)
    } else {
        pass(state, &packet.what, effect)
    }
}

/// The event of a packet that is dropped.
fn pass(state: &mut State, what: &What, effect: &mut Effect)
    requires consistent { IsConsistent state.old }
    requires ready { IsReadyToTake state.old what.now state.old.event }
    ensures part { (s : Kernel) → ended (with_parts (entries state.new.table) state.new.processes (record s { stamp = effect.new.stamp })) effect.new
        ≡ closes (with_parts (entries state.old.table) state.old.processes s) (progress (entries state.old.table) state.old.event.work) }
    ensures keeps { Keeps state.old state.new }
    ensures made { state.new.made ≡ state.old.made }
{
    *effect = close(&mut state.table, &mut state.processes, &mut state.event);
}

/// Reserves all that the event of a packet needs, so that nothing after it can fail.
#[inline(always)]
fn reserve_taking(state: &mut State, what: &What, heard: bool, stamp: u64) -> Result<(), NoMemory>
    requires heard { IsHeard (entries state.old.table) (what_picture what.now) → heard ≡ true }
    ensures ready { OnOk result (IsReadyToTake state.new what.now state.new.event) }
    ensures begins { OnOk result ((s : Kernel) → progress s.table state.new.event.work ≡ begins s stamp) }
    ensures same { OnlyReserves state.old state.new }
{
    let room = room_of_packet(what);
    state.event.begin(stamp, room, 0, 0)?;
    reserve_processes(&mut state.processes, heard, room.reports)?;
    reserve_brought(&mut state.table, what)?;
    Ok(())
}

/// The event in which a kernel takes a packet, with this stamp. Its values are taken out of the packet. For want of memory the
/// packet stays as it is.
#[inline(always)]
pub(crate) fn take_event(
    alloc: Global,
    state: &mut State,
    kernels: u8,
    from: u8,
    stamp: u64,
    packet: &mut Packet,
) -> Result<Effect, NoMemory>
    requires consistent { IsConsistent state.old }
    ensures part { IfOk result (λ effect. (s : Kernel) → s.table ≡ entries state.old.table
        → ended (with_parts (entries state.new.table) state.new.processes (record s { stamp = effect.stamp })) effect
        ≡ closes (with_parts (entries state.old.table) state.old.processes s)
        (takes_addressed kernels state.old.table.kernel state.old.made from (what_picture packet.old.what) (begins s stamp))) }
    ensures back { OnErr result (packet.new ≡ packet.old) }
    ensures same { OnErr result (OnlyReserves state.old state.new) }
    ensures keeps { Keeps state.old state.new }
    ensures made { state.new.made ≡ state.old.made }
{
    let to = find(&state.table, &packet.what);
    match reserve_taking(state, &packet.what, to.heard, stamp) {
        Ok(()) => {
            let mut effect = no_effect(alloc);
            take_packet(state, kernels, from, packet, to, &mut effect);
            Ok(effect)
        }
        Err(NoMemory) => Err(NoMemory),
    }
}
