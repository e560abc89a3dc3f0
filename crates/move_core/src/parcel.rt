ghost use Rattle.std.specs.Prelude.{◌≡◌, ◌+◌, ◌≤◌, length, map, ◌++◌, IfSome};
ghost use Rattle.charlotte_calls.specs.declared.names.EndId.{EndId};
ghost use Rattle.charlotte_packets.specs.declared.work.Work.{Work};
ghost use Rattle.end_table.specs.Entries.{left_value, left_entry};
ghost use Rattle.end_table.specs.Table.{entries, HasPlace, IsHere, Puts};
ghost use Rattle.kernel_step.specs.Actions.{leaves, settle_each, tell_arrivals};
ghost use Rattle.kernel_step.specs.Progress.{progress, HasRoom, StaysWithin};
ghost use Rattle.kernel_step.specs.Room.{one_packet, room_of_ends};
ghost use Rattle.kernel_step.specs.Rows.{asks, arrive_row, pass_each, sends_back};
ghost use Rattle.move_core.specs.Arriving.{AreAway, AreApart};

use crate::settling::{settle, settle_each, tell_arrivals};
use charlotte_calls::EndId;
use charlotte_packets::{Cargo, Moving, What, Work};
use end_table::{Holder, Table};
use kernel_step::{MOST_ENDS, push_packet, receiver};

/// Of a parcel the ends that came with its message: at the receive that it was sent for each becomes Here, and tells its
/// opposite that it has moved. Anywhere else each leaves again, to kernel `at`, and goes back there.
pub fn arrive(table: &mut Table, to: EndId, n: u32, w: u32, at: u8, moving: Cargo, out: &mut Work)
    requires away { AreAway table.old moving }
    requires apart { IfSome (asks w (entries table.old to)) (λ _. AreApart moving) }
    requires room { HasRoom room_of_ends out.old }
    ensures part { progress (entries table.new) out.new
        ≡ arrive_row table.old.kernel to n at moving (asks w (entries table.old to)) (progress (entries table.old) out.old) }
    ensures within { StaysWithin room_of_ends table.old table.new out.old out.new }
{
    match receiver(table, to, w) {
        Some(living) => {
            let holder = living.holder();
            settle_and_tell(table, holder, moving, out)
        }
        None => send_back(table, to, n, at, moving, out),
    }
}

/// Each of these ends becomes Here for a holder, and tells its opposite so.
pub(crate) fn settle_and_tell(table: &mut Table, holder: Holder, mut moving: Cargo, out: &mut Work)
    requires away { AreAway table.old moving }
    requires apart { AreApart moving }
    requires room { HasRoom room_of_ends out.old }
    ensures part { progress (entries table.new) out.new
        ≡ tell_arrivals table.old.kernel moving (settle_each holder moving (progress (entries table.old) out.old)) }
    ensures within { StaysWithin room_of_ends table.old table.new out.old out.new }
{
    let kernel = table.kernel();
    tell_arrivals(out, kernel, moving.values());
    settle_each(table, holder, &mut moving);
    moving.close();
}

/// LEAVE of an end that a packet brought: its value.
#[tactic(auto, using(kernel_step::proofs::Steps::progress_puts, end_table::proofs::Change::puts_twice))]
fn pass(table: &mut Table, on: EndId, moving: Moving, at: u8) -> Moving
    requires place { HasPlace table.old moving.end }
    requires away { IsHere (entries table.old moving.end) → ⊥ }
    ensures value { result ≡ left_value table.old.kernel moving }
    ensures part { (out : Work) → progress (entries table.new) out ≡ leaves at moving (progress (entries table.old) out) }
    ensures puts { Puts table.old table.new moving.end (left_entry at moving) }
{
    let end = moving.end();
    settle(table, moving, Holder::EnclosedIn(on));
    table.take_out(end, at)
}

/// LEAVE of each of the ends that a packet brought, in order: their values join the cargo `left`. `on` is the end whose
/// send encloses them.
fn pass_each(table: &mut Table, on: EndId, mut moving: Cargo, at: u8, left: &mut Cargo)
    requires away { AreAway table.old moving }
    requires few { length left.old + length moving ≤ MOST_ENDS }
    ensures cargo { left.new ≡ left.old ++ map (left_value table.old.kernel) moving }
    ensures part { (out : Work) → progress (entries table.new) out ≡ pass_each at moving (progress (entries table.old) out) }
    ensures kernel { table.new.kernel ≡ table.old.kernel }
{
    match moving.next() {
        None => moving.close(),
        Some(first) => {
            left.add(pass(table, on, first, at));
            pass_each(table, on, moving, at, left);
        }
    }
}

/// A message that was not taken goes back, and its ends leave with it.
#[tactic(auto, unfolding(kernel_step::specs::Rows::sends_back))]
fn send_back(table: &mut Table, to: EndId, n: u32, at: u8, moving: Cargo, out: &mut Work)
    requires away { AreAway table.old moving }
    requires room { HasRoom one_packet out.old }
    ensures part { progress (entries table.new) out.new
        ≡ sends_back table.old.kernel to n at moving (progress (entries table.old) out.old) }
    ensures within { StaysWithin one_packet table.old table.new out.old out.new }
{
    let sender = to.opposite();
    prove!(moving.len() <= MOST_ENDS as usize);
    let mut left = Cargo::empty();
    pass_each(table, sender, moving, at, &mut left);
    push_packet(
        out,
        at,
        What::Back {
            to: sender,
            n,
            moving: left,
        },
    );
}
