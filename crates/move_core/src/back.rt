ghost use Rattle.std.specs.Prelude.{◌≡◌, length, IfSome};
ghost use Rattle.charlotte_calls.specs.declared.names.EndId.{EndId};
ghost use Rattle.charlotte_packets.specs.declared.work.Work.{Work};
ghost use Rattle.end_table.specs.Entries.{ended_entry};
ghost use Rattle.end_table.specs.Table.{entries, HasPlace, IfHere, IsHere, Puts};
ghost use Rattle.kernel_step.specs.Actions.{ends_idle, tell_arrivals};
ghost use Rattle.kernel_step.specs.Progress.{progress, keeps, HasRoom, AddsAtMost, StaysWithin};
ghost use Rattle.kernel_step.specs.Room.{one_packet, packets, room_of_return};
ghost use Rattle.kernel_step.specs.Rows.{awaits, give_back_row, gives_back, end_arrivals};
ghost use Rattle.move_core.specs.Arriving.{AreAway, AreApart};

use crate::ending::tell_gone;
use crate::parcel::settle_and_tell;
use crate::settling::settle;
use charlotte_calls::{EndId, Outcome};
use charlotte_packets::{Cargo, Moving, MovingPicture, Work};
use end_table::{Holder, Sending, Table};
use kernel_step::{ends_in, keep_sending, report, send_report, sender};

/// Of a back all but its NOTICE: at its matched send the report Destroyed, and each end that it brings becomes Here again
/// and tells its opposite so. Anywhere else each is destroyed.
pub fn give_back(table: &mut Table, to: EndId, n: u32, moving: Cargo, out: &mut Work)
    requires away { AreAway table.old moving }
    requires apart { IfSome (awaits n (entries table.old to)) (λ _. AreApart moving) }
    requires room { HasRoom room_of_return out.old }
    ensures part { progress (entries table.new) out.new
        ≡ give_back_row table.old.kernel moving (awaits n (entries table.old to)) (progress (entries table.old) out.old) }
    ensures within { StaysWithin room_of_return table.old table.new out.old out.new }
{
    match sender(table, to, n) {
        Some(_) => return_ends(table, to, moving, out),
        None => end_arrivals(table, to, moving, out),
    }
}

/// A matched send was not taken: it reports Destroyed, and its ends are its owner's again.
#[tactic(auto, unfolding(kernel_step::specs::Rows::gives_back))]
fn return_ends(table: &mut Table, on: EndId, moving: Cargo, out: &mut Work)
    requires here { IsHere (entries table.old on) }
    requires away { AreAway table.old moving }
    requires apart { AreApart moving }
    requires room { HasRoom room_of_return out.old }
    ensures part { IfHere (entries table.old on) (λ v. progress (entries table.new) out.new
        ≡ tell_arrivals table.old.kernel moving (gives_back moving v (progress (entries table.old) out.old))) }
    ensures within { StaysWithin room_of_return table.old table.new out.old out.new }
{
    let living = table.here(on);
    let value = living.value();
    let holder = living.holder();
    keep_sending(table, on, value, Sending::Unreported);
    report(
        out,
        holder,
        send_report(on, Outcome::Destroyed, ends_in(&moving)),
    );
    settle_and_tell(table, holder, moving, out);
}

/// An end that a packet brought is destroyed: its value.
#[tactic(auto, using(kernel_step::proofs::Steps::progress_puts, end_table::proofs::Change::puts_twice))]
fn end_arrived(table: &mut Table, on: EndId, moving: Moving) -> MovingPicture
    requires place { HasPlace table.old moving.end }
    requires away { IsHere (entries table.old moving.end) → ⊥ }
    ensures value { result ≡ moving }
    ensures part { (out : Work) → progress (entries table.new) out
        ≡ keeps moving.end (ended_entry moving) (progress (entries table.old) out) }
    ensures puts { Puts table.old table.new moving.end (ended_entry moving) }
{
    let end = moving.end();
    settle(table, moving, Holder::EnclosedIn(on));
    table.end_here(end).picture()
}

/// END of an end that a packet brought.
#[tactic(auto, unfolding(kernel_step::specs::Actions::ends_idle))]
fn end_arrival(table: &mut Table, on: EndId, moving: Moving, out: &mut Work)
    requires place { HasPlace table.old moving.end }
    requires away { IsHere (entries table.old moving.end) → ⊥ }
    requires room { HasRoom one_packet out.old }
    ensures part { progress (entries table.new) out.new
        ≡ ends_idle table.old.kernel moving (progress (entries table.old) out.old) }
    ensures puts { Puts table.old table.new moving.end (ended_entry moving) }
    ensures room { AddsAtMost one_packet out.old out.new }
{
    let value = end_arrived(table, on, moving);
    tell_gone(out, table.kernel(), value);
}

/// END of each of these ends, in order.
fn end_arrivals(table: &mut Table, on: EndId, mut moving: Cargo, out: &mut Work)
    requires away { AreAway table.old moving }
    requires room { HasRoom (packets (length moving)) out.old }
    ensures part { progress (entries table.new) out.new
        ≡ end_arrivals table.old.kernel moving (progress (entries table.old) out.old) }
    ensures within { StaysWithin (packets (length moving)) table.old table.new out.old out.new }
{
    match moving.next() {
        None => moving.close(),
        Some(first) => {
            end_arrival(table, on, first, out);
            end_arrivals(table, on, moving, out);
        }
    }
}
