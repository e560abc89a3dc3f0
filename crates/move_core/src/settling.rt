ghost use Rattle.std.specs.Prelude.{◌≡◌, [], length, Some, None};
ghost use Rattle.charlotte_calls.specs.declared.names.EndId.{EndId};
ghost use Rattle.charlotte_packets.specs.declared.picture.MovingPicture.{MovingPicture};
ghost use Rattle.charlotte_packets.specs.declared.work.Work.{Work};
ghost use Rattle.end_table.specs.Entries.{settled};
ghost use Rattle.end_table.specs.Table.{entries, HasPlace, IsHere, Puts};
ghost use Rattle.end_table.specs.declared.entry.Entry.{Entry};
ghost use Rattle.end_table.specs.declared.entry.Entry.TheVariants.{Here};
ghost use Rattle.kernel_step.specs.Actions.{settle_each, tells_arrival, tell_arrivals};
ghost use Rattle.kernel_step.specs.Progress.{progress, keeps, HasRoom, AddsAtMost};
ghost use Rattle.kernel_step.specs.Room.{one_packet, packets};
ghost use Rattle.move_core.specs.Arriving.{AreAway, AreApart};

use charlotte_packets::{Cargo, Moving, MovingPicture, Work};
use end_table::{Holder, NotStored, Table};
use kernel_step::{first_of, tell_moved};

/// An end that has a place becomes Here.
#[tactic(auto, using(kernel_step::proofs::Steps::progress_puts))]
pub fn settle(table: &mut Table, moving: Moving, holder: Holder)
    requires place { HasPlace table.old moving.end }
    requires away { IsHere (entries table.old moving.end) → ⊥ }
    ensures part { (out : Work) → progress (entries table.new) out
        ≡ keeps moving.end (Here (settled holder moving)) (progress (entries table.old) out) }
    ensures puts { Puts table.old table.new moving.end (Here (settled holder moving)) }
{
    match table.install(moving, holder) {
        Ok(()) => {}
        Err(NotStored { moving }) => {
            moving.destroy();
            unreachable!()
        }
    }
}

/// Each of these ends becomes Here, in order.
pub(crate) fn settle_each(table: &mut Table, holder: Holder, moving: &mut Cargo)
    requires away { AreAway table.old moving.old }
    requires apart { AreApart moving.old }
    ensures part { (out : Work) → progress (entries table.new) out ≡ settle_each holder moving.old (progress (entries table.old) out) }
    ensures kernel { table.new.kernel ≡ table.old.kernel }
    ensures none { moving.new ≡ [] }
{
    match moving.next() {
        None => {}
        Some(first) => {
            settle(table, first, holder);
            settle_each(table, holder, moving);
        }
    }
}

/// An end that became Here tells its opposite that it has moved, unless it is dead.
fn tell_arrival(out: &mut Work, kernel: u8, value: MovingPicture)
    requires { HasRoom one_packet out.old }
    ensures part { (t : EndId → Entry) → progress t out.new ≡ tells_arrival kernel value (progress t out.old) }
    ensures room { AddsAtMost one_packet out.old out.new }
{
    if !value.dead {
        tell_moved(out, kernel, value);
    }
}

/// So does each of these ends, in order.
pub(crate) fn tell_arrivals(out: &mut Work, kernel: u8, values: &[MovingPicture])
    requires { HasRoom (packets (length values.now)) out.old }
    ensures part { (t : EndId → Entry) → progress t out.new ≡ tell_arrivals kernel values.now (progress t out.old) }
    ensures room { AddsAtMost (packets (length values.now)) out.old out.new }
{
    match first_of(values) {
        None => {}
        Some((first, others)) => {
            tell_arrival(out, kernel, first);
            tell_arrivals(out, kernel, others);
        }
    }
}
