ghost use Rattle.std.specs.Prelude.{◌≡◌, length};
ghost use Rattle.charlotte_calls.specs.Names.{opposite};
ghost use Rattle.charlotte_calls.specs.declared.names.EndId.{EndId};
ghost use Rattle.charlotte_packets.specs.declared.picture.PictureWhat.TheVariants as packet;
ghost use Rattle.charlotte_packets.specs.declared.work.Work.{Work};
ghost use Rattle.end_table.specs.Entries.{ended_entry};
ghost use Rattle.end_table.specs.Table.{entries, IfHere, IsHere, KeepsOthers};
ghost use Rattle.end_table.specs.declared.entry.Entry.{Entry};
ghost use Rattle.end_table.specs.declared.entry.Entry.TheVariants.{Destroyed, Here};
ghost use Rattle.kernel_step.specs.Actions.{enclosed_of, here, tells_gone, ends_idle, ends_idle_here, end_each, ends};
ghost use Rattle.kernel_step.specs.Enclosed.{AreEnclosed, IsReady};
ghost use Rattle.kernel_step.specs.Progress.{progress, sends, keeps, HasRoom, AddsAtMost, StaysWithin};
ghost use Rattle.kernel_step.specs.Room.{one_packet, packets, room_of_end, room_of_forgets};
ghost use Rattle.kernel_step.specs.Rows.{goneseen_row, erases};

use charlotte_calls::{EndId, Ends};
use charlotte_packets::{Mark, MovingPicture, What, Work};
use end_table::{Lent, Living, Sending, Table};
use kernel_step::{enclosed_ends, first_of, forget, no_ends, push_packet};

/// The opposite end is told of the destruction, unless the link is known to be dead.
#[tactic(auto, unfolding(kernel_step::specs::Actions::tells_gone))]
pub(crate) fn tell_gone(out: &mut Work, kernel: u8, value: MovingPicture)
    requires { HasRoom one_packet out.old }
    ensures part { (t : EndId → Entry) → progress t out.new ≡ tells_gone kernel value (progress t out.old) }
    ensures room { AddsAtMost one_packet out.old out.new }
{
    if value.dead {
        return;
    }
    send_gone(out, kernel, value);
}

/// The opposite end is told of the destruction.
fn send_gone(out: &mut Work, kernel: u8, value: MovingPicture)
    requires { HasRoom one_packet out.old }
    ensures part { (t : EndId → Entry) → progress t out.new ≡ sends value.hint.0 (packet.Gone (opposite value.end) kernel) (progress t out.old) }
    ensures room { AddsAtMost one_packet out.old out.new }
{
    let gone = What::Gone {
        to: value.end.opposite(),
        at: kernel,
    };
    push_packet(out, value.hint.0, gone);
}

/// An end that is here is destroyed: its value. A dead end leaves no entry, and its place is given back.
fn end_entry(table: &mut Table, on: EndId) -> MovingPicture
    requires here { IsHere (entries table.old on) }
    ensures value { IfHere (entries table.old on) (λ v. result ≡ v.value) }
    ensures part { IfHere (entries table.old on) (λ v. (out : Work) → progress (entries table.new) out
        ≡ keeps on (ended_entry v.value) (progress (entries table.old) out)) }
    ensures kept { KeepsOthers table.old table.new on }
{
    let mark = table.end_here(on);
    table.release(on);
    mark.picture()
}

/// END of an end that is here and idle.
#[tactic(auto, unfolding(kernel_step::specs::Actions::ends_idle))]
fn end_idle(table: &mut Table, end: EndId, out: &mut Work)
    requires here { IsHere (entries table.old end) }
    requires room { HasRoom one_packet out.old }
    ensures part { progress (entries table.new) out.new
        ≡ ends_idle_here table.old.kernel (here (entries table.old end)) (progress (entries table.old) out.old) }
    ensures room { AddsAtMost one_packet out.old out.new }
    ensures kept { KeepsOthers table.old table.new end }
{
    let _living = table.here(end);
    let value = end_entry(table, end);
    tell_gone(out, table.kernel(), value);
}

/// END of each of these ends, in order.
fn end_each(table: &mut Table, ends: &[EndId], out: &mut Work)
    requires enclosed { AreEnclosed (entries table.old) ends.now }
    requires room { HasRoom (packets (length ends.now)) out.old }
    ensures part { progress (entries table.new) out.new
        ≡ end_each table.old.kernel ends.now (progress (entries table.old) out.old) }
    ensures within { StaysWithin (packets (length ends.now)) table.old table.new out.old out.new }
{
    match first_of(ends) {
        None => {}
        Some((first, others)) => {
            end_idle(table, first, out);
            end_each(table, others, out);
        }
    }
}

/// The ends that the send of an end that is here encloses.
fn enclosed_by(table: &Table, living: &Living) -> Ends
    requires { entries table.now living.now.value.end ≡ Here living.now }
    ensures { result ≡ enclosed_of living.now.outward }
{
    match living.outward() {
        Sending::Waiting { .. } => enclosed_ends(&table.outward(living.value().end)),
        Sending::Idle | Sending::Matched { .. } | Sending::Unreported => no_ends(),
    }
}

/// The action END at an end that is here: it is destroyed, then the ends that its waiting message encloses, and the
/// opposite of each that is not dead is told so.
#[tactic(auto, unfolding(kernel_step::specs::Actions::ends))]
pub fn destroy(table: &mut Table, on: EndId, out: &mut Work)
    requires here { IsHere (entries table.old on) }
    requires ready { IsReady (entries table.old) on }
    requires room { HasRoom room_of_end out.old }
    ensures part { IfHere (entries table.old on) (λ v. progress (entries table.new) out.new
        ≡ ends table.old.kernel v (progress (entries table.old) out.old)) }
    ensures within { StaysWithin room_of_end table.old table.new out.old out.new }
{
    let kernel = table.kernel();
    let enclosed = enclosed_by(table, table.here(on));
    let value = end_entry(table, on);
    end_each(table, enclosed.as_slice(), out);
    tell_gone(out, kernel, value);
}

/// The rule of goneseen: the mark of a destroyed end is erased, and the traces of the end are forgotten.
pub fn gone_seen(table: &mut Table, to: EndId, out: &mut Work)
    requires room { HasRoom room_of_forgets out.old }
    ensures part { progress (entries table.new) out.new
        ≡ goneseen_row table.old.kernel (entries table.old to) (progress (entries table.old) out.old) }
    ensures within { StaysWithin room_of_forgets table.old table.new out.old out.new }
{
    if let Lent::Destroyed(mark) = table.lend(to) {
        erase(table, mark, out);
    }
}

/// The mark of a destroyed end is erased.
#[tactic(auto, unfolding(kernel_step::specs::Rows::erases), using(kernel_step::proofs::Steps::progress_puts))]
fn erase(table: &mut Table, mark: Mark, out: &mut Work)
    requires mark { entries table.old mark.end ≡ Destroyed mark }
    requires room { HasRoom room_of_forgets out.old }
    ensures part { progress (entries table.new) out.new
        ≡ erases table.old.kernel mark (progress (entries table.old) out.old) }
    ensures within { StaysWithin room_of_forgets table.old table.new out.old out.new }
{
    forget(out, table.kernel(), mark.picture());
    table.erase(mark.end());
}
