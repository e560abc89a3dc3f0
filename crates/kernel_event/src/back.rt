ghost use Rattle.std.specs.Prelude.{◌≡◌, ◌&&◌, not, [], Some, None};
ghost use Rattle.charlotte_calls.specs.declared.names.EndId.{EndId};
ghost use Rattle.end_table.specs.Table.{entries};
ghost use Rattle.end_table.specs.declared.entry.Entry.{Entry};
ghost use Rattle.end_table.specs.declared.entry.Entry.TheVariants.{Here};
ghost use Rattle.kernel_event.specs.Places.{ArePlaced};
ghost use Rattle.kernel_step.specs.Actions.{is_withdrawing};
ghost use Rattle.kernel_step.specs.Progress.{progress, HasRoom, AddsAtMost, StaysWithin};
ghost use Rattle.kernel_step.specs.Room.{one_step, room_of_back, room_of_stray_back};
ghost use Rattle.kernel_step.specs.Rows.{awaits, back_row, means_back};

use crate::carried::{arriving, is_here, passing};
use crate::death::notice_first;
use crate::order::put_behind;
use charlotte_calls::{EndId, ServiceStep};
use charlotte_packets::{Cargo, Work};
use end_table::{HereView, Outward, Table};
use kernel_step::{is_withdrawing, push_step, sender};
use move_core::give_back;

/// The message of a packet back, without its values, and the kernel that sent the packet.
#[derive(Clone, Copy)]
pub(crate) struct Returned {
    pub(crate) from: u8,
    pub(crate) to: EndId,
    pub(crate) n: u32,
}

/// The rule of back: at its matched send the message is reported as destroyed, and its ends are the sender's again. Anywhere
/// else its ends are destroyed. The values are taken out of the packet.
#[inline(never)]
pub(crate) fn back(
    table: &mut Table,
    made: u32,
    returned: Returned,
    moving: &mut Cargo,
    out: &mut Work,
)
    requires placed { ArePlaced table.old moving.old }
    requires first { out.old.packets.items ≡ [] }
    requires room { HasRoom room_of_back out.old }
    ensures part { progress (entries table.new) out.new
        ≡ back_row table.old.kernel made returned.from returned.to returned.n moving.old (awaits returned.n (entries table.old returned.to)) (progress (entries table.old) out.old) }
    ensures within { StaysWithin room_of_back table.old table.new out.old out.new }
{
    match sender(table, returned.to, returned.n) {
        Some(_) => {
            let view = table.view(returned.to);
            take_back(table, made, returned, view, moving, out)
        }
        None => end_brought(table, made, returned, moving, out),
    }
}

/// The ends of a message that comes back where its send is not matched are destroyed.
fn end_brought(table: &mut Table, made: u32, returned: Returned, moving: &mut Cargo, out: &mut Work)
    requires unmatched { awaits returned.n (entries table.old returned.to) ≡ None }
    requires placed { ArePlaced table.old moving.old }
    requires room { HasRoom room_of_stray_back out.old }
    ensures part { progress (entries table.new) out.new
        ≡ back_row table.old.kernel made returned.from returned.to returned.n moving.old None (progress (entries table.old) out.old) }
    ensures within { StaysWithin room_of_stray_back table.old table.new out.old out.new }
{
    let Returned { to, n, .. } = returned;
    let here = is_here(table, to);
    let passed = passing(table, made, moving);
    mean_back(out, to, n, here, &passed);
    give_back(table, to, n, passed, out);
}

/// What it means that a message comes back where its send is not matched: nothing where the end is here and no value came.
fn mean_back(out: &mut Work, to: EndId, n: u32, here: bool, passed: &Cargo)
    requires { HasRoom one_step out.old }
    ensures part { (t : EndId → Entry) → progress t out.new ≡ means_back to n here passed.now (progress t out.old) }
    ensures room { AddsAtMost one_step out.old out.new }
{
    if here && passed.len() == 0 {
        return;
    }
    push_step(
        out,
        ServiceStep::Back {
            on: to,
            n,
            dead: false,
        },
    );
}

/// Whether the death that is noticed answers a Cancel.
fn answers_cancel(view: &HereView) -> bool
    ensures { result ≡ (not view.now.value.dead && is_withdrawing view.now.inward) }
{
    !view.value.dead && is_withdrawing(view.inward)
}

/// The matched send of an end that is here comes back: its death is noticed too, unless it was before.
fn take_back(
    table: &mut Table,
    made: u32,
    returned: Returned,
    mut view: HereView,
    moving: &mut Cargo,
    out: &mut Work,
)
    requires matched { awaits returned.n (entries table.old returned.to) ≡ Some view }
    requires here { entries table.old view.value.end ≡ Here view }
    requires placed { ArePlaced table.old moving.old }
    requires first { out.old.packets.items ≡ [] }
    requires room { HasRoom room_of_back out.old }
    ensures part { progress (entries table.new) out.new
        ≡ back_row table.old.kernel made returned.from returned.to returned.n moving.old (Some view) (progress (entries table.old) out.old) }
    ensures within { StaysWithin room_of_back table.old table.new out.old out.new }
{
    let Returned { from, to, n } = returned;
    let dead = answers_cancel(&view);
    push_step(out, ServiceStep::Back { on: to, n, dead });
    let came = arriving(table, made, moving);
    give_back(table, to, n, came, out);
    let moves = out.packets.len();
    view.outward = Outward::Unreported;
    notice_first(table, from, view, out);
    let sent = out.packets.len();
    put_behind(out, moves, sent);
}
