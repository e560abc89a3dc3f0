ghost use Rattle.std.specs.Prelude.{◌≡◌, []};
ghost use Rattle.charlotte_packets.specs.Packets.{what_picture};
ghost use Rattle.charlotte_calls.specs.declared.names.EndId.{EndId};
ghost use Rattle.end_table.specs.Table.{entries};
ghost use Rattle.end_table.specs.declared.entry.Entry.{Entry};
ghost use Rattle.end_table.specs.declared.entry.Entry.TheVariants.{Here};
ghost use Rattle.kernel_step.specs.Enclosed.{IsReady};
ghost use Rattle.kernel_event.specs.Places.{ArePlaced, brought};
ghost use Rattle.kernel_event.specs.Room.{room_of_packet};
ghost use Rattle.kernel_step.specs.Progress.{progress, HasRoom, StaysWithin};
ghost use Rattle.kernel_step.specs.Room.{room_of_gone};
ghost use Rattle.kernel_step.specs.Rows.{row, gone_row, gone_here};

use crate::back::{Returned, back};
use crate::death::{notice_first, tell_seen};
use crate::parcel::{Head, parcel};
use cancel_core::{finished, unwant, unwanted, want};
use charlotte_calls::{EndId, ServiceStep};
use charlotte_packets::{What, Work};
use end_table::{Entry, HereView, Table};
use kernel_step::{Site, is_withdrawing, push_packet, push_step};
use move_core::{forget, gone_seen, known, moved};

/// What a kernel that has made so many links does with a packet from a kernel. The values that the packet brings are taken out of it.
#[inline(always)]
pub fn row(table: &mut Table, made: u32, from: u8, what: &mut What, out: &mut Work)
    requires ready { (e : EndId) → IsReady (entries table.old) e }
    requires placed { ArePlaced table.old (brought what.old) }
    requires first { out.old.packets.items ≡ [] }
    requires room { HasRoom (room_of_packet what.old) out.old }
    ensures part { progress (entries table.new) out.new
        ≡ row table.old.kernel made from (what_picture what.old) (progress (entries table.old) out.old) }
    ensures within { StaysWithin (room_of_packet what.old) table.old table.new out.old out.new }
{
    match what {
        What::Want { to, w, at, hops } => want(table, *to, *w, *at, *hops, out),
        What::Unwant { to, w, at, hops } => unwant(table, *to, *w, *at, *hops, out),
        What::Unwanted { to, w, at, hops } => unwanted(table, *to, *w, *at, *hops, out),
        What::Parcel {
            to,
            n,
            w,
            at,
            hops,
            bytes,
            moving,
        } => {
            let head = Head {
                to: *to,
                n: *n,
                w: *w,
                site: Site {
                    at: *at,
                    hops: *hops,
                },
            };
            parcel(table, made, head, bytes, moving, out)
        }
        What::Taken { to, n, at, hops } => finished(table, *to, *n, *at, *hops, out),
        What::Back { to, n, moving } => {
            let returned = Returned {
                from,
                to: *to,
                n: *n,
            };
            back(table, made, returned, moving, out)
        }
        What::Gone { to, at } => gone(table, *to, *at, out),
        What::Moved { to, at, hops } => moved(table, *to, *at, *hops, out),
        What::Known { to, hops } => known(table, *to, *hops, out),
        What::Forget { to, hops } => forget(table, *to, *hops, out),
        What::GoneSeen { to } => gone_seen(table, *to, out),
    }
}

/// The rule of gone: the opposite end, at kernel `at`, is destroyed.
fn gone(table: &mut Table, to: EndId, at: u8, out: &mut Work)
    requires ready { IsReady (entries table.old) to }
    requires room { HasRoom room_of_gone out.old }
    ensures part { progress (entries table.new) out.new
        ≡ gone_row table.old.kernel to at (entries table.old to) (progress (entries table.old) out.old) }
    ensures within { StaysWithin room_of_gone table.old table.new out.old out.new }
{
    match table.look(to) {
        Entry::Nothing => {}
        Entry::Here(view) => gone_here(table, view, at, out),
        Entry::Left { to: there, .. } => push_packet(out, there, What::Gone { to, at }),
        Entry::Destroyed(_) => {
            tell_seen(out, at, to);
            gone_seen(table, to, out);
        }
    }
}

/// The opposite of an end that is here is destroyed: its death is noticed, unless it was before.
#[tactic(auto, unfolding(kernel_step::specs::Rows::gone_here))]
fn gone_here(table: &mut Table, view: HereView, at: u8, out: &mut Work)
    requires here { entries table.old view.value.end ≡ Here view }
    requires ready { IsReady (entries table.old) view.value.end }
    requires room { HasRoom room_of_gone out.old }
    ensures part { progress (entries table.new) out.new
        ≡ gone_here table.old.kernel at view (progress (entries table.old) out.old) }
    ensures within { StaysWithin room_of_gone table.old table.new out.old out.new }
{
    let on = view.value.end;
    if view.value.dead {
        tell_seen(out, at, on);
        return;
    }
    let dead = is_withdrawing(view.inward);
    push_step(out, ServiceStep::Notice { on, dead });
    notice_first(table, at, view, out);
}
