ghost use Rattle.std.specs.Prelude.{◌≡◌, false};
ghost use Rattle.std.specs.List.{list_any};
ghost use Rattle.kernel_step.specs.Enclosed.{AreEnclosed, IsReady};
ghost use Rattle.end_table.specs.Place.{end_eq};
ghost use Rattle.end_table.specs.Table.{entries, IfHere, IsHere, IsHereAnd};
ghost use Rattle.cancel_core.specs.Sends.{IsWaiting};
ghost use Rattle.end_table.specs.declared.entry.Outward.{Outward};
ghost use Rattle.kernel_step.specs.Actions.{matches, match_waiting};
ghost use Rattle.kernel_step.specs.Progress.{progress, HasRoom, StaysWithin};
ghost use Rattle.kernel_step.specs.Room.{room_of_match};

use crate::enclosed::leave_each;
use charlotte_calls::{Bytes, EndId, Ends, ServiceStep};
use charlotte_packets::{Cargo, MovingPicture, What, Work};
use end_table::{Outward, Sending, Table};
use kernel_step::{keep_inward, keep_sending, push_packet, push_step};

/// A message that is sent: the send n of its end, and the ends that it encloses.
#[derive(Drop)]
pub(crate) struct Message {
    pub(crate) n: u32,
    pub(crate) bytes: Bytes,
    pub(crate) enclosed: Ends,
}

/// MATCH where a send waits. The end has these fields in either case.
pub(crate) fn match_waiting(table: &mut Table, on: EndId, value: MovingPicture, out: &mut Work)
    requires here { IsHere (entries table.old on) }
    requires same_end { value.end ≡ on }
    requires ready { IsReady (entries table.old) on }
    requires room { HasRoom room_of_match out.old }
    ensures part { IfHere (entries table.old on) (λ v. progress (entries table.new) out.new
        ≡ match_waiting table.old.kernel (record v { value = value }) v.outward (progress (entries table.old) out.old)) }
    ensures within { StaysWithin room_of_match table.old table.new out.old out.new }
{
    let living = table.here(on);
    let inward = living.inward();
    match living.outward() {
        Sending::Waiting { .. } => match_waited(table, on, value, out),
        Sending::Idle | Sending::Matched { .. } | Sending::Unreported => {
            keep_inward(table, on, value, inward)
        }
    }
}

/// MATCH of a send that waits: its message is taken out of the table.
#[inline(always)]
fn match_waited(table: &mut Table, on: EndId, value: MovingPicture, out: &mut Work)
    requires here { IsHereAnd (entries table.old on) (λ v. IsWaiting v.outward) }
    requires same_end { value.end ≡ on }
    requires ready { IsReady (entries table.old) on }
    requires room { HasRoom room_of_match out.old }
    ensures part { IfHere (entries table.old on) (λ v. progress (entries table.new) out.new
        ≡ match_waiting table.old.kernel (record v { value = value }) v.outward (progress (entries table.old) out.old)) }
    ensures within { StaysWithin room_of_match table.old table.new out.old out.new }
{
    match table.outward(on) {
        Outward::Waiting { n, bytes, enclosed } => {
            let message = Message { n, bytes, enclosed };
            send_parcel(table, on, value, message, out)
        }
        _ => unreachable!(),
    }
}

/// MATCH of a send of an end with the receive that is wanted of it.
#[tactic(auto, unfolding(kernel_step::specs::Actions::matches))]
#[inline(always)]
pub(crate) fn send_parcel(
    table: &mut Table,
    on: EndId,
    mut value: MovingPicture,
    message: Message,
    out: &mut Work,
)
    requires here { IsHere (entries table.old on) }
    requires same_end { value.end ≡ on }
    requires enclosed { AreEnclosed (entries table.old) message.enclosed }
    requires apart { list_any (end_eq on) message.enclosed ≡ false }
    requires room { HasRoom room_of_match out.old }
    ensures part { IfHere (entries table.old on) (λ v. (o : Outward) → progress (entries table.new) out.new
        ≡ matches table.old.kernel (record v { value = value; outward = o }) message.n message.bytes message.enclosed (progress (entries table.old) out.old)) }
    ensures within { StaysWithin room_of_match table.old table.new out.old out.new }
{
    let Message { n, bytes, enclosed } = message;
    let at = table.kernel();
    let hint_kernel = value.hint.0;
    let w = value.want;
    let hops = value.hops;
    value.served = w;
    value.want = 0;
    keep_sending(table, on, value, Sending::Matched { n });
    let mut moving = Cargo::empty();
    leave_each(table, enclosed.as_slice(), hint_kernel, &mut moving);
    push_step(out, ServiceStep::Match { on, n });
    let parcel = What::Parcel {
        to: on.opposite(),
        n,
        w,
        at,
        hops,
        bytes,
        moving,
    };
    push_packet(out, hint_kernel, parcel);
}
