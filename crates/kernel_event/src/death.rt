ghost use Rattle.std.specs.Prelude.{◌≡◌};
ghost use Rattle.charlotte_calls.specs.Names.{opposite};
ghost use Rattle.charlotte_calls.specs.declared.names.EndId.{EndId};
ghost use Rattle.charlotte_packets.specs.declared.picture.PictureWhat.TheVariants as packet;
ghost use Rattle.end_table.specs.Table.{entries};
ghost use Rattle.end_table.specs.declared.entry.Entry.{Entry};
ghost use Rattle.end_table.specs.declared.entry.Entry.TheVariants.{Here};
ghost use Rattle.kernel_step.specs.Enclosed.{IsReady};
ghost use Rattle.kernel_step.specs.Progress.{progress, sends, HasRoom, AddsAtMost, StaysWithin};
ghost use Rattle.kernel_step.specs.Room.{one_packet, room_of_first_notice};
ghost use Rattle.kernel_step.specs.Rows.{notices_first};

use cancel_core::notice;
use charlotte_calls::EndId;
use charlotte_packets::{What, Work};
use end_table::{HereView, Table};
use kernel_step::push_packet;

/// NOTICE at an end that is here, unless its death was noticed before: the destroyed end is told so at the kernel that sent
/// the packet.
#[tactic(auto, unfolding(kernel_step::specs::Rows::notices_first))]
pub(crate) fn notice_first(table: &mut Table, from: u8, view: HereView, out: &mut Work)
    requires here { entries table.old view.value.end ≡ Here view }
    requires ready { IsReady (entries table.old) view.value.end }
    requires room { HasRoom room_of_first_notice out.old }
    ensures part { progress (entries table.new) out.new
        ≡ notices_first table.old.kernel from view (progress (entries table.old) out.old) }
    ensures within { StaysWithin room_of_first_notice table.old table.new out.old out.new }
{
    if view.value.dead {
        return;
    }
    notice(table, view.value.end, out);
    tell_seen(out, from, view.value.end);
}

/// The destroyed opposite of an end is told, at a kernel, that its destruction is known.
pub(crate) fn tell_seen(out: &mut Work, at: u8, on: EndId)
    requires { HasRoom one_packet out.old }
    ensures part { (t : EndId → Entry) → progress t out.new ≡ sends at (packet.GoneSeen (opposite on)) (progress t out.old) }
    ensures room { AddsAtMost one_packet out.old out.new }
{
    let to = on.opposite();
    push_packet(out, at, What::GoneSeen { to });
}
