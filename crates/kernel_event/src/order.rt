ghost use Rattle.std.specs.Prelude.{◌≡◌, ◌≤◌, length};
ghost use Rattle.charlotte_calls.specs.declared.names.EndId.{EndId};
ghost use Rattle.end_table.specs.declared.entry.Entry.{Entry};
ghost use Rattle.kernel_event.specs.Order.{put_behind};
ghost use Rattle.kernel_step.specs.Progress.{progress, AddsAtMost};
ghost use Rattle.kernel_step.specs.Room.{no_room};

use charlotte_packets::Work;

/// Of the packets before `upto`, which are few, the first ones go behind the others.
pub(crate) fn put_behind(out: &mut Work, first: usize, upto: usize)
    requires first { first ≤ upto }
    requires upto { upto ≤ length out.old.packets.items }
    requires few { upto ≤ 64 }
    ensures part { (t : EndId → Entry) → progress t out.new ≡ put_behind first upto (progress t out.old) }
    ensures room { AddsAtMost no_room out.old out.new }
{
    out.packets.put_behind(first, upto);
}
