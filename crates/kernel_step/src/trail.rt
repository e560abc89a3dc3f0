ghost use Rattle.std.specs.Prelude.{◌≡◌, ◌<◌};
ghost use Rattle.charlotte_calls.specs.declared.names.EndId.{EndId};
ghost use Rattle.end_table.specs.declared.entry.Entry.{Entry};
ghost use Rattle.kernel_step.specs.Actions.{forgets, forget_at};
ghost use Rattle.kernel_step.specs.Progress.{progress, HasRoom, AddsAtMost};
ghost use Rattle.kernel_step.specs.Room.{one_packet, room_of_forgets};

use crate::writers::push_packet;
use charlotte_packets::{MovingPicture, What, Work};

/// The numbers of the kernels that there may be.
const KERNELS: [u8; 8] = [0, 1, 2, 3, 4, 5, 6, 7];

/// Each other kernel of the trail is told to forget the end.
#[tactic(auto, unfolding(crate::specs::Actions::forgets))]
pub fn forget(out: &mut Work, kernel: u8, value: MovingPicture)
    requires { HasRoom room_of_forgets out.old }
    ensures part { (t : EndId → Entry) → progress t out.new ≡ forgets kernel value (progress t out.old) }
    ensures room { AddsAtMost room_of_forgets out.old out.new }
{
    for to in &KERNELS {
        forget_at(out, kernel, value, *to);
    }
}

/// A kernel of the trail, other than this one, is told to forget the end.
fn forget_at(out: &mut Work, kernel: u8, value: MovingPicture, to: u8)
    requires below { to < 8 }
    requires room { HasRoom one_packet out.old }
    ensures part { (t : EndId → Entry) → progress t out.new ≡ forget_at kernel value to (progress t out.old) }
    ensures room { AddsAtMost one_packet out.old out.new }
{
    if (value.trail >> to) & 1 == 1 && to != kernel {
        push_packet(
            out,
            to,
            What::Forget {
                to: value.end,
                hops: value.hops,
            },
        );
    }
}
