ghost use Rattle.std.specs.Prelude.{◌≡◌};

use charlotte_calls::EndId;
use charlotte_packets::Room;
use end_table::Table;
use kernel_step::{MOST_FORGETS, MOST_RESENT};

/// The packets that tell kernels to forget an end, or those of a rule and those that news sends again.
const MOST_PACKETS: u32 = MOST_FORGETS + MOST_RESENT;

/// Spare room that is enough for any one action of this crate: the packets of a rule and those that news sends again,
/// and the packets that tell up to seven other kernels to forget an end.
pub fn room(_table: &Table, _end: EndId) -> Room
    ensures { result ≡ record { packets = MOST_PACKETS; reports = 2; answers = 1; steps = 2 } }
{
    Room {
        packets: MOST_PACKETS,
        reports: 2,
        answers: 1,
        steps: 2,
    }
}
