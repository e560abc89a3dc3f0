ghost use Rattle.std.specs.Prelude.{◌≡◌};

use charlotte_calls::EndId;
use charlotte_packets::Room;
use end_table::Table;
use kernel_step::PACKETS_OF_END;

/// Spare room that is enough for any one action of this crate: the packets about an end and eight enclosed ones.
pub fn room(_table: &Table, _end: EndId) -> Room
    ensures { result ≡ record { packets = PACKETS_OF_END; reports = 1; answers = 0; steps = 0 } }
{
    Room {
        packets: PACKETS_OF_END,
        reports: 1,
        answers: 0,
        steps: 0,
    }
}
