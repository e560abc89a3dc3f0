//! The room that an event takes before it changes anything, so that nothing after it can fail for want of memory.
ghost use Rattle.std.specs.Prelude.{◌≡◌, ◌<◌, true, [], ◌∷◌, map, length, MatchOption, OnOk};
ghost use Rattle.charlotte_calls.specs.Names.{opposite};
ghost use Rattle.charlotte_calls.specs.declared.names.EndId.{EndId};
ghost use Rattle.charlotte_packets.specs.declared.picture.MovingPicture.{MovingPicture};
ghost use Rattle.end_table.specs.Table.{entries, HasPlace, KeepsPlaces};
ghost use Rattle.kernel_step.specs.Calls.{made_end};
ghost use Rattle.end_table.specs.declared.entry.Entry.{Entry};
ghost use Rattle.kernel_process.specs.Closing.{HaveSpare, HavePlace};
ghost use Rattle.kernel_event.specs.Room.{room_of_packet, room_of_call};
ghost use Rattle.kernel_process.specs.Active.{started_ends};
ghost use Rattle.kernel_event.specs.Places.{brought, ArePlaced};
ghost use Rattle.kernel_process.specs.Parts.{process_state};
ghost use Rattle.kernel_touched.specs.Touched.{HavePlaceFor, touched_by};

use charlotte_calls::{Call, EndId, LinkId, NoMemory, Side};
use charlotte_packets::{MovingPicture, Room, What};
use end_table::Table;
use kernel_process::Processes;

/// How much the packet's part of an event may add.
pub(crate) fn room_of_packet(what: &What) -> Room
    ensures { result ≡ room_of_packet what.now }
{
    let (packets, reports, answers, steps) = match what {
        What::Want { .. } | What::Unwant { .. } => (3, 0, 0, 1),
        What::Unwanted { .. } => (2, 0, 1, 1),
        What::Parcel { .. } => (11, 1, 1, 1),
        What::Taken { .. } => (2, 1, 0, 1),
        What::Back { .. } => (17, 3, 1, 1),
        What::Gone { .. } => (9, 2, 1, 1),
        What::Moved { .. } => (3, 0, 0, 0),
        What::Known { .. } | What::GoneSeen { .. } => (8, 0, 0, 0),
        What::Forget { .. } => (0, 0, 0, 0),
    };
    Room {
        packets,
        reports,
        answers,
        steps,
    }
}

/// How much the call's part of an event may add, without the packets for the ends of a process that exits.
pub(crate) fn room_of_call(call: &Call) -> Room
    ensures { result ≡ room_of_call call.now }
{
    let (packets, steps) = match call {
        Call::Make | Call::Print { .. } | Call::Exit => (0, 1),
        Call::Destroy { .. } => (9, 1),
        Call::Send { .. } => (1, 2),
        Call::Receive { .. } | Call::Cancel { .. } => (1, 1),
        Call::Wait => (0, 2),
    };
    Room {
        packets,
        reports: 0,
        answers: 0,
        steps,
    }
}

/// Where a call is on an end, each process gets room for one more end with a started activity.
pub(crate) fn reserve_active(processes: &mut Processes, call: &Call) -> Result<(), NoMemory>
    ensures kept { map process_state processes.new ≡ map process_state processes.old }
    ensures active { map started_ends processes.new ≡ map started_ends processes.old }
    ensures place { OnOk result ((t : EndId → Entry) → HavePlaceFor (touched_by t call.now) processes.new) }
    ensures length { length processes.new ≡ length processes.old }
{
    match call {
        Call::Destroy { .. } | Call::Send { .. } | Call::Receive { .. } | Call::Cancel { .. } => {
            processes.reserve_places()
        }
        Call::Make | Call::Wait | Call::Print { .. } | Call::Exit => Ok(()),
    }
}

/// Where a packet is heard, each process gets room for so many reports, and for one more end with a started activity.
pub(crate) fn reserve_processes(
    processes: &mut Processes,
    heard: bool,
    most: u32,
) -> Result<(), NoMemory>
    ensures kept { map process_state processes.new ≡ map process_state processes.old }
    ensures active { map started_ends processes.new ≡ map started_ends processes.old }
    ensures spare { OnOk result (heard ≡ true → 0 < most → HaveSpare most processes.new) }
    ensures place { OnOk result (heard ≡ true → HavePlace processes.new) }
    ensures length { length processes.new ≡ length processes.old }
{
    if !heard {
        return Ok(());
    }
    reserve_reports(processes, most)?;
    processes.reserve_places()
}

/// Each process gets room for so many reports, if there may be any.
fn reserve_reports(processes: &mut Processes, most: u32) -> Result<(), NoMemory>
    ensures kept { map process_state processes.new ≡ map process_state processes.old }
    ensures active { map started_ends processes.new ≡ map started_ends processes.old }
    ensures room { OnOk result (0 < most → HaveSpare most processes.new) }
    ensures length { length processes.new ≡ length processes.old }
{
    if most == 0 {
        return Ok(());
    }
    processes.reserve_reports(most as usize)
}

/// Every end whose value a packet brings gets a place.
pub(crate) fn reserve_brought(table: &mut Table, what: &What) -> Result<(), NoMemory>
    ensures placed { OnOk result (ArePlaced table.new (brought what.now)) }
    ensures entries { entries table.new ≡ entries table.old }
    ensures places { KeepsPlaces table.old table.new }
    ensures kernel { table.new.kernel ≡ table.old.kernel }
{
    match what {
        What::Parcel { moving, .. } | What::Back { moving, .. } => {
            reserve_values(table, moving.values())
        }
        _ => Ok(()),
    }
}

fn reserve_values(table: &mut Table, values: &[MovingPicture]) -> Result<(), NoMemory>
    ensures placed { OnOk result (ArePlaced table.new values.now) }
    ensures entries { entries table.new ≡ entries table.old }
    ensures places { KeepsPlaces table.old table.new }
    ensures kernel { table.new.kernel ≡ table.old.kernel }
{
    match first_of(values) {
        None => Ok(()),
        Some((first, others)) => {
            table.reserve(first.end)?;
            reserve_values(table, others)
        }
    }
}

/// The first of these values and the others.
fn first_of(values: &[MovingPicture]) -> Option<(MovingPicture, &[MovingPicture])>
    ensures { MatchOption result (values.now ≡ []) (λ p. values.now ≡ p.0 ∷ p.1.now) }
{
    match values {
        [] => None,
        [first, others @ ..] => Some((*first, others)),
    }
}

/// Both ends of the next link of this kernel get places.
pub(crate) fn reserve_made(table: &mut Table, made: u32) -> Result<(), NoMemory>
    ensures place { OnOk result (HasPlace table.new (made_end table.old.kernel made)) }
    ensures opposite { OnOk result (HasPlace table.new (opposite (made_end table.old.kernel made))) }
    ensures entries { entries table.new ≡ entries table.old }
    ensures places { KeepsPlaces table.old table.new }
    ensures kernel { table.new.kernel ≡ table.old.kernel }
{
    let end = EndId {
        link: LinkId {
            maker: table.kernel(),
            count: made,
        },
        side: Side::A,
    };
    table.reserve(end)?;
    table.reserve(end.opposite())
}
