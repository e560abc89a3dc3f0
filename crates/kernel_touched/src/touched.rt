ghost use Rattle.std.specs.Prelude.{◌≡◌, ◌<◌, length, map};
ghost use Rattle.end_table.specs.Table.{entries};
ghost use Rattle.end_table.specs.declared.entry.Entry.{Entry};
ghost use Rattle.kernel_process.specs.Active.{Tells};
ghost use Rattle.kernel_process.specs.Parts.{process_state};
ghost use Rattle.kernel_touched.specs.Touched.{touched_of, AreOwnersBelow, HavePlaceFor, IsCalmAfter};

use charlotte_calls::{Call, EndId, Pid};
use end_table::Table;
use kernel_process::{Processes, clear, refresh_owner};

/// Whose activities a call may change.
#[derive(Drop)]
pub enum Touched {
    Nothing,
    /// Those on one end, with the process that owned it before.
    End { on: EndId, before: Option<Pid> },
    /// All of the caller.
    Caller,
}

/// Whose activities a call may change that is not refused: an end that it is on is the caller's.
pub fn touched_of(p: Pid, call: &Call) -> Touched
    ensures { result ≡ touched_of p call.now }
{
    match call {
        Call::Destroy { on }
        | Call::Send { on, .. }
        | Call::Receive { on }
        | Call::Cancel { on, .. } => Touched::End {
            on: *on,
            before: Some(p),
        },
        Call::Make | Call::Wait | Call::Print { .. } => Touched::Nothing,
        Call::Exit => Touched::Caller,
    }
}

/// The sets of active ends tell of what was touched again.
pub fn refresh_touched(table: &Table, processes: &mut Processes, p: Pid, touched: Touched)
    requires process { p.0 < length processes.old }
    requires owners { AreOwnersBelow (length processes.old) (entries table.now) touched }
    requires place { HavePlaceFor touched processes.old }
    ensures told { (t : EndId → Entry) → Tells t processes.old → IsCalmAfter p touched t (entries table.now) → Tells (entries table.now) processes.new }
    ensures kept { map process_state processes.new ≡ map process_state processes.old }
    ensures length { length processes.new ≡ length processes.old }
{
    match touched {
        Touched::Nothing => {}
        Touched::End { on, before } => refresh_owner(table, processes, before, on),
        Touched::Caller => clear(processes, p),
    }
}
