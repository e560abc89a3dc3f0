ghost use Rattle.std.specs.Prelude.{◌≡◌, ◌+◌, ◌≤◌, ◌++◌, length};
ghost use Rattle.kernel_step.specs.Enclosed.{AreEnclosed};
ghost use Rattle.charlotte_calls.specs.declared.names.EndId.{EndId};
ghost use Rattle.charlotte_packets.specs.declared.work.Work.{Work};
ghost use Rattle.end_table.specs.Table.{entries};
ghost use Rattle.kernel_step.specs.Actions.{hold_each, leave_each, values_leaving};
ghost use Rattle.kernel_step.specs.Progress.{progress};
ghost use Rattle.kernel_step.specs.declared.bounds.TheConstants.{MOST_ENDS};

use charlotte_calls::EndId;
use charlotte_packets::Cargo;
use end_table::{Holder, Table};
use kernel_step::{first_of, hold, leave};

/// LEAVE of each of these ends, in order: their values join the cargo.
pub(crate) fn leave_each(table: &mut Table, ends: &[EndId], to: u8, cargo: &mut Cargo)
    requires enclosed { AreEnclosed (entries table.old) ends.now }
    requires few { length cargo.old + length ends.now ≤ MOST_ENDS }
    ensures cargo { cargo.new ≡ cargo.old ++ values_leaving table.old.kernel (entries table.old) ends.now }
    ensures part { (out : Work) → progress (entries table.new) out ≡ leave_each to ends.now (progress (entries table.old) out) }
    ensures kernel { table.new.kernel ≡ table.old.kernel }
{
    match first_of(ends) {
        None => {}
        Some((first, others)) => {
            cargo.add(leave(table, first, to));
            leave_each(table, others, to, cargo);
        }
    }
}

/// Another holder of each of these ends.
pub(crate) fn hold_each(table: &mut Table, holder: Holder, ends: &[EndId])
    requires { AreEnclosed (entries table.old) ends.now }
    ensures part { (out : Work) → progress (entries table.new) out ≡ hold_each holder ends.now (progress (entries table.old) out) }
    ensures kernel { table.new.kernel ≡ table.old.kernel }
{
    match first_of(ends) {
        None => {}
        Some((first, others)) => {
            hold(table, first, holder);
            hold_each(table, holder, others);
        }
    }
}
