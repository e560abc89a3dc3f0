ghost use Rattle.std.specs.Prelude.{◌≡◌};
ghost use Rattle.end_table.specs.Table.{entries, IsHereAnd, IsIdle, KeepsOthers};
ghost use Rattle.end_table.specs.declared.entry.Holder.TheVariants.{EnclosedIn};
ghost use Rattle.kernel_step.specs.Actions.{here, held};
ghost use Rattle.kernel_step.specs.Progress.{progress};

use charlotte_calls::EndId;
use charlotte_packets::Work;
use end_table::{Holder, Table};
use kernel_step::hold;

/// An end that is here and idle is held by the started send of another end, and so is owned by nobody.
pub fn enclose(table: &mut Table, end: EndId, on: EndId, out: &mut Work)
    requires idle { IsHereAnd (entries table.old end) IsIdle }
    ensures part { progress (entries table.new) out.new
        ≡ held (EnclosedIn on) (here (entries table.old end)) (progress (entries table.old) out.old) }
    ensures same { out.new ≡ out.old }
    ensures kept { KeepsOthers table.old table.new end }
{
    hold(table, end, Holder::EnclosedIn(on));
}
