ghost use Rattle.std.specs.Prelude.{◌≡◌};
ghost use Rattle.end_table.specs.Table.{entries, IfHere, IsHere};
ghost use Rattle.end_table.specs.declared.entry.Entry.TheVariants.{Destroyed};
ghost use Rattle.kernel_step.specs.Progress.{progress, HasRoom, StaysWithin};
ghost use Rattle.kernel_step.specs.Room.{one_packet, room_of_forgets, room_of_moved};
ghost use Rattle.kernel_step.specs.Rows.{moved_row, moved_here, mark_learns, moved_mark, known_row, known_here, forget_row};

use charlotte_calls::EndId;
use charlotte_packets::{Mark, What, Work};
use end_table::{Lent, Table};
use kernel_step::{Site, keep_inward, learn, push_packet};

/// The rule of moved: the opposite of an end is at kernel `at` now.
pub fn moved(table: &mut Table, to: EndId, at: u8, hops: u32, out: &mut Work)
    requires room { HasRoom room_of_moved out.old }
    ensures part { progress (entries table.new) out.new
        ≡ moved_row table.old.kernel to at hops (entries table.old to) (progress (entries table.old) out.old) }
    ensures within { StaysWithin room_of_moved table.old table.new out.old out.new }
{
    match table.lend(to) {
        Lent::Nothing => {}
        Lent::Here(_) => moved_here(table, to, Site { at, hops }, out),
        Lent::Left { to: there, .. } => push_packet(out, there, What::Moved { to, at, hops }),
        Lent::Destroyed(mark) => moved_mark(table, to, mark, Site { at, hops }, out),
    }
}

/// The opposite of an end that is here has moved: the end learns it and answers.
#[tactic(auto, unfolding(kernel_step::specs::Rows::moved_here))]
fn moved_here(table: &mut Table, on: EndId, site: Site, out: &mut Work)
    requires here { IsHere (entries table.old on) }
    requires room { HasRoom room_of_moved out.old }
    ensures part { IfHere (entries table.old on) (λ v. progress (entries table.new) out.new
        ≡ moved_here table.old.kernel site.at site.hops v (progress (entries table.old) out.old)) }
    ensures within { StaysWithin room_of_moved table.old table.new out.old out.new }
{
    if table.here(on).value().dead {
        return;
    }
    learn(table, on, site, out);
    let known = What::Known {
        to: on.opposite(),
        hops: site.hops,
    };
    push_packet(out, site.at, known);
}

/// The opposite of a destroyed end has moved: it is told of the destruction.
#[tactic(auto, unfolding(kernel_step::specs::Rows::moved_mark))]
fn moved_mark(table: &mut Table, to: EndId, mark: Mark, site: Site, out: &mut Work)
    requires mark { entries table.old to ≡ Destroyed mark }
    requires room { HasRoom one_packet out.old }
    ensures part { progress (entries table.new) out.new
        ≡ moved_mark table.old.kernel to site.at site.hops mark (progress (entries table.old) out.old) }
    ensures within { StaysWithin one_packet table.old table.new out.old out.new }
{
    mark_learns(table, to, mark, site);
    let gone = What::Gone {
        to: to.opposite(),
        at: table.kernel(),
    };
    push_packet(out, site.at, gone);
}

/// LEARN at the mark of a destroyed end.
#[tactic(auto, using(kernel_step::proofs::Steps::progress_puts))]
fn mark_learns(table: &mut Table, to: EndId, mark: Mark, site: Site)
    requires mark { entries table.old to ≡ Destroyed mark }
    ensures part { (out : Work) → progress (entries table.new) out
        ≡ mark_learns to site.at site.hops mark (progress (entries table.old) out) }
    ensures kernel { table.new.kernel ≡ table.old.kernel }
{
    if mark.hint().1 < site.hops {
        table.hint_mark(to, (site.at, site.hops));
    }
}

/// The rule of known: that an end has moved is known, so that its traces are forgotten.
pub fn known(table: &mut Table, to: EndId, hops: u32, out: &mut Work)
    requires room { HasRoom room_of_forgets out.old }
    ensures part { progress (entries table.new) out.new
        ≡ known_row table.old.kernel hops (entries table.old to) (progress (entries table.old) out.old) }
    ensures within { StaysWithin room_of_forgets table.old table.new out.old out.new }
{
    if let Lent::Here(_) = table.lend(to) {
        known_here(table, to, hops, out);
    }
}

/// That an end that is here has moved is known, where it has these hops.
#[tactic(auto, unfolding(kernel_step::specs::Rows::known_here))]
fn known_here(table: &mut Table, on: EndId, hops: u32, out: &mut Work)
    requires here { IsHere (entries table.old on) }
    requires room { HasRoom room_of_forgets out.old }
    ensures part { IfHere (entries table.old on) (λ v. progress (entries table.new) out.new
        ≡ known_here table.old.kernel hops v (progress (entries table.old) out.old)) }
    ensures within { StaysWithin room_of_forgets table.old table.new out.old out.new }
{
    let living = table.here(on);
    let mut value = living.value();
    let inward = living.inward();
    if value.dead || value.hops != hops {
        return;
    }
    kernel_step::forget(out, table.kernel(), value);
    value.trail = 0;
    keep_inward(table, on, value, inward);
}

/// The rule of forget: an entry that tells where an end went is removed, where it has at most these hops.
#[tactic(auto, using(kernel_step::proofs::Steps::progress_puts))]
pub fn forget(table: &mut Table, to: EndId, hops: u32, out: &mut Work)
    ensures part { progress (entries table.new) out.new
        ≡ forget_row to hops (entries table.old to) (progress (entries table.old) out.old) }
    ensures same { out.new ≡ out.old }
    ensures kernel { table.new.kernel ≡ table.old.kernel }
{
    table.retire(to, hops);
}
