ghost use Rattle.std.specs.Prelude.{◌≡◌, ◌+◌, ◌<◌, ◌≤◌, ◌++◌, [], ◌∷◌, ◌&&◌, not, length, if◌then◌else◌};
ghost use Rattle.std.specs.List.{list_any};
ghost use Rattle.end_table.specs.Place.{end_eq};
ghost use Rattle.end_table.specs.Table.{entries};
ghost use Rattle.end_table.specs.declared.entry.Holder.{Holder};
ghost use Rattle.kernel_step.specs.Rows.{is_carried, passing, arriving, ends_in, is_here as here_now};
ghost use Rattle.kernel_event.specs.Arrived.{with_here};

use charlotte_calls::EndId;
use charlotte_packets::{Cargo, Moving, MovingPicture};
use end_table::{Lent, Table};
use kernel_step::MOST_ENDS;

/// The values that leave or end here, taken out of what a packet brings. Those that are not carried are spent.
pub(crate) fn passing(table: &Table, made: u32, moving: &mut Cargo) -> Cargo
    ensures { result ≡ passing table.now.kernel made (entries table.now) moving.old }
{
    prove!(moving.len() <= MOST_ENDS as usize);
    let mut passed = Cargo::empty();
    add_passing(table, made, moving, &mut passed);
    passed
}

fn add_passing(table: &Table, made: u32, moving: &mut Cargo, passed: &mut Cargo)
    requires { length passed.old + length moving.old ≤ MOST_ENDS }
    ensures { passed.new ≡ passed.old ++ passing table.now.kernel made (entries table.now) moving.old }
{
    match moving.next() {
        None => {}
        Some(first) => {
            add_if(is_carried(table, made, &first), first, passed);
            add_passing(table, made, moving, passed);
        }
    }
}

/// The values that become Here, one after the other, taken out of what a packet brings. Those that are not carried are spent.
pub(crate) fn arriving(table: &Table, made: u32, moving: &mut Cargo) -> Cargo
    ensures { (h : Holder) → result ≡ arriving table.now.kernel made h (entries table.now) moving.old }
{
    prove!(moving.len() <= MOST_ENDS as usize);
    let mut came = Cargo::empty();
    add_arriving(table, made, moving, &mut came);
    came
}

#[tactic(auto, using(crate::proofs::CarriedValues::arrivings))]
fn add_arriving(table: &Table, made: u32, moving: &mut Cargo, came: &mut Cargo)
    requires { length came.old + length moving.old ≤ MOST_ENDS }
    ensures { (h : Holder) → came.new ≡ came.old ++ arriving table.now.kernel made h (with_here h came.old (entries table.now)) moving.old }
{
    match moving.next() {
        None => {}
        Some(first) => {
            add_if(is_new(table, made, &first, came), first, came);
            add_arriving(table, made, moving, came);
        }
    }
}

/// Whether a value is carried by its packet: its end is not here, and its link is made.
fn is_carried(table: &Table, made: u32, value: &Moving) -> bool
    ensures { result ≡ is_carried table.now.kernel made (entries table.now) value.now }
{
    let end = value.end();
    let unmade = end.link.maker == table.kernel() && made <= end.link.count;
    !is_here(table, end) && !unmade
}

/// Whether a value is carried, and its end is none of those that came.
fn is_new(table: &Table, made: u32, value: &Moving, came: &Cargo) -> bool
    ensures { result ≡ (is_carried table.now.kernel made (entries table.now) value.now && not (list_any (end_eq value.now.end) (ends_in came.now))) }
{
    is_carried(table, made, value) && !has_end(came, value.end())
}

/// Whether an end is here.
pub(crate) fn is_here(table: &Table, end: EndId) -> bool
    ensures { result ≡ here_now (entries table.now end) }
{
    match table.lend(end) {
        Lent::Here(_) => true,
        Lent::Nothing | Lent::Left { .. } | Lent::Destroyed(_) => false,
    }
}

/// Whether the cargo has a value of this end.
fn has_end(cargo: &Cargo, end: EndId) -> bool
    ensures { result ≡ list_any (end_eq end) (ends_in cargo.now) }
{
    is_among(end, cargo.values())
}

/// Whether one of these values is of this end.
#[tactic(auto, unfolding(end_table::specs::Place::end_eq))]
fn is_among(end: EndId, values: &[MovingPicture]) -> bool
    ensures { result ≡ list_any (λ m. end_eq end m.end) values.now }
{
    values.iter().any(|value| end == value.end)
}

/// Adds a value that is carried, and spends another.
fn add_if(carried: bool, value: Moving, cargo: &mut Cargo)
    requires { length cargo.old < MOST_ENDS }
    ensures { cargo.new ≡ (if carried then cargo.old ++ value ∷ [] else cargo.old) }
{
    if carried {
        cargo.add(value);
    } else {
        value.destroy();
    }
}
