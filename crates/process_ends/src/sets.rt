//! Sets of numbers of ends.

ghost use Rattle.std.specs.Prelude.{◌≡◌, ◌<◌, ◌+◌, ℕ, true, false, [], IfSome, IfNone, OnOk};
ghost use Rattle.std.specs.BTreeSet.{btree_set_len};
ghost use Rattle.process_ends.specs.Noted.{is_among};
ghost use Rattle.process_ends.specs.Sets.{Grows, GrowsBut};

use charlotte_calls::NoMemory;
use std::collections::BTreeSet;

/// The number is in the set from now on. After want of memory the set is as before.
pub(crate) fn add(set: &mut BTreeSet<u32>, number: u32) -> Result<(), NoMemory>
    ensures grows { Grows set.old set.new }
    ensures added { OnOk result (is_among number set.new ≡ true) }
{
    set.insert(number)?;
    Ok(())
}

/// The number is in the set from now on, if it is to join it.
pub(crate) fn add_if(set: &mut BTreeSet<u32>, number: u32, joins: bool) -> Result<(), NoMemory>
    ensures grows { Grows set.old set.new }
    ensures added { OnOk result (joins ≡ true → is_among number set.new ≡ true) }
{
    if !joins {
        return Ok(());
    }
    add(set, number)
}

/// The number is not in the set any more.
pub(crate) fn discard(set: &mut BTreeSet<u32>, number: u32)
    ensures others { GrowsBut number set.old set.new }
    ensures fewer { is_among number set.old ≡ true → btree_set_len set.new < btree_set_len set.old }
{
    set.remove(&number);
}

/// The number is not in the set any more, unless an entry is bound to its end.
pub(crate) fn discard_unless(set: &mut BTreeSet<u32>, number: u32, is_bound: bool)
    requires { is_bound ≡ true → is_among number set.old ≡ true }
    ensures others { GrowsBut number set.old set.new }
    ensures bound { is_among number set.new ≡ false → is_bound ≡ false }
{
    if is_bound {
        return;
    }
    discard(set, number);
}

/// All numbers of the other set are in this one from now on.
pub(crate) fn join(set: &mut BTreeSet<u32>, more: &BTreeSet<u32>) -> Result<(), NoMemory>
    ensures grows { Grows set.old set.new }
    ensures joined { OnOk result (Grows more.now set.new) }
{
    for number in more {
        add(set, *number)?;
    }
    Ok(())
}

/// The least number of a set.
pub(crate) fn least(set: &BTreeSet<u32>) -> Option<u32>
    ensures member { IfSome result (λ n. is_among n set.now ≡ true) }
    ensures below { IfSome result (λ n. (m : ℕ) → m < n → is_among m set.now ≡ false) }
    ensures none { IfNone result ((m : ℕ) → is_among m set.now ≡ false) }
{
    match set.first() {
        Some(number) => Some(*number),
        None => None,
    }
}
