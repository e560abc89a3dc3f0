//! What a table is asked before a call that wants it so.
ghost use Rattle.std.specs.Prelude.{◌≡◌, [], true};
ghost use Rattle.end_table.specs.Table.{entries, IsHere, IsHereAnd, IsIdle};
ghost use Rattle.cancel_core.specs.Receives.{IsPosted};
ghost use Rattle.kernel_step.specs.Actions.{enclosed_of};
ghost use Rattle.kernel_step.specs.Enclosed.{IsReady};

use crate::samples::END;
use end_table::{Entry, HereView, Inward, Lent, Outward, Table};

fn encloses_nothing(outward: &Outward) -> bool
    ensures { result ≡ true → enclosed_of outward.now ≡ [] }
{
    match outward {
        Outward::Waiting { enclosed, .. } => matches!(enclosed.as_slice(), []),
        Outward::Idle | Outward::Matched { .. } | Outward::Unreported => true,
    }
}

/// The end is here, and its message encloses nothing.
pub(crate) fn is_ready(table: &Table) -> bool
    ensures here { result ≡ true → IsHere (entries table.now END) }
    ensures ready { result ≡ true → IsReady (entries table.now) END }
{
    match table.look(END) {
        Entry::Here(view) => encloses_nothing(&view.outward),
        _ => false,
    }
}

/// The end is here, and its receive is started.
pub(crate) fn is_posted(table: &Table) -> bool
    ensures { result ≡ true → IsHereAnd (entries table.now END) (λ v. IsPosted v.inward) }
{
    match table.lend(END) {
        Lent::Here(living) => matches!(living.inward(), Inward::Posted { .. }),
        _ => false,
    }
}

/// The end is here, and nothing is started or unreported on it.
pub(crate) fn is_idle(table: &Table) -> bool
    ensures { result ≡ true → IsHereAnd (entries table.now END) IsIdle }
{
    matches!(
        table.look(END),
        Entry::Here(HereView {
            outward: Outward::Idle,
            inward: Inward::Idle,
            ..
        })
    )
}
