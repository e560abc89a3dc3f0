ghost use Rattle.std.specs.Prelude.{◌≡◌};
ghost use Rattle.kernel_step.specs.Actions.{enclosed_of};
ghost use Rattle.kernel_step.specs.Rows.{ends_in};

use crate::owners::no_ends;
use arrayvec::ArrayVec;
use charlotte_calls::{EndId, Ends};
use charlotte_packets::Cargo;
use end_table::Outward;

/// The ends whose values a packet carries, in order.
pub fn ends_in(moving: &Cargo) -> Ends
    ensures { result ≡ ends_in moving.now }
{
    let mut ends: ArrayVec<EndId, 8> = ArrayVec::new();
    for value in moving.values() {
        ends.push(value.end);
    }
    match Ends::from_slice(ends.as_slice()) {
        Some(ends) => ends,
        None => unreachable!(),
    }
}

/// The ends that a send encloses.
pub fn enclosed_ends(outward: &Outward) -> Ends
    ensures { result ≡ enclosed_of outward.now }
{
    match outward {
        Outward::Waiting { enclosed, .. } => enclosed.copy(),
        Outward::Idle | Outward::Matched { .. } | Outward::Unreported => no_ends(),
    }
}
