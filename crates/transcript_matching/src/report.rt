//! Whether two reports tell the same.
ghost use Rattle.std.specs.Prelude.{◌≡◌, ◌↔◌, IsTrue};

use crate::same::{are_same_bytes, are_same_ends, is_same_end};
use charlotte_calls::Report;

pub(crate) fn is_same_report(a: &Report, b: &Report) -> bool
    ensures { IsTrue result ↔ (a.now ≡ b.now) }
{
    is_same_activity(a, b) && a.outcome == b.outcome && is_same_content(a, b)
}

/// Whether two reports tell of the same way of the same end.
fn is_same_activity(a: &Report, b: &Report) -> bool
    ensures { IsTrue result ↔ ((a.now.on ≡ b.now.on) × (a.now.way ≡ b.now.way)) }
{
    is_same_end(a.on, b.on) && a.way == b.way
}

/// Whether two reports tell of the same bytes and ends.
fn is_same_content(a: &Report, b: &Report) -> bool
    ensures { IsTrue result ↔ ((a.now.bytes ≡ b.now.bytes) × (a.now.enclosed ≡ b.now.enclosed)) }
{
    are_same_bytes(&a.bytes, &b.bytes) && are_same_ends(&a.enclosed, &b.enclosed)
}
