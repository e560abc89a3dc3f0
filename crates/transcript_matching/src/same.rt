//! Equality of names, bytes and lists.
ghost use Rattle.std.specs.Prelude.{◌≡◌, ◌↔◌, IsTrue};

use charlotte_calls::{Bytes, EndId, Ends};
use charlotte_packets::{CargoPicture, MovingPicture};

pub(crate) fn is_same_end(a: EndId, b: EndId) -> bool
    ensures { IsTrue result ↔ (a ≡ b) }
{
    a == b
}

pub(crate) fn are_same_bytes(a: &Bytes, b: &Bytes) -> bool
    ensures { IsTrue result ↔ (a.now ≡ b.now) }
{
    a.as_slice() == b.as_slice()
}

pub(crate) fn are_same_ends(a: &Ends, b: &Ends) -> bool
    ensures { IsTrue result ↔ (a.now ≡ b.now) }
{
    a.as_slice() == b.as_slice()
}

pub(crate) fn are_same_values(a: &[MovingPicture], b: &CargoPicture) -> bool
    ensures { IsTrue result ↔ (a.now ≡ b.now) }
{
    a == b.as_slice()
}
