ghost use Rattle.std.specs.Prelude.{◌≡◌, IfOk};

use charlotte_calls::{Bytes, NoMemory};
use std::alloc::Global;
use std::marker::Model;

/// The bytes of a message, in the memory of as many as there are. Contracts see their list.
#[derive(Drop)]
pub(crate) struct Text {
    bytes: Vec<u8>,
}

impl Model for Text {
    ghost use Rattle.std.specs.Prelude.{List, ℕ, ◌≤◌, length};

    ghost Value = { List ℕ };

    ghost view = { λ t. t.bytes.items };

    ghost invariant = { λ t. length t.bytes.items ≤ 256 };
}

impl Text {
    /// The same bytes.
    pub(crate) fn of(alloc: Global, bytes: &Bytes) -> Result<Text, NoMemory>
        ensures { IfOk result (λ t. t ≡ bytes.now) }
    {
        let bytes = Vec::from_slice(alloc, bytes.as_slice())?;
        Ok(Text { bytes })
    }

    /// The same bytes, in the value itself.
    pub(crate) fn bytes(&self) -> Bytes
        ensures { result ≡ self.now }
    {
        match Bytes::from_slice(self.bytes.as_slice()) {
            Some(bytes) => bytes,
            None => unreachable!(),
        }
    }
}
