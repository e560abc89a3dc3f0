//! Values of the type text.

ghost use Rattle.std.specs.Prelude.{◌≡◌, ◌≤◌, ◌↔◌, length, IsSome, IfSome};

use arrayvec::ArrayVec;
use std::marker::Model;

/// The value of a text: at most 64 bytes.
#[derive(Debug, Drop)]
pub struct ShortText {
    bytes: ArrayVec<u8, 64>,
}

impl Model for ShortText {
    ghost use Rattle.std.specs.Prelude.{ℕ, List};

    ghost Value = { List ℕ };

    ghost view = { λ a. a.bytes.items };
}

impl ShortText {
    /// The text of these bytes. None exactly where they are more than 64.
    pub fn from_slice(bytes: &[u8]) -> Option<ShortText>
        ensures variant { IsSome result ↔ (length bytes.now ≤ 64) }
        ensures value { IfSome result (λ text. text ≡ bytes.now) }
    {
        let mut kept = ArrayVec::new();
        kept.try_extend_from_slice(bytes).ok()?;
        Some(ShortText { bytes: kept })
    }

    /// The bytes.
    pub fn as_slice(&self) -> &[u8]
        ensures value { result.now ≡ self.now }
        ensures fits { length result.now ≤ 64 }
    {
        self.bytes.as_slice()
    }

    /// A text that is equal.
    pub fn copy(&self) -> ShortText
        ensures { result ≡ self.now }
    {
        let mut kept = ArrayVec::new();
        let _ = kept.try_extend_from_slice(self.bytes.as_slice());
        ShortText { bytes: kept }
    }
}
