//! Text values.

ghost use Rattle.std.specs.Prelude.{◌≡◌, ◌≤◌, ◌<◌, ◌↔◌, length, IsSome, IfSome};

use arrayvec::ArrayVec;
use std::marker::Model;

/// The bytes of a text value, at most 64, which outlive the source. Tokens and trees lend theirs (`TextRef`); compiled code is to
/// keep texts so.
#[derive(Debug, Drop)]
pub struct TextLit {
    bytes: ArrayVec<u8, 64>,
}

impl Model for TextLit {
    ghost use Rattle.std.specs.Prelude.{ℕ, List};

    ghost Value = { List ℕ };

    ghost view = { λ a. a.bytes.items };
}

impl TextLit {
    /// The text of these bytes. None exactly where they are more than 64.
    pub fn from_slice(bytes: &[u8]) -> Option<TextLit>
        ensures variant { IsSome result ↔ (length bytes.now ≤ 64) }
        ensures value { IfSome result (λ text. text ≡ bytes.now) }
    {
        let mut kept = ArrayVec::new();
        kept.try_extend_from_slice(bytes).ok()?;
        Some(TextLit { bytes: kept })
    }

    /// The bytes.
    pub fn as_slice(&self) -> &[u8]
        ensures value { result.now ≡ self.now }
        ensures fits { length result.now ≤ 64 }
    {
        self.bytes.as_slice()
    }

    /// A text that is equal.
    pub fn copy(&self) -> TextLit
        ensures { result ≡ self.now }
    {
        let mut kept = ArrayVec::new();
        let _ = kept.try_extend_from_slice(self.bytes.as_slice());
        TextLit { bytes: kept }
    }
}

/// The bytes of a text value where they stand in a source, at most 64.
#[derive(Debug, Drop)]
pub struct TextRef<'a> {
    bytes: &'a [u8],
}

impl<'a> Model for TextRef<'a> {
    ghost use Rattle.std.specs.Prelude.{ℕ, List, length, ◌≤◌};

    ghost Value = { List ℕ };

    ghost view = { λ a. a.bytes.now };

    ghost invariant = { λ a. length a.bytes.now ≤ 64 };
}

impl<'a> TextRef<'a> {
    /// The text of these bytes. None exactly where they are more than 64.
    pub fn from_slice(bytes: &'a [u8]) -> Option<TextRef<'a>>
        ensures variant { IsSome result ↔ (length bytes.now ≤ 64) }
        ensures value { IfSome result (λ text. text ≡ bytes.now) }
    {
        if bytes.len() > 64 {
            return None;
        }
        Some(TextRef { bytes })
    }

    /// The text of these bytes, which are no more than 64.
    pub(crate) fn within(bytes: &'a [u8]) -> TextRef<'a>
        requires { length bytes.now ≤ 64 }
        ensures { result ≡ bytes.now }
    {
        TextRef { bytes }
    }

    /// The bytes.
    pub fn as_slice(&self) -> &'a [u8]
        ensures value { result.now ≡ self.now }
        ensures fits { length result.now ≤ 64 }
    {
        self.bytes
    }

    /// A text that is equal.
    pub fn copy(&self) -> TextRef<'a>
        ensures { result ≡ self.now }
    {
        TextRef { bytes: self.bytes }
    }

    /// The text with bytes of its own.
    pub fn to_text(&self) -> TextLit
        ensures { result ≡ self.now }
    {
        let mut kept = ArrayVec::new();
        let _ = kept.try_extend_from_slice(self.bytes);
        TextLit { bytes: kept }
    }
}
