//! Names.

ghost use Rattle.std.specs.Prelude.{◌≡◌, ◌≤◌, ◌<◌, ◌↔◌, length, IsSome, IfSome};
ghost use Rattle.lynx_lexer.specs.Bytes.{most_name};

use arrayvec::ArrayVec;
use std::marker::Model;

/// The most bytes of a name.
pub(crate) const MOST_NAME: usize = 32;

/// The bytes of a name, from 1 to 32, which outlive the source. Tokens and trees lend theirs (`IdentRef`); compiled code is to
/// keep names so.
#[derive(Debug, Drop)]
pub struct Ident {
    bytes: ArrayVec<u8, MOST_NAME>,
}

impl Model for Ident {
    ghost use Rattle.std.specs.Prelude.{ℕ, List, length, ◌<◌};

    ghost Value = { List ℕ };

    ghost view = { λ a. a.bytes.items };

    ghost invariant = { λ a. 0 < length a.bytes.items };
}

impl Ident {
    /// The name of these bytes. None exactly where they are none or more than 32.
    pub fn from_slice(bytes: &[u8]) -> Option<Ident>
        ensures variant { IsSome result ↔ ((0 < length bytes.now) × (length bytes.now ≤ most_name)) }
        ensures value { IfSome result (λ ident. ident ≡ bytes.now) }
    {
        if bytes.is_empty() {
            return None;
        }
        let mut kept = ArrayVec::new();
        kept.try_extend_from_slice(bytes).ok()?;
        Some(Ident { bytes: kept })
    }

    /// The bytes.
    pub fn as_slice(&self) -> &[u8]
        ensures value { result.now ≡ self.now }
        ensures fits { length result.now ≤ most_name }
        ensures some { 0 < length result.now }
    {
        self.bytes.as_slice()
    }

    /// A name that is equal.
    pub fn copy(&self) -> Ident
        ensures { result ≡ self.now }
    {
        let mut kept = ArrayVec::new();
        let _ = kept.try_extend_from_slice(self.bytes.as_slice());
        Ident { bytes: kept }
    }
}

/// The bytes of a name where they stand in a source, from 1 to 32.
#[derive(Debug, Drop)]
pub struct IdentRef<'a> {
    bytes: &'a [u8],
}

impl<'a> Model for IdentRef<'a> {
    ghost use Rattle.std.specs.Prelude.{ℕ, List, length, ◌<◌, ◌≤◌};
    ghost use Rattle.lynx_lexer.specs.Bytes.{most_name};

    ghost Value = { List ℕ };

    ghost view = { λ a. a.bytes.now };

    ghost invariant = { λ a. (0 < length a.bytes.now) × (length a.bytes.now ≤ most_name) };
}

impl<'a> IdentRef<'a> {
    /// The name of these bytes. None exactly where they are none or more than 32.
    pub fn from_slice(bytes: &'a [u8]) -> Option<IdentRef<'a>>
        ensures variant { IsSome result ↔ ((0 < length bytes.now) × (length bytes.now ≤ most_name)) }
        ensures value { IfSome result (λ ident. ident ≡ bytes.now) }
    {
        if bytes.is_empty() || bytes.len() > MOST_NAME {
            return None;
        }
        Some(IdentRef { bytes })
    }

    /// The name of these bytes, which are some and no more than 32.
    pub(crate) fn within(bytes: &'a [u8]) -> IdentRef<'a>
        requires { 0 < length bytes.now × length bytes.now ≤ most_name }
        ensures { result ≡ bytes.now }
    {
        IdentRef { bytes }
    }

    /// The bytes.
    pub fn as_slice(&self) -> &'a [u8]
        ensures value { result.now ≡ self.now }
        ensures fits { length result.now ≤ most_name }
        ensures some { 0 < length result.now }
    {
        self.bytes
    }

    /// A name that is equal.
    pub fn copy(&self) -> IdentRef<'a>
        ensures { result ≡ self.now }
    {
        IdentRef { bytes: self.bytes }
    }

    /// The name with bytes of its own.
    pub fn to_ident(&self) -> Ident
        ensures { result ≡ self.now }
    {
        let mut kept = ArrayVec::new();
        let _ = kept.try_extend_from_slice(self.bytes);
        Ident { bytes: kept }
    }
}
