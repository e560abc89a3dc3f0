//! Names of processes and links.
ghost use Rattle.std.specs.Prelude.{◌≡◌, ◌∷◌, [], ◌≤◌, length, true};
ghost use Rattle.std.specs.Cmp.{partial_equiv_from_equiv};
ghost use Rattle.std.specs.Cmp.Lexicographic.{bytes_decides, nat_list_eq_equiv};
ghost use Rattle.std.specs.Str.{bytes_eq};
ghost use Rattle.std.specs.List.{list_all};
ghost use Rattle.std.proofs.Common.{ap};
ghost use Rattle.history_text.specs.Names.{by_bytes, is_name, is_name_byte, name_of};

use charlotte_calls::Short;
use charlotte_text::Fault;
use indexmap::Equivalent;
use std::hash::{Hash, Hasher};
use std::marker::Model;

/// The name of a process or a link, which is hashed all at once and not byte by byte.
#[derive(Drop)]
pub struct Name {
    bytes: Short<u8, 32>,
}

impl Model for Name {
    ghost use Rattle.std.specs.Prelude.{ℕ, List};

    ghost Value = { List ℕ };

    ghost view = { λ n. n.bytes };
}

impl PartialEq for Name {
    ghost eq = { λ a b. bytes_eq a b };

    ghost laws = { partial_equiv_from_equiv nat_list_eq_equiv };

    fn eq(&self, other: &Self) -> bool {
        self.as_slice() == other.as_slice()
    }
}

impl Eq for Name {
    ghost laws = { nat_list_eq_equiv };
}

impl Hash for Name {
    ghost hash_input = { λ n. n ∷ [] };

    ghost respects_eq = { λ a b same. ap (λ bytes. bytes ∷ []) ((bytes_decides a b).0 same) };

    fn hash<H: Hasher>(&self, state: &mut H) {
        state.write(self.as_slice());
    }
}

/// A word that is looked for among names, which is not copied.
#[derive(Clone, Copy)]
pub(crate) struct Sought<'a> {
    word: &'a [u8],
}

impl<'a> PartialEq for Sought<'a> {
    ghost eq = { λ a b. bytes_eq a.word.now b.word.now };

    ghost laws = { partial_equiv_from_equiv (by_bytes (λ a. a.word.now)) };

    fn eq(&self, other: &Self) -> bool {
        self.word == other.word
    }
}

impl<'a> Eq for Sought<'a> {
    ghost laws = { by_bytes (λ a. a.word.now) };
}

impl<'a> Hash for Sought<'a> {
    ghost hash_input = { λ q. q.word.now ∷ [] };

    ghost respects_eq = { λ a b same. ap (λ bytes. bytes ∷ []) ((bytes_decides a.word.now b.word.now).0 same) };

    fn hash<H: Hasher>(&self, state: &mut H) {
        state.write(self.word);
    }
}

impl<'a> Sought<'a> {
    pub(crate) fn of(word: &'a [u8]) -> Sought<'a>
        ensures { result.word.now ≡ word.now }
    {
        Sought { word }
    }
}

impl<'a> Equivalent<Name> for Sought<'a> {
    ghost equivalent = { λ q name. bytes_eq q.word.now name };

    ghost respects_hash = { λ q name same. ap (λ bytes. bytes ∷ []) ((bytes_decides q.word.now name).0 same) };

    ghost respects_eq = { λ q x y. nat_list_eq_equiv.congr q.word.now x y };

    fn equivalent(&self, key: &Name) -> bool {
        self.word == key.as_slice()
    }
}

impl Name {
    /// The name that a word is: 1 to 32 letters, digits, `_` and `-`.
    #[tactic(auto, unfolding(crate::specs::Names::name_of))]
    pub fn of(word: &[u8]) -> Result<Name, Fault>
        ensures { result ≡ name_of word.now }
    {
        if !is_name(word) {
            return Err(Fault::Form);
        }
        match Short::from_slice(word) {
            Some(bytes) => Ok(Name { bytes }),
            None => Err(Fault::Form),
        }
    }

    /// An equal name.
    pub fn copy(&self) -> Name
        ensures { result ≡ self.now }
    {
        Name {
            bytes: self.bytes.copy(),
        }
    }

    /// Its bytes.
    pub fn as_slice(&self) -> &[u8]
        ensures same { result.now ≡ self.now }
        ensures within { length result.now ≤ 32 }
    {
        self.bytes.as_slice()
    }
}

/// Whether a word is a name.
pub(crate) fn is_name(word: &[u8]) -> bool
    ensures { result ≡ is_name word.now }
{
    1 <= word.len() && word.len() <= 32 && all_name_bytes(word)
}

fn all_name_bytes(word: &[u8]) -> bool
    ensures { result ≡ list_all is_name_byte word.now }
{
    word.iter().all(|byte| is_name_byte(*byte))
}

#[inline(always)]
fn is_name_byte(byte: u8) -> bool
    ensures { result ≡ is_name_byte byte }
{
    matches!(byte, b'0'..=b'9' | b'A'..=b'Z' | b'a'..=b'z' | b'_' | b'-')
}
