//! Signatures in requests are read.

ghost use Rattle.std.specs.Prelude.{◌≡◌, ◌<◌, ◌≤◌, ◌-◌, ◌+◌, ◌++◌, length, OnOk, IsTrue, IfOk, All, [], Ok};
ghost use Rattle.typing_rules.specs.Types.{has_length};
ghost use Rattle.lynx_packets.specs.Reading.{Gives};
ghost use Rattle.lynx_packets.specs.Spots.{is_keyword, room_left, begins_name, opens, is_name_at, names, name_at, types_at, signature_at, listed, link_told};
ghost use Rattle.lynx_packets.specs.declared.spot.Part.TheVariants.{Arguments};
ghost use Rattle.lynx_packets.specs.declared.spot.Spot.TheVariants as spots;

use crate::fault::Unread;
use crate::fields::{byte, first, front};
use crate::spot::{Part, Spot};
use lynx_lexer::Keyword;
use lynx_tree::TypeName;
use std::alloc::{AllocError, Global};

/// The bytes of the shortest signature, as `o():()`.
const LEAST: u8 = 6;

/// At most so many values of a packet are links.
pub(crate) const MOST_LINKS: u8 = 8;

/// A signature, with the types of the arguments.
#[derive(Drop)]
pub(crate) struct Signed<'b> {
    pub(crate) text: &'b [u8],
    pub(crate) arguments: Vec<TypeName>,
}

fn is_keyword(word: &[u8]) -> bool
    ensures { result ≡ is_keyword word.now }
{
    Keyword::from_slice(word).is_some()
}

/// Whether a name of so many bytes can be completed where so many bytes of the signature are to come.
fn has_room(size: usize, left: usize) -> bool
    ensures { result ≡ room_left size left }
{
    size <= 32 && (left == 5 || 8 <= left || (6 <= left && size + (left - 5) <= 32))
}

/// Whether these bytes begin a name with which a signature can be completed in so many bytes more: a keyword has to go on.
fn begins(name: &[u8], left: usize) -> bool
    ensures { result ≡ begins_name name.now left }
{
    has_room(name.len(), left) && (6 <= left || !is_keyword(name))
}

/// Whether the byte is the bracket behind the name.
fn opens(name: &[u8], left: usize, byte: u8) -> bool
    ensures { result ≡ opens name.now left byte }
{
    byte == b'(' && !name.is_empty() && !is_keyword(name) && (left == 5 || 8 <= left)
}

/// Whether the byte is one of a name, at this place of it.
fn is_of_name(at: usize, byte: u8) -> bool
    ensures { result ≡ is_name_at at byte }
{
    match at {
        0 => byte.is_ascii_alphabetic(),
        _ => byte.is_ascii_alphanumeric() || byte == b'_',
    }
}

/// The name at the front of a signature of so many bytes, and what stands behind its bracket.
fn name(size: usize, bytes: &[u8]) -> Result<(&[u8], &[u8]), Unread>
    requires { 6 ≤ size }
    ensures read { Gives (λ x. (x.0.now, x.1.now)) result (name_at [] size bytes.now) }
    ensures room { IfOk result (λ x. length x.0.now + 5 ≤ size) }
{
    for (at, byte) in bytes.iter().enumerate() {
        let left = size - at;
        if opens(&bytes[..at], left, *byte) {
            return Ok((&bytes[..at], &bytes[at + 1..]));
        }
        if !is_of_name(at, *byte) || !begins(&bytes[..=at], left - 1) {
            return Err(Unread::Wrong(bytes.len() - at));
        }
    }
    Err(Unread::Wrong(0))
}

/// Keeps the type that was told, if one was.
#[inline(always)]
fn keep(types: &mut Vec<TypeName>, told: Option<TypeName>) -> Result<(), AllocError>
    ensures { OnOk result (types.new.items ≡ types.old.items ++ listed told) }
{
    if let Some(kind) = told {
        types.push(kind)?;
    }
    Ok(())
}

#[inline(always)]
fn links_in(told: Option<TypeName>) -> u8
    ensures { result ≡ link_told told }
{
    match told {
        Some(TypeName::Link) => 1,
        _ => 0,
    }
}

/// The types of the arguments, and what stands behind the signature, of which so many bytes are left.
fn types(alloc: Global, left: usize, bytes: &[u8]) -> Result<(Vec<TypeName>, &[u8]), Unread>
    ensures { Gives (λ x. (x.0.items, x.1.now)) result (types_at 8 left (spots.Opened Arguments) bytes.now) }
{
    // a type takes four bytes at least, with its comma
    let mut types = Vec::with_capacity(alloc, left / 4)?;
    let mut links = MOST_LINKS;
    let mut spot = Spot::Opened(Part::Arguments);
    let mut left = left;
    let mut rest = bytes;
    while !spot.is_done() {
        let (byte, after) = first(rest)?;
        let Some(next) = spot.next(links, left, byte) else {
            return Err(Unread::Wrong(rest.len()));
        };
        let told = spot.told(byte);
        keep(&mut types, told)?;
        links = links.saturating_sub(links_in(told));
        spot = next;
        left = left.saturating_sub(1);
        rest = after;
    }
    Ok((types, rest))
}

/// The signature at the front, behind the byte of its size.
#[tactic(auto, unfolding(crate::specs::Spots::signature_at))]
pub(crate) fn signature(alloc: Global, bytes: &[u8]) -> Result<(Signed<'_>, &[u8]), Unread>
    ensures read { Gives (λ x. ((x.0.text.now, x.0.arguments.items), x.1.now)) result (signature_at bytes.now) }
    ensures lengths { IfOk result (λ x. All (λ t. IsTrue (has_length t)) x.0.arguments.items) }
{
    let (size, text) = byte(LEAST, 255, bytes)?;
    let size = usize::from(size);
    let (name, rest) = name(size, text)?;
    let (arguments, rest) = types(alloc, size - name.len() - 1, rest)?;
    let (text, _) = front(size, text)?;
    Ok((Signed { text, arguments }, rest))
}
