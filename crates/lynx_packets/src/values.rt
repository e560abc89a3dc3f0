//! Values in packets are read.

ghost use Rattle.std.specs.Prelude.{◌≡◌, ◌<◌, ◌≤◌, [], length, IsTrue, All, IfOk};
ghost use Rattle.typing_rules.specs.Types.{has_length};
ghost use Rattle.lynx_packets.specs.Reading.{Gives, text_at, numbers_at, row_at, int_value, bool_value, text_value, row_value, of_type, tag_of, typed_at, arguments_at, of_tag, value_at, values_at, link_count};

use crate::fault::Unread;
use crate::fields::{byte, front, int};
use crate::value::RtValue;
use arrayvec::ArrayVec;
use lynx_tree::TypeName;
use std::alloc::Global;
use typing_rules::{Row16, ShortText};

#[tactic(auto, unfolding(crate::specs::Reading::text_at))]
fn text(bytes: &[u8]) -> Result<(ShortText, &[u8]), Unread>
    ensures { Gives (λ x. (x.0, x.1.now)) result (text_at bytes.now) }
{
    let (size, rest) = byte(0, 64, bytes)?;
    let (text, rest) = front(usize::from(size), rest)?;
    match ShortText::from_slice(text) {
        Some(text) => Ok((text, rest)),
        None => unreachable!(),
    }
}

fn numbers(count: u8, bytes: &[u8]) -> Result<(ArrayVec<i64, 16>, &[u8]), Unread>
    requires { count ≤ 16 }
    ensures read { Gives (λ x. (x.0.items, x.1.now)) result (numbers_at count bytes.now) }
    ensures size { IfOk result (λ x. length x.0.items ≡ count) }
{
    let mut numbers = ArrayVec::new();
    let mut rest = bytes;
    for _ in 0..count {
        let (number, after) = int(rest)?;
        numbers.push(number);
        rest = after;
    }
    Ok((numbers, rest))
}

#[tactic(auto, unfolding(crate::specs::Reading::row_at))]
fn row(low: u8, high: u8, bytes: &[u8]) -> Result<(Row16, &[u8]), Unread>
    requires some { 0 < low }
    requires few { high ≤ 16 }
    ensures { Gives (λ x. (x.0, x.1.now)) result (row_at low high bytes.now) }
{
    let (count, rest) = byte(low, high, bytes)?;
    let (numbers, rest) = numbers(count, rest)?;
    match Row16::from_slice(numbers.as_slice()) {
        Some(row) => Ok((row, rest)),
        None => unreachable!(),
    }
}

#[tactic(auto, unfolding(crate::specs::Reading::int_value))]
fn int_value(bytes: &[u8]) -> Result<(RtValue, &[u8]), Unread>
    ensures { Gives (λ x. (x.0, x.1.now)) result (int_value bytes.now) }
{
    let (number, rest) = int(bytes)?;
    Ok((RtValue::Int(number), rest))
}

#[tactic(auto, unfolding(crate::specs::Reading::bool_value))]
fn bool_value(bytes: &[u8]) -> Result<(RtValue, &[u8]), Unread>
    ensures { Gives (λ x. (x.0, x.1.now)) result (bool_value bytes.now) }
{
    let (truth, rest) = byte(0, 1, bytes)?;
    Ok((RtValue::Bool(truth == 1), rest))
}

#[tactic(auto, unfolding(crate::specs::Reading::text_value))]
fn text_value(bytes: &[u8]) -> Result<(RtValue, &[u8]), Unread>
    ensures { Gives (λ x. (x.0, x.1.now)) result (text_value bytes.now) }
{
    let (text, rest) = text(bytes)?;
    Ok((RtValue::Text(text), rest))
}

#[tactic(auto, unfolding(crate::specs::Reading::row_value))]
fn row_value(low: u8, high: u8, bytes: &[u8]) -> Result<(RtValue, &[u8]), Unread>
    requires some { 0 < low }
    requires few { high ≤ 16 }
    ensures { Gives (λ x. (x.0, x.1.now)) result (row_value low high bytes.now) }
{
    let (row, rest) = row(low, high, bytes)?;
    Ok((RtValue::Row(row), rest))
}

/// The byte that tells the type of a value.
fn tag(kind: TypeName) -> u8
    ensures { result ≡ tag_of kind }
{
    match kind {
        TypeName::Int => 1,
        TypeName::Bool => 2,
        TypeName::Text => 3,
        TypeName::Row(_) => 4,
        TypeName::Link => 5,
    }
}

#[tactic(auto, unfolding(crate::specs::Reading::typed_at))]
fn typed(kind: TypeName, bytes: &[u8]) -> Result<(RtValue, &[u8]), Unread>
    requires { IsTrue (has_length kind) }
    ensures { Gives (λ x. (x.0, x.1.now)) result (typed_at kind bytes.now) }
{
    let tag = tag(kind);
    let (_, rest) = byte(tag, tag, bytes)?;
    of_type(kind, rest)
}

fn of_type(kind: TypeName, bytes: &[u8]) -> Result<(RtValue, &[u8]), Unread>
    requires { IsTrue (has_length kind) }
    ensures { Gives (λ x. (x.0, x.1.now)) result (of_type kind bytes.now) }
{
    match kind {
        TypeName::Int => int_value(bytes),
        TypeName::Bool => bool_value(bytes),
        TypeName::Text => text_value(bytes),
        TypeName::Row(length) => row_value(length as u8, length as u8, bytes),
        TypeName::Link => Ok((RtValue::Link, bytes)),
    }
}

/// Values of these types, in order.
pub(crate) fn arguments<'b>(
    alloc: Global,
    kinds: &[TypeName],
    bytes: &'b [u8],
) -> Result<(Vec<RtValue>, &'b [u8]), Unread>
    requires { All (λ t. IsTrue (has_length t)) kinds.now }
    ensures { Gives (λ x. (x.0.items, x.1.now)) result (arguments_at kinds.now bytes.now) }
{
    let mut values = Vec::with_capacity(alloc, kinds.len())?;
    let mut rest = bytes;
    for kind in kinds {
        let (value, after) = typed(*kind, rest)?;
        values.push(value)?;
        rest = after;
    }
    Ok((values, rest))
}

fn of_tag(tag: u8, bytes: &[u8]) -> Result<(RtValue, &[u8]), Unread>
    ensures { Gives (λ x. (x.0, x.1.now)) result (of_tag tag bytes.now) }
{
    match tag {
        1 => int_value(bytes),
        2 => bool_value(bytes),
        3 => text_value(bytes),
        4 => row_value(1, 16, bytes),
        _ => Ok((RtValue::Link, bytes)),
    }
}

/// A value of any type, which is a link only where a link may come.
#[tactic(auto, unfolding(crate::specs::Reading::value_at))]
fn value(links: u8, bytes: &[u8]) -> Result<(RtValue, &[u8]), Unread>
    ensures { Gives (λ x. (x.0, x.1.now)) result (value_at links bytes.now) }
{
    let last = if links == 0 { 4 } else { 5 };
    let (tag, rest) = byte(1, last, bytes)?;
    of_tag(tag, rest)
}

fn links_in(value: &RtValue) -> u8
    ensures { result ≡ link_count value.now }
{
    match value {
        RtValue::Link => 1,
        _ => 0,
    }
}

/// The values that all of the bytes spell, of which at most so many are links.
pub(crate) fn results(alloc: Global, links: u8, bytes: &[u8]) -> Result<Vec<RtValue>, Unread>
    ensures { Gives (λ v. (v.items, [])) result (values_at (length bytes.now) links bytes.now) }
{
    let mut values = Vec::new(alloc);
    let mut links = links;
    let mut rest = bytes;
    while !rest.is_empty() {
        let (value, after) = value(links, rest)?;
        links = links.saturating_sub(links_in(&value));
        values.push(value)?;
        rest = after;
    }
    Ok(values)
}
