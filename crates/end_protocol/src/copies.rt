//! Copies of what packets carry.

ghost use Rattle.std.specs.Prelude.{◌≡◌, ◌++◌, ◌∷◌, [], drop, take, IfOk, OnOk};
ghost use Rattle.end_protocol.specs.Messages.{most_of};

use charlotte_calls::{EndId, Ends, Items, NoMemory};
use lynx_packets::RtValue;
use std::alloc::Global;

fn copy_value(value: &RtValue) -> RtValue
    ensures { result ≡ value.now }
{
    match value {
        RtValue::Int(number) => RtValue::Int(*number),
        RtValue::Bool(truth) => RtValue::Bool(*truth),
        RtValue::Text(text) => RtValue::Text(text.copy()),
        RtValue::Row(row) => RtValue::Row(row.copy()),
        RtValue::Link => RtValue::Link,
    }
}

/// Equal values.
pub(crate) fn copy_values(alloc: Global, values: &[RtValue]) -> Result<Vec<RtValue>, NoMemory>
    ensures { IfOk result (λ copy. copy.items ≡ values.now) }
{
    let mut copy = Vec::with_capacity(alloc, values.len())?;
    for value in values {
        copy.push(copy_value(value))?;
    }
    Ok(copy)
}

/// How many ends of a LYNX message travel with its packet: one in version 1, all of them in version 2.
pub(crate) fn most(version: u8) -> usize
    ensures { result ≡ most_of version }
{
    if version == 1 { 1 } else { 8 }
}

/// The ends that travel with the packet.
pub(crate) fn front(version: u8, ends: &[EndId]) -> Ends
    ensures { result ≡ take (most_of version) ends.now }
{
    let many = most(version).min(ends.len());
    match Ends::from_slice(&ends[..many]) {
        Some(front) => front,
        None => unreachable!(),
    }
}

/// The ends that do not travel with the packet.
pub(crate) fn rest(alloc: Global, version: u8, ends: &[EndId]) -> Result<Items<EndId>, NoMemory>
    ensures { IfOk result (λ rest. rest ≡ drop (most_of version) ends.now) }
{
    let many = most(version).min(ends.len());
    Ok(Items::of(Vec::from_slice(alloc, &ends[many..])?))
}

/// The ends, and others behind them.
pub(crate) fn joined(
    alloc: Global,
    ends: &[EndId],
    others: &[EndId],
) -> Result<Items<EndId>, NoMemory>
    ensures { IfOk result (λ all. all ≡ ends.now ++ others.now) }
{
    let mut all = Vec::from_slice(alloc, ends)?;
    all.extend_from_slice(others)?;
    Ok(Items::of(all))
}

pub(crate) fn no_ends() -> Ends
    ensures { result ≡ [] }
{
    match Ends::from_slice(&[]) {
        Some(ends) => ends,
        None => unreachable!(),
    }
}
