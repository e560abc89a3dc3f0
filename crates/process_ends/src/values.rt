//! Values as threads have them, and as they travel.

ghost use Rattle.std.specs.Prelude.{◌≡◌, ◌++◌, ◌∷◌, [], map, take, IfOk, OnOk};
ghost use Rattle.end_protocol.specs.Asking.{later};
ghost use Rattle.machine_values.specs.Told as told;
ghost use Rattle.process_run.specs.Ends.{links_in, packed_of, unpacked, values_of};

use charlotte_calls::{Items, NoMemory};
use lynx_packets::RtValue;
use machine_values::{LinkRef, Value};
use std::alloc::Global;

/// The number behind this one. The greatest number stays.
pub fn later(number: u32) -> u32
    ensures { result ≡ later number }
{
    if number == u32::MAX {
        number
    } else {
        number + 1
    }
}

fn packed(value: &Value) -> RtValue
    ensures { result ≡ packed_of (told.value_of value.now) }
{
    match value {
        Value::Int(number) => RtValue::Int(*number),
        Value::Bool(truth) => RtValue::Bool(*truth),
        Value::Text(text) => RtValue::Text(text.copy()),
        Value::Row(row) => RtValue::Row(row.copy()),
        Value::Link(_) => RtValue::Link,
    }
}

/// Values as they travel.
pub fn pack(alloc: Global, values: &[Value]) -> Result<Items<RtValue>, NoMemory>
    ensures { IfOk result (λ packed. packed ≡ values_of (told.values_of values.now)) }
{
    let mut all = Vec::with_capacity(alloc, values.len())?;
    for value in values {
        all.push(packed(value))?;
    }
    Ok(Items::of(all))
}

/// The numbers of the links among values.
pub fn links_in(alloc: Global, values: &[Value]) -> Result<Vec<u32>, NoMemory>
    ensures { IfOk result (λ links. links.items ≡ links_in (told.values_of values.now)) }
{
    let mut links = Vec::new(alloc);
    push_links(&mut links, values)?;
    Ok(links)
}

fn push_links(links: &mut Vec<u32>, values: &[Value]) -> Result<(), NoMemory>
    ensures { OnOk result (links.new.items ≡ links.old.items ++ links_in (told.values_of values.now)) }
{
    match values {
        [] => Ok(()),
        [first, others @ ..] => {
            if let Value::Link(LinkRef(number)) = first {
                links.push(*number)?;
            }
            push_links(links, others)
        }
    }
}

/// Values that came, while so many ends were got before them: the links have the next numbers, in order.
pub fn unpack(alloc: Global, got: u32, values: &[RtValue]) -> Result<Vec<Value>, NoMemory>
    ensures { IfOk result (λ all. told.values_of all.items ≡ unpacked got values.now) }
{
    let mut all = Vec::with_capacity(alloc, values.len())?;
    push_unpacked(&mut all, got, values)?;
    Ok(all)
}

fn push_unpacked(all: &mut Vec<Value>, got: u32, values: &[RtValue]) -> Result<(), NoMemory>
    ensures { OnOk result (told.values_of all.new.items ≡ told.values_of all.old.items ++ unpacked got values.now) }
{
    match values {
        [] => Ok(()),
        [RtValue::Link, others @ ..] => {
            let number = later(got);
            all.push(Value::Link(LinkRef(number)))?;
            push_unpacked(all, number, others)
        }
        [first, others @ ..] => {
            all.push(plain(first))?;
            push_unpacked(all, got, others)
        }
    }
}

/// A value that is no link.
fn plain(value: &RtValue) -> Value
    ensures { unpacked 0 (value.now ∷ []) ≡ told.value_of result ∷ [] }
{
    match value {
        RtValue::Int(number) => Value::Int(*number),
        RtValue::Bool(truth) => Value::Bool(*truth),
        RtValue::Text(text) => Value::Text(text.copy()),
        RtValue::Row(row) => Value::Row(row.copy()),
        RtValue::Link => Value::Link(LinkRef(1)),
    }
}
