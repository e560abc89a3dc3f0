//! What is kept before a line, of what bears on it.
ghost use Rattle.std.specs.Prelude.{◌≡◌, ◌++◌, [], IfOk, OnOk, option_map};
ghost use Rattle.transcript_items.specs.Texts.{add_items, add_text, home_of, item_text, items_text, kept_text, way_with_packet, ways_to, ways_with_packets};

use crate::bearing::{Before, Item, items_that_bear};
use crate::ends::{push_held, push_place};
use crate::kernels::{Doing, Kernels};
use crate::texts::{push_latest, push_process, push_stamp, push_way};
use charlotte_calls::NoMemory;
use charlotte_text::push_end;
use std::alloc::Global;
use transcript_reading::LineKind;

/// The items that bear on a line, in order; `nothing` where none does.
pub fn kept_items<K: Kernels>(
    alloc: Global,
    kernels: &K,
    kind: &LineKind,
) -> Result<Vec<u8>, NoMemory>
    requires { K.stand kernels.now }
    ensures { IfOk result (λ text. text.items ≡ kept_text (K.kept kernels.now) kind.now) }
{
    let ways = waiting(alloc, kernels)?;
    let before = Before {
        latest: kernels.latest(),
        due: kernels.due(),
        home: home(kernels, kind),
        waiting: ways.as_slice(),
    };
    let items = items_that_bear(alloc, &before, kind)?;
    texts_of(alloc, kernels, items.as_slice())
}

/// The texts of items.
fn texts_of<K: Kernels>(alloc: Global, kernels: &K, items: &[Item]) -> Result<Vec<u8>, NoMemory>
    requires { K.stand kernels.now }
    ensures { IfOk result (λ text. text.items ≡ items_text (K.kept kernels.now) items.now) }
{
    match items {
        [] => {
            let text = b"nothing".to_vec(alloc)?;
            Ok(text)
        }
        [_, ..] => listed(alloc, kernels, items),
    }
}

/// The texts of some items, with `; ` between them.
fn listed<K: Kernels>(alloc: Global, kernels: &K, items: &[Item]) -> Result<Vec<u8>, NoMemory>
    requires { K.stand kernels.now }
    ensures { IfOk result (λ text. text.items ≡ add_items (K.kept kernels.now) items.now []) }
{
    let mut text = Vec::new(alloc);
    for item in items {
        add_item(alloc, &mut text, kernels, *item)?;
    }
    Ok(text)
}

/// Adds an item behind those before it.
fn add_item<K: Kernels>(
    alloc: Global,
    text: &mut Vec<u8>,
    kernels: &K,
    item: Item,
) -> Result<(), NoMemory>
    requires { K.stand kernels.now }
    ensures { OnOk result (text.new.items ≡ add_text text.old.items (item_text (K.kept kernels.now) item)) }
{
    push_mark(text)?;
    push_item(alloc, text, kernels, item)
}

/// Appends what stands between two items, where one is there.
fn push_mark(text: &mut Vec<u8>) -> Result<(), NoMemory>
    ensures { OnOk result (text.new.items ≡ add_text text.old.items []) }
{
    if !text.is_empty() {
        text.extend_from_slice(b"; ")?;
    }
    Ok(())
}

/// Appends an item.
fn push_item<K: Kernels>(
    alloc: Global,
    out: &mut Vec<u8>,
    kernels: &K,
    item: Item,
) -> Result<(), NoMemory>
    requires { K.stand kernels.now }
    ensures { OnOk result (out.new.items ≡ out.old.items ++ item_text (K.kept kernels.now) item) }
{
    match item {
        Item::LastEntry { stamp, kernel } => push_latest(out, stamp, kernel),
        Item::Stamp(kernel) => push_stamp(out, kernel, kernels.stamp(kernel)),
        Item::Process(p) => push_process(out, p, kernels.doing(p)),
        Item::Way { from, to } => push_way(alloc, out, from, to, kernels.first(from, to)),
        Item::NoPacket => {
            out.extend_from_slice(b"no packet under way")?;
            Ok(())
        }
        Item::Entry { kernel, end } => {
            push_end(out, end)?;
            push_held(out, kernel, kernels.entry(kernel, end))
        }
        Item::Place(end) => {
            push_end(out, end)?;
            push_place(out, kernels.place(end))
        }
    }
}

/// The kernel of the process that a call names.
fn home<K: Kernels>(kernels: &K, kind: &LineKind) -> Option<u8>
    requires { K.stand kernels.now }
    ensures { result ≡ home_of (K.kept kernels.now) kind.now }
{
    match kind {
        LineKind::CallEntry { p, .. } => home_at(kernels.doing(*p)),
        _ => None,
    }
}

/// The kernel, where one is told with what a process is doing.
fn home_at(doing: Option<(u8, Doing)>) -> Option<u8>
    ensures { result ≡ option_map (λ d. d.0) doing }
{
    match doing {
        Some((kernel, _)) => Some(kernel),
        None => None,
    }
}

/// Each way on which a packet waits.
fn waiting<K: Kernels>(alloc: Global, kernels: &K) -> Result<Vec<(u8, u8)>, NoMemory>
    requires { K.stand kernels.now }
    ensures { IfOk result (λ ways. ways.items ≡ ways_with_packets (K.kept kernels.now)) }
{
    let mut ways = Vec::new(alloc);
    for to in 0..kernels.count() {
        add_ways(&mut ways, kernels, to)?;
    }
    Ok(ways)
}

/// Adds those to a kernel.
fn add_ways<K: Kernels>(ways: &mut Vec<(u8, u8)>, kernels: &K, to: u8) -> Result<(), NoMemory>
    requires { K.stand kernels.now }
    ensures { OnOk result (ways.new.items ≡ ways.old.items ++ ways_to (K.kept kernels.now) to) }
{
    for from in 0..kernels.count() {
        add_way(ways, kernels, from, to)?;
    }
    Ok(())
}

/// Adds a way, where a packet waits on it.
fn add_way<K: Kernels>(
    ways: &mut Vec<(u8, u8)>,
    kernels: &K,
    from: u8,
    to: u8,
) -> Result<(), NoMemory>
    requires { K.stand kernels.now }
    ensures { OnOk result (ways.new.items ≡ ways.old.items ++ way_with_packet (K.kept kernels.now) to from) }
{
    if kernels.first(from, to).is_some() {
        ways.push((from, to))?;
    }
    Ok(())
}
