//! Which items of what is kept bear on a line.
ghost use Rattle.std.specs.Prelude.{◌≡◌, ◌++◌, ◌∷◌, [], IfOk, OnOk, map};
ghost use Rattle.std.specs.List.{flat_map, list_any};
ghost use Rattle.transcript_items.specs.Bearing.{add_each, add_once, bearing, item_eq, mentioned, of_due, of_end, of_home, listed, of_last, of_latest, of_line, of_named, of_process, of_waiting, of_way};
ghost use Rattle.transcript_items.specs.declared.bearing.Item.TheVariants.{Process, Stamp, Way};

use crate::naming::{Named, named_by_line, named_by_step};
use charlotte_calls::{EndId, NoMemory, Pid, ServiceStep};
use std::alloc::Global;
use std::marker::Model;
use transcript_lines::Last;
use transcript_reading::LineKind;

/// An item of what is kept.
#[derive(Clone, Copy, PartialEq, Eq)]
pub enum Item {
    /// The last entry.
    LastEntry { stamp: u64, kernel: u8 },
    /// The last stamp of a kernel.
    Stamp(u8),
    /// What a process is doing.
    Process(Pid),
    /// The first packet on a way.
    Way { from: u8, to: u8 },
    /// That no packet is under way.
    NoPacket,
    /// What a kernel keeps of an end.
    Entry { kernel: u8, end: EndId },
    /// Where an end is in the link service.
    Place(EndId),
}

/// What is known before a line, as far as it decides which items bear on it.
#[derive(Drop)]
pub struct Before<'a> {
    /// Stamp and kernel of the last entry.
    pub latest: Option<(u64, u8)>,
    /// The service step that is due.
    pub due: Option<&'a ServiceStep>,
    /// The kernel of the process that the line names.
    pub home: Option<u8>,
    /// Each way on which a packet waits, from a kernel to a kernel.
    pub waiting: &'a [(u8, u8)],
}

impl<'a> Model for Before<'a> {
    ghost use Rattle.std.specs.Prelude.{option_copied};
    ghost use Rattle.transcript_items.specs.Bearing.{Known};

    ghost Value = { Known };

    ghost view = { λ b. record { latest = b.latest; due = option_copied b.due; home = b.home; waiting = b.waiting.now } };
}

/// The items of what is kept that bear on a line, each once: what a replay compares the line with.
pub fn items_that_bear(
    alloc: Global,
    before: &Before,
    kind: &LineKind,
) -> Result<Vec<Item>, NoMemory>
    ensures { IfOk result (λ items. items.items ≡ bearing before.now kind.now) }
{
    let mut all = Vec::new(alloc);
    add_mentioned(&mut all, before, kind)?;
    let mut items = Vec::new(alloc);
    add_each(&mut items, all.as_slice())?;
    Ok(items)
}

/// Adds each item that is not there yet.
fn add_each(items: &mut Vec<Item>, others: &[Item]) -> Result<(), NoMemory>
    ensures { OnOk result (items.new.items ≡ add_each others.now items.old.items) }
{
    for item in others {
        add_once(items, *item)?;
    }
    Ok(())
}

fn add_once(items: &mut Vec<Item>, item: Item) -> Result<(), NoMemory>
    ensures { OnOk result (items.new.items ≡ add_once item items.old.items) }
{
    if is_there(items, item) {
        return Ok(());
    }
    items.push(item)?;
    Ok(())
}

#[tactic(auto, unfolding(crate::specs::Bearing::item_eq))]
fn is_there(items: &[Item], item: Item) -> bool
    ensures { result ≡ list_any (λ y. item_eq y item) items.now }
{
    items.contains(&item)
}

fn add_mentioned(items: &mut Vec<Item>, before: &Before, kind: &LineKind) -> Result<(), NoMemory>
    ensures { OnOk result (items.new.items ≡ items.old.items ++ mentioned before.now kind.now) }
{
    match before.due {
        Some(step) => add_due(items, before, step, kind),
        None => add_line(items, before, kind),
    }
}

/// Where a step is due: its items, and those that the line names besides.
fn add_due(
    items: &mut Vec<Item>,
    before: &Before,
    step: &ServiceStep,
    kind: &LineKind,
) -> Result<(), NoMemory>
    ensures { OnOk result (items.new.items ≡ items.old.items ++ of_due before.now step.now kind.now) }
{
    add_step(items, before, named_by_step(step))?;
    match kind {
        LineKind::Service(line) => add_named(items, before.latest, named_by_line(line)),
        _ => Ok(()),
    }
}

/// Where no step is due.
fn add_line(items: &mut Vec<Item>, before: &Before, kind: &LineKind) -> Result<(), NoMemory>
    ensures { OnOk result (items.new.items ≡ items.old.items ++ of_line before.now kind.now) }
{
    match kind {
        LineKind::CallEntry { p, .. } => add_call(items, before, *p),
        LineKind::PacketEntry { kernel, from, .. } => add_packet(items, before, *from, *kernel),
        LineKind::Service(line) => add_step(items, before, named_by_line(line)),
        LineKind::End(last) => add_last(items, before, *last),
        _ => Ok(()),
    }
}

fn add_call(items: &mut Vec<Item>, before: &Before, p: Pid) -> Result<(), NoMemory>
    ensures { OnOk result (items.new.items ≡ items.old.items ++ of_latest before.now.latest ++ of_home before.now.home ++ Process p ∷ []) }
{
    add_latest(items, before.latest)?;
    add_home(items, before.home)?;
    items.push(Item::Process(p))?;
    Ok(())
}

fn add_packet(items: &mut Vec<Item>, before: &Before, from: u8, to: u8) -> Result<(), NoMemory>
    ensures { OnOk result (items.new.items ≡ items.old.items ++ of_latest before.now.latest ++ Stamp to ∷ Way from to ∷ []) }
{
    add_latest(items, before.latest)?;
    items.push(Item::Stamp(to))?;
    items.push(Item::Way { from, to })?;
    Ok(())
}

/// The event that a service step is of, and what its line names.
fn add_step(items: &mut Vec<Item>, before: &Before, named: Named) -> Result<(), NoMemory>
    ensures { OnOk result (items.new.items ≡ items.old.items ++ of_latest before.now.latest ++ of_named before.now.latest named.entry) }
{
    add_latest(items, before.latest)?;
    add_named(items, before.latest, named)
}

fn add_last(items: &mut Vec<Item>, before: &Before, last: Last) -> Result<(), NoMemory>
    ensures { OnOk result (items.new.items ≡ items.old.items ++ of_last before.now last) }
{
    match last {
        Last::Quiet | Last::Unsettled => add_waiting(items, before.waiting),
        Last::Spent(kernel) => {
            items.push(Item::Stamp(kernel))?;
            Ok(())
        }
    }
}

fn add_waiting(items: &mut Vec<Item>, ways: &[(u8, u8)]) -> Result<(), NoMemory>
    ensures { OnOk result (items.new.items ≡ items.old.items ++ of_waiting ways.now) }
{
    match ways {
        [] => {
            items.push(Item::NoPacket)?;
            Ok(())
        }
        [_, ..] => add_ways(items, ways),
    }
}

fn add_ways(items: &mut Vec<Item>, ways: &[(u8, u8)]) -> Result<(), NoMemory>
    ensures { OnOk result (items.new.items ≡ items.old.items ++ map of_way ways.now) }
{
    for way in ways {
        items.push(Item::Way {
            from: way.0,
            to: way.1,
        })?;
    }
    Ok(())
}

/// Adds a process and ends, at the kernel of the last entry and in the service.
fn add_named(items: &mut Vec<Item>, latest: Option<(u64, u8)>, named: Named) -> Result<(), NoMemory>
    ensures { OnOk result (items.new.items ≡ items.old.items ++ of_named latest named.entry) }
{
    add_process(items, named.process)?;
    add_one(items, latest, named.first)?;
    add_one(items, latest, named.second)?;
    add_ends(items, latest, named.others)
}

fn add_one(
    items: &mut Vec<Item>,
    latest: Option<(u64, u8)>,
    end: Option<EndId>,
) -> Result<(), NoMemory>
    ensures { OnOk result (items.new.items ≡ items.old.items ++ flat_map (of_end latest) (listed end)) }
{
    if let Some(end) = end {
        add_end(items, latest, end)?;
    }
    Ok(())
}

fn add_ends(
    items: &mut Vec<Item>,
    latest: Option<(u64, u8)>,
    ends: &[EndId],
) -> Result<(), NoMemory>
    ensures { OnOk result (items.new.items ≡ items.old.items ++ flat_map (of_end latest) ends.now) }
{
    for end in ends {
        add_end(items, latest, *end)?;
    }
    Ok(())
}

fn add_end(items: &mut Vec<Item>, latest: Option<(u64, u8)>, end: EndId) -> Result<(), NoMemory>
    ensures { OnOk result (items.new.items ≡ items.old.items ++ of_end latest end) }
{
    if let Some((_, kernel)) = latest {
        items.push(Item::Entry { kernel, end })?;
    }
    items.push(Item::Place(end))?;
    Ok(())
}

fn add_latest(items: &mut Vec<Item>, latest: Option<(u64, u8)>) -> Result<(), NoMemory>
    ensures { OnOk result (items.new.items ≡ items.old.items ++ of_latest latest) }
{
    if let Some((stamp, kernel)) = latest {
        items.push(Item::LastEntry { stamp, kernel })?;
    }
    Ok(())
}

fn add_process(items: &mut Vec<Item>, process: Option<Pid>) -> Result<(), NoMemory>
    ensures { OnOk result (items.new.items ≡ items.old.items ++ of_process process) }
{
    if let Some(p) = process {
        items.push(Item::Process(p))?;
    }
    Ok(())
}

fn add_home(items: &mut Vec<Item>, home: Option<u8>) -> Result<(), NoMemory>
    ensures { OnOk result (items.new.items ≡ items.old.items ++ of_home home) }
{
    if let Some(kernel) = home {
        items.push(Item::Stamp(kernel))?;
    }
    Ok(())
}
