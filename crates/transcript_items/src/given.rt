//! The lines that the kernels give next.
ghost use Rattle.std.specs.Prelude.{◌≡◌, IfOk, OnOk, Some, max, option_map, unwrap_or};
ghost use Rattle.std.specs.List.{flat_map, range_with_len};
ghost use Rattle.charlotte_packets.specs.Packets.{packet_picture};
ghost use Rattle.kernel_entries.specs.declared.entry.Happened.TheVariants.{Asked};
ghost use Rattle.kernel_step.specs.Kernel.{next_stamp};
ghost use Rattle.transcript_items.specs.Given.{call_at, calls_of, entry_text, given, given_entry, listed_line, next_call, next_entries, next_taking, placed, taking_of, takings_at, takings_from};
ghost use Rattle.transcript_replay.specs.Course.{comes_after};
ghost use Rattle.transcript_shown.specs.Listing.{with_items};

use crate::kernels::{Doing, Kernels};
use crate::lines::{call_form, call_line, packet_line, step_line};
use charlotte_calls::{Call, NoMemory, Pid};
use charlotte_packets::Packet;
use std::alloc::Global;
use transcript_reading::LineKind;
use transcript_shown::Listing;

/// The one line that the kernels give in the place of a line: the step that is due, or the entry with its right numbers, if it may stand there.
pub fn given_line<K: Kernels>(
    alloc: Global,
    kernels: &K,
    kind: &LineKind,
) -> Result<Option<Vec<u8>>, NoMemory>
    requires { K.stand kernels.now }
    ensures { IfOk result (λ line. option_map (λ l. l.items) line ≡ given (K.kept kernels.now) kind.now) }
{
    match kernels.due() {
        Some(step) => {
            let line = step_line(alloc, step)?;
            Ok(Some(line))
        }
        None => given_entry(alloc, kernels, kind),
    }
}

/// The same where no step is due.
fn given_entry<K: Kernels>(
    alloc: Global,
    kernels: &K,
    kind: &LineKind,
) -> Result<Option<Vec<u8>>, NoMemory>
    requires { K.stand kernels.now }
    ensures { IfOk result (λ line. option_map (λ l. l.items) line ≡ given_entry (K.kept kernels.now) kind.now) }
{
    match kind {
        LineKind::CallEntry { p, call, .. } => right_call(alloc, kernels, *p, call),
        LineKind::PacketEntry { kernel, from, .. } => first_packet(alloc, kernels, *from, *kernel),
        _ => Ok(None),
    }
}

/// The line of a call, if its process runs and the merge has a place for it.
fn right_call<K: Kernels>(
    alloc: Global,
    kernels: &K,
    p: Pid,
    call: &Call,
) -> Result<Option<Vec<u8>>, NoMemory>
    requires { K.stand kernels.now }
    ensures { IfOk result (λ line. option_map (λ l. l.items) line ≡ option_map (λ at. entry_text at (Asked p call.now)) (next_call (K.kept kernels.now) p)) }
{
    match call_place(kernels, p) {
        Some((stamp, kernel)) => {
            let line = call_line(alloc, stamp, kernel, p, call)?;
            Ok(Some(line))
        }
        None => Ok(None),
    }
}

/// Stamp and kernel of the next call of a process, if it runs and the merge has a place for it.
fn call_place<K: Kernels>(kernels: &K, p: Pid) -> Option<(u64, u8)>
    requires { K.stand kernels.now }
    ensures { result ≡ next_call (K.kept kernels.now) p }
{
    match kernels.doing(p) {
        Some((kernel, Doing::Runs)) => call_at(kernels.latest(), kernel, kernels.stamp(kernel)),
        Some((_, Doing::Waits)) => None,
        Some((_, Doing::Exited)) => None,
        None => None,
    }
}

/// Those of the next call at a kernel with this last stamp.
fn call_at(latest: Option<(u64, u8)>, kernel: u8, stamp: Option<u64>) -> Option<(u64, u8)>
    ensures { result ≡ call_at latest kernel stamp }
{
    match stamp {
        Some(stamp) => placed(latest, stamp_after(stamp), kernel),
        None => None,
    }
}

/// The line of the first packet on a way, if one waits and the merge has a place for it.
fn first_packet<K: Kernels>(
    alloc: Global,
    kernels: &K,
    from: u8,
    kernel: u8,
) -> Result<Option<Vec<u8>>, NoMemory>
    requires { K.stand kernels.now }
    ensures { IfOk result (λ line. option_map (λ l. l.items) line ≡ next_taking (K.kept kernels.now) from kernel) }
{
    match kernels.first(from, kernel) {
        Some(packet) => taking_line(alloc, kernels, from, kernel, packet),
        None => Ok(None),
    }
}

/// The line of a packet that a kernel takes next, if the merge has a place for it.
fn taking_line<K: Kernels>(
    alloc: Global,
    kernels: &K,
    from: u8,
    kernel: u8,
    packet: &Packet,
) -> Result<Option<Vec<u8>>, NoMemory>
    requires { K.stand kernels.now }
    ensures { IfOk result (λ line. option_map (λ l. l.items) line ≡ taking_of (K.kept kernels.now) from kernel (Some (packet_picture packet.now))) }
{
    let stamp = taking_stamp(kernels.stamp(kernel), packet.stamp);
    match placed(kernels.latest(), stamp, kernel) {
        Some((stamp, kernel)) => {
            let line = packet_line(alloc, stamp, kernel, from, packet)?;
            Ok(Some(line))
        }
        None => Ok(None),
    }
}

/// The stamp with which a kernel of this last stamp takes a packet of that one.
fn taking_stamp(last: Option<u64>, sent: u64) -> u64
    ensures { result ≡ next_stamp (max (unwrap_or last 0) sent) }
{
    let last = last.unwrap_or(0);
    stamp_after(if last < sent { sent } else { last })
}

/// The stamp of the event after one with this stamp.
fn stamp_after(stamp: u64) -> u64
    ensures { result ≡ next_stamp stamp }
{
    stamp.saturating_add(1)
}

/// Stamp and kernel of an entry, if it may stand behind the last one.
fn placed(latest: Option<(u64, u8)>, stamp: u64, kernel: u8) -> Option<(u64, u8)>
    ensures { result ≡ placed latest stamp kernel }
{
    if is_behind(latest, stamp, kernel) {
        Some((stamp, kernel))
    } else {
        None
    }
}

/// Whether an entry may stand behind the last one.
fn is_behind(latest: Option<(u64, u8)>, stamp: u64, kernel: u8) -> bool
    ensures { result ≡ comes_after latest stamp kernel }
{
    match latest {
        Some((at, by)) => at < stamp || (at == stamp && by < kernel),
        None => true,
    }
}

/// Adds each entry that may stand next: a call of each process that runs, and the first packet on each way.
pub fn add_next_entries<K: Kernels>(
    alloc: Global,
    lines: &mut Listing,
    kernels: &K,
) -> Result<(), NoMemory>
    requires { K.stand kernels.now }
    ensures { OnOk result (lines.new ≡ with_items (next_entries (K.kept kernels.now)) lines.old) }
{
    add_calls(alloc, lines, kernels, 64)?;
    add_takings(alloc, lines, kernels)?;
    Ok(())
}

/// Adds a call of each process below a number, if it runs and the merge has a place for it.
fn add_calls<K: Kernels>(
    alloc: Global,
    lines: &mut Listing,
    kernels: &K,
    below: u16,
) -> Result<(), NoMemory>
    requires { K.stand kernels.now }
    ensures { OnOk result (lines.new ≡ with_items (flat_map (calls_of (K.kept kernels.now)) (range_with_len 0 below)) lines.old) }
{
    for number in 0..below {
        add_call(alloc, lines, kernels, Pid(number))?;
    }
    Ok(())
}

fn add_call<K: Kernels>(
    alloc: Global,
    lines: &mut Listing,
    kernels: &K,
    p: Pid,
) -> Result<(), NoMemory>
    requires { K.stand kernels.now }
    ensures { OnOk result (lines.new ≡ with_items (calls_of (K.kept kernels.now) p.0) lines.old) }
{
    match call_place(kernels, p) {
        Some((stamp, kernel)) => {
            let form = call_form(alloc, stamp, kernel, p)?;
            lines.add(form.as_slice())
        }
        None => Ok(()),
    }
}

/// Adds the first packet to each kernel from each, if the merge has a place for it.
fn add_takings<K: Kernels>(alloc: Global, lines: &mut Listing, kernels: &K) -> Result<(), NoMemory>
    requires { K.stand kernels.now }
    ensures { OnOk result (lines.new ≡ with_items (flat_map (takings_at (K.kept kernels.now)) (range_with_len 0 (K.kept kernels.now).setting.kernels)) lines.old) }
{
    for kernel in 0..kernels.count() {
        add_takings_at(alloc, lines, kernels, kernel)?;
    }
    Ok(())
}

fn add_takings_at<K: Kernels>(
    alloc: Global,
    lines: &mut Listing,
    kernels: &K,
    kernel: u8,
) -> Result<(), NoMemory>
    requires { K.stand kernels.now }
    ensures { OnOk result (lines.new ≡ with_items (takings_at (K.kept kernels.now) kernel) lines.old) }
{
    for from in 0..kernels.count() {
        add_taking(alloc, lines, kernels, from, kernel)?;
    }
    Ok(())
}

fn add_taking<K: Kernels>(
    alloc: Global,
    lines: &mut Listing,
    kernels: &K,
    from: u8,
    kernel: u8,
) -> Result<(), NoMemory>
    requires { K.stand kernels.now }
    ensures { OnOk result (lines.new ≡ with_items (takings_from (K.kept kernels.now) kernel from) lines.old) }
{
    let line = first_packet(alloc, kernels, from, kernel)?;
    add_listed(lines, line)?;
    Ok(())
}

/// Adds a line, if there is one.
fn add_listed(lines: &mut Listing, line: Option<Vec<u8>>) -> Result<(), NoMemory>
    ensures { OnOk result (lines.new ≡ with_items (listed_line (option_map (λ l. l.items) line)) lines.old) }
{
    match line {
        Some(line) => lines.add(line.as_slice()),
        None => Ok(()),
    }
}
