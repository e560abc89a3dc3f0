//! Which ends of a process have a started activity.
ghost use Rattle.std.specs.Prelude.{◌≡◌, ◌<◌, ◌≤◌, ◌&&◌, nat_eq, true, false, [], Some, map, length, slice_get, if◌then◌else◌};
ghost use Rattle.std.specs.List.{list_any};
ghost use Rattle.charlotte_calls.specs.Causes.{is_started};
ghost use Rattle.charlotte_calls.specs.declared.names.EndId.{EndId};
ghost use Rattle.charlotte_calls.specs.declared.names.Pid.{Pid};
ghost use Rattle.indexmap.specs.IndexSet.{spare};
ghost use Rattle.end_table.specs.Message.{outward_of};
ghost use Rattle.end_table.specs.Owned.{owned};
ghost use Rattle.end_table.specs.Place.{end_eq};
ghost use Rattle.end_table.specs.Table.{entries};
ghost use Rattle.kernel_step.specs.Calls.{is_active, outward_activity, inward_activity};
ghost use Rattle.kernel_process.specs.Closing.{HavePlace};
ghost use Rattle.kernel_process.specs.Active.{started_ends, Refreshes, Empties};
ghost use Rattle.kernel_process.specs.Parts.{process_state};
ghost use Rattle.kernel_process.specs.declared.process.ControlBlock.{ControlBlock};

use crate::process::Processes;
use charlotte_calls::{EndId, Pid};
use end_table::{Inward, Living, Sending, Table};
use indexmap::IndexSet;

/// The set of process `p` has this end exactly where `started` says so.
#[inline(always)]
pub fn refresh(processes: &mut Processes, p: Pid, end: EndId, started: bool)
    requires process { p.0 < length processes.old }
    requires place { HavePlace processes.old }
    ensures kept { map process_state processes.new ≡ map process_state processes.old }
    ensures length { length processes.new ≡ length processes.old }
    ensures active { Refreshes p end started processes.old processes.new }
{
    let process = processes.at_mut(usize::from(p.0));
    note(&mut process.active, end, started);
}

/// The set of process `p` has this end no more.
pub fn forget(processes: &mut Processes, p: Pid, end: EndId)
    requires process { p.0 < length processes.old }
    requires place { HavePlace processes.old }
    ensures kept { map process_state processes.new ≡ map process_state processes.old }
    ensures length { length processes.new ≡ length processes.old }
    ensures active { Refreshes p end false processes.old processes.new }
    ensures place { HavePlace processes.new }
{
    let process = processes.at_mut(usize::from(p.0));
    remove(&mut process.active, end);
}

/// The set of process `p` has no end.
pub fn clear(processes: &mut Processes, p: Pid)
    requires { p.0 < length processes.old }
    ensures kept { map process_state processes.new ≡ map process_state processes.old }
    ensures length { length processes.new ≡ length processes.old }
    ensures active { Empties p processes.old processes.new }
{
    let process = processes.at_mut(usize::from(p.0));
    process.active.clear();
}

/// The set has this end exactly where `started` says so, and every other end as before.
#[inline(always)]
fn note(active: &mut IndexSet<EndId>, end: EndId, started: bool)
    requires { 1 ≤ spare active.old }
    ensures { (e : EndId) → list_any (end_eq e) active.new.keys ≡ (if end_eq end e then started else list_any (end_eq e) active.old.keys) }
{
    if started {
        add(active, end);
    } else {
        remove(active, end);
    }
}

#[tactic(auto, unfolding(end_table::specs::Place::end_eq))]
#[inline(always)]
fn add(active: &mut IndexSet<EndId>, end: EndId)
    requires { 1 ≤ spare active.old }
    ensures { (e : EndId) → list_any (end_eq e) active.new.keys ≡ (if end_eq end e then true else list_any (end_eq e) active.old.keys) }
{
    match active.insert(end) {
        Ok(_) => {}
        Err(_) => unreachable!(),
    }
}

/// Takes an end out of a set, which most often is empty.
fn remove(active: &mut IndexSet<EndId>, end: EndId)
    ensures keys { (e : EndId) → list_any (end_eq e) active.new.keys ≡ (if end_eq end e then false else list_any (end_eq e) active.old.keys) }
    ensures room { spare active.old ≤ spare active.new }
{
    if !active.is_empty() {
        take_out(active, end);
    }
}

#[tactic(auto, unfolding(end_table::specs::Place::end_eq))]
fn take_out(active: &mut IndexSet<EndId>, end: EndId)
    ensures keys { (e : EndId) → list_any (end_eq e) active.new.keys ≡ (if end_eq end e then false else list_any (end_eq e) active.old.keys) }
    ensures room { spare active.old ≤ spare active.new }
{
    active.swap_remove(&end);
}

/// Whether a process owns this end, with a started activity on it.
pub fn is_active(table: &Table, p: Pid, end: EndId) -> bool
    ensures { result ≡ is_active (owned p (entries table.now end)) }
{
    match table.owned(p, end) {
        Some(living) => has_activity(living),
        None => false,
    }
}

/// Whether an activity is started on an end that is here.
pub fn has_activity(living: &Living) -> bool
    ensures { result ≡ is_active (Some living.now) }
{
    is_started_outward(living.outward()) || is_started_inward(living.inward())
}

fn is_started_outward(outward: &Sending) -> bool
    ensures { result ≡ is_started (outward_activity (outward_of outward.now)) }
{
    matches!(outward, Sending::Waiting { .. } | Sending::Matched { .. })
}

fn is_started_inward(inward: Inward) -> bool
    ensures { result ≡ is_started (inward_activity inward) }
{
    matches!(inward, Inward::Posted { .. } | Inward::Withdrawing { .. })
}
