ghost use Rattle.std.specs.Prelude.{◌≡◌, ◌<◌, false, Some, IfSome, length, map};
ghost use Rattle.charlotte_calls.specs.declared.names.EndId.{EndId};
ghost use Rattle.end_table.specs.Place.{put};
ghost use Rattle.end_table.specs.Table.{entries};
ghost use Rattle.end_table.specs.declared.entry.Entry.{Entry};
ghost use Rattle.end_table.specs.declared.entry.Entry.TheVariants.{Here, Nothing};
ghost use Rattle.kernel_process.specs.Closing.{HavePlace};
ghost use Rattle.kernel_process.specs.Active.{Tells};
ghost use Rattle.kernel_sound.specs.Owners.{owner_in, owner_of, IsCalmBut};
ghost use Rattle.kernel_process.specs.Parts.{process_state};

use crate::activity::{forget, has_activity, is_active, refresh};
use crate::process::Processes;
use charlotte_calls::{EndId, Pid};
use end_table::{Holder, Lent, Table};

/// The process that owns an end, if one does.
pub fn owner(table: &Table, end: EndId) -> Option<Pid>
    ensures { result ≡ owner_of (entries table.now end) }
{
    match table.lend(end) {
        Lent::Here(living) => owner_in(living.holder()),
        Lent::Nothing | Lent::Left { .. } | Lent::Destroyed(_) => None,
    }
}

/// The process that holds an end, if no message does.
pub fn owner_in(holder: Holder) -> Option<Pid>
    ensures { result ≡ owner_in holder }
{
    match holder {
        Holder::Owner(p) => Some(p),
        Holder::EnclosedIn(_) => None,
    }
}

/// An end changed, which a process owned before: the sets of active ends tell of it again.
#[inline(always)]
pub fn refresh_owner(table: &Table, processes: &mut Processes, before: Option<Pid>, end: EndId)
    requires before { IfSome before (λ p. p.0 < length processes.old) }
    requires after { IfSome (owner_of (entries table.now end)) (λ p. p.0 < length processes.old) }
    requires place { HavePlace processes.old }
    ensures told { (t : EndId → Entry) → before ≡ owner_of (t end) → Tells t processes.old → IsCalmBut end t (entries table.now) → Tells (entries table.now) processes.new }
    ensures kept { map process_state processes.new ≡ map process_state processes.old }
    ensures length { length processes.new ≡ length processes.old }
{
    match before {
        Some(p) => refresh_owned(table, processes, p, end),
        None => enlist(table, processes, end),
    }
}

/// An end changed, which this process owned before.
#[inline(always)]
fn refresh_owned(table: &Table, processes: &mut Processes, p: Pid, end: EndId)
    requires process { p.0 < length processes.old }
    requires after { IfSome (owner_of (entries table.now end)) (λ q. q.0 < length processes.old) }
    requires place { HavePlace processes.old }
    ensures told { (t : EndId → Entry) → Some p ≡ owner_of (t end) → Tells t processes.old → IsCalmBut end t (entries table.now) → Tells (entries table.now) processes.new }
    ensures kept { map process_state processes.new ≡ map process_state processes.old }
    ensures length { length processes.new ≡ length processes.old }
{
    match table.owned(p, end) {
        Some(living) => refresh(processes, p, end, has_activity(living)),
        None => {
            forget(processes, p, end);
            enlist(table, processes, end);
        }
    }
}

/// The set of the end's owner, if there is one, tells of it; no set did before.
#[inline(never)]
fn enlist(table: &Table, processes: &mut Processes, end: EndId)
    requires after { IfSome (owner_of (entries table.now end)) (λ p. p.0 < length processes.old) }
    requires place { HavePlace processes.old }
    ensures told { (t : EndId → Entry) → IsCalmBut end t (entries table.now) → Tells (put t end Nothing) processes.old → Tells (entries table.now) processes.new }
    ensures kept { map process_state processes.new ≡ map process_state processes.old }
    ensures length { length processes.new ≡ length processes.old }
{
    match owner(table, end) {
        Some(p) => refresh(processes, p, end, is_active(table, p, end)),
        None => {}
    }
}
