ghost use Rattle.std.specs.Prelude.{◌≡◌, ◌||◌, not, nat_eq, if◌then◌else◌, None, Some, List, [], ◌∷◌, length};
ghost use Rattle.std.specs.List.{list_any};
ghost use Rattle.charlotte_calls.specs.Causes.{cancel_causes, destroy_causes, first_of as first_cause, is_busy, is_idle, is_late, make_causes, receive_causes, send_causes};
ghost use Rattle.charlotte_calls.specs.EndEq.{end_eq, names_twice, same_link};
ghost use Rattle.charlotte_calls.specs.declared.calls.Cause.TheVariants as cause;
ghost use Rattle.charlotte_calls.specs.declared.names.EndId.{EndId};
ghost use Rattle.end_table.specs.Message.{outward_of};
ghost use Rattle.end_table.specs.Owned.{owned};
ghost use Rattle.end_table.specs.Table.{entries};
ghost use Rattle.kernel_step.specs.Calls.{inward_activity, is_active, outward_activity, refusal, sees, IsCallWith};
ghost use Rattle.kernel_step.specs.Kernel.{has_report};
ghost use Rattle.kernel_process.specs.Parts.{process_state};

use charlotte_calls::{Call, Cause, EndId, LINK_LIMIT, Pid, Way};
use end_table::{Inward, Living, Sending, Table};
use kernel_process::ControlBlock;
use kernel_step::first_of;

/// The first cause for which a call is refused, if one holds. It costs no more than a look-up for each enclosed end.
pub fn refusal(
    table: &Table,
    made: u32,
    process: &ControlBlock,
    p: Pid,
    call: &Call,
) -> Option<Cause>
    requires active { (e : EndId) → list_any (end_eq e) process.now.active.keys ≡ is_active (owned p (entries table.now e)) }
    ensures { (mine : List EndId) → IsCallWith p (entries table.now) mine call.now
        → result ≡ refusal p (entries table.now) made mine (has_report (process_state process.now)) call.now }
{
    match call {
        Call::Make => make_refusal(made),
        Call::Destroy { on } => destroy_refusal(table, p, *on),
        Call::Send { on, enclose, .. } => send_refusal(table, p, *on, enclose.as_slice()),
        Call::Receive { on } => receive_refusal(table, p, *on),
        Call::Cancel { on, way } => cancel_refusal(table, p, *on, *way),
        Call::Wait => wait_refusal(process),
        Call::Print { .. } | Call::Exit => None,
    }
}

fn make_refusal(made: u32) -> Option<Cause>
    ensures { result ≡ first_cause (make_causes made) }
{
    if LINK_LIMIT <= made {
        return Some(Cause::LinksFull);
    }
    None
}

fn destroy_refusal(table: &Table, p: Pid, on: EndId) -> Option<Cause>
    ensures { result ≡ first_cause (destroy_causes (sees p (entries table.now) on)) }
{
    match table.owned(p, on) {
        None => Some(Cause::NoEnd),
        Some(_) => None,
    }
}

fn send_refusal(table: &Table, p: Pid, on: EndId, enclose: &[EndId]) -> Option<Cause>
    ensures { result ≡ first_cause (send_causes (sees p (entries table.now)) on enclose.now) }
{
    match table.owned(p, on) {
        None => Some(Cause::NoEnd),
        Some(living) => send_cause(table, p, on, enclose, living),
    }
}

/// The cause of a Send on an end that the process owns.
fn send_cause(table: &Table, p: Pid, on: EndId, enclose: &[EndId], living: &Living) -> Option<Cause>
    requires { Some living.now ≡ owned p (entries table.now on) }
    ensures { result ≡ first_cause (send_causes (sees p (entries table.now)) on enclose.now) }
{
    if !is_idle_outward(living.outward()) {
        return Some(Cause::Busy);
    }
    if living.value().dead {
        return Some(Cause::Dead);
    }
    if encloses_no_end(table, p, enclose) {
        return Some(Cause::EncloseNoEnd);
    }
    if encloses_busy(table, p, enclose) {
        return Some(Cause::EncloseBusy);
    }
    if encloses_same(on, enclose) {
        return Some(Cause::EncloseSame);
    }
    if names_twice(enclose) {
        return Some(Cause::EncloseTwice);
    }
    None
}

fn receive_refusal(table: &Table, p: Pid, on: EndId) -> Option<Cause>
    ensures { result ≡ first_cause (receive_causes (sees p (entries table.now) on)) }
{
    match table.owned(p, on) {
        None => Some(Cause::NoEnd),
        Some(living) if !is_idle_inward(living.inward()) => Some(Cause::Busy),
        Some(living) if living.value().dead => Some(Cause::Dead),
        Some(_) => None,
    }
}

fn cancel_refusal(table: &Table, p: Pid, on: EndId, way: Way) -> Option<Cause>
    ensures { result ≡ first_cause (cancel_causes way (sees p (entries table.now) on)) }
{
    match table.owned(p, on) {
        None => Some(Cause::NoEnd),
        Some(living) if living.value().dead => Some(Cause::Dead),
        Some(living) => match way {
            Way::Outward => cancel_send_cause(living.outward()),
            Way::Inward => cancel_receive_cause(living.inward()),
        },
    }
}

/// The cause of a Cancel of this send, on an end that is not dead.
fn cancel_send_cause(outward: &Sending) -> Option<Cause>
    ensures { result ≡ first_cause ((is_late (outward_activity (outward_of outward.now)), cause.Late) ∷ (is_idle (outward_activity (outward_of outward.now)), cause.NoActivity) ∷ []) }
{
    match outward {
        Sending::Idle => Some(Cause::NoActivity),
        Sending::Waiting { .. } => None,
        Sending::Matched { .. } | Sending::Unreported => Some(Cause::Late),
    }
}

/// The cause of a Cancel of this receive, on an end that is not dead.
fn cancel_receive_cause(inward: Inward) -> Option<Cause>
    ensures { result ≡ first_cause ((is_late (inward_activity inward), cause.Late) ∷ (is_idle (inward_activity inward), cause.NoActivity) ∷ []) }
{
    match inward {
        Inward::Idle => Some(Cause::NoActivity),
        Inward::Posted { .. } | Inward::Withdrawing { .. } => None,
        Inward::Unreported => Some(Cause::Late),
    }
}

/// A Wait needs a report that stands, or an activity that is started.
fn wait_refusal(process: &ControlBlock) -> Option<Cause>
    ensures { result ≡ (if not (nat_eq (length process.now.reports.items) 0) || not (nat_eq (length process.now.active.keys) 0) then None else Some cause.NoActivity) }
{
    if process.reports.is_empty() && process.active.is_empty() {
        return Some(Cause::NoActivity);
    }
    None
}

fn is_idle_outward(outward: &Sending) -> bool
    ensures { result ≡ is_idle (outward_activity (outward_of outward.now)) }
{
    matches!(outward, Sending::Idle)
}

fn is_idle_inward(inward: Inward) -> bool
    ensures { result ≡ is_idle (inward_activity inward) }
{
    matches!(inward, Inward::Idle)
}

/// Whether one of these ends is not the process's.
fn encloses_no_end(table: &Table, p: Pid, ends: &[EndId]) -> bool
    ensures { result ≡ list_any (λ x. not (sees p (entries table.now) x).owned) ends.now }
{
    ends.iter().any(|end| table.owned(p, *end).is_none())
}

/// Whether one of these ends of the process has an activity.
fn encloses_busy(table: &Table, p: Pid, ends: &[EndId]) -> bool
    ensures { result ≡ list_any (λ x. is_busy (sees p (entries table.now) x)) ends.now }
{
    ends.iter().any(|end| is_busy(table, p, *end))
}

fn is_busy(table: &Table, p: Pid, end: EndId) -> bool
    ensures { result ≡ is_busy (sees p (entries table.now) end) }
{
    match table.owned(p, end) {
        None => false,
        Some(living) => !(is_idle_outward(living.outward()) && is_idle_inward(living.inward())),
    }
}

/// Whether one of these ends is of the link of this end.
fn encloses_same(on: EndId, ends: &[EndId]) -> bool
    ensures { result ≡ list_any (same_link on) ends.now }
{
    ends.iter().any(|end| same_link(on, *end))
}

fn same_link(a: EndId, b: EndId) -> bool
    ensures { result ≡ same_link a b }
{
    a.link.maker == b.link.maker && a.link.count == b.link.count
}

/// Whether an end is named twice among these.
fn names_twice(ends: &[EndId]) -> bool
    ensures { result ≡ names_twice ends.now }
{
    match first_of(ends) {
        None => false,
        Some((first, others)) => has_end(others, first) || names_twice(others),
    }
}

#[tactic(auto, unfolding(charlotte_calls::specs::EndEq::end_eq))]
fn has_end(ends: &[EndId], end: EndId) -> bool
    ensures { result ≡ list_any (end_eq end) ends.now }
{
    ends.iter().any(|other| end == *other)
}
