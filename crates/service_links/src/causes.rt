//! Why a call on an end is refused: the first cause of the call that holds.
ghost use Rattle.std.specs.Prelude.{◌≡◌, not};
ghost use Rattle.std.specs.List.{list_any};
ghost use Rattle.charlotte_calls.specs.Causes.{activity, cancel_causes, destroy_causes, first_of, is_idle, is_late, receive_causes, send_causes};
ghost use Rattle.charlotte_calls.specs.EndEq.{end_eq, names_twice, same_link};
ghost use Rattle.charlotte_calls.specs.declared.names.Pid.{Pid};
ghost use Rattle.service_step.specs.Causes.{seen, sees};
ghost use Rattle.service_step.specs.Ends.{is_idle as is_idle_end};
ghost use Rattle.service_links.specs.Links.{ends_of};

use crate::{KeptEnd, Links};
use charlotte_calls::{Cause, EndId, Pid, Way};
use service_step::Inward;

/// The first cause of a Destroy that holds.
pub fn destroy_cause(links: &Links, p: Pid, on: EndId) -> Option<Cause>
    ensures { result ≡ first_of (destroy_causes (sees p (ends_of links.now) on)) }
{
    if links.look(on).is_owned_by(p) {
        return None;
    }
    Some(Cause::NoEnd)
}

/// The first cause of a Send that holds.
pub fn send_cause(links: &Links, p: Pid, on: EndId, enclose: &[EndId]) -> Option<Cause>
    ensures { result ≡ first_of (send_causes (sees p (ends_of links.now)) on enclose.now) }
{
    send_cause_at(links, links.look(on), p, on, enclose)
}

/// The first cause of a Send that holds, where what the end is was looked up.
pub fn send_cause_at(
    links: &Links,
    end: &KeptEnd,
    p: Pid,
    on: EndId,
    enclose: &[EndId],
) -> Option<Cause>
    requires { end.now ≡ ends_of links.now on }
    ensures { result ≡ first_of (send_causes (sees p (ends_of links.now)) on enclose.now) }
{
    if !end.is_owned_by(p) {
        return Some(Cause::NoEnd);
    }
    if !end.is_idle_outward() {
        return Some(Cause::Busy);
    }
    if end.noticed() {
        return Some(Cause::Dead);
    }
    if is_missing_one(links, p, enclose) {
        return Some(Cause::EncloseNoEnd);
    }
    if has_busy_one(links, enclose) {
        return Some(Cause::EncloseBusy);
    }
    if encloses_same(on, enclose) {
        return Some(Cause::EncloseSame);
    }
    if names_twice(enclose) {
        return Some(Cause::EncloseTwice);
    }
    None
}

/// The first cause of a Receive that holds.
pub fn receive_cause(links: &Links, p: Pid, on: EndId) -> Option<Cause>
    ensures { result ≡ first_of (receive_causes (sees p (ends_of links.now) on)) }
{
    receive_cause_at(links.look(on), p)
}

/// The first cause of a Receive on this end that holds.
pub fn receive_cause_at(end: &KeptEnd, p: Pid) -> Option<Cause>
    ensures { result ≡ first_of (receive_causes (seen p end.now)) }
{
    if !end.is_owned_by(p) {
        return Some(Cause::NoEnd);
    }
    if !end.inward().is_idle() {
        return Some(Cause::Busy);
    }
    if end.noticed() {
        return Some(Cause::Dead);
    }
    None
}

/// The first cause of a Cancel that holds.
pub fn cancel_cause(links: &Links, p: Pid, on: EndId, way: Way) -> Option<Cause>
    ensures { result ≡ first_of (cancel_causes way (sees p (ends_of links.now) on)) }
{
    let end = links.look(on);
    if !end.is_owned_by(p) {
        return Some(Cause::NoEnd);
    }
    if end.noticed() {
        return Some(Cause::Dead);
    }
    if is_late(way, end) {
        return Some(Cause::Late);
    }
    if has_no_activity(way, end) {
        return Some(Cause::NoActivity);
    }
    None
}

fn is_late(way: Way, end: &KeptEnd) -> bool
    ensures { (p : Pid) → result ≡ is_late (activity way (seen p end.now)) }
{
    match way {
        Way::Outward => end.is_past_waiting(),
        Way::Inward => matches!(end.inward(), Inward::Unreported),
    }
}

fn has_no_activity(way: Way, end: &KeptEnd) -> bool
    ensures { (p : Pid) → result ≡ is_idle (activity way (seen p end.now)) }
{
    match way {
        Way::Outward => end.is_idle_outward(),
        Way::Inward => end.inward().is_idle(),
    }
}

/// Whether one of these ends is not the process's.
fn is_missing_one(links: &Links, p: Pid, ends: &[EndId]) -> bool
    ensures { result ≡ list_any (λ x. not (sees p (ends_of links.now) x).owned) ends.now }
{
    ends.iter().any(|end| !links.look(*end).is_owned_by(p))
}

/// Whether an activity on one of these ends is started or unreported.
fn has_busy_one(links: &Links, ends: &[EndId]) -> bool
    ensures { result ≡ list_any (λ x. not (is_idle_end (ends_of links.now x))) ends.now }
{
    ends.iter().any(|end| !links.look(*end).is_idle())
}

/// Whether one of these ends is of the link of this end.
fn encloses_same(on: EndId, ends: &[EndId]) -> bool
    ensures { result ≡ list_any (same_link on) ends.now }
{
    ends.iter().any(|end| same_link(on, *end))
}

fn same_link(a: EndId, b: EndId) -> bool
    ensures { result ≡ same_link a b }
{
    a.link.maker == b.link.maker && a.link.count == b.link.count
}

/// Whether an end is named twice among these.
fn names_twice(ends: &[EndId]) -> bool
    ensures { result ≡ names_twice ends.now }
{
    match ends {
        [] => false,
        [first, others @ ..] => has_end(others, *first) || names_twice(others),
    }
}

#[tactic(auto, unfolding(charlotte_calls::specs::EndEq::end_eq))]
fn has_end(ends: &[EndId], end: EndId) -> bool
    ensures { result ≡ list_any (end_eq end) ends.now }
{
    ends.iter().any(|other| end == *other)
}
