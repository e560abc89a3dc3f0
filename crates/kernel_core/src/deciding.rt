ghost use Rattle.std.specs.Prelude.{◌≡◌, ◌<◌, true, false, length, None, Some, IfOk, OnOk, OnErr};
ghost use Rattle.charlotte_calls.specs.declared.calls.Call.TheVariants as calls;
ghost use Rattle.end_table.specs.Table.{entries};
ghost use Rattle.kernel_event.specs.Places.{IsPlacedFor};
ghost use Rattle.kernel_core.specs.Consistent.{IsConsistent, Keeps, OnlyReserves};
ghost use Rattle.kernel_core.specs.Started.{IsRequest, IsReadyToCall};
ghost use Rattle.kernel_core.specs.Stepping.{IsCalled, AreListedFor, IsRefusedFor};

use crate::calling::{act_and_close, close_step, links_after};
use crate::room::{reserve_active, reserve_made, room_of_call};
use crate::state::{Request, State, no_effect};
use charlotte_calls::{Answer, Call, Cause, EndId, NoMemory, Pid, ServiceStep};
use charlotte_packets::Effect;
use end_table::Table;
use kernel_process::{stand, wait};
use kernel_refusal::refusal;
use kernel_touched::{refresh_touched, touched_of};
use std::alloc::Global;

/// The event of a call, which is put into `effect`; `mine` are the ends that the caller owns, in order, where it exits.
fn decide(state: &mut State, request: &Request, mine: &[EndId], effect: &mut Effect)
    requires consistent { IsConsistent state.old }
    requires request { IsRequest state.old request.now mine.now }
    requires ready { IsReadyToCall state.old request.now mine.now state.old.event }
    ensures step { IsCalled state.old state.old.event.work.stamp state.new effect.new request.now.p request.now.call }
    ensures keeps { Keeps state.old state.new }
{
    match cause_of(state, request) {
        Some(cause) => refuse(state, request, mine, cause, effect),
        None => {
            if is_wait(&request.call) {
                wait_for_report(state, request, mine, effect)
            } else {
                perform(state, request, mine, effect)
            }
        }
    }
}

/// The first cause for which a call is refused, if one holds.
fn cause_of(state: &State, request: &Request) -> Option<Cause>
    requires consistent { IsConsistent state.now }
    requires process { request.now.p.0 < length state.now.processes }
    ensures { IsRefusedFor state.now.table state.now.processes state.now.made request.now.p request.now.call result }
{
    let process = state.processes.at(usize::from(request.p.0));
    refusal(&state.table, state.made, process, request.p, &request.call)
}

/// The event of a call that is refused.
fn refuse(state: &mut State, request: &Request, mine: &[EndId], cause: Cause, effect: &mut Effect)
    requires consistent { IsConsistent state.old }
    requires request { IsRequest state.old request.now mine.now }
    requires refused { IsRefusedFor state.old.table state.old.processes state.old.made request.now.p request.now.call (Some cause) }
    requires ready { IsReadyToCall state.old request.now mine.now state.old.event }
    ensures step { IsCalled state.old state.old.event.work.stamp state.new effect.new request.now.p request.now.call }
    ensures keeps { Keeps state.old state.new }
{
    state.table.has_list_of(request.p);
    let p = request.p;
    let call = request.call.copy();
    close_step(state, ServiceStep::Refuse { p, call, cause }, effect);
    stand(&mut state.processes, effect, p, Answer::Refused(cause));
}

fn is_wait(call: &Call) -> bool
    ensures yes { result ≡ true → call.now ≡ calls.Wait }
    ensures no { result ≡ false → call.now ≡ calls.Wait → ⊥ }
{
    matches!(call, Call::Wait)
}

/// The event of a Wait that is not refused.
fn wait_for_report(state: &mut State, request: &Request, mine: &[EndId], effect: &mut Effect)
    requires consistent { IsConsistent state.old }
    requires request { IsRequest state.old request.now mine.now }
    requires wait { request.now.call ≡ calls.Wait }
    requires granted { IsRefusedFor state.old.table state.old.processes state.old.made request.now.p request.now.call None }
    requires ready { IsReadyToCall state.old request.now mine.now state.old.event }
    ensures step { IsCalled state.old state.old.event.work.stamp state.new effect.new request.now.p request.now.call }
    ensures keeps { Keeps state.old state.new }
{
    let p = request.p;
    state.table.has_list_of(p);
    close_step(state, ServiceStep::Wait { p }, effect);
    wait(&mut state.table, &mut state.processes, effect, p);
}

/// The event of another call that is not refused.
fn perform(state: &mut State, request: &Request, mine: &[EndId], effect: &mut Effect)
    requires consistent { IsConsistent state.old }
    requires request { IsRequest state.old request.now mine.now }
    requires granted { IsRefusedFor state.old.table state.old.processes state.old.made request.now.p request.now.call None }
    requires other { request.now.call ≡ calls.Wait → ⊥ }
    requires ready { IsReadyToCall state.old request.now mine.now state.old.event }
    ensures step { IsCalled state.old state.old.event.work.stamp state.new effect.new request.now.p request.now.call }
    ensures keeps { Keeps state.old state.new }
{
    let p = request.p;
    let touched = touched_of(p, &request.call);
    let links = links_after(&request.call, state.made);
    act_and_close(state, request, mine, effect);
    refresh_touched(&state.table, &mut state.processes, p, touched);
    state.made = links;
}

/// The event of a call with this stamp. For want of memory nothing has changed that counts.
#[inline(always)]
pub(crate) fn call_event(
    alloc: Global,
    state: &mut State,
    request: &Request,
    stamp: u64,
) -> Result<Effect, NoMemory>
    requires consistent { IsConsistent state.old }
    requires process { request.now.p.0 < length state.old.processes }
    ensures step { IfOk result (λ effect. IsCalled state.old stamp state.new effect request.now.p request.now.call) }
    ensures same { OnErr result (OnlyReserves state.old state.new) }
    ensures keeps { Keeps state.old state.new }
{
    match reserve_calling(alloc, state, request, stamp) {
        Ok(mine) => {
            let mut effect = no_effect(alloc);
            decide(state, request, mine.as_slice(), &mut effect);
            Ok(effect)
        }
        Err(NoMemory) => Err(NoMemory),
    }
}

/// Reserves all that the event of a call needs, and lists the caller's ends where it exits.
fn reserve_calling(
    alloc: Global,
    state: &mut State,
    request: &Request,
    stamp: u64,
) -> Result<Vec<EndId>, NoMemory>
    requires process { request.now.p.0 < length state.old.processes }
    ensures request { IfOk result (λ mine. IsRequest state.new request.now mine.items) }
    ensures ready { IfOk result (λ mine. IsReadyToCall state.new request.now mine.items state.new.event) }
    ensures stamp { OnOk result (state.new.event.work.stamp ≡ stamp) }
    ensures same { OnlyReserves state.old state.new }
{
    reserve_active(&mut state.processes, &request.call)?;
    reserve_places(&mut state.table, state.made, &request.call)?;
    let mine = list_ends(alloc, &state.table, request.p, &request.call)?;
    let room = room_of_call(&request.call);
    state.event.begin(stamp, room, mine.len(), 1)?;
    Ok(mine)
}

/// Where the call is a Make, both ends of the new link get places.
fn reserve_places(table: &mut Table, made: u32, call: &Call) -> Result<(), NoMemory>
    ensures placed { OnOk result (IsPlacedFor call.now table.new made) }
    ensures entries { entries table.new ≡ entries table.old }
    ensures kernel { table.new.kernel ≡ table.old.kernel }
{
    match call {
        Call::Make => reserve_made(table, made),
        _ => Ok(()),
    }
}

/// The ends of the caller, in order, where it exits; else none.
fn list_ends(alloc: Global, table: &Table, p: Pid, call: &Call) -> Result<Vec<EndId>, NoMemory>
    ensures { IfOk result (λ mine. AreListedFor p table.now mine.items call.now) }
{
    match call {
        Call::Exit => table.owned_by(p),
        _ => Ok(Vec::new(alloc)),
    }
}
