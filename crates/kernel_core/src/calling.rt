ghost use Rattle.std.specs.Prelude.{◌≡◌, ◌+◌, ◌<◌, ℕ, Bool, [], None, Some, length};
ghost use Rattle.charlotte_calls.specs.Causes.{link_limit};
ghost use Rattle.charlotte_calls.specs.declared.names.EndId.{EndId};
ghost use Rattle.charlotte_calls.specs.declared.names.Pid.{Pid};
ghost use Rattle.end_table.specs.Owned.{owned};
ghost use Rattle.end_table.specs.Table.{entries};
ghost use Rattle.end_table.specs.declared.entry.Entry.{Entry};
ghost use Rattle.kernel_sound.specs.Acts.{acts, made_after};
ghost use Rattle.kernel_sound.specs.Sound.{IsSound};
ghost use Rattle.kernel_process.specs.Closing.{CanClose};
ghost use Rattle.kernel_process.specs.Parts.{with_parts, ended, HasPlaces};
ghost use Rattle.kernel_process.specs.Steady.{StaysCalm, TakesAtMost};
ghost use Rattle.kernel_core.specs.Consistent.{IsConsistent};
ghost use Rattle.kernel_core.specs.Finishing.{finishes, finished, ending_of, turned, turned_on, turned_to};
ghost use Rattle.kernel_core.specs.Started.{IsRequest, IsReadyToCall};
ghost use Rattle.kernel_step.specs.Calls.{refusal};
ghost use Rattle.kernel_step.specs.Kernel.{Kernel, closes};
ghost use Rattle.kernel_step.specs.Progress.{progress, means, HasRoom};
ghost use Rattle.kernel_step.specs.Room.{one_step};
ghost use Rattle.kernel_touched.specs.Touched.{touched_by, IsCalmAfter};

use crate::state::{Request, State};
use charlotte_calls::{Answer, Call, EndId, LinkId, Pid, ServiceStep, Side, Way};
use charlotte_packets::Effect;
use end_table::{Inward, Living, Table};
use kernel_event::act;
use kernel_process::{Processes, close, exit, stand, turn};
use kernel_step::{Phase, push_step};

/// How a call that is no Wait ends.
#[derive(Drop)]
enum Ending {
    /// It was done.
    Done,
    /// The link that it made has these ends.
    Made(EndId, EndId),
    /// Its answer comes to stand in a later event.
    Later,
    /// The process exits.
    Exit,
}

/// The event that means this step and adds nothing else is over; what it gives is put into `effect`.
#[inline(always)]
pub(crate) fn close_step(state: &mut State, meant: ServiceStep, effect: &mut Effect)
    requires reports { state.old.event.work.reports.items ≡ [] }
    requires answers { state.old.event.work.answers.items ≡ [] }
    requires room { HasRoom one_step state.old.event.work }
    requires closes { CanClose 0 1 state.old.event }
    ensures part { (s : Kernel) → ended (with_parts (entries state.new.table) state.new.processes (record s { stamp = effect.new.stamp })) effect.new
        ≡ closes (with_parts (entries state.old.table) state.old.processes s) (means meant (progress (entries state.old.table) state.old.event.work)) }
    ensures calm { StaysCalm state.old.table state.new.table }
    ensures kept { TakesAtMost 0 state.old.processes state.new.processes }
    ensures places { (a s : ℕ) → CanClose a (s + 1) state.old.event → HasPlaces a s effect.new }
    ensures made { state.new.made ≡ state.old.made }
{
    push_step(&mut state.event.work, meant);
    *effect = close(&mut state.table, &mut state.processes, &mut state.event);
}

/// How many links are made after a call that is not refused.
pub(crate) fn links_after(call: &Call, made: u32) -> u32
    requires { call.now ≡ Call.Make → made < link_limit }
    ensures { result ≡ made_after call.now made }
{
    match call {
        Call::Make => made + 1,
        _ => made,
    }
}

/// What a call does, to the end of its event, which is put into `effect`; the sets of active ends and the number of links stay.
pub(crate) fn act_and_close(
    state: &mut State,
    request: &Request,
    mine: &[EndId],
    effect: &mut Effect,
)
    requires consistent { IsConsistent state.old }
    requires request { IsRequest state.old request.now mine.now }
    requires granted { (reported : Bool) × (refusal request.now.p (entries state.old.table) state.old.made mine.now reported request.now.call ≡ None) }
    requires other { request.now.call ≡ Call.Wait → ⊥ }
    requires ready { IsReadyToCall state.old request.now mine.now state.old.event }
    ensures part { (s : Kernel) → ended (with_parts (entries state.new.table) state.new.processes (record s { made = made_after request.now.call state.old.made; stamp = effect.new.stamp })) effect.new
        ≡ finishes request.now.p state.old.table.kernel state.old.made request.now.call
        (closes (record (turned request.now.p request.now.call (with_parts (entries state.old.table) state.old.processes s)) { made = made_after request.now.call state.old.made })
        (acts request.now.p state.old.table.kernel state.old.made mine.now request.now.call (progress (entries state.old.table) state.old.event.work))) }
    ensures sound { IsSound state.new.table.kernel (made_after request.now.call state.old.made) (length state.old.processes) (entries state.new.table) }
    ensures calm { IsCalmAfter request.now.p (touched_by (entries state.old.table) request.now.call) (entries state.old.table) (entries state.new.table) }
    ensures kept { TakesAtMost 0 state.old.processes state.new.processes }
    ensures kernel { state.new.table.kernel ≡ state.old.table.kernel }
{
    let Request { p, call } = request;
    let p = *p;
    let ending = ending_of(state.table.kernel(), state.made, call);
    turn_caller(&state.table, &mut state.processes, p, call);
    act(
        &mut state.table,
        state.made,
        p,
        mine,
        call,
        &mut state.event.work,
    );
    *effect = close(&mut state.table, &mut state.processes, &mut state.event);
    finish(&mut state.processes, effect, p, ending);
}

/// How a call that is no Wait ends, at a kernel that made so many links before.
fn ending_of(kernel: u8, made: u32, call: &Call) -> Ending
    ensures { result ≡ ending_of kernel made call.now }
{
    match call {
        Call::Make => {
            let link = LinkId {
                maker: kernel,
                count: made,
            };
            let a = EndId {
                link,
                side: Side::A,
            };
            Ending::Made(a, a.opposite())
        }
        Call::Cancel { way, .. } => ending_of_cancel(*way),
        Call::Wait => Ending::Later,
        Call::Exit => Ending::Exit,
        Call::Destroy { .. } | Call::Send { .. } | Call::Receive { .. } | Call::Print { .. } => {
            Ending::Done
        }
    }
}

/// How a Cancel ends.
fn ending_of_cancel(way: Way) -> Ending
    ensures { (k made : ℕ) (on : EndId) → result ≡ ending_of k made (Call.Cancel on way) }
{
    match way {
        Way::Outward => Ending::Done,
        Way::Inward => Ending::Later,
    }
}

/// What comes after the event.
fn finish(processes: &mut Processes, effect: &mut Effect, p: Pid, ending: Ending)
    requires process { p.0 < length processes.old }
    requires places { HasPlaces 1 0 effect.old }
    ensures part { (s : Kernel) (t : EndId → Entry) → ended (with_parts t processes.new s) effect.new ≡ finished p ending (ended (with_parts t processes.old s) effect.old) }
    ensures kept { TakesAtMost 0 processes.old processes.new }
    ensures stamp { effect.new.stamp ≡ effect.old.stamp }
{
    match ending {
        Ending::Done => stand(processes, effect, p, Answer::Ok),
        Ending::Made(a, b) => stand(processes, effect, p, Answer::Made(a, b)),
        Ending::Later => {}
        Ending::Exit => exit(processes, effect, p),
    }
}

/// The caller of a Cancel of a receive that is posted waits.
fn turn_caller(table: &Table, processes: &mut Processes, p: Pid, call: &Call)
    requires { p.0 < length processes.old }
    ensures part { (s : Kernel) → with_parts (entries table.now) processes.new s ≡ turned p call.now (with_parts (entries table.now) processes.old s) }
    ensures kept { TakesAtMost 0 processes.old processes.new }
{
    match posted(table, p, call) {
        Some(on) => turn(processes, p, Phase::Cancelling(on)),
        None => {}
    }
}

/// The end of the posted receive that a call cancels, if it does.
#[tactic(auto, unfolding(crate::specs::Finishing::turned))]
fn posted(table: &Table, p: Pid, call: &Call) -> Option<EndId>
    ensures { (s : Kernel) → s.table ≡ entries table.now → turned p call.now s ≡ turned_to p result s }
{
    match call {
        Call::Cancel { on, way } => posted_toward(table, p, *on, *way),
        Call::Make
        | Call::Destroy { .. }
        | Call::Send { .. }
        | Call::Receive { .. }
        | Call::Wait
        | Call::Print { .. }
        | Call::Exit => None,
    }
}

/// The end of the posted receive that a Cancel takes back, if it does.
#[tactic(auto, unfolding(crate::specs::Finishing::turned))]
fn posted_toward(table: &Table, p: Pid, on: EndId, way: Way) -> Option<EndId>
    ensures { (s : Kernel) → s.table ≡ entries table.now → turned p (Call.Cancel on way) s ≡ turned_to p result s }
{
    match way {
        Way::Outward => None,
        Way::Inward => posted_on(table, p, on),
    }
}

/// The end of the receive that is posted on an end that a process owns.
fn posted_on(table: &Table, p: Pid, on: EndId) -> Option<EndId>
    ensures { (s : Kernel) → turned_on p (owned p (entries table.now on)) s ≡ turned_to p result s }
{
    match table.owned(p, on) {
        Some(living) => posted_in(living),
        None => None,
    }
}

/// The end, where a receive is posted on it.
fn posted_in(living: &Living) -> Option<EndId>
    ensures { (p : Pid) (s : Kernel) → turned_on p (Some living.now) s ≡ turned_to p result s }
{
    match living.inward() {
        Inward::Posted { .. } => Some(living.value().end),
        Inward::Idle | Inward::Withdrawing { .. } | Inward::Unreported => None,
    }
}
