ghost use Rattle.std.specs.Prelude.{◌≡◌, true, false, ℕ, ◌+◌, ◌<◌, ◌++◌, [], ◌∷◌, List, Some, IfSome, IfNone, length, drop, option_to_list, vec_len, vec_capacity};
ghost use Rattle.charlotte_calls.specs.declared.calls.Answer.TheVariants as answer;
ghost use Rattle.charlotte_calls.specs.declared.calls.Report.{Report};
ghost use Rattle.charlotte_calls.specs.declared.names.EndId.{EndId};
ghost use Rattle.charlotte_calls.specs.declared.names.Pid.{Pid};
ghost use Rattle.end_table.specs.Place.{put};
ghost use Rattle.charlotte_calls.specs.declared.names.Way.TheVariants as way;
ghost use Rattle.end_table.specs.Table.{entries};
ghost use Rattle.end_table.specs.declared.entry.Entry.TheVariants.{Here};
ghost use Rattle.end_table.specs.declared.entry.Inward.TheVariants as inward;
ghost use Rattle.end_table.specs.declared.entry.Outward.TheVariants as outward;
ghost use Rattle.end_table.specs.declared.entry.Entry.{Entry};
ghost use Rattle.kernel_step.specs.Kernel.{Kernel, answers_wait, closes, exits, is_waiting, joins, join_answers, join_reports, process_of, reported_entry, reported_view, stands, turns, waits, with_process};
ghost use Rattle.kernel_step.specs.Progress.{progress};
ghost use Rattle.kernel_step.specs.declared.phase.Phase.TheVariants.{Running, Exited};
ghost use Rattle.kernel_process.specs.Closing.{HaveSpare, HaveSpareFor, CanClose};
ghost use Rattle.kernel_sound.specs.Sound.{AreFor};
ghost use Rattle.kernel_process.specs.Parts.{ended, tells_first, with_parts, process_state, process_at, HasPlaces, GainsAtMost};
ghost use Rattle.kernel_process.specs.Joined.{HaveJoined};
ghost use Rattle.kernel_process.specs.Steady.{StaysCalm, TakesAtMost};
ghost use Rattle.kernel_process.specs.declared.process.ControlBlock.{ControlBlock};

use crate::event::Event;
use crate::process::Processes;
use charlotte_calls::{Answer, EndId, Pid, Report, ServiceStep, Way};
use charlotte_packets::{Effect, Work};
use end_table::{Inward, Lent, Living, Sending, Table};
use kernel_step::Phase;
use std::mem;

/// A process goes on to another phase.
pub fn turn(processes: &mut Processes, p: Pid, phase: Phase)
    requires { p.0 < length processes.old }
    ensures part { (t : EndId → Entry) (s : Kernel) → with_parts t processes.new s ≡ turns p phase (with_parts t processes.old s) }
    ensures kept { TakesAtMost 0 processes.old processes.new }
{
    let process = processes.at_mut(usize::from(p.0));
    process.phase = phase;
}

/// A process runs again, with this answer.
fn run_again(processes: &mut Processes, p: Pid, answer: Answer)
    requires { p.0 < length processes.old }
    ensures part { (t : EndId → Entry) (s : Kernel) → with_parts t processes.new s
        ≡ with_process p (record (process_of p (with_parts t processes.old s)) { phase = Running; answer = Some answer }) (with_parts t processes.old s) }
    ensures kept { TakesAtMost 0 processes.old processes.new }
{
    let process = processes.at_mut(usize::from(p.0));
    process.phase = Phase::Running;
    process.answer = Some(answer);
}

/// A report goes behind the others of its process, and the oldest of them leaves the list.
fn exchange_report(processes: &mut Processes, p: Pid, report: Report) -> Report
    requires process { p.0 < length processes.old }
    requires spare { HaveSpare 1 processes.old }
    ensures part { (t : EndId → Entry) (s : Kernel) → with_parts t processes.new s
        ≡ with_process p (record (process_of p (with_parts t processes.old s)) { reports = drop 1 ((process_of p (with_parts t processes.old s)).reports ++ report ∷ []) })
        (with_parts t processes.old s) }
    ensures oldest { (t : EndId → Entry) (s : Kernel) → (process_of p (with_parts t processes.old s)).reports ++ report ∷ []
        ≡ result ∷ drop 1 ((process_of p (with_parts t processes.old s)).reports ++ report ∷ []) }
    ensures kept { TakesAtMost 1 processes.old processes.new }
{
    let process = processes.at_mut(usize::from(p.0));
    process.reports.exchange(report)
}

/// A report goes behind the others of its process.
fn add_report(processes: &mut Processes, p: Pid, report: Report)
    requires process { p.0 < length processes.old }
    requires spare { HaveSpare 1 processes.old }
    ensures part { (t : EndId → Entry) (s : Kernel) → with_parts t processes.new s
        ≡ with_process p (record (process_of p (with_parts t processes.old s)) { reports = (process_of p (with_parts t processes.old s)).reports ++ report ∷ [] })
        (with_parts t processes.old s) }
    ensures kept { TakesAtMost 1 processes.old processes.new }
{
    let process = processes.at_mut(usize::from(p.0));
    process.reports.push(&report);
}

/// An activity that was over is idle once it is reported.
fn settle_report(table: &mut Table, on: EndId, way: Way)
    ensures entries { entries table.new ≡ put (entries table.old) on (reported_entry way (entries table.old on)) }
    ensures kernel { table.new.kernel ≡ table.old.kernel }
{
    match way {
        Way::Outward => settle_send(table, on),
        Way::Inward => settle_receive(table, on),
    }
}

/// A send that was over is idle once it is reported.
fn settle_send(table: &mut Table, on: EndId)
    ensures entries { entries table.new ≡ put (entries table.old) on (reported_entry way.Outward (entries table.old on)) }
    ensures kernel { table.new.kernel ≡ table.old.kernel }
{
    if let Some(living) = sent(table, on) {
        let value = living.value();
        table.set_sending(on, value, Sending::Idle);
    }
}

/// A receive that was over is idle once it is reported.
fn settle_receive(table: &mut Table, on: EndId)
    ensures entries { entries table.new ≡ put (entries table.old) on (reported_entry way.Inward (entries table.old on)) }
    ensures kernel { table.new.kernel ≡ table.old.kernel }
{
    if let Some(living) = received(table, on) {
        let value = living.value();
        table.set_inward(on, value, Inward::Idle);
    }
}

/// An end that is here and whose send is over, lent.
fn sent(table: &Table, on: EndId) -> Option<&Living>
    ensures here { IfSome result (λ l. entries table.now on ≡ Here l.now) }
    ensures own { IfSome result (λ l. l.now.value.end ≡ on) }
    ensures over { IfSome result (λ l. l.now.outward ≡ outward.Unreported) }
    ensures none { IfNone result (reported_entry way.Outward (entries table.now on) ≡ entries table.now on) }
{
    match table.lend(on) {
        Lent::Here(living) => match living.outward() {
            Sending::Unreported => Some(living),
            Sending::Idle | Sending::Waiting { .. } | Sending::Matched { .. } => None,
        },
        Lent::Nothing | Lent::Left { .. } | Lent::Destroyed(_) => None,
    }
}

/// An end that is here and whose receive is over, lent.
fn received(table: &Table, on: EndId) -> Option<&Living>
    ensures here { IfSome result (λ l. entries table.now on ≡ Here l.now) }
    ensures own { IfSome result (λ l. l.now.value.end ≡ on) }
    ensures over { IfSome result (λ l. l.now.inward ≡ inward.Unreported) }
    ensures none { IfNone result (reported_entry way.Inward (entries table.now on) ≡ entries table.now on) }
{
    match table.lend(on) {
        Lent::Here(living) => match living.inward() {
            Inward::Unreported => Some(living),
            Inward::Idle | Inward::Posted { .. } | Inward::Withdrawing { .. } => None,
        },
        Lent::Nothing | Lent::Left { .. } | Lent::Destroyed(_) => None,
    }
}

/// An answer comes to stand, and its process runs again.
pub fn stand(processes: &mut Processes, effect: &mut Effect, p: Pid, answer: Answer)
    requires process { p.0 < length processes.old }
    requires places { HasPlaces 1 0 effect.old }
    ensures part { (s : Kernel) (t : EndId → Entry) → ended (with_parts t processes.new s) effect.new ≡ stands p answer (ended (with_parts t processes.old s) effect.old) }
    ensures kept { TakesAtMost 0 processes.old processes.new }
    ensures places { GainsAtMost 1 0 effect.old effect.new }
    ensures stamp { effect.new.stamp ≡ effect.old.stamp }
{
    run_again(processes, p, answer);
    effect.answered.push_reserved(p);
}

/// A report of a process is told, and its activity is idle.
fn tell(table: &mut Table, effect: &mut Effect, p: Pid, report: &Report)
    requires places { HasPlaces 0 1 effect.old }
    ensures part { (s : Kernel) (xs : List ControlBlock) (others : List Report) → ended (with_parts (entries table.new) xs s) effect.new
        ≡ tells_first p (report.now ∷ others) (ended (with_parts (entries table.old) xs s) effect.old) }
    ensures calm { StaysCalm table.old table.new }
    ensures places { GainsAtMost 0 1 effect.old effect.new }
    ensures stamp { effect.new.stamp ≡ effect.old.stamp }
{
    settle_report(table, report.on, report.way);
    effect.steps.push_reserved(ServiceStep::Report {
        p,
        report: report.copy(),
    });
}

/// A report answers the Wait of its process, which keeps the reports that it has.
fn answer_wait(
    table: &mut Table,
    processes: &mut Processes,
    effect: &mut Effect,
    p: Pid,
    report: Report,
)
    requires process { p.0 < length processes.old }
    requires places { HasPlaces 1 1 effect.old }
    ensures part { (s : Kernel) → ended (with_parts (entries table.new) processes.new s) effect.new
        ≡ answers_wait p report (process_of p (with_parts (entries table.old) processes.old s)).reports (ended (with_parts (entries table.old) processes.old s) effect.old) }
    ensures calm { StaysCalm table.old table.new }
    ensures kept { TakesAtMost 0 processes.old processes.new }
    ensures places { GainsAtMost 1 1 effect.old effect.new }
    ensures stamp { effect.new.stamp ≡ effect.old.stamp }
{
    tell(table, effect, p, &report);
    stand(processes, effect, p, Answer::Reported(report));
}

/// Whether it is the phase of a Wait whose answer does not stand.
fn is_waiting(phase: Phase) -> bool
    ensures { result ≡ is_waiting phase }
{
    match phase {
        Phase::Waiting => true,
        Phase::Running | Phase::Cancelling(_) | Phase::Exited => false,
    }
}

/// Whether a process is in a Wait whose answer does not stand.
fn is_in_wait(processes: &Processes, p: Pid) -> bool
    requires { p.0 < length processes.now }
    ensures { (t : EndId → Entry) (s : Kernel) → result ≡ is_waiting (process_of p (with_parts t processes.now s)).phase }
{
    is_waiting(processes.at(usize::from(p.0)).phase)
}

/// A report joins the list of its process; where the process is in a Wait, the oldest of the list answers it.
fn join(table: &mut Table, processes: &mut Processes, effect: &mut Effect, p: Pid, report: Report)
    requires process { p.0 < length processes.old }
    requires places { HasPlaces 1 1 effect.old }
    requires spare { HaveSpare 1 processes.old }
    ensures part { (s : Kernel) → ended (with_parts (entries table.new) processes.new s) effect.new
        ≡ joins p report (process_of p (with_parts (entries table.old) processes.old s)).phase (ended (with_parts (entries table.old) processes.old s) effect.old) }
    ensures calm { StaysCalm table.old table.new }
    ensures kept { TakesAtMost 1 processes.old processes.new }
    ensures places { GainsAtMost 1 1 effect.old effect.new }
    ensures stamp { effect.new.stamp ≡ effect.old.stamp }
{
    if is_in_wait(processes, p) {
        let oldest = exchange_report(processes, p, report);
        answer_wait(table, processes, effect, p, oldest);
    } else {
        add_report(processes, p, report);
    }
}

/// The reports join the lists of their processes, in order. Most events have none.
#[inline(always)]
fn join_each(
    table: &mut Table,
    processes: &mut Processes,
    effect: &mut Effect,
    reports: &mut Vec<(Pid, Report)>,
)
    requires reports { AreFor (length processes.old) reports.old.items }
    requires places { HasPlaces (length reports.old.items) (length reports.old.items) effect.old }
    requires spare { HaveSpareFor reports.old.items processes.old }
    ensures { HaveJoined reports.old.items table.old table.new processes.old processes.new effect.old effect.new }
{
    if !reports.is_empty() {
        join_some(table, processes, effect, reports);
    }
}

/// The reports join the lists of their processes, in order. Most often there is one, which is moved once.
#[inline(never)]
fn join_some(
    table: &mut Table,
    processes: &mut Processes,
    effect: &mut Effect,
    reports: &mut Vec<(Pid, Report)>,
)
    requires reports { AreFor (length processes.old) reports.old.items }
    requires places { HasPlaces (length reports.old.items) (length reports.old.items) effect.old }
    requires spare { HaveSpareFor reports.old.items processes.old }
    ensures { HaveJoined reports.old.items table.old table.new processes.old processes.new effect.old effect.new }
{
    match only_process(reports.as_slice()) {
        Some(p) => join_only(table, processes, effect, p, reports),
        None => join_all(table, processes, effect, reports),
    }
}

/// The process of the report, where there is one report.
fn only_process(reports: &[(Pid, Report)]) -> Option<Pid>
    ensures { IfSome result (λ p. (r : Report) × (reports.now ≡ (p, r) ∷ [])) }
{
    match reports {
        [(p, _)] => Some(*p),
        _ => None,
    }
}

/// The only report joins the list of its process; where the process is in a Wait, the oldest of the list answers it.
fn join_only(
    table: &mut Table,
    processes: &mut Processes,
    effect: &mut Effect,
    p: Pid,
    reports: &mut Vec<(Pid, Report)>,
)
    requires only { (r : Report) × (reports.old.items ≡ (p, r) ∷ []) }
    requires process { p.0 < length processes.old }
    requires places { HasPlaces 1 1 effect.old }
    requires spare { HaveSpare 1 processes.old }
    ensures part { (s : Kernel) → ended (with_parts (entries table.new) processes.new s) effect.new
        ≡ join_reports reports.old.items (ended (with_parts (entries table.old) processes.old s) effect.old) }
    ensures calm { StaysCalm table.old table.new }
    ensures kept { TakesAtMost 1 processes.old processes.new }
    ensures places { GainsAtMost 1 1 effect.old effect.new }
    ensures stamp { effect.new.stamp ≡ effect.old.stamp }
{
    if is_in_wait(processes, p) {
        let report = take_only(reports);
        let oldest = exchange_report(processes, p, report);
        answer_wait(table, processes, effect, p, oldest);
    } else {
        let report = take_only(reports);
        add_report(processes, p, report);
    }
}

/// Takes out the report of a list that has one.
fn take_only(reports: &mut Vec<(Pid, Report)>) -> Report
    requires { 0 < vec_len reports.old }
    ensures { (p : Pid) (r : Report) → reports.old.items ≡ (p, r) ∷ [] → result ≡ r }
{
    let (_, report) = reports.take_last();
    report
}

/// The reports join the lists of their processes, in order.
#[inline(never)]
fn join_all(
    table: &mut Table,
    processes: &mut Processes,
    effect: &mut Effect,
    reports: &mut Vec<(Pid, Report)>,
)
    requires reports { AreFor (length processes.old) reports.old.items }
    requires places { HasPlaces (length reports.old.items) (length reports.old.items) effect.old }
    requires spare { HaveSpareFor reports.old.items processes.old }
    ensures { HaveJoined reports.old.items table.old table.new processes.old processes.new effect.old effect.new }
{
    if let Some((p, report)) = take_first(reports) {
        join(table, processes, effect, p, report);
        join_all(table, processes, effect, reports);
    }
}

/// The answers come to stand, in order. Most events have none.
#[inline(always)]
fn answer_each(processes: &mut Processes, effect: &mut Effect, answers: &mut Vec<(Pid, Answer)>)
    requires answers { AreFor (length processes.old) answers.old.items }
    requires places { HasPlaces (length answers.old.items) 0 effect.old }
    ensures part { (s : Kernel) (t : EndId → Entry) → ended (with_parts t processes.new s) effect.new
        ≡ join_answers answers.old.items (ended (with_parts t processes.old s) effect.old) }
    ensures kept { TakesAtMost 0 processes.old processes.new }
    ensures places { GainsAtMost (length answers.old.items) 0 effect.old effect.new }
    ensures stamp { effect.new.stamp ≡ effect.old.stamp }
{
    if !answers.is_empty() {
        answer_all(processes, effect, answers);
    }
}

/// The answers come to stand, in order.
#[inline(never)]
fn answer_all(processes: &mut Processes, effect: &mut Effect, answers: &mut Vec<(Pid, Answer)>)
    requires answers { AreFor (length processes.old) answers.old.items }
    requires places { HasPlaces (length answers.old.items) 0 effect.old }
    ensures part { (s : Kernel) (t : EndId → Entry) → ended (with_parts t processes.new s) effect.new
        ≡ join_answers answers.old.items (ended (with_parts t processes.old s) effect.old) }
    ensures kept { TakesAtMost 0 processes.old processes.new }
    ensures places { GainsAtMost (length answers.old.items) 0 effect.old effect.new }
    ensures stamp { effect.new.stamp ≡ effect.old.stamp }
{
    if let Some((p, answer)) = take_first(answers) {
        stand(processes, effect, p, answer);
        answer_all(processes, effect, answers);
    }
}

/// The oldest report of a process leaves its list.
fn first_report(processes: &mut Processes, p: Pid) -> Option<Report>
    requires { p.0 < length processes.old }
    ensures part { (t : EndId → Entry) (s : Kernel) → with_parts t processes.new s
        ≡ with_process p (record (process_of p (with_parts t processes.old s)) { reports = drop 1 (process_of p (with_parts t processes.old s)).reports })
        (with_parts t processes.old s) }
    ensures first { (t : EndId → Entry) (s : Kernel) → (process_of p (with_parts t processes.old s)).reports
        ≡ option_to_list result ++ drop 1 (process_of p (with_parts t processes.old s)).reports }
    ensures kept { TakesAtMost 0 processes.old processes.new }
{
    let process = processes.at_mut(usize::from(p.0));
    process.reports.pop()
}

/// A Wait: the oldest report of the process answers it.
pub fn wait(table: &mut Table, processes: &mut Processes, effect: &mut Effect, p: Pid)
    requires process { p.0 < length processes.old }
    requires places { HasPlaces 1 1 effect.old }
    ensures part { (s : Kernel) → ended (with_parts (entries table.new) processes.new s) effect.new
        ≡ waits p (process_of p (with_parts (entries table.old) processes.old s)).reports (ended (with_parts (entries table.old) processes.old s) effect.old) }
    ensures calm { StaysCalm table.old table.new }
    ensures kept { TakesAtMost 0 processes.old processes.new }
    ensures stamp { effect.new.stamp ≡ effect.old.stamp }
{
    match first_report(processes, p) {
        Some(report) => answer_wait(table, processes, effect, p, report),
        None => turn(processes, p, Phase::Waiting),
    }
}

/// A process that exits leaves no reports.
fn leave(processes: &mut Processes, p: Pid)
    requires { p.0 < length processes.old }
    ensures part { (t : EndId → Entry) (s : Kernel) → with_parts t processes.new s
        ≡ with_process p (record { phase = Exited; reports = []; answer = Some answer.Ok }) (with_parts t processes.old s) }
    ensures kept { TakesAtMost 0 processes.old processes.new }
{
    let process = processes.at_mut(usize::from(p.0));
    process.phase = Phase::Exited;
    process.reports.clear();
    process.answer = Some(Answer::Ok);
}

/// A process exits.
pub fn exit(processes: &mut Processes, effect: &mut Effect, p: Pid)
    requires process { p.0 < length processes.old }
    requires places { HasPlaces 1 0 effect.old }
    ensures part { (s : Kernel) (t : EndId → Entry) → ended (with_parts t processes.new s) effect.new ≡ exits p (ended (with_parts t processes.old s) effect.old) }
    ensures kept { TakesAtMost 0 processes.old processes.new }
    ensures places { GainsAtMost 1 0 effect.old effect.new }
    ensures stamp { effect.new.stamp ≡ effect.old.stamp }
{
    leave(processes, p);
    effect.answered.push_reserved(p);
}

/// The first of a list leaves it. Lists of one event are short.
#[inline(always)]
fn take_first<T>(list: &mut Vec<T>) -> Option<T>
    ensures items { list.old.items ≡ option_to_list result ++ list.new.items }
    ensures rest { list.new.items ≡ drop 1 list.old.items }
    ensures len { vec_len list.new + length (option_to_list result) ≡ vec_len list.old }
{
    if list.is_empty() {
        return None;
    }
    Some(list.remove(0))
}

/// The event is over: its answers and reports reach their processes. What it leaves is only the room of its lists.
pub fn close(table: &mut Table, processes: &mut Processes, event: &mut Event) -> Effect
    requires reports { AreFor (length processes.old) event.old.work.reports.items }
    requires answers { AreFor (length processes.old) event.old.work.answers.items }
    requires spare { HaveSpareFor event.old.work.reports.items processes.old }
    requires room { CanClose 0 0 event.old }
    ensures part { (s : Kernel) → ended (with_parts (entries table.new) processes.new (record s { stamp = event.old.work.stamp })) result
        ≡ closes (with_parts (entries table.old) processes.old s) (progress (entries table.old) event.old.work) }
    ensures stamp { result.stamp ≡ event.old.work.stamp }
    ensures calm { StaysCalm table.old table.new }
    ensures kept { TakesAtMost (length event.old.work.reports.items) processes.old processes.new }
    ensures places { (a s : ℕ) → CanClose a s event.old → HasPlaces a s result }
{
    let mut effect = Effect {
        stamp: event.work.stamp,
        packets: event.work.packets.take(),
        answered: take_list(&mut event.answered),
        steps: take_list(&mut event.work.steps),
    };
    answer_each(processes, &mut effect, &mut event.work.answers);
    join_each(table, processes, &mut effect, &mut event.work.reports);
    effect
}

/// Takes a list, and leaves one without room in its place.
#[inline(always)]
fn take_list<T>(list: &mut Vec<T>) -> Vec<T>
    ensures { result ≡ list.old }
{
    let alloc = *list.allocator();
    mem::replace(list, Vec::new(alloc))
}
