//! A LYNX process.

ghost use Rattle.std.specs.Prelude.{◌≡◌, ◌⊎◌, ◌<◌, ◌^◌, [], true, length, Ok, Err, IfOk, OnOk, option_map};
ghost use Rattle.machine_values.specs.Told.{values_of};
ghost use Rattle.machine_thread.specs.Told.{outcome_of};
ghost use Rattle.compiler_runnable.specs.Runnable.{IsRunnable};
ghost use Rattle.machine_turns.specs.Turns.{Stops, at_start};
ghost use Rattle.lynx_interp.specs.Machines.{IsMachine, start_globals, state_of};
ghost use Rattle.lynx_interp.specs.Runs.{stop_of};
ghost use Rattle.charlotte_calls.specs.declared.program.Next.{Next};
ghost use Rattle.process_run.specs.States.{Gone, Keeps, Nothing, State, links_from, start};
ghost use Rattle.process_run.specs.Runs.{machine_run, most_actions, most_instructions, slice, step};
ghost use Rattle.process_run.specs.States as process;
ghost use Rattle.process_run.specs.Deaths.{gives, raises, does};
ghost use Rattle.process_run.specs.Ends.{puts, room};
ghost use Rattle.process_ends.specs.Ends.{kept_at};
ghost use Rattle.process_sound.specs.Machine.{Fits};
ghost use Rattle.process_sound.specs.May.{MayGoOn, MayStep};
ghost use Rattle.lynx_rt.specs.Kept.{IsProcess};
ghost use Rattle.lynx_rt.specs.Changes.{taken_so};
ghost use Rattle.lynx_rt.specs.May.{IsStoppedFor};
ghost use Rattle.lynx_rt.specs.Seen.{asked_of};
ghost use Rattle.lynx_rt.specs.Steps.{IsRound, Leads, is_exit, next_if};
ghost use Rattle.charlotte_calls.specs.declared.calls.Call.TheVariants as call;
ghost use Rattle.charlotte_calls.specs.declared.program.Next.TheVariants as next;

use crate::asked::Asked;
use charlotte_calls::{Answer, Call, EndId, Next, NoMemory};
use end_protocol::{Kept, Line};
use lynx_code::Code;
use lynx_interp::{Given, LinkRef, Machine, Stop, Value};
use process_ends::{Opened, Places};
use std::alloc::Global;
use std::marker::Model;
use typing_rules::Exception;

/// A process that runs the code of a module.
#[derive(Drop)]
pub(crate) struct Running {
    pub(crate) alloc: Global,
    pub(crate) version: u8,
    pub(crate) machine: Machine,
    pub(crate) places: Places,
    pub(crate) opened: Opened,
    /// The ends that it destroys before it does anything else.
    pub(crate) doomed: Line<EndId>,
    pub(crate) asked: Asked,
    /// A thread asked for `stop`, or nothing is left to be reported.
    pub(crate) over: bool,
}

impl Model for Running {
    ghost use Rattle.process_run.specs.States.{State};
    ghost use Rattle.lynx_rt.specs.Seen.{state_with};

    ghost Value = { State };

    ghost view = { λ p. state_with p.version p.machine p.places.places p.opened p.doomed p.asked p.over };
}

/// How many instructions a slice has.
const MOST_INSTRUCTIONS: u32 = 1000;

impl Running {
    /// A process of version 1 or 2 before its first step, with one end for each param of its code, all different.
    pub(crate) fn start(
        alloc: Global,
        version: u8,
        code: Code,
        ends: Vec<EndId>,
    ) -> Result<Running, NoMemory>
        requires version { (version ≡ 1) ⊎ (version ≡ 2) }
        requires code { IsRunnable code }
        requires params { length ends.items ≡ code.params }
        ensures start { IfOk result (λ process. process ≡ start version code ends.items) }
        ensures process { IfOk result IsProcess }
    {
        let mut places = Places::new(alloc);
        places.get_all(&ends)?;
        let links = links_of(alloc, &ends)?;
        let machine = machine_of(alloc, code, links)?;
        Ok(Running {
            alloc,
            version,
            machine,
            places,
            opened: Opened::new(alloc)?,
            doomed: Line::new(alloc),
            asked: Asked::Nothing,
            over: false,
        })
    }

    /// The next step, with the answer to the call of the last one.
    pub(crate) fn step(&mut self, answer: &Option<Answer>, out: &mut Next) -> Result<(), NoMemory>
        requires process { IsProcess self.old }
        requires may { MayStep self.old answer.now }
        ensures step { OnOk result (◌≡◌ {A = Next × State} (out.new, self.new) (step self.old answer.now)) }
        ensures process { OnOk result (IsProcess self.new) }
    {
        if is_exit(self.asked) {
            *out = Next::Ended;
            return Ok(());
        }
        let asked = self.asked;
        self.hear_answer(asked, answer)?;
        self.slice(out)
    }

    /// The process goes on, until it asks a call, pauses or ends.
    fn slice(&mut self, out: &mut Next) -> Result<(), NoMemory>
        requires process { IsProcess self.old }
        requires may { MayGoOn (most_actions self.old) most_instructions self.old }
        ensures slice { OnOk result (Leads (slice self.old) out.new self.new) }
        ensures process { OnOk result (IsProcess self.new) }
    {
        let mut actions = u128::from(self.opened.count()) + 2 * u128::from(MOST_INSTRUCTIONS);
        let mut fuel = MOST_INSTRUCTIONS;
        'rounds: loop {
            let (is_next, left) = self.round(actions, fuel, out)?;
            if is_next {
                return Ok(());
            }
            fuel = left;
            actions -= 1;
        }
    }

    /// A call is asked, or the process goes on to its next action, if there may be one. Gives whether it was asked, and the fuel that is left.
    fn round(&mut self, actions: u128, fuel: u32, out: &mut Next) -> Result<(bool, u32), NoMemory>
        requires process { IsProcess self.old }
        requires may { MayGoOn actions fuel self.old }
        ensures round { IfOk result (λ r. IsRound actions fuel self.old (next_if r.0 out.new) r.1 self.new) }
        ensures process { OnOk result (IsProcess self.new) }
    {
        let is_due = self.due_call(out)?;
        if is_due {
            return Ok((true, fuel));
        }
        if self.over {
            self.exit(out);
            return Ok((true, fuel));
        }
        if actions == 0 {
            self.pause(out);
            return Ok((true, fuel));
        }
        let (stop, left) = self.run(fuel)?;
        let is_next = self.stopped(stop, out)?;
        Ok((is_next, left))
    }

    /// The machine goes on, with so much fuel. Gives what is left of it.
    fn run(&mut self, fuel: u32) -> Result<(Stop, u32), NoMemory>
        requires { IsProcess self.old }
        ensures ran { IfOk result (λ r. machine_run fuel self.old ≡ Stops (stop_of r.0) r.1 self.new.turns) }
        ensures same { OnOk result (self.new ≡ record self.old { turns = self.new.turns }) }
        ensures asked { IfOk result (λ r. IsStoppedFor (stop_of r.0) self.new) }
        ensures process { OnOk result (IsProcess self.new) }
    {
        match self.machine.run(fuel) {
            Ok(stopped) => Ok(stopped),
            Err(_) => Err(NoMemory),
        }
    }

    /// A thread's action has this outcome.
    pub(crate) fn give(&mut self, thread: u8, outcome: Given) -> Result<(), NoMemory>
        requires process { IsProcess self.old }
        requires fits { Fits thread (outcome_of outcome) self.old }
        ensures given { OnOk result (self.new ≡ gives thread (outcome_of outcome) self.old) }
        ensures process { OnOk result (IsProcess self.new) }
    {
        match self.machine.give(thread, outcome) {
            Ok(()) => Ok(()),
            Err(_) => Err(NoMemory),
        }
    }

    pub(crate) fn give_values(&mut self, thread: u8, values: Vec<Value>) -> Result<(), NoMemory>
        requires process { IsProcess self.old }
        requires fits { Fits thread (Ok (values_of values.items)) self.old }
        ensures given { OnOk result (self.new ≡ gives thread (Ok (values_of values.items)) self.old) }
        ensures process { OnOk result (IsProcess self.new) }
    {
        self.give(thread, Given::Values(values))
    }

    /// The outcome is without values.
    pub(crate) fn does(&mut self, thread: u8) -> Result<(), NoMemory>
        requires process { IsProcess self.old }
        requires fits { Fits thread (Ok []) self.old }
        ensures given { OnOk result (self.new ≡ does thread self.old) }
        ensures process { OnOk result (IsProcess self.new) }
    {
        let none = Vec::new(self.alloc);
        self.give_values(thread, none)
    }

    /// An exception is raised in a thread.
    pub(crate) fn raise(&mut self, thread: u8, exception: Exception) -> Result<(), NoMemory>
        requires process { IsProcess self.old }
        requires fits { Fits thread (Err exception) self.old }
        ensures given { OnOk result (self.new ≡ raises thread exception self.old) }
        ensures process { OnOk result (IsProcess self.new) }
    {
        self.give(thread, Given::Raise(exception))
    }

    /// Whether fewer threads stand than may, where a request in part for an entry counts as one.
    pub(crate) fn room(&self) -> bool
        ensures { result ≡ room self.now }
    {
        let coming = self.places.coming();
        if coming == 0 {
            return self.machine.has_room();
        }
        coming < 32 && usize::from(self.machine.standing()) + coming < 32
    }

    /// What is kept for the end of a number, taken out to be changed and put back by `keep`. None, and nothing changes, where it is not held.
    pub(crate) fn take(&mut self, number: u32) -> Option<Box<Kept>>
        ensures left { self.new ≡ taken_so (kept_at number self.old.places) number self.old }
        ensures kept { option_map (λ kept. kept.value) result ≡ kept_at number self.old.places }
    {
        if self.places.kept(number).is_none() {
            return None;
        }
        self.places.take(number)
    }

    /// The end is held no longer. Gives what was kept for it.
    pub(crate) fn release(&mut self, number: u32, own: bool) -> Option<Box<Kept>>
        ensures left { self.new ≡ puts number (Gone own) self.old }
        ensures kept { option_map (λ kept. kept.value) result ≡ kept_at number self.old.places }
    {
        self.places.let_go(number, own)
    }

    /// This is kept for the end from now on.
    pub(crate) fn keep(&mut self, number: u32, kept: Box<Kept>) -> Result<(), NoMemory>
        ensures { OnOk result (self.new ≡ puts number (Keeps kept.value) self.old) }
    {
        self.places.put(number, kept)?;
        Ok(())
    }

    pub(crate) fn ask(&mut self, asked: Asked, call: Call, out: &mut Next)
        ensures asked { self.new ≡ record self.old { asked = asked_of asked } }
        ensures next { out.new ≡ next.Ask call }
    {
        self.asked = asked;
        *out = Next::Ask(call);
    }

    pub(crate) fn pause(&mut self, out: &mut Next)
        ensures asked { self.new ≡ record self.old { asked = Nothing } }
        ensures next { out.new ≡ next.Pause }
    {
        self.asked = Asked::Nothing;
        *out = Next::Pause;
    }

    pub(crate) fn exit(&mut self, out: &mut Next)
        ensures asked { self.new ≡ record self.old { asked = process.Exit; over = true } }
        ensures next { out.new ≡ next.Ask call.Exit }
    {
        self.over = true;
        self.ask(Asked::Exit, Call::Exit, out);
    }
}

/// The numbers of ends, from 1 on.
fn links_of(alloc: Global, ends: &[EndId]) -> Result<Vec<LinkRef>, NoMemory>
    requires { length ends.now < 2 ^ 32 }
    ensures { IfOk result (λ links. links.items ≡ links_from 1 ends.now) }
{
    let mut links = Vec::with_capacity(alloc, ends.len())?;
    for place in 0..ends.len() {
        links.push(LinkRef(place as u32 + 1))?;
    }
    Ok(links)
}

/// A machine before its first instruction.
fn machine_of(alloc: Global, code: Code, links: Vec<LinkRef>) -> Result<Machine, NoMemory>
    requires code { IsRunnable code }
    requires params { length links.items ≡ code.params }
    ensures start { IfOk result (λ machine. machine ≡ state_of code (at_start (start_globals code.globals.items links.items))) }
    ensures machine { IfOk result IsMachine }
{
    match Machine::start(alloc, code, links) {
        Ok(machine) => Ok(machine),
        Err(_) => Err(NoMemory),
    }
}

fn is_exit(asked: Asked) -> bool
    ensures { result ≡ is_exit (asked_of asked) }
{
    matches!(asked, Asked::Exit)
}
