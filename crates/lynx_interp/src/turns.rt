//! A run: threads go on by turns.

ghost use Rattle.std.specs.Prelude.{◌≡◌, ◌<◌, ◌≤◌, ℕ, true, None, Some, IfOk, OnOk, MatchOption, is_some, length, option_map, slice_get};
ghost use Rattle.code_shapes.specs.Shapes.{program};
ghost use Rattle.machine_turns.specs.Threads.{Standing};
ghost use Rattle.machine_turns.specs.Turns.{Stops, asks_for, awaits, run, stands, wakes, with_thread};
ghost use Rattle.machine_thread.specs.Told.{action_of};
ghost use Rattle.machine_sound.specs.Sound.{IsStopped, StayBlocked};
ghost use Rattle.machine_sound.specs.Taken.{next_number, takes_turn};
ghost use Rattle.lynx_interp.specs.Machines.{IsMachine};
ghost use Rattle.lynx_interp.specs.Runs.{CanGoOn, IsAsked, IsOfCode, IsRound, IsTurn, KeepRequests, MayGoOn, Settles, StopsAt, stop_of};
ghost use Rattle.lynx_interp.specs.declared.stop.Stop.TheVariants as stop;

use crate::machine::Machine;
use crate::slot::Slot;
use crate::stop::Stop;
use lynx_lexer::NoMemory;
use machine_thread::{Action, Move, Wanted};

impl Machine {
    /// Lets threads go on with so much fuel, until one asks for an action or none can go on. An instruction takes one unit. Tells how it
    /// stopped, and the fuel that is left. After NoMemory the machine is spoiled.
    pub fn run(&mut self, fuel: u32) -> Result<(Stop, u32), NoMemory>
        requires { IsMachine self.old }
        ensures runs { IfOk result (λ r. run (program self.old.types self.old.instructions) fuel self.old.turns ≡ Stops (stop_of r.0) r.1 self.new.turns) }
        ensures asked { IfOk result (λ r. IsAsked r.0 self.new.turns) }
        ensures left { IfOk result (λ r. r.1 ≤ fuel) }
        ensures of_code { IfOk result (λ r. IsOfCode r.0 self.new) }
        ensures requests { OnOk result (KeepRequests self.old self.new) }
        ensures stops { IfOk result (λ r. IsStopped (stop_of r.0) r.1 self.new.turns) }
        ensures blocked { OnOk result (StayBlocked self.old.turns self.new.turns) }
        ensures machine { OnOk result (IsMachine self.new) }
        ensures same { OnOk result (self.new ≡ record self.old { turns = self.new.turns }) }
    {
        let mut left = fuel;
        'rounds: loop {
            let (stopped, rest) = self.round(left)?;
            left = rest;
            match stopped {
                Some(stop) => return Ok((stop, left)),
                None => {}
            }
        }
    }

    // The next thread takes its turn, where one can go on and there is fuel. Tells how the run stops, if it does, and the fuel that is left.
    fn round(&mut self, fuel: u32) -> Result<(Option<Stop>, u32), NoMemory>
        requires { IsMachine self.old }
        ensures { IfOk result (λ r. IsRound fuel self.old r.0 r.1 self.new) }
    {
        if let Some(stop) = self.stops(fuel) {
            return Ok((Some(stop), fuel));
        }
        self.goes_on(fuel)
    }

    // The next thread takes its turn, and what comes of that changes those that wait.
    fn goes_on(&mut self, fuel: u32) -> Result<(Option<Stop>, u32), NoMemory>
        requires machine { IsMachine self.old }
        requires goes_on { MayGoOn fuel self.old.turns }
        ensures { IfOk result (λ r. IsRound fuel self.old r.0 r.1 self.new) }
    {
        let number = self.takes_turn();
        let (made, left) = self.turn(number, fuel)?;
        let action = self.settles(number, made)?;
        Ok((stop_for(number, action), left))
    }

    // How a run stops where no thread goes on with so much fuel.
    fn stops(&self, fuel: u32) -> Option<Stop>
        ensures { MatchOption result (MayGoOn fuel self.now.turns) (λ stop. StopsAt fuel self.now.turns stop) }
    {
        if !self.stands() {
            return Some(Stop::Finished);
        }
        if !self.can_go_on() {
            return Some(Stop::AllBlocked);
        }
        if fuel == 0 {
            return Some(Stop::Spent);
        }
        None
    }

    // A thread stands.
    fn stands(&self) -> bool
        ensures { result ≡ stands self.now.turns }
    {
        self.threads.iter().any(Slot::stands)
    }

    // A thread has the turn, or is ready.
    fn can_go_on(&self) -> bool
        ensures { result ≡ is_some (next_number self.now.turns.running self.now.turns.ready) }
    {
        self.running.is_some() || !self.ready.is_empty()
    }

    // The thread that has the turn, or else the first that is ready, which has it from now on.
    fn takes_turn(&mut self) -> u8
        requires { is_some (next_number self.old.turns.running self.old.turns.ready) ≡ true }
        ensures number { self.new.turns.running ≡ Some result }
        ensures turn { self.new ≡ record self.old { turns = takes_turn self.old.turns } }
    {
        if let Some(number) = self.running {
            return number;
        }
        let number = self.ready.remove(0);
        self.running = Some(number);
        number
    }

    // A thread goes on, as far as the fuel goes.
    fn turn(&mut self, number: u8, fuel: u32) -> Result<(Move, u32), NoMemory>
        requires { CanGoOn number self.old }
        ensures { IfOk result (λ r. IsTurn number fuel self.old self.new r.0 r.1) }
    {
        self.threads[usize::from(number)].run(&self.code, &mut self.globals, fuel)
    }

    // What came of a turn changes those that wait. Answers the action that the thread asks for.
    fn settles(&mut self, number: u8, made: Move) -> Result<Option<Action>, NoMemory>
        requires stands { (s : Standing) × (slice_get self.old.turns.threads number ≡ Some (Some s)) }
        requires runs { self.old.turns.running ≡ Some number }
        ensures { IfOk result (λ action. Settles number made action self.old self.new) }
    {
        match made {
            Move::GoesOn => Ok(None),
            Move::Awaits => {
                self.awaits(number)?;
                Ok(None)
            }
            Move::Ends => {
                self.ends(number)?;
                Ok(None)
            }
            Move::Acts(boxed) => {
                let action = Box::into_inner(boxed);
                self.blocks_for(&action)?;
                Ok(Some(action))
            }
        }
    }

    // An await found false: a first try has blocked, and one more has not.
    fn awaits(&mut self, number: u8) -> Result<(), NoMemory>
        requires { (s : Standing) × (slice_get self.old.turns.threads number ≡ Some (Some s)) }
        ensures { OnOk result ((s : Standing) → slice_get self.old.turns.threads number ≡ Some (Some s) → self.new ≡ record self.old { turns = awaits number s.again self.old.turns }) }
    {
        if self.tries_again(number) {
            self.running = None;
        } else {
            self.wakes()?;
        }
        self.awaiting.push(number)?;
        Ok(())
    }

    fn tries_again(&self, number: u8) -> bool
        requires { (s : Standing) × (slice_get self.now.turns.threads number ≡ Some (Some s)) }
        ensures { (s : Standing) → slice_get self.now.turns.threads number ≡ Some (Some s) → result ≡ s.again }
    {
        self.threads[usize::from(number)].is_trying_again()
    }

    fn ends(&mut self, number: u8) -> Result<(), NoMemory>
        requires { number < length self.old.turns.threads }
        ensures { OnOk result (self.new ≡ record self.old { turns = with_thread number None (wakes self.old.turns) }) }
    {
        self.threads[usize::from(number)] = Slot::free();
        self.wakes()
    }

    // To connect or to accept is to block.
    fn blocks_for(&mut self, action: &Action) -> Result<(), NoMemory>
        ensures { OnOk result ((n : ℕ) → self.old.turns.running ≡ Some n → self.new ≡ record self.old { turns = asks_for n (action_of action.now) self.old.turns }) }
    {
        match action {
            Action::Connect(..) | Action::Accept(..) => self.wakes(),
            _ => Ok(()),
        }
    }

    // Each await is tried again.
    fn wakes(&mut self) -> Result<(), NoMemory>
        ensures { OnOk result (self.new ≡ record self.old { turns = wakes self.old.turns }) }
    {
        self.running = None;
        self.ready.extend_from_slice(&self.awaiting)?;
        self.awaiting.clear();
        Ok(())
    }
}

// A run stops where its thread asks for an action.
fn stop_for(thread: u8, action: Option<Action>) -> Option<Stop>
    ensures { result ≡ option_map (λ asked. stop.Act thread asked) action }
{
    match action {
        Some(action) => Some(Stop::Act { thread, action }),
        None => None,
    }
}
