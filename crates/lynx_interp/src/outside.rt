//! What the process does to the threads of its machine.

ghost use Rattle.std.specs.Prelude.{◌≡◌, ◌+◌, ◌↔◌, [], ◌∷◌, ◌++◌, true, IfOk, OnOk, OnErr, IsNone, IfSome, IfNone, MatchOption, Some, None, length, slice_get, nat_lt};
ghost use Rattle.machine_turns.specs.Threads.{Standing, begun};
ghost use Rattle.machine_turns.specs.Turns.{IsFree, given_to, is_ready_after, spawned, with_thread, most_threads};
ghost use Rattle.machine_values.specs.Told.{values_of};
ghost use Rattle.machine_sound.specs.Sound.{FitsAction, StayOthers};
ghost use Rattle.machine_thread.specs.Told.{outcome_of};
ghost use Rattle.code_shapes.specs.Shapes.{PartTypes, opened_by};
ghost use Rattle.lynx_interp.specs.Machines.{GivesRequests, HasEntry, IsEntryFor, IsMachine, IsSpawned, SpawnsRequests, StandBelow, how_many};
ghost use Rattle.compiler_runnable.specs.Runnable.{start_locals};

use crate::machine::Machine;
use crate::slot::Slot;
use crate::starts::entry_variables;
use lynx_lexer::NoMemory;
use machine_thread::{Given, Thread};
use machine_values::Value;

impl Machine {
    /// Gives a thread the outcome of its action. One that connected or accepted goes to the end of those that are ready, and any other
    /// goes on as the one that runs. After NoMemory the machine is spoiled.
    pub fn give(&mut self, thread: u8, outcome: Given) -> Result<(), NoMemory>
        requires machine { IsMachine self.old }
        requires fits { FitsAction self.old.types thread (outcome_of outcome) self.old.turns }
        ensures given { OnOk result (self.new ≡ record self.old { turns = given_to thread (outcome_of outcome) self.old.turns }) }
        ensures others { OnOk result (StayOthers thread self.old.turns self.new.turns) }
        ensures requests { OnOk result (GivesRequests thread (outcome_of outcome) self.old self.new) }
        ensures machine { OnOk result (IsMachine self.new) }
    {
        self.gives(thread, outcome)
    }

    /// A new thread of this entry, whose parameters have these values, at the end of those that are ready. Its number, the first that
    /// is free; None exactly where 32 threads stand.
    pub fn spawn(&mut self, entry: u16, values: Vec<Value>) -> Result<Option<u8>, NoMemory>
        requires machine { IsMachine self.old }
        requires entry { IsEntryFor entry (values_of values.items) self.old }
        ensures full { IfOk result (λ number. IsNone number ↔ (how_many self.old.turns.threads ≡ most_threads)) }
        ensures spawned { IfOk result (λ number. IfSome number (λ n. IsSpawned n entry (values_of values.items) self.old self.new)) }
        ensures first { IfOk result (λ number. IfSome number (λ n. StandBelow n self.old.turns)) }
        ensures others { IfOk result (λ number. IfSome number (λ n. StayOthers n self.old.turns self.new.turns)) }
        ensures requests { IfOk result (λ number. IfSome number (λ n. SpawnsRequests n entry self.old self.new)) }
        ensures none { IfOk result (λ number. IfNone number (self.new ≡ self.old)) }
        ensures unchanged { OnErr result (self.new ≡ self.old) }
        ensures machine { OnOk result (IsMachine self.new) }
    {
        let Some(number) = self.free_number() else {
            return Ok(None);
        };
        self.begins(number, entry, values)?;
        Ok(Some(number))
    }

    // A thread with an outcome is ready again, or keeps its turn.
    fn gives(&mut self, thread: u8, outcome: Given) -> Result<(), NoMemory>
        requires { (s : Standing) × (slice_get self.old.turns.threads thread ≡ Some (Some s)) }
        ensures { OnOk result (self.new ≡ record self.old { turns = given_to thread (outcome_of outcome) self.old.turns }) }
    {
        if self.hands(thread, outcome)? {
            self.ready.push(thread)?;
        }
        Ok(())
    }

    // A thread of an entry begins under a free number.
    fn begins(&mut self, number: u8, entry: u16, values: Vec<Value>) -> Result<(), NoMemory>
        requires free { IsFree number self.old.turns }
        requires entry { HasEntry entry (values_of values.items) self.old }
        ensures begun { OnOk result ((p : PartTypes) → slice_get self.old.parts (entry + 1) ≡ Some p → self.new ≡ record self.old { turns = spawned number (opened_by p.op) p.start (start_locals p.locals (values_of values.items)) self.old.turns }) }
        ensures unchanged { OnErr result (self.new ≡ self.old) }
    {
        let slot = self.new_thread(entry, values)?;
        self.ready.reserve(1)?;
        self.threads[usize::from(number)] = slot;
        self.ready.push_reserved(number);
        Ok(())
    }

    // The first number of no thread.
    fn free_number(&self) -> Option<u8>
        ensures free { MatchOption result (how_many self.now.turns.threads ≡ most_threads) (λ n. IsFree n self.now.turns) }
        ensures first { IfSome result (λ n. StandBelow n self.now.turns) }
        ensures places { length self.now.turns.threads ≡ most_threads }
    {
        for number in 0..32_u8 {
            if !self.threads[usize::from(number)].stands() {
                return Some(number);
            }
        }
        None
    }

    /// Whether one more thread fits.
    pub fn has_room(&self) -> bool
        ensures { result ≡ nat_lt (how_many self.now.turns.threads) most_threads }
    {
        self.free_number().is_some()
    }

    // The thread of an entry before its first instruction.
    fn new_thread(&self, entry: u16, values: Vec<Value>) -> Result<Slot, NoMemory>
        requires { HasEntry entry (values_of values.items) self.now }
        ensures { IfOk result (λ slot. (p : PartTypes) → slice_get self.now.parts (entry + 1) ≡ Some p → slot ≡ Some (begun (opened_by p.op) p.start (start_locals p.locals (values_of values.items)))) }
    {
        let part = &self.code.parts[usize::from(entry) + 1];
        let locals = entry_variables(self.alloc, &part.locals, values)?;
        let thread = Thread::new(self.alloc, part.op, part.start, locals)?;
        Slot::of(self.alloc, thread)
    }

    // A thread has an outcome. Tells whether it connected or accepted.
    fn hands(&mut self, number: u8, outcome: Given) -> Result<bool, NoMemory>
        requires { (s : Standing) × (slice_get self.old.turns.threads number ≡ Some (Some s)) }
        ensures { IfOk result (λ ready. (s : Standing) → slice_get self.old.turns.threads number ≡ Some (Some s) → (ready ≡ is_ready_after s.wanted) × (self.new ≡ record self.old { turns = with_thread number (Some (record s { given = s.given ++ outcome_of outcome ∷ []; wanted = None })) self.old.turns })) }
    {
        self.threads[usize::from(number)].give(outcome)
    }
}
