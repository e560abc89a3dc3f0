//! A place for a thread.

ghost use Rattle.std.specs.Prelude.{◌≡◌, [], ◌∷◌, ◌++◌, None, Some, IfOk, is_some};
ghost use Rattle.machine_turns.specs.Threads.{Standing};
ghost use Rattle.machine_turns.specs.Turns.{is_ready_after};
ghost use Rattle.machine_thread.specs.Told.{outcome_of, told};
ghost use Rattle.machine_thread.specs.Programs.{program_of};
ghost use Rattle.machine_steps.specs.Operands.{IsCourse, StaysReady};

use lynx_code::Code;
use lynx_lexer::NoMemory;
use machine_stack::Variables;
use machine_thread::{Given, Move, Thread};
use std::alloc::Global;
use std::marker::Model;

/// A place for a thread, which takes the memory of one only where one stands. Contracts see the thread.
#[derive(Drop)]
pub(crate) struct Slot {
    thread: Option<Box<Thread>>,
}

impl Model for Slot {
    ghost use Rattle.std.specs.Prelude.{Option, option_map};
    ghost use Rattle.machine_turns.specs.Threads.{Standing};

    ghost Value = { Option Standing };

    ghost view = { λ s. option_map (λ b. b.value) s.thread };
}

impl Slot {
    /// Where no thread stands.
    pub(crate) fn free() -> Slot
        ensures { result ≡ None }
    {
        Slot { thread: None }
    }

    /// Where this thread stands.
    pub(crate) fn of(alloc: Global, thread: Thread) -> Result<Slot, NoMemory>
        ensures { IfOk result (λ slot. slot ≡ Some thread) }
    {
        let boxed = Box::new(alloc, thread)?;
        Ok(Slot {
            thread: Some(boxed),
        })
    }

    /// A thread stands here.
    pub(crate) fn stands(&self) -> bool
        ensures { result ≡ is_some self.now }
    {
        self.thread.is_some()
    }

    /// Its thread evaluates once more the condition of an await that found false.
    pub(crate) fn is_trying_again(&self) -> bool
        requires { (s : Standing) × (self.now ≡ Some s) }
        ensures { (s : Standing) → self.now ≡ Some s → result ≡ s.again }
    {
        match &self.thread {
            Some(thread) => thread.is_trying_again(),
            None => unreachable!(),
        }
    }

    /// The action of its thread has this outcome. Tells whether the action was to connect or to accept.
    pub(crate) fn give(&mut self, outcome: Given) -> Result<bool, NoMemory>
        requires { (s : Standing) × (self.old ≡ Some s) }
        ensures { IfOk result (λ ready. (s : Standing) → self.old ≡ Some s → (ready ≡ is_ready_after s.wanted) × (self.new ≡ Some (record s { given = s.given ++ outcome_of outcome ∷ []; wanted = None }))) }
    {
        match &mut self.thread {
            Some(thread) => thread.give(outcome),
            None => unreachable!(),
        }
    }

    /// Its thread goes on, as far as the fuel goes.
    pub(crate) fn run(
        &mut self,
        code: &Code,
        globals: &mut Variables,
        fuel: u32,
    ) -> Result<(Move, u32), NoMemory>
        requires { (s : Standing) × (self.old ≡ Some s) × StaysReady (program_of code.now) globals.old s }
        ensures { IfOk result (λ r. (s t : Standing) × (self.old ≡ Some s) × (self.new ≡ Some t) × IsCourse (program_of code.now) fuel globals.old s r.1 (told r.0 globals.new t)) }
    {
        match &mut self.thread {
            Some(thread) => thread.run(code, globals, fuel),
            None => unreachable!(),
        }
    }
}
