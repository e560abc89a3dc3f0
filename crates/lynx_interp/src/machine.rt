//! A machine.

ghost use Rattle.std.specs.Prelude.{◌≡◌, ◌≤◌, [], ◌∷◌, length, replicate, None, Some, IfOk, ◌-◌};
ghost use Rattle.machine_turns.specs.Threads.{begun};
ghost use Rattle.machine_turns.specs.Turns.{at_start, most_threads};
ghost use Rattle.lynx_interp.specs.Machines.{IsMachine, how_many, start_globals, state_of};
ghost use Rattle.compiler_runnable.specs.Runnable.{HaveStarts, IsRunnable};

use crate::slot::Slot;
use crate::starts::{push_links, push_starts};
use lynx_code::Code;
use lynx_lexer::NoMemory;
use machine_stack::Variables;
use machine_thread::Thread;
use machine_values::LinkRef;
use std::alloc::Global;
use std::marker::Model;

/// The most threads that stand at a time.
pub(crate) const MOST_THREADS: usize = 32;

/// The threads of a process, which run the code of its module.
#[derive(Drop)]
pub struct Machine {
    pub(crate) alloc: Global,
    pub(crate) code: Code,
    pub(crate) globals: Variables,
    /// Each at its number.
    pub(crate) threads: Vec<Slot>,
    /// The one that has the turn.
    pub(crate) running: Option<u8>,
    /// Those that wait for a turn, in the order of becoming ready.
    pub(crate) ready: Vec<u8>,
    /// Those whose await found false, in the order of their last turns.
    pub(crate) awaiting: Vec<u8>,
}

impl Model for Machine {
    ghost use Rattle.std.specs.Prelude.{◌≡◌, length};
    ghost use Rattle.machine_turns.specs.Turns.{most_threads};
    ghost use Rattle.lynx_interp.specs.Machines.{State, state_of};

    ghost Value = { State };

    ghost view = { λ m. state_of m.code (record { globals = m.globals; threads = m.threads.items; running = m.running; ready = m.ready.items; awaiting = m.awaiting.items }) };

    ghost invariant = { λ m. length m.threads.items ≡ most_threads };
}

impl Machine {
    /// A machine before the first instruction of the module's body. The params hold these links.
    pub fn start(alloc: Global, code: Code, links: Vec<LinkRef>) -> Result<Machine, NoMemory>
        requires code { IsRunnable code }
        requires params { length links.items ≡ code.params }
        ensures start { IfOk result (λ machine. machine ≡ state_of code (at_start (start_globals code.globals.items links.items))) }
        ensures machine { IfOk result IsMachine }
    {
        Machine::fresh(alloc, code, links)
    }

    fn fresh(alloc: Global, code: Code, links: Vec<LinkRef>) -> Result<Machine, NoMemory>
        requires globals { HaveStarts code.globals.items }
        requires params { length links.items ≤ length code.globals.items }
        ensures { IfOk result (λ machine. machine ≡ state_of code (at_start (start_globals code.globals.items links.items))) }
    {
        let mut globals = Variables::new(alloc);
        push_links(alloc, &mut globals, &links)?;
        push_starts(alloc, &mut globals, &code.globals[links.len()..])?;
        Ok(Machine {
            alloc,
            code,
            globals,
            threads: body_alone(alloc)?,
            running: None,
            ready: Vec::from_slice(alloc, &[0])?,
            awaiting: Vec::new(alloc),
        })
    }

    /// The code that it runs.
    pub fn code(&self) -> &Code
        ensures { self.now ≡ state_of result.now self.now.turns }
    {
        &self.code
    }

    /// How many threads stand.
    pub fn standing(&self) -> u8
        ensures { result ≡ how_many self.now.turns.threads }
    {
        let mut standing = 0;
        for slot in &self.threads {
            if slot.stands() {
                standing += 1;
            }
        }
        standing
    }
}

// The thread of the module's body, and no other.
fn body_alone(alloc: Global) -> Result<Vec<Slot>, NoMemory>
    ensures { IfOk result (λ threads. threads.items ≡ Some (begun [] 0 []) ∷ replicate (most_threads - 1) None) }
{
    let mut threads = Vec::with_capacity(alloc, MOST_THREADS)?;
    let body = Thread::new(alloc, None, 0, Variables::new(alloc))?;
    threads.push(Slot::of(alloc, body)?)?;
    for _ in 0..MOST_THREADS - 1 {
        threads.push(Slot::free())?;
    }
    Ok(threads)
}
