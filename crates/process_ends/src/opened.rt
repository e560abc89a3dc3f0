//! Requests that are open in threads.

ghost use Rattle.std.specs.Prelude.{◌≡◌, ◌<◌, ◌+◌, ◌∷◌, [], true, length, replicate, slice_get, slice_set, sum_by, is_some, IfOk, OnOk, OnErr};
ghost use Rattle.end_protocol.specs.Lists.{head, tail};
ghost use Rattle.machine_turns.specs.Turns.{most_threads};
ghost use Rattle.process_run.specs.Actions.{listed};
ghost use Rattle.process_ends.specs.Opened.{answered};

use charlotte_calls::NoMemory;
use std::alloc::Global;
use std::collections::VecDeque;
use std::marker::Model;
use std::mem;

/// A request that is open in a thread.
#[derive(Clone, Copy)]
pub struct Open {
    /// The number of the end on which it was accepted.
    pub on: u32,
    pub number: u32,
    pub answered: bool,
}

impl Model for Open {
    ghost use Rattle.process_run.specs.States.{Open as Seen};

    ghost Value = { Seen };

    ghost view = { λ o. record { on = o.on; number = o.number; answered = o.answered } };

    ghost inverse = { λ o. record { on = o.on; number = o.number; answered = o.answered } };
}

/// The requests that are open in one thread, the innermost first.
#[derive(Drop)]
struct Stack {
    requests: VecDeque<Open>,
}

impl Model for Stack {
    ghost use Rattle.std.specs.Prelude.{List};
    ghost use Rattle.process_run.specs.States.{Open as Seen};

    ghost Value = { List Seen };

    ghost view = { λ s. s.requests.items };
}

impl Stack {
    fn new(alloc: Global) -> Stack
        ensures { result ≡ [] }
    {
        Stack {
            requests: VecDeque::new(alloc),
        }
    }

    fn len(&self) -> usize
        ensures { result ≡ length self.now }
    {
        self.requests.len()
    }

    /// The innermost request.
    fn top(&self) -> Option<Open>
        ensures { result ≡ head self.now }
    {
        self.requests.front().copied()
    }

    fn push(&mut self, request: Open) -> Result<(), NoMemory>
        ensures more { OnOk result (self.new ≡ request ∷ self.old) }
        ensures same { OnErr result (self.new ≡ self.old) }
    {
        self.requests.push_front(request)?;
        Ok(())
    }

    fn pop(&mut self)
        ensures { self.new ≡ tail self.old }
    {
        self.requests.pop_front();
    }

    /// The innermost request was answered.
    fn answer(&mut self)
        ensures { self.new ≡ answered self.old }
    {
        if let Some(request) = self.requests.pop_front() {
            self.requests.push_front_reserved(Open {
                on: request.on,
                number: request.number,
                answered: true,
            });
        }
    }
}

/// The requests that are open in each thread. Contracts see a list for each thread, the innermost request first.
#[derive(Drop)]
pub struct Opened {
    threads: Vec<Stack>,
    /// How many requests there are.
    count: u64,
}

impl Model for Opened {
    ghost use Rattle.std.specs.Prelude.{List};
    ghost use Rattle.process_run.specs.States.{Open as Seen};
    ghost use Rattle.process_ends.specs.Opened.{IsOpened};

    ghost Value = { List (List Seen) };

    ghost view = { λ o. o.threads.items };

    ghost invariant = { λ o. IsOpened o.threads.items o.count };
}

impl Opened {
    /// No request is open in any of the 32 threads.
    pub fn new(alloc: Global) -> Result<Opened, NoMemory>
        ensures { IfOk result (λ opened. opened ≡ replicate most_threads []) }
    {
        let mut threads = Vec::with_capacity(alloc, 32)?;
        for _ in 0..32_usize {
            threads.push(Stack::new(alloc))?;
        }
        Ok(Opened { threads, count: 0 })
    }

    /// How many requests are open.
    pub fn count(&self) -> u64
        ensures { result ≡ sum_by length self.now }
    {
        self.count
    }

    /// The innermost request that is open in a thread.
    pub fn innermost(&self, thread: u8) -> Option<Open>
        ensures { result ≡ head (listed (slice_get self.now thread)) }
    {
        match self.threads.get(thread as usize) {
            Some(stack) => stack.top(),
            None => None,
        }
    }

    /// A request is open in a thread, in which others may be open. More than 2^64 - 1 requests are told as want of memory.
    pub fn push(&mut self, thread: u8, request: Open) -> Result<(), NoMemory>
        requires { thread < length self.old }
        ensures { OnOk result (self.new ≡ slice_set self.old thread (request ∷ listed (slice_get self.old thread))) }
    {
        if self.count == u64::MAX {
            return Err(NoMemory);
        }
        push_at(&mut self.threads, thread as usize, request)?;
        self.count += 1;
        Ok(())
    }

    /// A thread begins with this request alone. More than 2^64 - 1 requests are told as want of memory.
    pub fn begin(&mut self, alloc: Global, thread: u8, request: Open) -> Result<(), NoMemory>
        requires { thread < length self.old }
        ensures { OnOk result (self.new ≡ slice_set self.old thread (request ∷ [])) }
    {
        let mut stack = Stack::new(alloc);
        stack.push(request)?;
        if self.count == u64::MAX {
            return Err(NoMemory);
        }
        let was = exchange_at(&mut self.threads, thread as usize, stack);
        self.count = self.count + 1 - was;
        Ok(())
    }

    /// The innermost request of a thread is closed.
    pub fn pop(&mut self, thread: u8)
        requires { thread < length self.old }
        ensures { self.new ≡ slice_set self.old thread (tail (listed (slice_get self.old thread))) }
    {
        if pop_at(&mut self.threads, thread as usize) {
            self.count -= 1;
        }
    }

    /// The innermost request of a thread was answered.
    pub fn answer(&mut self, thread: u8)
        requires { thread < length self.old }
        ensures { self.new ≡ slice_set self.old thread (answered (listed (slice_get self.old thread))) }
    {
        answer_at(&mut self.threads, thread as usize);
    }
}

fn push_at(threads: &mut Vec<Stack>, index: usize, request: Open) -> Result<(), NoMemory>
    requires { index < length threads.old.items }
    ensures more { OnOk result (threads.new.items ≡ slice_set threads.old.items index (request ∷ listed (slice_get threads.old.items index))) }
    ensures same { OnErr result (threads.new.items ≡ threads.old.items) }
{
    let stack = &mut threads[index];
    stack.push(request)
}

/// Gives how many requests were open in the thread.
fn exchange_at(threads: &mut Vec<Stack>, index: usize, stack: Stack) -> u64
    requires { index < length threads.old.items }
    ensures new { threads.new.items ≡ slice_set threads.old.items index stack }
    ensures old { result ≡ length (listed (slice_get threads.old.items index)) }
{
    let was = mem::replace(&mut threads[index], stack);
    was.len() as u64
}

/// Gives whether a request was open.
fn pop_at(threads: &mut Vec<Stack>, index: usize) -> bool
    requires { index < length threads.old.items }
    ensures left { threads.new.items ≡ slice_set threads.old.items index (tail (listed (slice_get threads.old.items index))) }
    ensures was { result ≡ is_some (head (listed (slice_get threads.old.items index))) }
{
    let stack = &mut threads[index];
    let was = stack.top().is_some();
    stack.pop();
    was
}

fn answer_at(threads: &mut Vec<Stack>, index: usize)
    requires { index < length threads.old.items }
    ensures { threads.new.items ≡ slice_set threads.old.items index (answered (listed (slice_get threads.old.items index))) }
{
    let stack = &mut threads[index];
    stack.answer();
}
