//! A thread.

ghost use Rattle.std.specs.Prelude.{◌≡◌, [], ◌∷◌, ◌++◌, None, IfOk, OnOk};
ghost use Rattle.machine_turns.specs.Threads.{begun};
ghost use Rattle.machine_turns.specs.Turns.{is_ready_after};
ghost use Rattle.code_shapes.specs.Shapes.{opened_by};
ghost use Rattle.machine_thread.specs.Told.{outcome_of};

use crate::action::{Given, Wanted};
use crate::requests::Requests;
use lynx_lexer::NoMemory;
use machine_stack::{Operands, Variables};
use std::alloc::Global;
use std::marker::Model;
use typing_rules::Exception;

/// An open try: the address of its handlers, and what was there as it was opened.
#[derive(Clone, Copy, Debug)]
pub(crate) struct Opened {
    pub(crate) handlers: u16,
    pub(crate) height: usize,
    pub(crate) depth: usize,
}

/// A thread, which stands before the instruction at its address. An instruction with actions asks for them one by one: it begins anew
/// with what it was given so far, and changes nothing else of the thread before it is done.
#[derive(Debug, Drop)]
pub struct Thread {
    pub(crate) alloc: Global,
    pub(crate) address: usize,
    pub(crate) locals: Variables,
    pub(crate) operands: Operands,
    pub(crate) tries: Vec<Opened>,
    pub(crate) requests: Requests,
    pub(crate) pending: Option<Exception>,
    pub(crate) given: Vec<Given>,
    pub(crate) wanted: Option<Wanted>,
    pub(crate) again: bool,
}

impl Model for Thread {
    ghost use Rattle.std.specs.Prelude.{map, option_map};
    ghost use Rattle.machine_turns.specs.Threads.{Standing};
    ghost use Rattle.machine_thread.specs.Kept.{open_tries};
    ghost use Rattle.machine_thread.specs.Told.{outcome_of, wanted_of};

    ghost Value = { Standing };

    ghost view = { λ t. record {
      address = t.address;
      locals = t.locals;
      stack = t.operands;
      tries = open_tries t.tries.items;
      requests = t.requests;
      pending = t.pending;
      given = map outcome_of t.given.items;
      wanted = option_map wanted_of t.wanted;
      again = t.again;
    } };
}

impl Thread {
    /// A thread of the part that begins at this address and serves this operation, with these locals. An entry's begins with one open
    /// request.
    pub fn new(
        alloc: Global,
        op: Option<u32>,
        start: u16,
        locals: Variables,
    ) -> Result<Thread, NoMemory>
        ensures { IfOk result (λ thread. thread ≡ begun (opened_by op) start locals) }
    {
        let requests = Requests::opened_by(alloc, op)?;
        Ok(Thread {
            alloc,
            address: usize::from(start),
            locals,
            operands: Operands::new(alloc),
            tries: Vec::new(alloc),
            requests,
            pending: None,
            given: Vec::new(alloc),
            wanted: None,
            again: false,
        })
    }

    /// Its action has this outcome. Tells whether the action was to connect or to accept.
    pub fn give(&mut self, outcome: Given) -> Result<bool, NoMemory>
        ensures given { OnOk result (self.new ≡ record self.old { given = self.old.given ++ outcome_of outcome ∷ []; wanted = None }) }
        ensures ready { IfOk result (λ ready. ready ≡ is_ready_after self.old.wanted) }
    {
        let ready = match self.wanted {
            Some(Wanted::Results(_) | Wanted::Arguments(_)) => true,
            Some(Wanted::NoValue | Wanted::Closing | Wanted::TwoLinks) | None => false,
        };
        self.hears(outcome)?;
        self.wanted = None;
        Ok(ready)
    }

    /// It evaluates once more the condition of an await that found false.
    pub fn is_trying_again(&self) -> bool
        ensures { result ≡ self.now.again }
    {
        self.again
    }
}
