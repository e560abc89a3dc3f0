//! What comes of an instruction: a thread asks for actions, and is given their outcomes.

ghost use Rattle.std.specs.Prelude.{◌≡◌};
ghost use Rattle.machine_thread.specs.Told.{action_of, wanted_of};
ghost use Rattle.lynx_meaning.specs.Needs.{wanted_by};

use machine_values::{LinkRef, Value};
use typing_rules::{Exception, ShortText};

/// What a thread asks of its process. An operation and an entry are named by their numbers in the module.
#[derive(Debug, Drop)]
pub enum Action {
    /// It is given two links.
    New,
    Destroy(LinkRef),
    /// To this entry.
    Bind(LinkRef, u16),
    Unbind(LinkRef, u16),
    /// A request of this operation with these values. It is given the results.
    Connect(LinkRef, u32, Vec<Value>),
    /// A request of this operation. It is given the arguments.
    Accept(LinkRef, u32),
    /// Of the innermost open request.
    Close,
    Reply(Vec<Value>),
    Write(ShortText),
    /// The process ends. It is given no outcome.
    StopAll,
}

/// The outcome of an action.
#[derive(Debug, Drop)]
pub enum Given {
    Values(Vec<Value>),
    Raise(Exception),
}

/// What comes of an instruction.
#[derive(Debug, Drop)]
pub enum Move {
    GoesOn,
    /// Boxed, since each instruction tells a move and few ask for an action.
    Acts(Box<Action>),
    /// An await found false.
    Awaits,
    Ends,
}

/// Which values an action needs.
#[derive(Clone, Copy, Debug, PartialEq, Eq)]
pub enum Wanted {
    NoValue,
    /// None, and the innermost open request is closed then.
    Closing,
    TwoLinks,
    /// Those of the operation of this number.
    Results(u32),
    Arguments(u32),
}

impl Action {
    /// Which values it needs.
    pub fn wanted(&self) -> Wanted
        ensures { wanted_of result ≡ wanted_by (action_of self.now) }
    {
        match self {
            Action::New => Wanted::TwoLinks,
            Action::Connect(_, op, _) => Wanted::Results(*op),
            Action::Accept(_, op) => Wanted::Arguments(*op),
            Action::Close => Wanted::Closing,
            Action::Destroy(_)
            | Action::Bind(..)
            | Action::Unbind(..)
            | Action::Reply(_)
            | Action::Write(_)
            | Action::StopAll => Wanted::NoValue,
        }
    }
}
