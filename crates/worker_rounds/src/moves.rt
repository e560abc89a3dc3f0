//! What a program does in a step.

ghost use Rattle.std.specs.Prelude.{◌≡◌};
ghost use Rattle.worker_rounds.specs.Cycles.{message_on, next_of};

use arrayvec::ArrayVec;
use charlotte_calls::{Bytes, Call, EndId, Ends, Next};

/// One step of a program.
#[derive(Clone, Copy)]
pub(crate) enum Move {
    /// A message of one byte.
    Send(EndId),
    Receive(EndId),
    Wait,
    /// Some work of its own.
    Think,
}

impl Move {
    /// What its step answers.
    #[inline(always)]
    pub(crate) fn next(self) -> Next
        ensures { result ≡ next_of self }
    {
        match self {
            Move::Send(on) => Next::Ask(message(on)),
            Move::Receive(on) => Next::Ask(Call::Receive { on }),
            Move::Wait => Next::Ask(Call::Wait),
            Move::Think => Next::Pause,
        }
    }
}

/// A Send of one byte that encloses nothing.
#[inline(always)]
fn message(on: EndId) -> Call
    ensures { result ≡ message_on on }
{
    let mut bytes = ArrayVec::new();
    bytes.push(b'x');
    Call::Send {
        on,
        bytes: Bytes::of(bytes),
        enclose: Ends::of(ArrayVec::new()),
    }
}
