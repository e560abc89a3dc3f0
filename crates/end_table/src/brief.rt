ghost use Rattle.std.specs.Prelude.{◌≡◌, ◌↔◌, IsSome, IfSome};
ghost use Rattle.end_table.specs.Kept.{IsBrief};

use crate::message::Message;
use charlotte_calls::{Bytes, EndId, Ends, Short};
use std::marker::Model;

/// A brief message: at most 48 bytes, and at most one end. Most messages are, and it takes a fifth of the room of the longest.
/// Contracts see the message.
#[derive(Drop)]
pub(crate) struct Brief {
    bytes: Short<u8, 48>,
    enclosed: Short<EndId, 1>,
}

impl Model for Brief {
    ghost use Rattle.end_table.specs.declared.message.Message.{Message};

    ghost Value = { Message };

    ghost view = { λ b. record { bytes = b.bytes; enclosed = b.enclosed } };
}

impl Brief {
    /// The message, where it is brief.
    #[inline(always)]
    pub(crate) fn of(message: &Message) -> Option<Brief>
        ensures brief { IsSome result ↔ IsBrief message.now }
        ensures same { IfSome result (λ b. b ≡ message.now) }
    {
        let bytes = Short::from_slice(message.bytes.as_slice())?;
        let enclosed = Short::from_slice(message.enclosed.as_slice())?;
        Some(Brief { bytes, enclosed })
    }

    /// Its bytes.
    pub(crate) fn bytes(&self) -> Bytes
        ensures { result ≡ self.now.bytes }
    {
        match Short::from_slice(self.bytes.as_slice()) {
            Some(bytes) => bytes,
            None => unreachable!(),
        }
    }

    /// The ends that it encloses.
    pub(crate) fn enclosed(&self) -> Ends
        ensures { result ≡ self.now.enclosed }
    {
        match Short::from_slice(self.enclosed.as_slice()) {
            Some(enclosed) => enclosed,
            None => unreachable!(),
        }
    }
}
