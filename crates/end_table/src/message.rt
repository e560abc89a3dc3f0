//! Messages of sends that wait: one as it is kept, and what proofs see of it at its end.
ghost use Rattle.std.specs.Prelude.{◌≡◌, ℕ, List};
ghost use Rattle.std.specs.Coded.{coded_list, coded_ℕ};
ghost use base.Fml.{ftrue};
ghost use Rattle.charlotte_calls.specs.declared.names.EndId.{EndId};
ghost use Rattle.end_table.specs.CodedEnd.{coded_end};

use charlotte_calls::{Bytes, Ends};
use std::marker::Model;

/// A message: its bytes and the ends that it encloses.
#[derive(Debug, Drop)]
pub(crate) struct Message {
    pub(crate) bytes: Bytes,
    pub(crate) enclosed: Ends,
}

/// What proofs see of a message that is kept elsewhere. It takes no memory.
#[derive(Drop)]
pub struct MessageSeen {
    pub ghost bytes: { List ℕ } by { coded_list coded_ℕ },
    pub ghost enclosed: { List EndId } by { coded_list coded_end },
}

impl Model for MessageSeen {
    ghost also_owns = { λ _. ftrue };
}

impl MessageSeen {
    /// What proofs see of this message.
    #[inline(always)]
    pub(crate) fn of(_message: &Message) -> MessageSeen
        ensures { ◌≡◌ {A = List ℕ × List EndId} (result.bytes, result.enclosed) (_message.now.bytes, _message.now.enclosed) }
    {
        MessageSeen {}
    }
}
