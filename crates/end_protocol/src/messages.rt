//! Messages to be sent.

ghost use Rattle.std.specs.Prelude.{◌≡◌, ◌≤◌, ◌+◌, ◌++◌, ◌∷◌, [], length, drop, take, IfOk, OnOk};
ghost use Rattle.end_protocol.specs.Messages.{most_of, request_of, further, encs};

use crate::copies::{copy_values, front};
use crate::line::Line;
use charlotte_calls::{EndId, Ends, Items, NoMemory};
use lynx_packets::{RtPacket, RtValue};
use lynx_tree::TypeName;
use std::alloc::Global;

/// A packet to be sent, with the ends that travel with it.
#[derive(Drop)]
pub struct Message {
    pub packet: RtPacket,
    pub ends: Ends,
}

/// A thread that connects.
#[derive(Drop)]
pub struct Connect {
    pub thread: u8,
    /// The number of its request.
    pub number: u32,
    pub signature: Items<u8>,
    pub values: Items<RtValue>,
    /// The types of the results of its operation.
    pub results: Items<TypeName>,
    /// Those ends among the values that are with the process and in no packet that is queued, in order.
    pub ends: Items<EndId>,
}

impl Connect {
    /// The request, with those ends that travel with it.
    pub(crate) fn message(&self, alloc: Global, version: u8) -> Result<Message, NoMemory>
        ensures { IfOk result (λ m. m ≡ request_of version self.now) }
    {
        let signature = Vec::from_slice(alloc, self.signature.as_slice())?;
        let values = copy_values(alloc, self.values.as_slice())?;
        Ok(Message {
            packet: RtPacket::Request {
                number: self.number,
                signature: Items::of(signature),
                values: Items::of(values),
            },
            ends: front(version, self.ends.as_slice()),
        })
    }
}

/// Enc packets join a queue, one for each end, with these indices and those that follow.
pub(crate) fn push_encs(
    queue: &mut Line<Message>,
    kind: u8,
    number: u32,
    index: u8,
    ends: &[EndId],
) -> Result<(), NoMemory>
    requires { index + length ends.now ≤ 9 }
    ensures { OnOk result (queue.new ≡ queue.old ++ encs kind number index ends.now) }
{
    match ends {
        [] => Ok(()),
        [end, others @ ..] => {
            queue.push(Message {
                packet: RtPacket::Enc {
                    kind,
                    number,
                    index,
                },
                ends: front(2, &[*end]),
            })?;
            push_encs(queue, kind, number, index + 1, others)
        }
    }
}
