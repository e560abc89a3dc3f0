//! Which messages answer what stands on an end.

ghost use Rattle.std.specs.Prelude.{◌≡◌, ◌≤◌, length};
ghost use Rattle.lynx_packets.specs.Spelling.{links_of};
ghost use Rattle.end_protocol.specs.Messages.{carried};
ghost use Rattle.end_protocol.specs.Hearing.{type_of, have_types, is_outstanding, is_awaited, links_out, has_results, is_next_of_request, is_next_of_reply, answers, brought_back, brings, is_readable, is_whole};

use crate::copies::most;
use crate::kept::Kept;
use charlotte_calls::EndId;
use lynx_packets::{RtPacket, RtValue};
use lynx_tree::TypeName;
use typing_rules::fits;

fn type_of(value: &RtValue) -> TypeName
    ensures { result ≡ type_of value.now }
{
    match value {
        RtValue::Int(_) => TypeName::Int,
        RtValue::Bool(_) => TypeName::Bool,
        RtValue::Text(_) => TypeName::Text,
        RtValue::Row(row) => TypeName::Row(row.as_slice().len() as i64),
        RtValue::Link => TypeName::Link,
    }
}

/// Whether there are as many values as types, and each is of its type.
fn have_types(values: &[RtValue], types: &[TypeName]) -> bool
    ensures { result ≡ have_types values.now types.now }
{
    match values {
        [] => match types {
            [] => true,
            [_, ..] => false,
        },
        [value, values @ ..] => match types {
            [] => false,
            [kind, types @ ..] => { fits(*kind, Some(type_of(value))) && have_types(values, types) }
        },
    }
}

/// How many links are among the values.
pub(crate) fn links_of(values: &[RtValue]) -> usize
    ensures same { result ≡ links_of values.now }
    ensures few { result ≤ length values.now }
{
    match values {
        [] => 0,
        [RtValue::Link, others @ ..] => 1 + links_of(others),
        [_, others @ ..] => links_of(others),
    }
}

/// How many ends travel with the packet of a request or reply with these values.
pub(crate) fn carried(version: u8, values: &[RtValue]) -> usize
    ensures { result ≡ carried version values.now }
{
    most(version).min(links_of(values))
}

/// Whether all ends of a message are there.
pub(crate) fn is_whole(values: &[RtValue], ends: &[EndId]) -> bool
    ensures { result ≡ is_whole values.now ends.now }
{
    ends.len() == links_of(values)
}

impl Kept {
    /// Whether the number is that of the outstanding request.
    fn is_outstanding(&self, number: u32) -> bool
        ensures { result ≡ is_outstanding number self.now.outstanding }
    {
        match &self.outstanding {
            Some(connect) => connect.number == number,
            None => false,
        }
    }

    /// Whether the number is that of the outstanding request, which is not barred.
    fn is_awaited(&self, number: u32) -> bool
        ensures { result ≡ is_awaited number self.now }
    {
        self.is_outstanding(number) && !self.barred
    }

    fn links_out(&self) -> usize
        ensures { result ≡ links_out self.now.outstanding }
    {
        match &self.outstanding {
            Some(connect) => links_of(connect.values.as_slice()),
            None => 0,
        }
    }

    /// Whether a reply that is done has the results of the operation that was asked for.
    fn has_results(&self, status: u8, values: &[RtValue]) -> bool
        ensures { result ≡ has_results status values.now self.now.outstanding }
    {
        match &self.outstanding {
            Some(connect) if status == 0 => have_types(values, connect.results.as_slice()),
            Some(_) => true,
            None => false,
        }
    }

    /// Whether an enc is the next one of the request in part.
    fn is_next_of_request(&self, number: u32, index: u8) -> bool
        ensures { result ≡ is_next_of_request number index self.now.request }
    {
        match &self.request {
            Some(wanted) => {
                wanted.number == number && usize::from(index) == wanted.ends.as_slice().len() + 1
            }
            None => false,
        }
    }

    /// Whether an enc is the next one of the reply in part.
    fn is_next_of_reply(&self, number: u32, index: u8) -> bool
        ensures { result ≡ is_next_of_reply number index self.now.reply }
    {
        match &self.reply {
            Some(reply) => reply.number == number
                && usize::from(index) == reply.ends.as_slice().len() + 1,
            None => false,
        }
    }

    fn answers(&self, packet: &RtPacket) -> bool
        ensures { result ≡ answers packet.now self.now }
    {
        match packet {
            RtPacket::Request { .. } => self.owed.is_none() && self.request.is_none(),
            RtPacket::Reply {
                number,
                status,
                values,
            } => {
                self.is_awaited(*number)
                    && self.reply.is_none()
                    && self.has_results(*status, values.as_slice())
            }
            RtPacket::Retry(number) | RtPacket::Forbid(number) => self.is_awaited(*number),
            RtPacket::Allow(number) => self.is_outstanding(*number) && self.barred,
            RtPacket::GoAhead(number) => self.is_awaited(*number) && 2 <= self.links_out(),
            RtPacket::Enc {
                kind: 1,
                number,
                index,
            } => self.is_next_of_request(*number, *index),
            RtPacket::Enc {
                kind: _,
                number,
                index,
            } => self.is_next_of_reply(*number, *index),
        }
    }

    /// How many ends come back with a retry or forbid.
    fn brought_back(&self, version: u8) -> usize
        ensures { result ≡ brought_back version self.now.outstanding }
    {
        match &self.outstanding {
            Some(connect) => carried(version, connect.values.as_slice()),
            None => 0,
        }
    }

    fn brings(&self, version: u8, packet: &RtPacket) -> usize
        ensures { result ≡ brings version packet.now self.now }
    {
        match packet {
            RtPacket::Request { values, .. } | RtPacket::Reply { values, .. } => {
                carried(version, values.as_slice())
            }
            RtPacket::Retry(_) | RtPacket::Forbid(_) => self.brought_back(version),
            RtPacket::Allow(_) | RtPacket::GoAhead(_) => 0,
            RtPacket::Enc { .. } => 1,
        }
    }

    /// Whether the packet answers what stands on the end, and brings as many ends as it should.
    #[tactic(auto, unfolding(crate::specs::Hearing::is_readable))]
    pub(crate) fn is_readable(&self, version: u8, packet: &RtPacket, ends: &[EndId]) -> bool
        ensures { result ≡ is_readable version packet.now ends.now self.now }
    {
        self.answers(packet) && ends.len() == self.brings(version, packet)
    }
}
