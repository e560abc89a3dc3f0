//! What a process keeps for an end.

ghost use Rattle.std.specs.Prelude.{◌≡◌};
ghost use Rattle.end_protocol.specs.Kept.{fresh};

use crate::line::Line;
use crate::messages::{Connect, Message};
use crate::roll::Roll;
use charlotte_calls::{EndId, Items};
use lynx_packets::RtValue;
use std::alloc::Global;

/// Whether a send is started on an end.
#[derive(Clone, Copy)]
pub enum Sending {
    Idle,
    /// One is, and the ends that travel with it were held by this process.
    Own,
    /// One is, and the ends that travel with it came with a request that goes back.
    Back,
}

/// Whether a receive is started on an end.
#[derive(Clone, Copy)]
pub enum Receiving {
    Idle,
    Started,
    /// One is, and a Cancel of it was answered Late or Dead.
    Late,
}

/// A thread that accepts requests of this signature.
#[derive(Drop)]
pub struct Accept {
    pub thread: u8,
    pub signature: Items<u8>,
}

/// An entry that is bound to an end; it serves requests of this signature.
#[derive(Drop)]
pub struct Binding {
    pub entry: u16,
    pub signature: Items<u8>,
}

/// Who takes a request: a thread that accepts, or an entry that is bound.
#[derive(Clone, Copy)]
pub enum Taker {
    Thread(u8),
    Entry(u16),
}

/// A request that was forbidden, and not yet allowed.
#[derive(Drop)]
pub struct Forbade {
    pub number: u32,
    pub signature: Items<u8>,
}

/// A request that is wanted, with those of its ends that came.
#[derive(Drop)]
pub struct Wanted {
    pub by: Taker,
    pub number: u32,
    pub signature: Items<u8>,
    pub values: Items<RtValue>,
    pub ends: Items<EndId>,
}

/// A reply to the request of this number, done (status 0) or failed (status 1), with those of its ends that are there.
#[derive(Drop)]
pub struct Response {
    pub number: u32,
    pub status: u8,
    pub values: Items<RtValue>,
    pub ends: Items<EndId>,
}

/// What a process keeps for an end that it holds.
#[derive(Drop)]
pub struct Kept {
    /// The packets to be sent.
    pub queue: Line<Message>,
    pub sending: Sending,
    pub receiving: Receiving,
    /// The number of the last request that was issued, 0 before the first.
    pub last: u32,
    /// The first of the connects: its request is outstanding.
    pub outstanding: Option<Connect>,
    /// The outstanding request was forbidden, and not yet allowed.
    pub barred: bool,
    /// The other connects, in order.
    pub behind: Line<Connect>,
    /// The request that was accepted, and is owed a reply.
    pub owed: Option<u32>,
    pub forbade: Option<Forbade>,
    /// A request in part, in version 1.
    pub request: Option<Wanted>,
    /// A reply in part, in version 1.
    pub reply: Option<Response>,
    /// The threads that accept, in the order in which they came to.
    pub accepts: Roll<Accept>,
    /// The entries that are bound, in the order in which they were.
    pub bindings: Roll<Binding>,
    pub dead: bool,
}

impl Kept {
    /// What is kept for an end that the process gets, or holds again.
    pub fn new(alloc: Global) -> Kept
        ensures { result ≡ fresh }
    {
        Kept {
            queue: Line::new(alloc),
            sending: Sending::Idle,
            receiving: Receiving::Idle,
            last: 0,
            outstanding: None,
            barred: false,
            behind: Line::new(alloc),
            owed: None,
            forbade: None,
            request: None,
            reply: None,
            accepts: Roll::new(alloc),
            bindings: Roll::new(alloc),
            dead: false,
        }
    }
}
