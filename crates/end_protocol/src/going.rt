//! Calls that are due on an end, and what their answers and reports do with it.

ghost use Rattle.std.specs.Prelude.{◌≡◌, ◌++◌, ◌∷◌, [], OnOk, option_map, option_copied};
ghost use Rattle.end_protocol.specs.Lists.{head};
ghost use Rattle.end_protocol.specs.Wanting.{is_needed};
ghost use Rattle.end_protocol.specs.Falling.{is_own};
ghost use Rattle.end_protocol.specs.Going.{is_allow_due, allows, settled, due_call, enclosed, sending_of, sent, send_over, returns, receives, receive_over, cancel_late};

use crate::copies::{front, no_ends};
use crate::kept::{Forbade, Kept, Receiving, Sending};
use crate::messages::Message;
use charlotte_calls::{Ends, NoMemory};
use lynx_packets::RtPacket;

/// A call that is due on an end.
#[derive(Clone, Copy)]
pub enum Due {
    Nothing,
    /// A Send of the first packet of the queue.
    Send,
    Receive,
    /// A Cancel of the receive.
    Cancel,
}

impl Message {
    /// Whether the ends that travel with the packet were held by this process: a retry or forbid gives back those of another one's request.
    fn is_own(&self) -> bool
        ensures { result ≡ is_own self.now.packet }
    {
        !matches!(self.packet, RtPacket::Retry(_) | RtPacket::Forbid(_))
    }

    fn sending(&self) -> Sending
        ensures { result ≡ sending_of (Some self.now) }
    {
        if self.is_own() {
            Sending::Own
        } else {
            Sending::Back
        }
    }

    /// The ends that a Send of the packet encloses: in version 1 one at most.
    pub fn enclosed(&self, version: u8) -> Ends
        ensures { result ≡ enclosed version self.now }
    {
        front(version, self.ends.as_slice())
    }
}

impl Sending {
    /// Whether the ends that a report Destroyed of the send returns are held again.
    pub fn returns(self) -> bool
        ensures { result ≡ returns self }
    {
        matches!(self, Sending::Own)
    }
}

impl Kept {
    /// Whether what was forbidden is wanted now, or nothing is received any more.
    fn is_allow_due(&self, room: bool, forbade: &Forbade) -> bool
        ensures { result ≡ is_allow_due room forbade.now self.now }
    {
        self.taker(room, forbade.signature.as_slice()).is_some() || !self.is_needed(room)
    }

    /// The request that was forbidden may be sent again.
    #[tactic(auto, unfolding(crate::specs::Going::allows))]
    fn allow(&mut self, number: u32) -> Result<(), NoMemory>
        ensures { OnOk result (self.new ≡ allows number self.old) }
    {
        self.forbade = None;
        self.queue.push(Message {
            packet: RtPacket::Allow(number),
            ends: no_ends(),
        })
    }

    /// An allow is queued if it is due. It is to be asked after all that changes what is kept for the end, or whether there is room for a thread.
    pub fn settle(&mut self, room: bool) -> Result<(), NoMemory>
        ensures { OnOk result (self.new ≡ settled room self.old) }
    {
        let Some(forbade) = &self.forbade else {
            return Ok(());
        };
        if !self.is_allow_due(room, forbade) {
            return Ok(());
        }
        let number = forbade.number;
        self.allow(number)
    }

    /// The first call that is due.
    #[tactic(auto, unfolding(crate::specs::Going::due_call))]
    pub fn due(&self, room: bool) -> Due
        ensures { result ≡ due_call room self.now }
    {
        if self.sending.is_idle() && !self.queue.is_empty() {
            return Due::Send;
        }
        if self.receiving.is_idle() && self.is_needed(room) {
            return Due::Receive;
        }
        if self.receiving.may_cancel() && !self.is_needed(room) {
            return Due::Cancel;
        }
        Due::Nothing
    }

    /// The Send of the first packet was answered Ok: it leaves the queue.
    #[tactic(auto, unfolding(crate::specs::Going::sent))]
    pub fn sent(&mut self)
        ensures { self.new ≡ sent self.old }
    {
        self.sending = match self.queue.take() {
            Some(message) => message.sending(),
            None => Sending::Idle,
        };
    }

    /// The send was reported.
    pub fn send_over(&mut self)
        ensures { self.new ≡ send_over self.old }
    {
        self.sending = Sending::Idle;
    }

    /// A Receive was answered Ok.
    pub fn receives(&mut self)
        ensures { self.new ≡ receives self.old }
    {
        self.receiving = Receiving::Started;
    }

    /// The receive was reported, or its Cancel was answered Ok.
    pub fn receive_over(&mut self)
        ensures { self.new ≡ receive_over self.old }
    {
        self.receiving = Receiving::Idle;
    }

    /// The Cancel of the receive was answered Late or Dead.
    pub fn cancel_late(&mut self)
        ensures { self.new ≡ cancel_late self.old }
    {
        self.receiving = Receiving::Late;
    }
}
