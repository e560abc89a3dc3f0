//! What a process does with a packet that is reported on an end.

ghost use Rattle.std.specs.Prelude.{◌≡◌, ◌++◌, ◌∷◌, [], drop, IfOk, OnOk};
ghost use Rattle.end_protocol.specs.Kept.{queued};
ghost use Rattle.end_protocol.specs.Wanting.{taker};
ghost use Rattle.end_protocol.specs.Hearing.{silently, still_accepting, accepted, let_come, wanted, retry_of, forbade, unwanted, request_for, next_asked, gone_on, reply_to, retried, is_forbidden, gone_ahead, request_grown, request_further, reply_further, read, late_request, sent_back, hears};

use crate::asking::{MOST_FURTHER, push_further};
use crate::copies::{joined, no_ends};
use crate::kept::{Forbade, Kept, Response, Taker, Wanted};
use crate::messages::{Connect, Message};
use crate::reading::{carried, is_whole};
use charlotte_calls::{EndId, Ends, Items, NoMemory};
use lynx_packets::{RtPacket, RtValue};
use std::alloc::Global;

/// What comes of a message.
#[derive(Drop)]
pub enum Heard {
    /// No thread goes on with it.
    Nothing,
    /// The request is accepted by the thread or entry that it names, and all of its ends are there.
    Accepted(Wanted),
    /// The thread that connects goes on with the reply, of which all ends are there.
    Returned(u8, Response),
    /// The end is dead; the ends that came are to be destroyed.
    TooLate(Ends),
    /// The message can't be read: the end is to be destroyed, and then the ends that came.
    Unreadable(Ends),
}

/// A request as it comes.
#[derive(Drop)]
struct Coming {
    number: u32,
    signature: Items<u8>,
    values: Items<RtValue>,
    ends: Ends,
}

impl Kept {
    /// A request is accepted.
    #[tactic(auto, unfolding(crate::specs::Hearing::accepted))]
    fn take_on(&mut self, wanted: &Wanted)
        ensures { self.new ≡ accepted wanted.now self.old }
    {
        self.owed = Some(wanted.number);
        self.request = None;
        if let Taker::Thread(thread) = wanted.by {
            self.accepts.leave(thread);
        }
    }

    /// The further ends of a request may come.
    #[tactic(auto, unfolding(crate::specs::Hearing::let_come))]
    fn let_come(&mut self, wanted: Wanted) -> Result<(), NoMemory>
        ensures { OnOk result (self.new ≡ let_come wanted self.old) }
    {
        let packet = RtPacket::GoAhead(wanted.number);
        self.request = Some(wanted);
        self.queue.push(Message {
            packet,
            ends: no_ends(),
        })
    }

    /// A request that is wanted comes.
    fn want(&mut self, request: Wanted) -> Result<Heard, NoMemory>
        ensures { IfOk result (λ heard. (self.new, heard) ≡ wanted request self.old) }
    {
        if is_whole(request.values.as_slice(), request.ends.as_slice()) {
            self.take_on(&request);
            return Ok(Heard::Accepted(request));
        }
        self.let_come(request)?;
        Ok(Heard::Nothing)
    }

    /// A request goes back, and may be tried again.
    #[tactic(auto, unfolding(crate::specs::Kept::queued))]
    fn send_back(&mut self, number: u32, ends: Ends) -> Result<(), NoMemory>
        ensures { OnOk result (self.new ≡ queued (retry_of number ends ∷ []) self.old) }
    {
        self.queue.push(Message {
            packet: RtPacket::Retry(number),
            ends,
        })
    }

    /// A request goes back, and waits for an allow.
    #[tactic(auto, unfolding(crate::specs::Hearing::forbade))]
    fn forbid(&mut self, coming: Coming) -> Result<(), NoMemory>
        ensures { OnOk result (self.new ≡ forbade coming.number coming.signature coming.ends self.old) }
    {
        let Coming {
            number,
            signature,
            ends,
            ..
        } = coming;
        self.forbade = Some(Forbade { number, signature });
        self.queue.push(Message {
            packet: RtPacket::Forbid(number),
            ends,
        })
    }

    /// A request that is not wanted goes back.
    fn turn_away(&mut self, room: bool, coming: Coming) -> Result<(), NoMemory>
        ensures { OnOk result (self.new ≡ unwanted room coming.number coming.signature coming.ends self.old) }
    {
        if self.is_needed(room) {
            return self.forbid(coming);
        }
        self.send_back(coming.number, coming.ends)
    }

    /// A request comes.
    fn meet(&mut self, alloc: Global, room: bool, coming: Coming) -> Result<Heard, NoMemory>
        ensures { IfOk result (λ heard. (self.new, heard) ≡ request_for (taker room coming.signature self.old) room coming.number coming.signature coming.values coming.ends self.old) }
    {
        match self.taker(room, coming.signature.as_slice()) {
            None => {
                self.turn_away(room, coming)?;
                Ok(Heard::Nothing)
            }
            Some(by) => self.want(wanted_by(alloc, by, coming)?),
        }
    }

    /// The first connect goes on, and the request of the next one is queued.
    #[tactic(auto, unfolding(crate::specs::Hearing::gone_on))]
    fn go_on(&mut self, alloc: Global, version: u8) -> Result<(), NoMemory>
        ensures { OnOk result (self.new ≡ gone_on version self.old) }
    {
        self.reply = None;
        self.outstanding = None;
        self.barred = false;
        let next = self.behind.take();
        self.ask_next(alloc, version, next)
    }

    fn ask_next(
        &mut self,
        alloc: Global,
        version: u8,
        next: Option<Connect>,
    ) -> Result<(), NoMemory>
        ensures { OnOk result (self.new ≡ next_asked version next self.old) }
    {
        match next {
            Some(connect) => self.ask(alloc, version, connect),
            None => Ok(()),
        }
    }

    /// A reply is there, whole or in part.
    fn hear_reply(&mut self, alloc: Global, version: u8, reply: Response) -> Result<Heard, NoMemory>
        ensures { IfOk result (λ heard. (self.new, heard) ≡ reply_to self.old.outstanding version reply self.old) }
    {
        let Some(connect) = &self.outstanding else {
            return Ok(Heard::Nothing);
        };
        let thread = connect.thread;
        if is_whole(reply.values.as_slice(), reply.ends.as_slice()) {
            self.go_on(alloc, version)?;
            return Ok(Heard::Returned(thread, reply));
        }
        self.reply = Some(reply);
        Ok(Heard::Nothing)
    }

    /// The outstanding request is queued again, with these ends that came back.
    #[tactic(auto, unfolding(crate::specs::Asking::asked))]
    fn hear_retry(&mut self, alloc: Global, version: u8, ends: &[EndId]) -> Result<Heard, NoMemory>
        ensures { IfOk result (λ heard. (self.new, heard) ≡ silently (retried self.old.outstanding version ends.now self.old)) }
    {
        let Some(mut connect) = self.outstanding.take() else {
            return Ok(Heard::Nothing);
        };
        connect.ends = joined(alloc, ends, connect.ends.as_slice())?;
        self.ask(alloc, version, connect)?;
        Ok(Heard::Nothing)
    }

    /// The outstanding request came back with these ends, and waits for an allow.
    fn hear_forbid(&mut self, alloc: Global, ends: &[EndId]) -> Result<Heard, NoMemory>
        ensures { IfOk result (λ heard. (self.new, heard) ≡ silently (is_forbidden self.old.outstanding ends.now self.old)) }
    {
        let Some(mut connect) = self.outstanding.take() else {
            return Ok(Heard::Nothing);
        };
        connect.ends = joined(alloc, ends, connect.ends.as_slice())?;
        self.outstanding = Some(connect);
        self.barred = true;
        Ok(Heard::Nothing)
    }

    /// The further ends of the outstanding request are queued.
    fn hear_go_ahead(&mut self, alloc: Global) -> Result<Heard, NoMemory>
        ensures { IfOk result (λ heard. (self.new, heard) ≡ silently (gone_ahead self.old.outstanding self.old)) }
    {
        let Some(mut connect) = self.outstanding.take() else {
            return Ok(Heard::Nothing);
        };
        let ends = connect.ends.as_slice();
        push_further(&mut self.queue, 1, connect.number, ends)?;
        connect.ends = behind_seven(alloc, ends)?;
        self.outstanding = Some(connect);
        Ok(Heard::Nothing)
    }

    /// A request in part has an end more.
    fn grow(&mut self, wanted: Wanted) -> Heard
        ensures { (self.new, result) ≡ request_grown wanted self.old }
    {
        if is_whole(wanted.values.as_slice(), wanted.ends.as_slice()) {
            self.take_on(&wanted);
            return Heard::Accepted(wanted);
        }
        self.request = Some(wanted);
        Heard::Nothing
    }

    /// A further end of the request in part comes.
    #[tactic(auto, unfolding(crate::specs::Hearing::accepted))]
    fn hear_of_request(&mut self, alloc: Global, ends: &[EndId]) -> Result<Heard, NoMemory>
        ensures { IfOk result (λ heard. (self.new, heard) ≡ request_further self.old.request ends.now self.old) }
    {
        let Some(mut wanted) = self.request.take() else {
            return Ok(Heard::Nothing);
        };
        wanted.ends = joined(alloc, wanted.ends.as_slice(), ends)?;
        Ok(self.grow(wanted))
    }

    /// A further end of the reply in part comes.
    fn hear_of_reply(
        &mut self,
        alloc: Global,
        version: u8,
        ends: &[EndId],
    ) -> Result<Heard, NoMemory>
        ensures { IfOk result (λ heard. (self.new, heard) ≡ reply_further self.old.reply version ends.now self.old) }
    {
        let Some(mut reply) = self.reply.take() else {
            return Ok(Heard::Nothing);
        };
        reply.ends = joined(alloc, reply.ends.as_slice(), ends)?;
        self.hear_reply(alloc, version, reply)
    }

    /// A message that can be read.
    fn read(
        &mut self,
        alloc: Global,
        version: u8,
        room: bool,
        packet: RtPacket,
        ends: Ends,
    ) -> Result<Heard, NoMemory>
        ensures { IfOk result (λ heard. (self.new, heard) ≡ read version room packet ends self.old) }
    {
        match packet {
            RtPacket::Request {
                number,
                signature,
                values,
            } => {
                let coming = Coming {
                    number,
                    signature,
                    values,
                    ends,
                };
                self.meet(alloc, room, coming)
            }
            RtPacket::Reply {
                number,
                status,
                values,
            } => {
                let reply = Response {
                    number,
                    status,
                    values,
                    ends: as_items(alloc, &ends)?,
                };
                self.hear_reply(alloc, version, reply)
            }
            RtPacket::Retry(_) | RtPacket::Allow(_) => {
                self.hear_retry(alloc, version, ends.as_slice())
            }
            RtPacket::Forbid(_) => self.hear_forbid(alloc, ends.as_slice()),
            RtPacket::GoAhead(_) => self.hear_go_ahead(alloc),
            RtPacket::Enc { kind: 1, .. } => self.hear_of_request(alloc, ends.as_slice()),
            RtPacket::Enc { .. } => self.hear_of_reply(alloc, version, ends.as_slice()),
        }
    }

    /// A message comes on a dead end: a request goes back, and all else does nothing.
    fn hear_late(&mut self, late: Option<u32>, ends: Ends) -> Result<Heard, NoMemory>
        ensures { IfOk result (λ heard. (self.new, heard) ≡ sent_back late ends self.old) }
    {
        let Some(number) = late else {
            return Ok(Heard::TooLate(ends));
        };
        self.send_back(number, ends)?;
        Ok(Heard::Nothing)
    }

    /// A packet is reported on the end, with the ends that came with it. `room` says that fewer threads stand than may, where a request in part for
    /// an entry counts as one.
    pub fn hear(
        &mut self,
        alloc: Global,
        version: u8,
        room: bool,
        packet: RtPacket,
        ends: Ends,
    ) -> Result<Heard, NoMemory>
        ensures { IfOk result (λ heard. (self.new, heard) ≡ hears version room packet ends self.old) }
    {
        if self.dead {
            let late = late_request(version, &packet, ends.as_slice());
            return self.hear_late(late, ends);
        }
        if !self.is_readable(version, &packet, ends.as_slice()) {
            return Ok(Heard::Unreadable(ends));
        }
        self.read(alloc, version, room, packet, ends)
    }
}

/// The number of a request that comes too late, with as many ends as it should.
fn late_request(version: u8, packet: &RtPacket, ends: &[EndId]) -> Option<u32>
    ensures { result ≡ late_request version packet.now ends.now }
{
    match packet {
        RtPacket::Request { number, values, .. } => {
            if ends.len() == carried(version, values.as_slice()) {
                return Some(*number);
            }
            None
        }
        _ => None,
    }
}

fn as_items(alloc: Global, ends: &Ends) -> Result<Items<EndId>, NoMemory>
    ensures { IfOk result (λ items. items ≡ ends.now) }
{
    Ok(Items::of(Vec::from_slice(alloc, ends.as_slice())?))
}

/// The ends behind the first seven.
fn behind_seven(alloc: Global, ends: &[EndId]) -> Result<Items<EndId>, NoMemory>
    ensures { IfOk result (λ items. items ≡ drop 7 ends.now) }
{
    let many = MOST_FURTHER.min(ends.len());
    Ok(Items::of(Vec::from_slice(alloc, &ends[many..])?))
}

fn wanted_by(alloc: Global, by: Taker, coming: Coming) -> Result<Wanted, NoMemory>
    ensures { IfOk result (λ w. w ≡ record { by = by; number = coming.number; signature = coming.signature; values = coming.values; ends = coming.ends }) }
{
    let Coming {
        number,
        signature,
        values,
        ends,
    } = coming;
    Ok(Wanted {
        by,
        number,
        signature,
        values,
        ends: as_items(alloc, &ends)?,
    })
}
