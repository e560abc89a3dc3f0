//! Links between two processes, without a kernel: what a call does, and how it is answered.

use charlotte_calls::{
    Answer, Bytes, Call, Cause, EndId, Ends, LinkId, NoMemory, Outcome, Report, Side, Way,
};
use std::alloc::Global;
use std::collections::VecDeque;

/// A message that was sent and is not yet received.
#[derive(Drop)]
struct Message {
    bytes: Bytes,
    enclosed: Ends,
}

/// One end of a link.
#[derive(Drop)]
struct Half {
    owner: u8,
    sent: Option<Box<Message>>,
    receives: bool,
    /// The link was destroyed.
    is_dead: bool,
}

/// The links of the processes 0 and 1.
#[derive(Drop)]
pub(crate) struct Links {
    alloc: Global,
    /// The two ends of each link, one behind the other.
    halves: Vec<Half>,
    /// How many links there are.
    count: u32,
    /// What each process has to be told.
    first: VecDeque<Report>,
    second: VecDeque<Report>,
}

impl Links {
    /// No links.
    pub(crate) fn new(alloc: Global) -> Links {
        Links {
            alloc,
            halves: Vec::new(alloc),
            count: 0,
            first: VecDeque::new(alloc),
            second: VecDeque::new(alloc),
        }
    }

    /// A new link, with the owners of its ends.
    pub(crate) fn make(&mut self, a: u8, b: u8) -> Result<(EndId, EndId), NoMemory> {
        let link = LinkId {
            maker: 0,
            count: self.count,
        };
        self.halves.push(half_of(a))?;
        self.halves.push(half_of(b))?;
        self.count = self.count.checked_add(1).ok_or(NoMemory)?;
        Ok((
            EndId {
                link,
                side: Side::A,
            },
            EndId {
                link,
                side: Side::B,
            },
        ))
    }

    /// Does a call of a process. Its answer, or none where it has to wait for a report.
    pub(crate) fn call(
        &mut self,
        process: u8,
        call: &Call,
        out: &mut Option<Answer>,
    ) -> Result<(), NoMemory> {
        match call {
            Call::Make => {
                let (a, b) = self.make(process, process)?;
                *out = Some(Answer::Made(a, b));
            }
            Call::Destroy { on } => {
                self.destroy(*on)?;
                *out = Some(Answer::Ok);
            }
            Call::Send { on, bytes, enclose } => {
                *out = Some(plain(self.send(*on, bytes, enclose)?));
            }
            Call::Receive { on } => *out = Some(plain(self.receive(*on)?)),
            Call::Cancel { on, .. } => *out = Some(plain(self.cancel(*on))),
            Call::Wait => self.next_report(process, out),
            Call::Print { .. } => *out = Some(Answer::Ok),
            Call::Exit => {
                self.exit(process)?;
                *out = Some(Answer::Ok);
            }
        }
        Ok(())
    }

    fn next_report(&mut self, process: u8, out: &mut Option<Answer>) {
        if let Some(report) = self.reports(process).pop_front() {
            *out = Some(Answer::Reported(report));
        }
    }

    fn reports(&mut self, process: u8) -> &mut VecDeque<Report> {
        if process == 0 {
            &mut self.first
        } else {
            &mut self.second
        }
    }

    fn half(&mut self, on: EndId) -> Option<&mut Half> {
        self.halves.get_mut(place_of(on))
    }

    /// None where the call was done, else why it was refused.
    fn send(
        &mut self,
        on: EndId,
        bytes: &Bytes,
        enclosed: &Ends,
    ) -> Result<Option<Cause>, NoMemory> {
        let alloc = self.alloc;
        let Some(half) = self.half(on) else {
            return Ok(Some(Cause::NoEnd));
        };
        if half.is_dead {
            return Ok(Some(Cause::Dead));
        }
        let message = Message {
            bytes: bytes.copy(),
            enclosed: enclosed.copy(),
        };
        half.sent = Some(Box::new(alloc, message)?);
        self.deliver(on)?;
        Ok(None)
    }

    fn receive(&mut self, on: EndId) -> Result<Option<Cause>, NoMemory> {
        let Some(half) = self.half(on) else {
            return Ok(Some(Cause::NoEnd));
        };
        if half.is_dead {
            return Ok(Some(Cause::Dead));
        }
        half.receives = true;
        self.deliver(on.opposite())?;
        Ok(None)
    }

    /// Takes a receive back.
    fn cancel(&mut self, on: EndId) -> Option<Cause> {
        let Some(half) = self.half(on) else {
            return Some(Cause::NoEnd);
        };
        if half.is_dead {
            return Some(Cause::Dead);
        }
        if !half.receives {
            return Some(Cause::Late);
        }
        half.receives = false;
        None
    }

    /// What was sent on an end is received at its opposite, where both are started.
    fn deliver(&mut self, from: EndId) -> Result<(), NoMemory> {
        let to = from.opposite();
        let Some(receiver) = self.half(to) else {
            return Ok(());
        };
        if !receiver.receives {
            return Ok(());
        }
        let owner = receiver.owner;
        let Some(sender) = self.half(from) else {
            return Ok(());
        };
        let Some(message) = sender.sent.take() else {
            return Ok(());
        };
        let process = sender.owner;
        self.takes(to, owner, message.enclosed.as_slice());
        let Message { bytes, enclosed } = Box::into_inner(message);
        self.reports(owner)
            .push_back(report(to, Way::Inward, bytes, enclosed))?;
        self.reports(process)
            .push_back(report(from, Way::Outward, no_bytes()?, no_ends()?))?;
        Ok(())
    }

    /// A process has received on an end, and owns these ends from now on.
    fn takes(&mut self, on: EndId, owner: u8, ends: &[EndId]) {
        if let Some(half) = self.half(on) {
            half.receives = false;
        }
        for end in ends {
            if let Some(half) = self.half(*end) {
                half.owner = owner;
            }
        }
    }

    fn destroy(&mut self, on: EndId) -> Result<(), NoMemory> {
        self.die(on)?;
        self.die(on.opposite())?;
        Ok(())
    }

    /// What is started on an end is over, since its link is dead.
    fn die(&mut self, on: EndId) -> Result<(), NoMemory> {
        let Some(half) = self.half(on) else {
            return Ok(());
        };
        half.is_dead = true;
        let owner = half.owner;
        let receives = half.receives;
        half.receives = false;
        if let Some(message) = half.sent.take() {
            let Message { enclosed, .. } = Box::into_inner(message);
            let back = destroyed(on, Way::Outward, enclosed)?;
            self.reports(owner).push_back(back)?;
        }
        if receives {
            let over = destroyed(on, Way::Inward, no_ends()?)?;
            self.reports(owner).push_back(over)?;
        }
        Ok(())
    }

    /// Destroys all links of which a process owns an end.
    fn exit(&mut self, process: u8) -> Result<(), NoMemory> {
        for count in 0..self.count {
            let link = LinkId { maker: 0, count };
            for side in [Side::A, Side::B] {
                let on = EndId { link, side };
                if self.is_owner(process, on) {
                    self.destroy(on)?;
                }
            }
        }
        Ok(())
    }

    /// Whether a process owns an end whose link is not destroyed.
    fn is_owner(&self, process: u8, on: EndId) -> bool {
        match self.halves.get(place_of(on)) {
            Some(half) => half.owner == process && !half.is_dead,
            None => false,
        }
    }
}

/// The answer to a call that was done, or refused for this cause.
fn plain(refused: Option<Cause>) -> Answer {
    match refused {
        None => Answer::Ok,
        Some(cause) => Answer::Refused(cause),
    }
}

fn half_of(owner: u8) -> Half {
    Half {
        owner,
        sent: None,
        receives: false,
        is_dead: false,
    }
}

/// Where an end stands among all.
fn place_of(on: EndId) -> usize {
    let first = (on.link.count as usize) << 1;
    match on.side {
        Side::A => first,
        Side::B => first | 1,
    }
}

fn report(on: EndId, way: Way, bytes: Bytes, enclosed: Ends) -> Report {
    Report {
        on,
        way,
        outcome: Outcome::Done,
        bytes,
        enclosed,
    }
}

fn destroyed(on: EndId, way: Way, enclosed: Ends) -> Result<Report, NoMemory> {
    Ok(Report {
        on,
        way,
        outcome: Outcome::Destroyed,
        bytes: no_bytes()?,
        enclosed,
    })
}

fn no_bytes() -> Result<Bytes, NoMemory> {
    Bytes::from_slice(&[]).ok_or(NoMemory)
}

fn no_ends() -> Result<Ends, NoMemory> {
    Ends::from_slice(&[]).ok_or(NoMemory)
}
