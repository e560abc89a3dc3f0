//! What a process does with the answer to its call, and with what is reported to it.

ghost use Rattle.std.specs.Prelude.{◌≡◌, ◌<◌, ◌≤◌, length, IfOk, IfSome, IfNone, OnOk};
ghost use Rattle.typing_rules.specs.declared.exception.Exception.TheVariants.{DeadLink};
ghost use Rattle.lynx_packets.specs.Packets.{packet_of};
ghost use Rattle.machine_values.specs.Told.{values_of};
ghost use Rattle.end_protocol.specs.declared.kept.Taker.TheVariants as takers;
ghost use Rattle.end_protocol.specs.Going.{cancel_late, receive_over, receives, send_over, sent};
ghost use Rattle.process_run.specs.States as process;
ghost use Rattle.process_run.specs.Reports.{answered, cancelled_so, free_from, goes_on_with, opening, receives_so, reported, reported_off, returns_to, sent_so, takes};
ghost use Rattle.process_ends.specs.Ends.{kept_at, owns_at};
ghost use Rattle.process_sound.specs.Machine.{MayRaise};
ghost use Rattle.process_sound.specs.May.{IsEntry, MayAnswer, MayComeOf, MayDie, MayGoOnWith, MayReport, MayReportIn, MayReturn, MaySpawn, MayTake, at_end, raised_at};
ghost use Rattle.lynx_rt.specs.Changes.{changes, comes_at, dies_after, falls_back, hears_of, own_so, reads_of};
ghost use Rattle.lynx_rt.specs.Kept.{IsProcess};
ghost use Rattle.lynx_rt.specs.May.{MayListenAt};
ghost use Rattle.lynx_rt.specs.Seen.{asked_of};
ghost use Rattle.lynx_rt.specs.Steps.{Begins, IsRead, Listens, unread};

use crate::asked::Asked;
use crate::process::Running;
use charlotte_calls::{Answer, Cause, EndId, Ends, NoMemory, Outcome, Report, Way};
use end_protocol::{Heard, Kept, Response, Taker, Wanted};
use lynx_interp::Value;
use lynx_packets::{DecodeFault, RtPacket, RtValue, decode};
use process_ends::{Open, unpack};
use std::alloc::Global;
use typing_rules::Exception;

impl Running {
    /// What was asked has this answer.
    pub(crate) fn hear_answer(
        &mut self,
        asked: Asked,
        answer: &Option<Answer>,
    ) -> Result<(), NoMemory>
        requires process { IsProcess self.old }
        requires may { MayAnswer (asked_of asked) answer.now self.old }
        ensures heard { OnOk result (self.new ≡ (answered (asked_of asked) answer.now self.old).state) }
        ensures process { OnOk result (IsProcess self.new) }
    {
        match asked {
            Asked::Make(thread) => self.hear_made(thread, answer),
            Asked::Print(thread) => self.does(thread),
            Asked::Send(number) => self.sent(number, answer),
            Asked::Receive(number) => self.receives(number, answer),
            Asked::Cancel(number) => self.cancelled(number, answer),
            Asked::Wait => self.hear_waited(answer),
            Asked::Nothing | Asked::Destroy | Asked::Exit => Ok(()),
        }
    }

    /// The answer to a Make.
    fn hear_made(&mut self, thread: u8, answer: &Option<Answer>) -> Result<(), NoMemory>
        requires process { IsProcess self.old }
        requires may { MayAnswer (process.Make thread) answer.now self.old }
        ensures heard { OnOk result (self.new ≡ (answered (process.Make thread) answer.now self.old).state) }
        ensures process { OnOk result (IsProcess self.new) }
    {
        match answer {
            Some(Answer::Made(a, b)) => self.go_on_with(
                thread,
                &[RtValue::Link, RtValue::Link],
                &[*a, *b],
            ),
            _ => self.raise(thread, Exception::LinksFull),
        }
    }

    /// The answer to a Wait.
    fn hear_waited(&mut self, answer: &Option<Answer>) -> Result<(), NoMemory>
        requires process { IsProcess self.old }
        requires may { MayAnswer process.Wait answer.now self.old }
        ensures heard { OnOk result (self.new ≡ (answered process.Wait answer.now self.old).state) }
        ensures process { OnOk result (IsProcess self.new) }
    {
        match answer {
            Some(Answer::Reported(report)) => self.hear_report(report),
            _ => {
                self.over = true;
                Ok(())
            }
        }
    }

    fn sent(&mut self, number: u32, answer: &Option<Answer>) -> Result<(), NoMemory>
        requires process { IsProcess self.old }
        requires raises { MayRaise (raised_at number self.old) DeadLink self.old }
        ensures heard { OnOk result (self.new ≡ at_end number (sent_so answer.now) self.old) }
        ensures process { OnOk result (IsProcess self.new) }
    {
        match answer {
            Some(Answer::Ok) => self.sends(number),
            Some(Answer::Refused(Cause::Dead)) => self.die(number),
            _ => Ok(()),
        }
    }

    fn receives(&mut self, number: u32, answer: &Option<Answer>) -> Result<(), NoMemory>
        requires process { IsProcess self.old }
        requires raises { MayRaise (raised_at number self.old) DeadLink self.old }
        ensures heard { OnOk result (self.new ≡ at_end number (receives_so answer.now) self.old) }
        ensures process { OnOk result (IsProcess self.new) }
    {
        match answer {
            Some(Answer::Ok) => self.starts_receive(number),
            Some(Answer::Refused(Cause::Dead)) => self.die(number),
            _ => Ok(()),
        }
    }

    /// A Send was answered Ok.
    fn sends(&mut self, number: u32) -> Result<(), NoMemory>
        ensures { OnOk result (self.new ≡ changes number sent self.old) }
    {
        let Some(mut kept) = self.take(number) else {
            return Ok(());
        };
        kept.sent();
        self.keep(number, kept)?;
        Ok(())
    }

    /// A Receive was answered Ok.
    fn starts_receive(&mut self, number: u32) -> Result<(), NoMemory>
        ensures { OnOk result (self.new ≡ changes number receives self.old) }
    {
        let Some(mut kept) = self.take(number) else {
            return Ok(());
        };
        kept.receives();
        self.keep(number, kept)?;
        Ok(())
    }

    /// The receive was reported, or its Cancel was answered Ok.
    fn ends_receive(&mut self, number: u32) -> Result<(), NoMemory>
        ensures { OnOk result (self.new ≡ changes number receive_over self.old) }
    {
        let Some(mut kept) = self.take(number) else {
            return Ok(());
        };
        kept.receive_over();
        self.keep(number, kept)?;
        Ok(())
    }

    /// The Cancel of the receive was answered Late or Dead.
    fn cancels_late(&mut self, number: u32) -> Result<(), NoMemory>
        ensures { OnOk result (self.new ≡ changes number cancel_late self.old) }
    {
        let Some(mut kept) = self.take(number) else {
            return Ok(());
        };
        kept.cancel_late();
        self.keep(number, kept)?;
        Ok(())
    }

    fn cancelled(&mut self, number: u32, answer: &Option<Answer>) -> Result<(), NoMemory>
        requires process { IsProcess self.old }
        requires raises { MayRaise (raised_at number self.old) DeadLink self.old }
        ensures heard { OnOk result (self.new ≡ at_end number (cancelled_so answer.now) self.old) }
        ensures process { OnOk result (IsProcess self.new) }
    {
        match answer {
            Some(Answer::Ok) => self.ends_receive(number),
            Some(Answer::Refused(Cause::Late)) => self.cancels_late(number),
            Some(Answer::Refused(Cause::Dead)) => self.cancels_dead(number),
            _ => Ok(()),
        }
    }

    /// The Cancel of the receive was answered Dead.
    fn cancels_dead(&mut self, number: u32) -> Result<(), NoMemory>
        requires process { IsProcess self.old }
        requires may { MayDie number self.old }
        ensures heard { OnOk result (self.new ≡ at_end number (dies_after cancel_late) self.old) }
        ensures process { OnOk result (IsProcess self.new) }
    {
        self.cancels_late(number)?;
        self.die(number)?;
        Ok(())
    }

    fn hear_report(&mut self, report: &Report) -> Result<(), NoMemory>
        requires process { IsProcess self.old }
        requires may { MayReport report.now self.old }
        ensures heard { OnOk result (self.new ≡ (reported report.now self.old).state) }
        ensures process { OnOk result (IsProcess self.new) }
    {
        let number = self.places.number(report.on);
        if self.places.kept(number).is_none() {
            return self.hear_of_gone(number, report);
        }
        self.hear_of_held(number, report)
    }

    /// A report of an end that is not held.
    fn hear_of_gone(&mut self, number: u32, report: &Report) -> Result<(), NoMemory>
        requires { IsProcess self.old }
        ensures heard { OnOk result (self.new ≡ reported_off (owns_at number self.old.places) report.now.way report.now self.old) }
        ensures process { OnOk result (IsProcess self.new) }
    {
        let ends = report.enclosed.as_slice();
        let own = self.places.owns(number);
        match report.way {
            Way::Inward => self.doom(ends),
            Way::Outward => self.hold_if(own, ends),
        }
    }

    /// A report of an end that is held.
    fn hear_of_held(&mut self, number: u32, report: &Report) -> Result<(), NoMemory>
        requires process { IsProcess self.old }
        requires may { MayReportIn number (kept_at number self.old.places) report.now self.old }
        ensures heard { OnOk result (self.new ≡ at_end number (hears_of report.now) self.old) }
        ensures process { OnOk result (IsProcess self.new) }
    {
        match report.way {
            Way::Inward => match report.outcome {
                Outcome::Done => self.hear_message(number, report),
                Outcome::Destroyed => self.hear_death(number),
            },
            Way::Outward => match report.outcome {
                Outcome::Done => self.ends_send(number),
                Outcome::Destroyed => self.hear_return(number, report.enclosed.as_slice()),
            },
        }
    }

    /// The receive is over, since the end is dead.
    fn hear_death(&mut self, number: u32) -> Result<(), NoMemory>
        requires process { IsProcess self.old }
        requires may { MayDie number self.old }
        ensures heard { OnOk result (self.new ≡ at_end number (dies_after receive_over) self.old) }
        ensures process { OnOk result (IsProcess self.new) }
    {
        self.ends_receive(number)?;
        self.die(number)?;
        Ok(())
    }

    /// The send was reported.
    fn ends_send(&mut self, number: u32) -> Result<(), NoMemory>
        ensures { OnOk result (self.new ≡ changes number send_over self.old) }
    {
        let Some(mut kept) = self.take(number) else {
            return Ok(());
        };
        kept.send_over();
        self.keep(number, kept)?;
        Ok(())
    }

    /// Whether the ends of the send that is started on the end were the process's own.
    pub(crate) fn sends_own(&self, number: u32) -> bool
        ensures { result ≡ own_so (kept_at number self.now.places) }
    {
        match self.places.kept(number) {
            Some(kept) => kept.sending.returns(),
            None => false,
        }
    }

    /// The send is over, since the end is dead, and these ends come back.
    fn hear_return(&mut self, number: u32, ends: &[EndId]) -> Result<(), NoMemory>
        requires process { IsProcess self.old }
        requires may { MayDie number self.old }
        ensures heard { OnOk result (self.new ≡ at_end number (falls_back ends.now) self.old) }
        ensures process { OnOk result (IsProcess self.new) }
    {
        let own = self.sends_own(number);
        self.ends_send(number)?;
        self.die(number)?;
        self.hold_if(own, ends)?;
        Ok(())
    }

    /// A message came on an end.
    fn hear_message(&mut self, number: u32, report: &Report) -> Result<(), NoMemory>
        requires process { IsProcess self.old }
        requires may { MayListenAt number (kept_at number self.old.places) report.now self.old }
        ensures heard { OnOk result (self.new ≡ at_end number (reads_of report.now) self.old) }
        ensures process { OnOk result (IsProcess self.new) }
    {
        let alloc = self.alloc;
        let seen = (self.version, self.room());
        let packet = self.read(report.bytes.as_slice())?;
        let Some(kept) = self.take(number) else {
            return Ok(());
        };
        let (kept, heard) = listen(kept, alloc, seen, packet, report.enclosed.copy())?;
        self.keep(number, kept)?;
        self.comes_of(number, heard)?;
        Ok(())
    }

    /// The packet that the bytes spell, if they spell one.
    fn read(&self, bytes: &[u8]) -> Result<Option<RtPacket>, NoMemory>
        requires process { IsProcess self.now }
        requires size { length bytes.now ≤ 256 }
        ensures { IfOk result (λ packet. IsRead packet (packet_of self.now.version bytes.now)) }
    {
        match decode(self.alloc, self.version, bytes) {
            Ok(packet) => Ok(Some(packet)),
            Err(DecodeFault::BadPacket { .. }) => Ok(None),
            Err(DecodeFault::NoMemory) => Err(NoMemory),
        }
    }

    fn comes_of(&mut self, number: u32, heard: Heard) -> Result<(), NoMemory>
        requires process { IsProcess self.old }
        requires may { MayComeOf number heard self.old }
        ensures came { OnOk result (self.new ≡ comes_at number heard self.old) }
        ensures process { OnOk result (IsProcess self.new) }
    {
        match heard {
            Heard::Nothing => Ok(()),
            Heard::Accepted(wanted) => self.take_request(number, &wanted),
            Heard::Returned(thread, response) => self.return_to(thread, &response),
            Heard::TooLate(ends) => self.doom(ends.as_slice()),
            Heard::Unreadable(ends) => {
                self.destroy(number)?;
                self.doom(ends.as_slice())?;
                Ok(())
            }
        }
    }

    /// A request that was accepted on the end is taken.
    fn take_request(&mut self, number: u32, wanted: &Wanted) -> Result<(), NoMemory>
        requires process { IsProcess self.old }
        requires may { MayTake wanted.now.by wanted.now self.old }
        ensures taken { OnOk result (self.new ≡ takes wanted.now.by number wanted.now self.old) }
        ensures process { OnOk result (IsProcess self.new) }
    {
        match wanted.by {
            Taker::Thread(thread) => self.take_in(thread, number, wanted),
            Taker::Entry(entry) => self.spawn(entry, number, wanted),
        }
    }

    /// A thread that accepts goes on with the request.
    fn take_in(&mut self, thread: u8, number: u32, wanted: &Wanted) -> Result<(), NoMemory>
        requires process { IsProcess self.old }
        requires may { MayGoOnWith thread wanted.now.values self.old }
        ensures taken { OnOk result (self.new ≡ takes (takers.Thread thread) number wanted.now self.old) }
        ensures process { OnOk result (IsProcess self.new) }
    {
        let open = opening(number, wanted);
        self.opened.push(thread, open)?;
        self.go_on_with(thread, wanted.values.as_slice(), wanted.ends.as_slice())?;
        Ok(())
    }

    /// A thread of the entry begins.
    fn spawn(&mut self, entry: u16, number: u32, wanted: &Wanted) -> Result<(), NoMemory>
        requires process { IsProcess self.old }
        requires may { MaySpawn entry wanted.now self.old }
        ensures taken { OnOk result (self.new ≡ takes (takers.Entry entry) number wanted.now self.old) }
        ensures process { OnOk result (IsProcess self.new) }
    {
        let values = unpack(self.alloc, self.places.count(), wanted.values.as_slice())?;
        let Some(thread) = self.begin(entry, values)? else {
            return Ok(());
        };
        self.places.get_all(wanted.ends.as_slice())?;
        let open = opening(number, wanted);
        let alloc = self.alloc;
        self.opened.begin(alloc, thread, open)?;
        Ok(())
    }

    /// A thread of the entry begins with these values, under the first number that is free, if one is.
    fn begin(&mut self, entry: u16, values: Vec<Value>) -> Result<Option<u8>, NoMemory>
        requires process { IsProcess self.old }
        requires may { IsEntry entry (values_of values.items) self.old }
        ensures number { IfOk result (λ thread. thread ≡ free_from 0 self.old.turns.threads) }
        ensures begun { IfOk result (λ thread. IfSome thread (λ n. Begins n entry (values_of values.items) self.old self.new)) }
        ensures below { IfOk result (λ thread. IfSome thread (λ n. n < length self.old.opened)) }
        ensures none { IfOk result (λ thread. IfNone thread (self.new ≡ self.old)) }
        ensures process { OnOk result (IsProcess self.new) }
    {
        match self.machine.spawn(entry, values) {
            Ok(thread) => Ok(thread),
            Err(_) => Err(NoMemory),
        }
    }

    /// A connect goes on with its reply.
    fn return_to(&mut self, thread: u8, response: &Response) -> Result<(), NoMemory>
        requires process { IsProcess self.old }
        requires may { MayReturn thread response.now.status response.now self.old }
        ensures returned { OnOk result (self.new ≡ returns_to thread response.now.status response.now self.old) }
        ensures process { OnOk result (IsProcess self.new) }
    {
        if response.status != 0 {
            return self.raise(thread, Exception::Failed);
        }
        self.go_on_with(thread, response.values.as_slice(), response.ends.as_slice())
    }

    /// A thread goes on with values, and the ends among them get their numbers.
    fn go_on_with(&mut self, thread: u8, values: &[RtValue], ends: &[EndId]) -> Result<(), NoMemory>
        requires process { IsProcess self.old }
        requires may { MayGoOnWith thread values.now self.old }
        ensures given { OnOk result (self.new ≡ goes_on_with thread values.now ends.now self.old) }
        ensures process { OnOk result (IsProcess self.new) }
    {
        let values = unpack(self.alloc, self.places.count(), values)?;
        self.places.get_all(ends)?;
        self.give_values(thread, values)
    }
}

/// A request that is open from now on.
fn opening(on: u32, wanted: &Wanted) -> Open
    ensures { result ≡ opening on wanted.now }
{
    Open {
        on,
        number: wanted.number,
        answered: false,
    }
}

/// What is heard of a packet, or of bytes that spell none, in this version, and where there is room for a thread or not.
fn listen(
    kept: Box<Kept>,
    alloc: Global,
    seen: (u8, bool),
    packet: Option<RtPacket>,
    ends: Ends,
) -> Result<(Box<Kept>, Heard), NoMemory>
    ensures { IfOk result (λ r. Listens seen.0 seen.1 packet ends (receive_over kept.value) r.0.value r.1) }
{
    let mut kept = kept;
    kept.receive_over();
    let heard = match packet {
        Some(packet) => kept.hear(alloc, seen.0, seen.1, packet, ends)?,
        None => unread(&kept, ends),
    };
    Ok((kept, heard))
}

/// What is heard of bytes that spell no packet.
fn unread(kept: &Kept, ends: Ends) -> Heard
    ensures { result ≡ unread kept.now.dead ends }
{
    if kept.dead {
        return Heard::TooLate(ends);
    }
    Heard::Unreadable(ends)
}
