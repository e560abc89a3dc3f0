//! Links that die.

ghost use Rattle.std.specs.Prelude.{◌≡◌, map, OnOk};
ghost use Rattle.std.specs.List.{flat_map};
ghost use Rattle.typing_rules.specs.declared.exception.Exception.TheVariants.{DeadLink};
ghost use Rattle.end_protocol.specs.Falling.{outstanding_ends, outstanding_thread, own_ends, raised, reply_ends, request_ends};
ghost use Rattle.process_run.specs.Deaths.{destroys, dies_at, falls, raises_in};
ghost use Rattle.process_run.specs.Ends.{dooms, holds_again};
ghost use Rattle.process_run.specs.Reports.{held_if};
ghost use Rattle.process_sound.specs.Machine.{MayRaise};
ghost use Rattle.process_sound.specs.May.{at_end, raised_at};
ghost use Rattle.lynx_rt.specs.Kept.{IsProcess};

use crate::process::Running;
use charlotte_calls::{EndId, NoMemory};
use end_protocol::{Accept, Connect, Fallen, Line, Message, Response, Wanted};
use lynx_packets::RtPacket;
use typing_rules::Exception;

impl Running {
    /// These ends are to be destroyed.
    pub(crate) fn doom(&mut self, ends: &[EndId]) -> Result<(), NoMemory>
        ensures { OnOk result (self.new ≡ dooms ends.now self.old) }
    {
        match ends {
            [] => Ok(()),
            [first, others @ ..] => {
                self.doomed.push(*first)?;
                self.doom(others)
            }
        }
    }

    /// The end is dead: a call was answered Dead, or a report says Destroyed.
    #[tactic(auto, unfolding(process_run::specs::Deaths::dies_at))]
    pub(crate) fn die(&mut self, number: u32) -> Result<(), NoMemory>
        requires process { IsProcess self.old }
        requires raises { MayRaise (raised_at number self.old) DeadLink self.old }
        ensures died { OnOk result (self.new ≡ at_end number dies_at self.old) }
        ensures process { OnOk result (IsProcess self.new) }
    {
        let alloc = self.alloc;
        let Some(mut kept) = self.take(number) else {
            return Ok(());
        };
        let fallen = kept.die(alloc);
        self.keep(number, kept)?;
        self.fall(fallen)?;
        Ok(())
    }

    /// The process destroys the end, which it then holds no longer.
    #[tactic(auto, unfolding(process_run::specs::Deaths::destroys))]
    pub(crate) fn destroy(&mut self, number: u32) -> Result<(), NoMemory>
        requires process { IsProcess self.old }
        requires raises { MayRaise (raised_at number self.old) DeadLink self.old }
        ensures destroyed { OnOk result (self.new ≡ at_end number destroys self.old) }
        ensures process { OnOk result (IsProcess self.new) }
    {
        let alloc = self.alloc;
        let Some(end) = self.held_end(number) else {
            return Ok(());
        };
        let own = self.sends_own(number);
        let Some(mut kept) = self.release(number, own) else {
            unreachable!();
        };
        self.doom(&[end])?;
        self.fall(kept.die(alloc))?;
        Ok(())
    }

    /// What falls with an end: its own ends are held again, those of messages in part are destroyed, and DEADLINK is raised.
    fn fall(&mut self, fallen: Fallen) -> Result<(), NoMemory>
        requires process { IsProcess self.old }
        requires raises { MayRaise (raised fallen) DeadLink self.old }
        ensures fell { OnOk result (self.new ≡ falls fallen self.old) }
        ensures process { OnOk result (IsProcess self.new) }
    {
        let Fallen {
            queue,
            outstanding,
            behind,
            request,
            reply,
            accepts,
        } = fallen;
        self.hold_queue(queue)?;
        self.hold_outstanding(&outstanding)?;
        self.doom_request(&request)?;
        self.doom_reply(&reply)?;
        self.fail_outstanding(&outstanding)?;
        self.fail_behind(behind)?;
        self.fail_accepts(accepts.as_slice())?;
        Ok(())
    }

    /// The ends of packets that are not sent are held again, if the process held them.
    fn hold_queue(&mut self, mut queue: Line<Message>) -> Result<(), NoMemory>
        ensures { OnOk result (self.new ≡ holds_again (flat_map own_ends queue) self.old) }
    {
        while let Some(message) = queue.take() {
            self.hold_packet(&message)?;
        }
        Ok(())
    }

    /// The ends of a packet that is not sent are held again, if the process held them.
    fn hold_packet(&mut self, message: &Message) -> Result<(), NoMemory>
        ensures { OnOk result (self.new ≡ holds_again (own_ends message.now) self.old) }
    {
        if matches!(message.packet, RtPacket::Retry(_) | RtPacket::Forbid(_)) {
            return Ok(());
        }
        self.hold_all(message.ends.as_slice())
    }

    fn hold_outstanding(&mut self, outstanding: &Option<Connect>) -> Result<(), NoMemory>
        ensures { OnOk result (self.new ≡ holds_again (outstanding_ends outstanding.now) self.old) }
    {
        match outstanding {
            Some(connect) => self.hold_all(connect.ends.as_slice()),
            None => Ok(()),
        }
    }

    fn doom_request(&mut self, request: &Option<Wanted>) -> Result<(), NoMemory>
        ensures { OnOk result (self.new ≡ dooms (request_ends request.now) self.old) }
    {
        match request {
            Some(wanted) => self.doom(wanted.ends.as_slice()),
            None => Ok(()),
        }
    }

    fn doom_reply(&mut self, reply: &Option<Response>) -> Result<(), NoMemory>
        ensures { OnOk result (self.new ≡ dooms (reply_ends reply.now) self.old) }
    {
        match reply {
            Some(response) => self.doom(response.ends.as_slice()),
            None => Ok(()),
        }
    }

    fn fail_outstanding(&mut self, outstanding: &Option<Connect>) -> Result<(), NoMemory>
        requires process { IsProcess self.old }
        requires raises { MayRaise (outstanding_thread outstanding.now) DeadLink self.old }
        ensures failed { OnOk result (self.new ≡ raises_in (outstanding_thread outstanding.now) DeadLink self.old) }
        ensures process { OnOk result (IsProcess self.new) }
    {
        match outstanding {
            Some(connect) => self.raise(connect.thread, Exception::DeadLink),
            None => Ok(()),
        }
    }

    /// Connects that wait behind others fall.
    fn fail_behind(&mut self, mut behind: Line<Connect>) -> Result<(), NoMemory>
        requires process { IsProcess self.old }
        requires raises { MayRaise (map (λ c. c.thread) behind) DeadLink self.old }
        ensures failed { OnOk result (self.new ≡ raises_in (map (λ c. c.thread) behind) DeadLink (holds_again (flat_map (λ c. c.ends) behind) self.old)) }
        ensures process { OnOk result (IsProcess self.new) }
    {
        while let Some(connect) = behind.take() {
            self.hold_all(connect.ends.as_slice())?;
            self.raise(connect.thread, Exception::DeadLink)?;
        }
        Ok(())
    }

    fn fail_accepts(&mut self, accepts: &[Accept]) -> Result<(), NoMemory>
        requires process { IsProcess self.old }
        requires raises { MayRaise (map (λ a. a.thread) accepts.now) DeadLink self.old }
        ensures failed { OnOk result (self.new ≡ raises_in (map (λ a. a.thread) accepts.now) DeadLink self.old) }
        ensures process { OnOk result (IsProcess self.new) }
    {
        match accepts {
            [] => Ok(()),
            [first, others @ ..] => {
                self.raise(first.thread, Exception::DeadLink)?;
                self.fail_accepts(others)
            }
        }
    }

    /// Ends that came back are held again, if they were the process's own.
    pub(crate) fn hold_if(&mut self, own: bool, ends: &[EndId]) -> Result<(), NoMemory>
        ensures { OnOk result (self.new ≡ held_if own ends.now self.old) }
    {
        if own {
            return self.hold_all(ends);
        }
        Ok(())
    }

    /// These ends are held again.
    pub(crate) fn hold_all(&mut self, ends: &[EndId]) -> Result<(), NoMemory>
        ensures { OnOk result (self.new ≡ holds_again ends.now self.old) }
    {
        self.places.hold_all(ends)
    }
}
