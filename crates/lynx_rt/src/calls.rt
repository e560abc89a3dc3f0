//! Calls that are due, and what comes where the machine stops.

ghost use Rattle.std.specs.Prelude.{◌≡◌, ◌||◌, IfOk, OnOk, option_map};
ghost use Rattle.std.specs.List.{list_any};
ghost use Rattle.machine_thread.specs.Told.{action_of};
ghost use Rattle.machine_turns.specs.Turns.{Act};
ghost use Rattle.lynx_interp.specs.Runs.{stop_of};
ghost use Rattle.process_run.specs.Ends.{held_at, room};
ghost use Rattle.process_run.specs.Runs.{calls, finishes, is_in_use, sending, settles};
ghost use Rattle.process_ends.specs.Ends.{asking_on};
ghost use Rattle.process_ends.specs.Found.{IsFirst};
ghost use Rattle.process_sound.specs.May.{AnyState, AreSendable, MayCall};
ghost use Rattle.lynx_rt.specs.Kept.{IsProcess};
ghost use Rattle.lynx_rt.specs.May.{MayAskFor, MayComeTo};
ghost use Rattle.lynx_rt.specs.Steps.{Asks, DestroysOf, IsFirstCall, Leads, StopsSo, due_by, first_at, next_if};
ghost use Rattle.process_run.specs.States as process;
ghost use Rattle.charlotte_calls.specs.declared.calls.Call.TheVariants as call;
ghost use Rattle.charlotte_calls.specs.declared.program.Next.TheVariants as next;

use crate::asked::Asked;
use crate::process::Running;
use charlotte_calls::{Bytes, Call, EndId, Next, NoMemory, Way};
use end_protocol::Due;
use lynx_interp::{Action, Stop};
use lynx_packets::encode;
use typing_rules::ShortText;

impl Running {
    /// The first call that is due, if one is, is what is done next: a Destroy of an end that is doomed, or that of the first end for which one is due.
    pub(crate) fn due_call(&mut self, out: &mut Next) -> Result<bool, NoMemory>
        requires process { IsProcess self.old }
        requires sendable { AreSendable (settles self.old) }
        ensures asked { IfOk result (λ is_due. IsFirstCall self.old (next_if is_due out.new) self.new) }
        ensures process { OnOk result (IsProcess self.new) }
    {
        let due = self.settle()?;
        if self.next_destroy(out) {
            return Ok(true);
        }
        match due {
            Some((number, due)) => Ok(self.call_of(number, due, out)),
            None => Ok(false),
        }
    }

    /// A Destroy of the first end that is doomed, if there is one.
    fn next_destroy(&mut self, out: &mut Next) -> bool
        ensures { DestroysOf self.old.doomed self.old (next_if result out.new) self.new }
    {
        let Some(on) = self.doomed.take() else {
            return false;
        };
        self.ask_destroy(on, out);
        true
    }

    /// A Destroy of an end. It stands apart, so that where none is doomed no place for a call is cleared.
    #[inline(never)]
    fn ask_destroy(&mut self, on: EndId, out: &mut Next)
        ensures asked { self.new ≡ record self.old { asked = process.Destroy } }
        ensures next { out.new ≡ next.Ask (call.Destroy on) }
    {
        self.asked = Asked::Destroy;
        *out = Next::Ask(Call::Destroy { on });
    }

    /// Each allow that is due is queued. Gives the first end on which a call is due.
    #[tactic(auto, unfolding(process_run::specs::Runs::settles))]
    fn settle(&mut self) -> Result<Option<(u32, Due)>, NoMemory>
        ensures settled { OnOk result (self.new ≡ settles self.old) }
        ensures first { IfOk result (IsFirst (room self.old) self.new.places) }
    {
        let room = self.room();
        self.places.due(room)
    }

    /// The call that is due on an end, if the end is held. It stands apart too.
    #[inline(never)]
    fn call_of(&mut self, number: u32, due: Due, out: &mut Next) -> bool
        requires { AreSendable self.old }
        ensures { Asks (asking_on self.old.version number due (held_at number self.old)) self.old (next_if result out.new) self.new }
    {
        let Some(on) = self.held_end(number) else {
            return false;
        };
        self.call_on(number, on, due, out)
    }

    /// The call that is due on the end of this name.
    fn call_on(&mut self, number: u32, on: EndId, due: Due, out: &mut Next) -> bool
        requires { AreSendable self.old }
        ensures { Asks (due_by self.old.version number on (first_at number self.old) due) self.old (next_if result out.new) self.new }
    {
        match due {
            Due::Nothing => false,
            Due::Send => self.send_of(number, on, out),
            Due::Receive => {
                self.asked = Asked::Receive(number);
                *out = Next::Ask(Call::Receive { on });
                true
            }
            Due::Cancel => {
                self.asked = Asked::Cancel(number);
                *out = Next::Ask(Call::Cancel {
                    on,
                    way: Way::Inward,
                });
                true
            }
        }
    }

    /// A Send of the first packet that is queued on the end.
    fn send_of(&mut self, number: u32, on: EndId, out: &mut Next) -> bool
        requires { AreSendable self.old }
        ensures { Asks (sending self.old.version number on (first_at number self.old)) self.old (next_if result out.new) self.new }
    {
        if self.send_call(number, on, out) {
            self.asked = Asked::Send(number);
            return true;
        }
        false
    }

    fn send_call(&self, number: u32, on: EndId, out: &mut Next) -> bool
        requires { AreSendable self.now }
        ensures { next_if result out.new ≡ option_map (λ a. next.Ask a.call) (sending self.now.version number on (first_at number self.now)) }
    {
        let Some(kept) = self.places.kept(number) else {
            return false;
        };
        let Some(message) = kept.queue.first() else {
            return false;
        };
        let enclose = message.enclosed(self.version);
        let Ok(bytes) = encode(&message.packet) else {
            unreachable!();
        };
        *out = Next::Ask(Call::Send { on, bytes, enclose });
        true
    }

    /// What comes of a stop of the machine. False where it goes on after an action.
    pub(crate) fn stopped(&mut self, stop: Stop, out: &mut Next) -> Result<bool, NoMemory>
        requires process { IsProcess self.old }
        requires may { MayComeTo (stop_of stop) self.old }
        ensures stopped { IfOk result (λ is_next. StopsSo (stop_of stop) self.old (next_if is_next out.new) self.new) }
        ensures process { OnOk result (IsProcess self.new) }
    {
        match stop {
            Stop::Act { thread, action } => self.asks_for(thread, action, out),
            Stop::Spent => {
                self.pause(out);
                Ok(true)
            }
            Stop::AllBlocked => {
                self.rests(true, out)?;
                Ok(true)
            }
            Stop::Finished => {
                self.rests(false, out)?;
                Ok(true)
            }
        }
    }

    fn asks_for(&mut self, thread: u8, action: Action, out: &mut Next) -> Result<bool, NoMemory>
        requires process { IsProcess self.old }
        requires may { MayAskFor thread (action_of action) self.old }
        ensures stopped { IfOk result (λ is_next. StopsSo (Act thread (action_of action)) self.old (next_if is_next out.new) self.new) }
        ensures process { OnOk result (IsProcess self.new) }
    {
        match action {
            Action::New => {
                self.ask(Asked::Make(thread), Call::Make, out);
                Ok(true)
            }
            Action::Write(text) => {
                let bytes = bytes_of(&text);
                self.ask(Asked::Print(thread), Call::Print { bytes }, out);
                Ok(true)
            }
            action => {
                self.act(thread, action)?;
                Ok(false)
            }
        }
    }

    /// No thread goes on. Where threads stand it waits.
    fn rests(&mut self, stand: bool, out: &mut Next) -> Result<(), NoMemory>
        requires process { IsProcess self.old }
        requires may { MayCall AnyState self.old }
        ensures rests { OnOk result (Leads (calls self.old (λ now. finishes (stand || list_any (λ p. is_in_use p.holding) now.places) now)) out.new self.new) }
        ensures process { OnOk result (IsProcess self.new) }
    {
        let is_due = self.due_call(out)?;
        if is_due {
            return Ok(());
        }
        self.finish(stand, out);
        Ok(())
    }

    /// Where threads stand, or an end is in use, it waits.
    fn finish(&mut self, stand: bool, out: &mut Next)
        ensures { Leads (finishes (stand || list_any (λ p. is_in_use p.holding) self.old.places) self.old) out.new self.new }
    {
        if self.is_alive(stand) {
            self.ask(Asked::Wait, Call::Wait, out);
            return;
        }
        self.exit(out);
    }

    /// Whether threads stand, or an end is in use.
    fn is_alive(&self, stand: bool) -> bool
        ensures { result ≡ (stand || list_any (λ p. is_in_use p.holding) self.now.places) }
    {
        stand || self.places.is_in_use()
    }
}

fn bytes_of(text: &ShortText) -> Bytes
    ensures { result ≡ text.now }
{
    match Bytes::from_slice(text.as_slice()) {
        Some(bytes) => bytes,
        None => unreachable!(),
    }
}
