ghost use Rattle.std.specs.Prelude.{◌≡◌, ◌+◌, ◌-◌, ◌^◌, ◌<◌, ◌++◌, ◌∷◌, [], Bool, List, Some, None, All, IfOk, OnErr, OnOk, false, true, length};
ghost use Rattle.charlotte_calls.specs.declared.calls.Answer.{Answer as AnAnswer};
ghost use Rattle.charlotte_calls.specs.declared.names.EndId.{EndId};
ghost use Rattle.charlotte_calls.specs.declared.names.Pid.{Pid as APid};
ghost use Rattle.charlotte_packets.specs.Packets.{packet_picture};
ghost use Rattle.end_table.specs.Table.{entries};
ghost use Rattle.journal_text.specs.Journal.{IsAfterLast};
ghost use Rattle.kernel_core.specs.State.{state_of};
ghost use Rattle.kernel_entries.specs.Ranges.{IsEntryInRange};
ghost use Rattle.kernel_entries.specs.declared.entry.Entry.{Entry};
ghost use Rattle.kernel_net.specs.Ports.{place_of};
ghost use Rattle.kernel_step.specs.Calls.{IsCallWith};
ghost use Rattle.kernel_step.specs.Kernel.{process_of};
ghost use Rattle.program_runs.specs.Local.{MakesCall, TakesPacket, gives};
ghost use Rattle.program_round.specs.Doings.{IsNextToGo, doing_at};
ghost use Rattle.program_round.specs.declared.doing.Doing.TheVariants.{Answered};
ghost use Rattle.kernel_turns.specs.Amid.{IsAmidTurn, IsSomeNode, SameRun};
ghost use Rattle.kernel_turns.specs.Events.{Happens};
ghost use Rattle.kernel_turns.specs.Goes.{Goes};
ghost use Rattle.kernel_turns.specs.Left.{Lessens, weight};
ghost use Rattle.kernel_turns.specs.Turns.{Continues, FindsLetter, Hears, IsLent, IsTurn, NoLetter};
ghost use Rattle.kernel_turns.specs.declared.base.Base.{Base as ABase};

use crate::node::{Node, Turn};
use crate::watch::Watch;
use charlotte_calls::{Answer, Next, NoMemory, Pid, Program};
use charlotte_packets::Packet;
use kernel_core::Request;
use kernel_entries::{tell_call, tell_packet};
use kernel_net::Letter;

impl<P: Program, W: Watch> Node<P, W> {
    /// One turn: it begins a snapshot where that is due, puts letters, and then takes a packet or lets a program make a step.
    ///
    /// After want of memory journal and kernel are as before, and no further turn is made.
    pub fn turn(&mut self) -> Result<Turn, NoMemory>
        requires node { IsSomeNode (record { step = P.step; state = P.state; last = P.last; version = P.version }) W.HasSeen self.old }
        ensures turn { IfOk result (λ t. IsTurn (record { step = P.step; state = P.state; last = P.last; version = P.version }) t self.old self.new) }
        ensures unspoiled { OnOk result (self.old.spoiled ≡ false) }
        ensures in_range { OnOk result (All IsEntryInRange self.new.base.journal.entries) }
        ensures seen { OnOk result (W.HasSeen self.new.watch self.new.base.journal.entries) }
        ensures same { OnErr result (SameRun self.old.base self.new.base) }
        ensures spoiled { OnErr result (self.new.spoiled ≡ true) }
        ensures goes { Goes (record { step = P.step; state = P.state; last = P.last; version = P.version }) W.HasSeen W.made self.old self.new }
        ensures left { IfOk result (λ t. Lessens t (weight self.old.base) (weight self.new.base)) }
    {
        if self.spoiled {
            return Err(NoMemory);
        }
        let turn = self.turn_unspoiled();
        self.spoiled = turn.is_err();
        turn
    }

    /// A turn, where memory was there so far.
    #[inline(always)]
    fn turn_unspoiled(&mut self) -> Result<Turn, NoMemory>
        requires node { IsSomeNode (record { step = P.step; state = P.state; last = P.last; version = P.version }) W.HasSeen self.old }
        requires unspoiled { self.old.spoiled ≡ false }
        ensures turn { IfOk result (λ t. IsTurn (record { step = P.step; state = P.state; last = P.last; version = P.version }) t self.old self.new) }
        ensures in_range { OnOk result (All IsEntryInRange self.new.base.journal.entries) }
        ensures seen { OnOk result (W.HasSeen self.new.watch self.new.base.journal.entries) }
        ensures same { OnErr result (SameRun self.old.base self.new.base) }
        ensures spoiled { self.new.spoiled ≡ false }
        ensures place { place_of self.new.base.port ≡ place_of self.old.base.port }
        ensures orders { self.new.base.orders ≡ self.old.base.orders }
        ensures count { length self.new.programs.all.items ≡ length self.old.programs.all.items }
        ensures made { W.made self.new.watch ≡ W.made self.old.watch }
    {
        if self.base.kernel.stamp() == u64::MAX {
            return Ok(Turn::Spent);
        }
        let put = self.base.make_ready()?;
        if self.base.used == self.base.orders.limit {
            return Ok(Turn::Spent);
        }
        match self.base.first() {
            Some(from) => self.hear(from),
            None => self.go_on(put),
        }
    }

    /// The first letter of a kernel is got.
    #[inline(always)]
    fn hear(&mut self, from: u8) -> Result<Turn, NoMemory>
        requires amid { (before : ABase) × IsAmidTurn (record { step = P.step; state = P.state; last = P.last; version = P.version }) W.HasSeen (record self.old { base = before }) × FindsLetter from before self.old.base }
        ensures turn { IfOk result (λ t. (before : ABase) (put : Bool) → IsAmidTurn (record { step = P.step; state = P.state; last = P.last; version = P.version }) W.HasSeen (record self.old { base = before }) → FindsLetter from before self.old.base
            → Continues (record { step = P.step; state = P.state; last = P.last; version = P.version }) put t (record self.old { base = before }) self.new) }
        ensures in_range { OnOk result (All IsEntryInRange self.new.base.journal.entries) }
        ensures seen { OnOk result (W.HasSeen self.new.watch self.new.base.journal.entries) }
        ensures same { OnErr result (SameRun self.old.base self.new.base) }
        ensures spoiled { self.new.spoiled ≡ self.old.spoiled }
        ensures place { place_of self.new.base.port ≡ place_of self.old.base.port }
        ensures orders { self.new.base.orders ≡ self.old.base.orders }
        ensures count { length self.new.programs.all.items ≡ length self.old.programs.all.items }
        ensures made { W.made self.new.watch ≡ W.made self.old.watch }
    {
        match self.base.port.get_from(from) {
            Letter::Packet(mut packet) => {
                tell_packet(&packet);
                self.take(from, &mut packet)?;
                Ok(Turn::Event)
            }
            Letter::Marker => {
                self.base.mark(from)?;
                Ok(Turn::Marked)
            }
        }
    }

    /// The kernel takes a packet.
    #[inline(always)]
    fn take(&mut self, from: u8, packet: &mut Packet) -> Result<(), NoMemory>
        requires from { from < self.old.base.kernel.kernels }
        requires later { IsAfterLast self.old.base.journal.entries (gives (state_of self.old.base.kernel) (TakesPacket from (packet_picture packet.old))).kernel.stamp }
        requires unsent { self.old.base.outbox.unsent.items ≡ [] }
        requires used { self.old.base.used < 2 ^ 32 - 1 }
        requires seen { W.HasSeen self.old.watch self.old.base.journal.entries }
        ensures took { OnOk result ((who : List APid) × Happens (TakesPacket from (packet_picture packet.old)) self.old.base self.new.base who × Hears who self.old.programs self.new.programs) }
        ensures rest { OnOk result (self.new ≡ record self.old { base = self.new.base; programs = self.new.programs; watch = self.new.watch }) }
        ensures in_range { OnOk result (All IsEntryInRange self.new.base.journal.entries) }
        ensures seen { OnOk result (W.HasSeen self.new.watch self.new.base.journal.entries) }
        ensures same { OnErr result (SameRun self.old.base self.new.base) }
        ensures spoiled { self.new.spoiled ≡ self.old.spoiled }
        ensures place { place_of self.new.base.port ≡ place_of self.old.base.port }
        ensures orders { self.new.base.orders ≡ self.old.base.orders }
        ensures count { length self.new.programs.all.items ≡ length self.old.programs.all.items }
        ensures made { W.made self.new.watch ≡ W.made self.old.watch }
    {
        let answered = self.base.take(from, packet)?;
        self.tell(answered);
        Ok(())
    }

    /// A process makes a call.
    fn ask(&mut self, request: &Request) -> Result<(), NoMemory>
        requires process { request.now.p.0 < length self.old.base.kernel.processes }
        requires later { (mine : List EndId) → IsCallWith request.now.p (entries self.old.base.kernel.table) mine request.now.call
            → IsAfterLast self.old.base.journal.entries (gives (state_of self.old.base.kernel) (MakesCall request.now.p request.now.call mine)).kernel.stamp }
        requires unsent { self.old.base.outbox.unsent.items ≡ [] }
        requires used { self.old.base.used < 2 ^ 32 - 1 }
        requires seen { W.HasSeen self.old.watch self.old.base.journal.entries }
        ensures asked { OnOk result ((who : List APid) × (mine : List EndId) × IsCallWith request.now.p (entries self.old.base.kernel.table) mine request.now.call
            × Happens (MakesCall request.now.p request.now.call mine) self.old.base self.new.base who × Hears who self.old.programs self.new.programs) }
        ensures rest { OnOk result (self.new ≡ record self.old { base = self.new.base; programs = self.new.programs; watch = self.new.watch }) }
        ensures in_range { OnOk result (All IsEntryInRange self.new.base.journal.entries) }
        ensures seen { OnOk result (W.HasSeen self.new.watch self.new.base.journal.entries) }
        ensures same { OnErr result (SameRun self.old.base self.new.base) }
        ensures spoiled { self.new.spoiled ≡ self.old.spoiled }
        ensures place { place_of self.new.base.port ≡ place_of self.old.base.port }
        ensures orders { self.new.base.orders ≡ self.old.base.orders }
        ensures count { length self.new.programs.all.items ≡ length self.old.programs.all.items }
        ensures made { W.made self.new.watch ≡ W.made self.old.watch }
    {
        let answered = self.base.ask(request)?;
        self.tell(answered);
        Ok(())
    }

    /// No letter was got: a program makes a step, if one can.
    #[inline(always)]
    fn go_on(&mut self, put: bool) -> Result<Turn, NoMemory>
        requires amid { IsAmidTurn (record { step = P.step; state = P.state; last = P.last; version = P.version }) W.HasSeen self.old }
        requires letter { NoLetter self.old.base }
        ensures turn { IfOk result (λ t. Continues (record { step = P.step; state = P.state; last = P.last; version = P.version }) put t self.old self.new) }
        ensures in_range { OnOk result (All IsEntryInRange self.new.base.journal.entries) }
        ensures seen { OnOk result (W.HasSeen self.new.watch self.new.base.journal.entries) }
        ensures same { OnErr result (SameRun self.old.base self.new.base) }
        ensures spoiled { self.new.spoiled ≡ self.old.spoiled }
        ensures place { place_of self.new.base.port ≡ place_of self.old.base.port }
        ensures orders { self.new.base.orders ≡ self.old.base.orders }
        ensures count { length self.new.programs.all.items ≡ length self.old.programs.all.items }
        ensures made { W.made self.new.watch ≡ W.made self.old.watch }
    {
        match self.programs.ready() {
            Some(place) => self.step(place),
            None if put => Ok(Turn::Sent),
            None => Ok(Turn::Idle),
        }
    }

    /// The program at a place makes its step.
    fn step(&mut self, place: usize) -> Result<Turn, NoMemory>
        requires amid { IsAmidTurn (record { step = P.step; state = P.state; last = P.last; version = P.version }) W.HasSeen self.old }
        requires letter { NoLetter self.old.base }
        requires next { IsNextToGo (length self.old.programs.all.items) self.old.programs.next self.old.programs.doing place }
        ensures turn { IfOk result (λ t. (put : Bool) → Continues (record { step = P.step; state = P.state; last = P.last; version = P.version }) put t self.old self.new) }
        ensures in_range { OnOk result (All IsEntryInRange self.new.base.journal.entries) }
        ensures seen { OnOk result (W.HasSeen self.new.watch self.new.base.journal.entries) }
        ensures same { OnErr result (SameRun self.old.base self.new.base) }
        ensures spoiled { self.new.spoiled ≡ self.old.spoiled }
        ensures place { place_of self.new.base.port ≡ place_of self.old.base.port }
        ensures orders { self.new.base.orders ≡ self.old.base.orders }
        ensures count { length self.new.programs.all.items ≡ length self.old.programs.all.items }
        ensures made { W.made self.new.watch ≡ W.made self.old.watch }
    {
        let p = self.programs.process(place);
        let answer = self.lent(place, p);
        match self.programs.step(self.alloc, place, answer)? {
            Next::Ask(call) => {
                tell_call(&call);
                let request = Request { p, call };
                self.ask(&request)?;
                Ok(Turn::Event)
            }
            Next::Pause => {
                self.pause();
                Ok(Turn::Paused)
            }
            Next::Ended => {
                self.pause();
                Ok(Turn::Paused)
            }
        }
    }

    /// A pause of a program, or its end, uses a turn.
    fn pause(&mut self)
        requires used { self.old.base.used < 2 ^ 32 - 1 }
        ensures { self.new ≡ record self.old { base = record self.old.base { used = self.old.base.used + 1 } } }
    {
        self.base.used += 1;
    }

    /// What the program at a place is lent: a copy of the answer to the call that it asked.
    fn lent(&self, place: usize, p: Pid) -> Option<Answer>
        requires place { place < length self.now.programs.all.items }
        requires process { p.0 < length self.now.base.kernel.processes }
        requires stands { doing_at self.now.programs.doing place ≡ Answered → (a : AnAnswer) × ((process_of p (state_of self.now.base.kernel)).answer ≡ Some a) }
        ensures { IsLent self.now place p result }
    {
        if !self.programs.is_answered(place) {
            return None;
        }
        match self.base.kernel.standing_answer(p) {
            Some(answer) => Some(answer.copy()),
            None => None,
        }
    }

    /// An event happened, in which these processes were answered: the programs and the watch are told.
    #[inline(always)]
    fn tell(&mut self, answered: Vec<Pid>)
        requires seen { (before : List Entry) × (e : Entry) × (self.old.base.journal.entries ≡ before ++ e ∷ []) × W.HasSeen self.old.watch before }
        ensures programs { Hears answered.items self.old.programs self.new.programs }
        ensures seen { W.HasSeen self.new.watch self.new.base.journal.entries }
        ensures rest { self.new ≡ record self.old { programs = self.new.programs; watch = self.new.watch } }
        ensures made { W.made self.new.watch ≡ W.made self.old.watch }
    {
        self.programs.hear(answered.as_slice());
        self.base.kernel.reuse_answered(answered);
        self.watch.event(&self.base.journal);
    }
}
