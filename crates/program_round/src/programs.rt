ghost use Rattle.std.specs.Prelude.{◌≡◌, ◌≢◌, ◌↔◌, ◌⊎◌, ◌+◌, ◌<◌, ◌≤◌, ℕ, Some, IfOk, OnOk, IfSome, IfNone, IsTrue, MatchOption, replicate, set, length, slice_get, slice_index_or};
ghost use Rattle.charlotte_calls.specs.Program.{EndsAfterExit, IsOfVersion, MayFollow};
ghost use Rattle.charlotte_calls.specs.declared.names.Pid.{Pid as APid};
ghost use Rattle.program_round.specs.Doings.{IsNextToGo, NoneCanGo, NoneCanGoWithin, IsFirstToGo, all_answered, answered_at, behind, can_go_on, doing_after, doing_at};

use crate::doing::Doing;
use charlotte_calls::{Answer, Next, NoMemory, Pid, Program};
use std::alloc::Global;

/// The greatest number of processes in a setting.
const MOST: usize = 64;

/// The programs of a node, in the order in which they take turns, with their processes.
#[derive(Drop)]
pub struct Programs<P> {
    pub(crate) all: Vec<(Pid, P)>,
    /// What each is doing, by its place.
    doing: [Doing; MOST],
    /// The place at which the round goes on.
    next: usize,
    ghost most: { (length all.items ≤ 64) × (next ≤ length all.items) },
}

impl<P: Program> Programs<P> {
    /// Programs that made no step yet.
    pub fn of(all: Vec<(Pid, P)>) -> Programs<P>
        requires { length all.items ≤ 64 }
        ensures all { result.all.items ≡ all.items }
        ensures doing { result.doing ≡ replicate 64 Doing.Begins }
        ensures next { result.next ≡ 0 }
    {
        Programs {
            all,
            doing: [Doing::Begins; MOST],
            next: 0,
        }
    }

    /// The place of the next program in the round that can go on, if there is one.
    pub fn ready(&self) -> Option<usize>
        ensures some { IfSome result (IsNextToGo (length self.now.all.items) self.now.next self.now.doing) }
        ensures none { IfNone result (NoneCanGo (length self.now.all.items) self.now.doing) }
    {
        match self.ready_within(self.next, self.all.len()) {
            Some(place) => Some(place),
            None => self.ready_within(0, self.next),
        }
    }

    /// The first place of these whose program can go on.
    fn ready_within(&self, from: usize, to: usize) -> Option<usize>
        requires { to ≤ 64 }
        ensures some { IfSome result (IsFirstToGo from to self.now.doing) }
        ensures none { IfNone result (NoneCanGoWithin from to self.now.doing) }
    {
        for place in from..to {
            if self.doing[place].can_go_on() {
                return Some(place);
            }
        }
        None
    }

    /// The process of the program at a place.
    pub fn process(&self, place: usize) -> Pid
        requires { place < length self.now.all.items }
        ensures { (d : APid × P) → result ≡ (slice_index_or self.now.all.items place d).0 }
    {
        self.all[place].0
    }

    /// Whether the program at a place asked a call whose answer stands.
    pub fn is_answered(&self, place: usize) -> bool
        requires { place < length self.now.all.items }
        ensures { IsTrue result ↔ (doing_at self.now.doing place ≡ Doing.Answered) }
    {
        matches!(self.doing[place], Doing::Answered)
    }

    /// The program at a place makes its step, and the round goes on behind it. After want of memory the program is spoiled.
    pub fn step(
        &mut self,
        alloc: Global,
        place: usize,
        answer: Option<Answer>,
    ) -> Result<Next, NoMemory>
        requires place { place < length self.old.all.items }
        requires given { (d : APid × P) → MayFollow (P.last (slice_index_or self.old.all.items place d).1) answer }
        ensures step { IfOk result (λ made. (d : APid × P) → (made, P.state (slice_index_or self.new.all.items place d).1) ≡ P.step (P.state (slice_index_or self.old.all.items place d).1) answer) }
        ensures last { IfOk result (λ made. (d : APid × P) → P.last (slice_index_or self.new.all.items place d).1 ≡ Some made) }
        ensures exit { IfOk result (λ made. (d : APid × P) → EndsAfterExit (P.last (slice_index_or self.old.all.items place d).1) made) }
        ensures limit { IfOk result (λ made. (d : APid × P) → IsOfVersion (P.version (slice_index_or self.old.all.items place d).1) made) }
        ensures version { IfOk result (λ made. (d : APid × P) → P.version (slice_index_or self.new.all.items place d).1 ≡ P.version (slice_index_or self.old.all.items place d).1) }
        ensures one_or_two { (d : APid × P) → (P.version (slice_index_or self.old.all.items place d).1 ≡ 1) ⊎ (P.version (slice_index_or self.old.all.items place d).1 ≡ 2) }
        ensures same { (d : APid × P) → (slice_index_or self.new.all.items place d).0 ≡ (slice_index_or self.old.all.items place d).0 }
        ensures others { (q : ℕ) (d : APid × P) → q ≢ place → slice_index_or self.new.all.items q d ≡ slice_index_or self.old.all.items q d }
        ensures count { length self.new.all.items ≡ length self.old.all.items }
        ensures doing { IfOk result (λ made. self.new.doing ≡ set self.old.doing place (doing_after made)) }
        ensures next { OnOk result (self.new.next ≡ behind (length self.old.all.items) place) }
    {
        let made = self.all[place].1.next(alloc, answer);
        if let Ok(next) = &made {
            self.doing[place] = Doing::after(next);
            self.next = behind(place, self.all.len());
        }
        made
    }

    /// An answer stands to each of these processes.
    pub fn hear(&mut self, answered: &[Pid])
        ensures doing { self.new.doing ≡ all_answered answered.now self.old.all.items self.old.doing }
        ensures all { self.new.all.items ≡ self.old.all.items }
        ensures next { self.new.next ≡ self.old.next }
    {
        for p in answered {
            self.hear_of(*p);
        }
    }

    /// An answer stands to a process.
    fn hear_of(&mut self, p: Pid)
        ensures doing { self.new.doing ≡ answered_at p self.old.all.items self.old.doing }
        ensures all { self.new.all.items ≡ self.old.all.items }
        ensures next { self.new.next ≡ self.old.next }
    {
        for place in 0..self.all.len() {
            if self.all[place].0 == p {
                self.doing[place] = Doing::Answered;
                return;
            }
        }
    }

    /// Whether each program has ended, or asked and has no answer.
    pub fn are_quiet(&self) -> bool
        ensures { IsTrue result ↔ NoneCanGo (length self.now.all.items) self.now.doing }
    {
        self.ready_within(0, self.all.len()).is_none()
    }
}

/// The place behind another in a circle of so many.
fn behind(place: usize, count: usize) -> usize
    requires { place < count }
    ensures place { result ≡ behind count place }
    ensures there { result < count }
{
    if place + 1 < count { place + 1 } else { 0 }
}
