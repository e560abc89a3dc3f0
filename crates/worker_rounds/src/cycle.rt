//! A program that makes the same moves again and again.

ghost use Rattle.std.specs.Prelude.{◌≡◌, None};
ghost use Rattle.worker_rounds.specs.Cycles.{Cycled, cycled_step, last_of, move_of, moved_by};

use crate::moves::Move;
use charlotte_calls::{Answer, Next, NoMemory, Program};
use std::alloc::Global;
use std::marker::Model;

/// So many steps of a random sequence are some twenty microseconds.
const THOUGHTS: u32 = 10_000;

/// What a program did last.
#[derive(Clone, Copy)]
pub(crate) enum Did {
    /// It made no step yet.
    Nothing,
    Moved(Move),
    Ended,
}

/// A program that makes its moves in order, so many times, and ends.
#[derive(Drop)]
pub(crate) struct Cycle {
    moves: Vec<Move>,
    place: usize,
    rounds: u32,
    last: Did,
    noise: u64,
}

impl Model for Cycle {
    ghost use Rattle.worker_rounds.specs.Cycles.{Cycled};

    ghost Value = { Cycled };

    ghost view = { λ a. record { moves = a.moves.items; place = a.place; rounds = a.rounds; last = a.last } };
}

impl Cycle {
    /// A program at its start.
    pub(crate) fn of(moves: Vec<Move>, rounds: u32) -> Cycle
        ensures { last_of result.last ≡ None }
    {
        Cycle {
            moves,
            place: 0,
            rounds,
            last: Did::Nothing,
            noise: 1,
        }
    }

    /// The next move, if there is one.
    fn go_on(&mut self) -> Option<Move>
        ensures there { result ≡ move_of self.old }
        ensures moved { self.new ≡ moved_by result self.old }
    {
        if self.rounds == 0 {
            return None;
        }
        let next = *self.moves.get(self.place)?;
        self.place += 1;
        if self.place >= self.moves.len() {
            self.place = 0;
            self.rounds -= 1;
        }
        if matches!(next, Move::Think) {
            self.noise = think(self.noise);
        }
        Some(next)
    }
}

/// Some work that depends on what was before: steps of a random sequence (Marsaglia, 2003).
fn think(from: u64) -> u64 {
    let mut noise = from;
    for _ in 0..THOUGHTS {
        noise ^= noise << 13;
        noise ^= noise >> 7;
        noise ^= noise << 17;
    }
    noise
}

impl Program for Cycle {
    ghost State = { Cycled };

    ghost state = { λ a. a };

    ghost step = { cycled_step };

    ghost last = { λ a. last_of a.last };

    ghost version = { λ _. 1 };

    fn next(&mut self, _alloc: Global, _answer: Option<Answer>) -> Result<Next, NoMemory> {
        match self.go_on() {
            Some(next) => {
                self.last = Did::Moved(next);
                Ok(next.next())
            }
            None => {
                self.last = Did::Ended;
                Ok(Next::Ended)
            }
        }
    }
}
