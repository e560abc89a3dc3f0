//! What a run asks for, by the words of the program.

use crate::kinds::Kind;

/// The most rounds of a program.
const MOST_ROUNDS: u32 = 100_000;

/// What is run, and how.
#[derive(Drop)]
pub(crate) struct Options {
    pub(crate) kind: Kind,
    /// How often each program makes its moves.
    pub(crate) rounds: u32,
    /// Each kernel has a worker.
    pub(crate) workers: bool,
    /// The transcript is printed.
    pub(crate) prints: bool,
}

impl Options {
    /// The run that these words ask for: a kind, rounds, and then `workers`, `print`, both or nothing.
    pub(crate) fn of(words: &[String]) -> Option<Options> {
        let [kind, rounds, others @ ..] = words else {
            return None;
        };
        let (workers, others) = begins_with(others, "workers");
        let (prints, others) = begins_with(others, "print");
        if !others.is_empty() {
            return None;
        }
        Some(Options {
            kind: Kind::of(kind.as_str())?,
            rounds: number(rounds.as_str())?,
            workers,
            prints,
        })
    }
}

/// Whether these words begin with one, and those behind it.
fn begins_with<'a>(words: &'a [String], word: &str) -> (bool, &'a [String]) {
    match words {
        [first, rest @ ..] if first.as_str() == word => (true, rest),
        _ => (false, words),
    }
}

/// A number from 1 to the most rounds.
fn number(word: &str) -> Option<u32> {
    let value = word.parse::<u32>().ok()?;
    if 1 <= value && value <= MOST_ROUNDS {
        Some(value)
    } else {
        None
    }
}
