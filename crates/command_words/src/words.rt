//! The words of a command line, and the command that they give.
ghost use Rattle.std.specs.Prelude.{◌≡◌, ◌≤◌, ◌∷◌, length, option_and_then};
ghost use Rattle.command_words.specs.Words.{is_name, verb_of, one_name, one_seed, seed_number, turn_number, turns_number, with_plan, with_turns, with_serial, with_word, run_command, run_read, run_of, snapped_serial, snapped_place, snapped_word, snapshot_command, snapshot_of, behind, command_of};

use charlotte_text::read_below;
use std::collections::VecDeque;

/// What the words after the program's name ask for.
#[derive(Debug, PartialEq, Eq, Drop)]
pub enum Command {
    /// Performs the script of a file.
    Drive {
        file: String,
    },
    /// Checks the module of a file.
    Check {
        file: String,
    },
    /// Lists the compiled module of a file.
    Code {
        file: String,
    },
    /// Runs a plan, on one thread where it is serial, with so many turns for each kernel.
    Run {
        plan: String,
        serial: bool,
        turns: u32,
    },
    /// Performs the script of a seed and counts.
    Bench {
        seed: u32,
    },
    /// Replays the transcript of a file.
    Audit {
        file: String,
    },
    /// Runs a plan, on one thread where it is serial, with a snapshot that begins at a turn of kernel 0.
    Snapshot {
        plan: String,
        at: u32,
        serial: bool,
    },
}

/// The first word of a command.
#[derive(Clone, Copy, Debug)]
pub(crate) enum Verb {
    Drive,
    Check,
    Code,
    Run,
    Bench,
    Audit,
    Snapshot,
}

/// What the words of `run` said so far.
#[derive(Debug, Drop)]
pub(crate) struct RunWords {
    plan: Option<String>,
    serial: bool,
    turns: Option<u32>,
}

/// What the words of `snapshot` said so far.
#[derive(Debug, Drop)]
pub(crate) struct SnapshotWords {
    plan: Option<String>,
    at: Option<u32>,
    serial: bool,
}

/// The command that these words give, `None` exactly where they are not of the form.
#[tactic(auto, unfolding(crate::specs::Words::command_of))]
pub fn command_of(words: Vec<String>) -> Option<Command>
    ensures { result ≡ command_of words.items }
{
    let mut words = VecDeque::from(words);
    let first = words.pop_front()?;
    let verb = verb_of(first.as_bytes())?;
    behind(verb, words)
}

#[tactic(auto, unfolding(crate::specs::Words::behind))]
fn behind(verb: Verb, words: VecDeque<String>) -> Option<Command>
    ensures { result ≡ behind verb words.items }
{
    match verb {
        Verb::Drive => Some(Command::Drive {
            file: one_name(words)?,
        }),
        Verb::Check => Some(Command::Check {
            file: one_name(words)?,
        }),
        Verb::Code => Some(Command::Code {
            file: one_name(words)?,
        }),
        Verb::Run => run_of(words),
        Verb::Bench => Some(Command::Bench {
            seed: one_seed(words)?,
        }),
        Verb::Audit => Some(Command::Audit {
            file: one_name(words)?,
        }),
        Verb::Snapshot => snapshot_of(words),
    }
}

#[tactic(auto, unfolding(crate::specs::Words::verb_of))]
fn verb_of(word: &[u8]) -> Option<Verb>
    ensures { result ≡ verb_of word.now }
{
    if word == b"drive".as_slice() {
        Some(Verb::Drive)
    } else if word == b"check".as_slice() {
        Some(Verb::Check)
    } else if word == b"code".as_slice() {
        Some(Verb::Code)
    } else if word == b"run".as_slice() {
        Some(Verb::Run)
    } else if word == b"bench".as_slice() {
        Some(Verb::Bench)
    } else if word == b"audit".as_slice() {
        Some(Verb::Audit)
    } else if word == b"snapshot".as_slice() {
        Some(Verb::Snapshot)
    } else {
        None
    }
}

fn is_name(word: &[u8]) -> bool
    ensures { result ≡ is_name word.now }
{
    match word {
        [] => false,
        [first, ..] => *first != b'-',
    }
}

/// The name of a file: the one word, which is not empty and does not begin with `-`.
#[tactic(auto, unfolding(crate::specs::Words::one_name))]
pub fn one_name(mut words: VecDeque<String>) -> Option<String>
    ensures { result ≡ one_name words.items }
{
    let word = words.pop_front()?;
    if words.is_empty() && is_name(word.as_bytes()) {
        Some(word)
    } else {
        None
    }
}

#[tactic(auto, unfolding(crate::specs::Words::one_seed))]
fn one_seed(mut words: VecDeque<String>) -> Option<u32>
    ensures { result ≡ one_seed words.items }
{
    let word = words.pop_front()?;
    if words.is_empty() {
        seed_number(word.as_bytes())
    } else {
        None
    }
}

fn seed_number(word: &[u8]) -> Option<u32>
    ensures { result ≡ seed_number word.now }
{
    let seed = read_below(word, 1 << 32).ok()?;
    Some(seed as u32)
}

fn turn_number(word: &[u8]) -> Option<u32>
    ensures { result ≡ turn_number word.now }
{
    let turn = read_below(word, 100_001).ok()?;
    Some(turn as u32)
}

fn turns_number(word: &[u8]) -> Option<u32>
    ensures { result ≡ turns_number word.now }
{
    let turns = read_below(word, 100_001).ok()?;
    if turns == 0 { None } else { Some(turns as u32) }
}

impl RunWords {
    #[tactic(auto, unfolding(crate::specs::Words::with_plan))]
    fn with_plan(self, word: String) -> Option<RunWords>
        ensures { result ≡ with_plan self word }
    {
        if self.plan.is_some() || !is_name(word.as_bytes()) {
            return None;
        }
        Some(RunWords {
            plan: Some(word),
            serial: self.serial,
            turns: self.turns,
        })
    }

    #[tactic(auto, unfolding(crate::specs::Words::with_turns))]
    fn with_turns(self, number: &[u8]) -> Option<RunWords>
        ensures { result ≡ with_turns self number.now }
    {
        if self.turns.is_some() {
            return None;
        }
        let turns = turns_number(number)?;
        Some(RunWords {
            plan: self.plan,
            serial: self.serial,
            turns: Some(turns),
        })
    }

    #[tactic(auto, unfolding(crate::specs::Words::with_serial))]
    fn with_serial(self) -> Option<RunWords>
        ensures { result ≡ with_serial self }
    {
        if self.serial {
            return None;
        }
        Some(RunWords {
            plan: self.plan,
            serial: true,
            turns: self.turns,
        })
    }

    #[tactic(auto, unfolding(crate::specs::Words::with_word))]
    fn with_word(self, word: String) -> Option<RunWords>
        ensures { result ≡ with_word self word }
    {
        let bytes = word.as_bytes();
        if bytes == b"--serial".as_slice() {
            return self.with_serial();
        }
        match bytes.strip_prefix(b"--turns=".as_slice()) {
            Some(number) => self.with_turns(number),
            None => self.with_plan(word),
        }
    }

    #[tactic(auto, unfolding(crate::specs::Words::run_command))]
    fn command(self) -> Option<Command>
        ensures { result ≡ run_command self }
    {
        let plan = self.plan?;
        Some(Command::Run {
            plan,
            serial: self.serial,
            turns: self.turns.unwrap_or(100_000),
        })
    }
}

// Reads an argument that begins with this word, of which these words may be the rest.
#[tactic(auto, using(crate::proofs::Arguments::arguments))]
fn add_argument(given: RunWords, word: String, words: &mut VecDeque<String>) -> Option<RunWords>
    ensures read { run_read given (word ∷ words.old.items) ≡ option_and_then (λ h. run_read h words.new.items) result }
    ensures fewer { length words.new.items ≤ length words.old.items }
{
    if word.as_bytes() != b"--turns".as_slice() {
        return given.with_word(word);
    }
    let number = words.pop_front()?;
    given.with_turns(number.as_bytes())
}

#[tactic(auto, unfolding(crate::specs::Words::run_of, crate::specs::Words::run_read))]
fn run_of(mut words: VecDeque<String>) -> Option<Command>
    ensures { result ≡ run_of words.items }
{
    let mut given = RunWords {
        plan: None,
        serial: false,
        turns: None,
    };
    while let Some(word) = words.pop_front() {
        given = add_argument(given, word, &mut words)?;
    }
    given.command()
}

impl SnapshotWords {
    fn with_serial(self) -> Option<SnapshotWords>
        ensures { result ≡ snapped_serial self }
    {
        if self.serial {
            return None;
        }
        Some(SnapshotWords {
            plan: self.plan,
            at: self.at,
            serial: true,
        })
    }

    fn with_place(self, word: String) -> Option<SnapshotWords>
        ensures { result ≡ snapped_place self word }
    {
        if self.plan.is_none() {
            if !is_name(word.as_bytes()) {
                return None;
            }
            return Some(SnapshotWords {
                plan: Some(word),
                at: self.at,
                serial: self.serial,
            });
        }
        if self.at.is_some() {
            return None;
        }
        let at = turn_number(word.as_bytes())?;
        Some(SnapshotWords {
            plan: self.plan,
            at: Some(at),
            serial: self.serial,
        })
    }

    #[tactic(auto, unfolding(crate::specs::Words::snapped_word))]
    fn with_word(self, word: String) -> Option<SnapshotWords>
        ensures { result ≡ snapped_word self word }
    {
        if word.as_bytes() == b"--serial".as_slice() {
            self.with_serial()
        } else {
            self.with_place(word)
        }
    }

    fn command(self) -> Option<Command>
        ensures { result ≡ snapshot_command self }
    {
        let plan = self.plan?;
        let at = self.at?;
        Some(Command::Snapshot {
            plan,
            at,
            serial: self.serial,
        })
    }
}

#[tactic(auto, unfolding(crate::specs::Words::snapshot_of, crate::specs::Words::snapshot_read))]
fn snapshot_of(mut words: VecDeque<String>) -> Option<Command>
    ensures { result ≡ snapshot_of words.items }
{
    let mut given = SnapshotWords {
        plan: None,
        at: None,
        serial: false,
    };
    while let Some(word) = words.pop_front() {
        given = given.with_word(word)?;
    }
    given.command()
}
