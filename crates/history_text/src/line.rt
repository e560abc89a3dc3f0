//! Lines, one after the other.
ghost use Rattle.std.specs.Prelude.{◌≡◌, MatchResult, Ok};
ghost use Rattle.charlotte_text.specs.Reading.{words};
ghost use Rattle.history_text.specs.Forms.{lead_of, allows, led, meaning_of};
ghost use Rattle.history_text.specs.Lines.{is_skipped, act_if, line_read, FailsSo, Tells};
ghost use Rattle.history_text.specs.declared.line.LineFault.TheVariants as faults;

use crate::draft::Draft;
use crate::header::version;
use crate::meaning::{Act, Meaning};
use crate::stage::{Lead, Stage};
use crate::words::{Words, is_this};
use charlotte_calls::NoMemory;
use charlotte_text::Fault;

/// Why a line was not read.
#[derive(Clone, Copy, Debug, PartialEq, Eq)]
pub enum LineFault {
    /// It has no form in its place.
    Form,
    NoMemory,
}

impl From<NoMemory> for LineFault {
    ghost from_gives = { λ _ e. e ≡ faults.NoMemory };

    fn from(_error: NoMemory) -> LineFault {
        LineFault::NoMemory
    }
}

impl From<Fault> for LineFault {
    ghost from_gives = { λ _ e. e ≡ faults.Form };

    fn from(_error: Fault) -> LineFault {
        LineFault::Form
    }
}

impl Draft {
    /// Reads the next line: whether it tells a step, which is then in its place. After a fault nothing is said of what is kept.
    #[tactic(auto, unfolding(crate::specs::Lines::line_read))]
    pub fn read(&mut self, line: &[u8], act: &mut Act) -> Result<bool, LineFault>
        ensures { MatchResult result (λ told. line_read self.old line.now ≡ Ok (self.new, act_if told act.new)) (λ e. FailsSo e (line_read self.old line.now)) }
    {
        if skipped(line) {
            return Ok(false);
        }
        let meaning = self.meaning(line, act)?;
        self.add(&meaning)?;
        Ok(meaning.is_step())
    }

    /// What a line says.
    #[tactic(auto, unfolding(crate::specs::Forms::meaning_of))]
    fn meaning(&self, line: &[u8], act: &mut Act) -> Result<Meaning, Fault>
        ensures { Tells result act.new (meaning_of self.now (words line.now)) }
    {
        let mut words = Words::of(line);
        let first = words.next()?;
        let lead = read_lead(first);
        if allows(lead, self.stage()) {
            self.led(lead, first, words, act)
        } else {
            Err(Fault::Form)
        }
    }

    #[tactic(auto, unfolding(crate::specs::Forms::led))]
    fn led(
        &self,
        lead: Lead,
        word: &[u8],
        words: Words<'_>,
        act: &mut Act,
    ) -> Result<Meaning, Fault>
        ensures { Tells result act.new (led self.now lead word.now words.entry) }
    {
        match lead {
            Lead::Other => return self.process_line(word, words, act),
            Lead::History => return Ok(Meaning::Version(version(words)?)),
            Lead::Process => {
                let (name, p, home) = self.process_told(words)?;
                return Ok(Meaning::Process(name, p, home));
            }
            Lead::Wire => {
                let (name, link, p, q) = self.wire_told(words)?;
                return Ok(Meaning::Wire(name, link, p, q));
            }
            Lead::Match => self.match_line(words, act)?,
            Lead::Take => self.take(words, act)?,
            Lead::Complete => self.complete(words, act)?,
            Lead::Withdraw => self.withdraw(words, act)?,
            Lead::Free => self.free(words, act)?,
            Lead::Notice => self.notice(words, act)?,
            Lead::Back => self.back(words, act)?,
        }
        Ok(Meaning::Step)
    }
}

fn skipped(line: &[u8]) -> bool
    ensures { result ≡ is_skipped line.now }
{
    match line {
        [] => true,
        [first, ..] => *first == b'#',
    }
}

#[tactic(auto, unfolding(crate::specs::Forms::lead_of))]
fn read_lead(word: &[u8]) -> Lead
    ensures { result ≡ lead_of word.now }
{
    if is_this(word, b"history") {
        Lead::History
    } else if is_this(word, b"process") {
        Lead::Process
    } else if is_this(word, b"wire") {
        Lead::Wire
    } else if is_this(word, b"match") {
        Lead::Match
    } else if is_this(word, b"take") {
        Lead::Take
    } else if is_this(word, b"complete") {
        Lead::Complete
    } else if is_this(word, b"withdraw") {
        Lead::Withdraw
    } else if is_this(word, b"free") {
        Lead::Free
    } else if is_this(word, b"notice") {
        Lead::Notice
    } else if is_this(word, b"back") {
        Lead::Back
    } else {
        Lead::Other
    }
}

/// Whether such a line may stand there: the version first, then the processes, the wires and the steps.
#[tactic(auto, unfolding(crate::specs::Forms::allows))]
fn allows(lead: Lead, stage: Stage) -> bool
    ensures { result ≡ allows lead stage }
{
    match lead {
        Lead::History => matches!(stage, Stage::Start),
        Lead::Process => matches!(stage, Stage::Processes),
        Lead::Wire => matches!(stage, Stage::Processes | Stage::Wires),
        _ => !matches!(stage, Stage::Start),
    }
}
