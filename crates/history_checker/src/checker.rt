//! A history, checked line by line.
ghost use Rattle.std.specs.Prelude.{◌≡◌, ◌∷◌, ◌++◌, [], ℕ, List, None, Some, IfOk, OnOk, MatchResult, true};
ghost use Rattle.history_checker.specs.Reading.{HasBegun, HasRead, IsFor, IsRefused, Reads, answer_of, is_one_line};
ghost use Rattle.history_run.specs.Follow.{Follows};
ghost use Rattle.history_run.specs.declared.fault.HistoryFault.{HistoryFault as AFault};

use charlotte_calls::NoMemory;
use history_reasons::reason;
use history_run::{History, HistoryFault};
use std::alloc::Global;

/// A history as far as its lines were told, and why one was refused, once one was.
#[derive(Drop)]
pub struct Checker {
    history: History,
    refusal: Option<HistoryFault>,
    /// The words of the refusal.
    why: Vec<u8>,
}

impl Checker {
    /// Before the first line.
    #[tactic(auto, using(crate::proofs::Steps::starts))]
    pub fn new(alloc: Global) -> Result<Checker, NoMemory>
        ensures read { IfOk result (HasRead []) }
        ensures fresh { IfOk result (λ c. (c.refusal ≡ None) × (c.why.items ≡ [])) }
    {
        Ok(Checker {
            history: History::new(alloc)?,
            refusal: None,
            why: Vec::new(alloc),
        })
    }

    /// Reads the next line. Once a line was refused, each later one gets the same answer and changes nothing.
    pub fn line(&mut self, alloc: Global, text: &[u8]) -> Result<(), HistoryFault>
        ensures read { (lines : List (List ℕ)) → HasRead lines self.old → Reads (lines ++ text.now ∷ []) self.new result }
        ensures one_line { OnOk result (is_one_line text.now ≡ true) }
        ensures kept { result ≡ answer_of self.new.refusal }
        ensures still { (why : AFault) → self.old.refusal ≡ Some why → self.new ≡ self.old }
    {
        if let Some(fault) = self.refusal {
            return Err(fault);
        }
        match follow(alloc, &mut self.history, text) {
            Ok(()) => Ok(()),
            Err(fault) => self.refuse(alloc, fault),
        }
    }

    /// The words of the refusal: none where no line was refused.
    pub fn why(&self) -> &[u8]
        ensures { result.now ≡ self.now.why.items }
    {
        self.why.as_slice()
    }

    /// The history as far as its lines stood.
    pub fn history(&self) -> &History
        ensures { result.now ≡ self.now.history }
    {
        &self.history
    }

    /// Whether the line stood that says what the text is.
    pub fn has_begun(&self) -> bool
        ensures { result ≡ true → HasBegun self.now.history }
    {
        self.history.draft().has_begun()
    }

    /// Refuses the last line for this, or for want of memory where there is none for the words of it.
    fn refuse(&mut self, alloc: Global, fault: HistoryFault) -> Result<(), HistoryFault>
        ensures kept { IsFor fault self.new.refusal }
        ensures answer { result ≡ answer_of self.new.refusal }
    {
        let told = match words_of(alloc, &self.history, fault) {
            Ok(words) => {
                self.why = words;
                fault
            }
            Err(_) => HistoryFault::NoMemory,
        };
        self.refusal = Some(told);
        Err(told)
    }
}

/// Follows the next line of a history. One with a line feed in it has no form.
fn follow(alloc: Global, history: &mut History, text: &[u8]) -> Result<(), HistoryFault>
    ensures told { MatchResult result (λ _. Follows text.now history.old history.new) (IsRefused text.now history.old) }
    ensures one_line { OnOk result (is_one_line text.now ≡ true) }
{
    if !is_one_line(text) {
        return Err(HistoryFault::Form);
    }
    history.line(alloc, text)
}

fn is_one_line(text: &[u8]) -> bool
    ensures { result ≡ is_one_line text.now }
{
    text.iter().all(|byte| *byte != b'\n')
}

/// The words of a fault of the last line of a history.
fn words_of(alloc: Global, history: &History, fault: HistoryFault) -> Result<Vec<u8>, NoMemory> {
    match fault {
        HistoryFault::Form => Ok(b"form: no history has this line there".to_vec(alloc)?),
        HistoryFault::NotAllowed => {
            let mut words = b"no: ".to_vec(alloc)?;
            words.extend_from_slice(reason(alloc, history)?.as_slice())?;
            Ok(words)
        }
        HistoryFault::NoMemory => Ok(b"no memory".to_vec(alloc)?),
    }
}
