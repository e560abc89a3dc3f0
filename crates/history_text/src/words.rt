//! The words of a line, one after the other.
ghost use Rattle.std.specs.Prelude.{◌≡◌, ◌∷◌, [], ◌<◌, ◌≤◌, length, Ok, Err, MatchOption, MatchResult, bytes_eq};
ghost use Rattle.charlotte_text.specs.Reading.{Gives, words, part_at, ended, bytes_of, way_of, number_below};
ghost use Rattle.history_text.specs.Names.{Takes};
ghost use Rattle.transcript_reading.specs.Forms.{first_of, only_of, u32_of, cause_of, outcome_of, this_word, suffix_of};
ghost use Rattle.history_text.specs.Forms.{version_of};

use charlotte_calls::{Bytes, Cause, Outcome, Way};
use charlotte_text::{
    Fault, cut, end_of_line, is_word, next_word, read_below, read_bytes, read_way,
};
use std::marker::Model;
use transcript_lines::cause_name;

/// The words of a line that are not read yet. Contracts see them as a list.
#[derive(Drop)]
pub(crate) struct Words<'a> {
    rest: Option<&'a [u8]>,
}

impl<'a> Model for Words<'a> {
    ghost use Rattle.std.specs.Prelude.{ℕ, List, option_copied};
    ghost use Rattle.charlotte_text.specs.Reading.{rest_parts};
    ghost use Rattle.charlotte_text.specs.Spelling.{blank};

    ghost Value = { List (List ℕ) };

    ghost view = { λ w. rest_parts blank (option_copied w.rest) };
}

impl<'a> Words<'a> {
    /// All words of a line.
    pub(crate) fn of(line: &'a [u8]) -> Words<'a>
        ensures { result ≡ words line.now }
    {
        Words { rest: Some(line) }
    }

    /// The next word. `Form` where none is left.
    pub(crate) fn next(&mut self) -> Result<&'a [u8], Fault>
        ensures { MatchResult result (λ w. part_at self.old ≡ Ok (w.now, self.new)) (λ e. part_at self.old ≡ Err e) }
    {
        let (word, rest) = next_word(self.rest)?;
        self.rest = rest;
        Ok(word)
    }

    /// The next word, if one is left.
    pub(crate) fn pop(&mut self) -> Option<&'a [u8]>
        ensures { MatchOption result (self.old ≡ []) (λ w. self.old ≡ w.now ∷ self.new) }
    {
        let line = self.rest?;
        let (word, rest) = cut(b' ', line);
        self.rest = rest;
        Some(word)
    }

    /// No word is left, or the line has another form.
    pub(crate) fn finish(self) -> Result<(), Fault>
        ensures { Gives (λ _. tt) result (ended self.entry) }
    {
        end_of_line(self.rest)
    }

    /// The next word is this one.
    pub(crate) fn this<const N: usize>(&mut self, said: &[u8; N]) -> Result<(), Fault>
        ensures { Takes (first_of (this_word said.now) self.old) result self.new }
    {
        let word = self.next()?;
        if is_this(word, said) {
            Ok(())
        } else {
            Err(Fault::Form)
        }
    }

    /// The next word, a number of 32 bits.
    pub(crate) fn number(&mut self) -> Result<u32, Fault>
        ensures { Takes (first_of u32_of self.old) result self.new }
    {
        let word = self.next()?;
        Ok(read_u32(word)?)
    }

    /// The next word, a string of bytes.
    pub(crate) fn text(&mut self) -> Result<Bytes, Fault>
        ensures { Takes (first_of bytes_of self.old) result self.new }
    {
        let word = self.next()?;
        Ok(read_bytes(word)?)
    }

    /// The next word, a direction.
    pub(crate) fn way(&mut self) -> Result<Way, Fault>
        ensures { Takes (first_of way_of self.old) result self.new }
    {
        let word = self.next()?;
        Ok(read_way(word)?)
    }

    /// The next word, how an activity was over.
    pub(crate) fn outcome(&mut self) -> Result<Outcome, Fault>
        ensures { Takes (first_of outcome_of self.old) result self.new }
    {
        let word = self.next()?;
        Ok(read_outcome(word)?)
    }

    /// The next word, a cause of refusal.
    pub(crate) fn cause(&mut self) -> Result<Cause, Fault>
        ensures { Takes (first_of cause_of self.old) result self.new }
    {
        let word = self.next()?;
        Ok(read_cause(word)?)
    }

    /// Whether this word stands behind the others.
    #[tactic(auto, unfolding(transcript_reading::specs::Forms::suffix_of))]
    pub(crate) fn suffix(mut self, said: &[u8]) -> Result<bool, Fault>
        ensures { result ≡ suffix_of said.now self.entry }
    {
        let Some(word) = self.pop() else {
            return Ok(false);
        };
        if word != said {
            return Err(Fault::Form);
        }
        self.finish()?;
        Ok(true)
    }
}

/// Whether a word is this one. Most that are not have another length.
#[inline(always)]
#[tactic(auto, using(crate::proofs::Lengths::other_length))]
pub(crate) fn is_this<const N: usize>(word: &[u8], this: &[u8; N]) -> bool
    ensures { result ≡ bytes_eq word.now this.now }
{
    word.len() == this.len() && is_word(word, this)
}

/// A number of 32 bits.
fn read_u32(word: &[u8]) -> Result<u32, Fault>
    ensures { result ≡ u32_of word.now }
{
    let number = read_below(word, 4_294_967_296)?;
    Ok(number as u32)
}

/// A version, 1 or 2.
#[tactic(auto, unfolding(crate::specs::Forms::version_of))]
pub(crate) fn read_version(word: &[u8]) -> Result<u8, Fault>
    ensures { result ≡ version_of word.now }
{
    if is_this(word, b"1") {
        Ok(1)
    } else if is_this(word, b"2") {
        Ok(2)
    } else {
        Err(Fault::Form)
    }
}

/// How an activity was over.
#[tactic(auto, unfolding(transcript_reading::specs::Forms::outcome_of))]
fn read_outcome(word: &[u8]) -> Result<Outcome, Fault>
    ensures { result ≡ outcome_of word.now }
{
    if is_this(word, b"done") {
        Ok(Outcome::Done)
    } else if is_this(word, b"destroyed") {
        Ok(Outcome::Destroyed)
    } else {
        Err(Fault::Form)
    }
}

/// The causes of refusal, of which each has a name of its own.
#[tactic(auto, unfolding(transcript_reading::specs::Forms::cause_of))]
fn read_cause(word: &[u8]) -> Result<Cause, Fault>
    ensures { result ≡ cause_of word.now }
{
    if word == cause_name(Cause::NoEnd) {
        Ok(Cause::NoEnd)
    } else if word == cause_name(Cause::Busy) {
        Ok(Cause::Busy)
    } else if word == cause_name(Cause::Dead) {
        Ok(Cause::Dead)
    } else if word == cause_name(Cause::EncloseNoEnd) {
        Ok(Cause::EncloseNoEnd)
    } else if word == cause_name(Cause::EncloseBusy) {
        Ok(Cause::EncloseBusy)
    } else if word == cause_name(Cause::EncloseSame) {
        Ok(Cause::EncloseSame)
    } else if word == cause_name(Cause::Late) {
        Ok(Cause::Late)
    } else if word == cause_name(Cause::NoActivity) {
        Ok(Cause::NoActivity)
    } else if word == cause_name(Cause::LinksFull) {
        Ok(Cause::LinksFull)
    } else if word == cause_name(Cause::EncloseTwice) {
        Ok(Cause::EncloseTwice)
    } else {
        Err(Fault::Form)
    }
}
