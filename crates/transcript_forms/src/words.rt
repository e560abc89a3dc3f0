//! The words of a line, one after the other.
ghost use Rattle.std.specs.Prelude.{◌≡◌, ◌∷◌, [], Ok, Err, MatchOption, MatchResult};
ghost use Rattle.charlotte_text.specs.Reading.{Gives, words, part_at, ended, end_of, ends_of, bytes_of, way_of, call_of};
ghost use Rattle.charlotte_text.specs.Spelling.{most_ends};
ghost use Rattle.transcript_forms.specs.Cursor.{Takes};
ghost use Rattle.transcript_reading.specs.Forms.{first_of, u8_of, u32_of, numbered_of, pid_of, kernel_of, cause_of, outcome_of, waits_of};

use crate::word::{
    read_cause, read_kernel, read_numbered, read_outcome, read_pid, read_u8, read_u32, read_waits,
};
use charlotte_calls::{Bytes, Call, Cause, EndId, Ends, Outcome, Pid, Way};
use charlotte_text::{
    Fault, cut, end_of_line, most_ends, next_word, read_bytes, read_call, read_end, read_ends,
    read_way,
};
use std::marker::Model;

/// The words of a line that are not read yet. Contracts see them as a list.
#[derive(Debug, Drop)]
pub(crate) struct Words<'a> {
    rest: Option<&'a [u8]>,
}

impl<'a> Model for Words<'a> {
    ghost use Rattle.std.specs.Prelude.{ℕ, List, option_copied};
    ghost use Rattle.charlotte_text.specs.Reading.{rest_parts};
    ghost use Rattle.charlotte_text.specs.Spelling.{blank};

    ghost Value = { List (List ℕ) };

    ghost view = { λ w. rest_parts blank (option_copied w.rest) };
}

impl<'a> Words<'a> {
    /// All words of a line.
    pub(crate) fn of(line: &'a [u8]) -> Words<'a>
        ensures { result ≡ words line.now }
    {
        Words { rest: Some(line) }
    }

    /// The next word. `Form` where none is left.
    pub(crate) fn next(&mut self) -> Result<&'a [u8], Fault>
        ensures { MatchResult result (λ w. part_at self.old ≡ Ok (w.now, self.new)) (λ e. part_at self.old ≡ Err e) }
    {
        let (word, rest) = next_word(self.rest)?;
        self.rest = rest;
        Ok(word)
    }

    /// The next word, if one is left.
    pub(crate) fn pop(&mut self) -> Option<&'a [u8]>
        ensures { MatchOption result (self.old ≡ []) (λ w. self.old ≡ w.now ∷ self.new) }
    {
        let line = self.rest?;
        let (word, rest) = cut(b' ', line);
        self.rest = rest;
        Some(word)
    }

    /// No word is left, or the line has another form.
    pub(crate) fn finish(self) -> Result<(), Fault>
        ensures { Gives (λ _. tt) result (ended self.entry) }
    {
        end_of_line(self.rest)
    }

    /// The next word, a number of 8 bits.
    pub(crate) fn u8(&mut self) -> Result<u8, Fault>
        ensures { Takes (first_of u8_of self.old) result self.new }
    {
        let word = self.next()?;
        Ok(read_u8(word)?)
    }

    /// The next word, a number of 32 bits.
    pub(crate) fn u32(&mut self) -> Result<u32, Fault>
        ensures { Takes (first_of u32_of self.old) result self.new }
    {
        let word = self.next()?;
        Ok(read_u32(word)?)
    }

    /// The next word, the number of a process.
    pub(crate) fn numbered(&mut self) -> Result<Pid, Fault>
        ensures { Takes (first_of numbered_of self.old) result self.new }
    {
        let word = self.next()?;
        Ok(read_numbered(word)?)
    }

    /// The next word, a process.
    pub(crate) fn pid(&mut self) -> Result<Pid, Fault>
        ensures { Takes (first_of pid_of self.old) result self.new }
    {
        let word = self.next()?;
        Ok(read_pid(word)?)
    }

    /// The next word, a kernel.
    pub(crate) fn kernel(&mut self) -> Result<u8, Fault>
        ensures { Takes (first_of kernel_of self.old) result self.new }
    {
        let word = self.next()?;
        Ok(read_kernel(word)?)
    }

    /// The next word, an end.
    pub(crate) fn end(&mut self) -> Result<EndId, Fault>
        ensures { Takes (first_of end_of self.old) result self.new }
    {
        let word = self.next()?;
        Ok(read_end(word)?)
    }

    /// The next word, a string of bytes.
    pub(crate) fn bytes(&mut self) -> Result<Bytes, Fault>
        ensures { Takes (first_of bytes_of self.old) result self.new }
    {
        let word = self.next()?;
        Ok(read_bytes(word)?)
    }

    /// The next word, a direction.
    pub(crate) fn way(&mut self) -> Result<Way, Fault>
        ensures { Takes (first_of way_of self.old) result self.new }
    {
        let word = self.next()?;
        Ok(read_way(word)?)
    }

    /// The next word, how an activity was over.
    pub(crate) fn outcome(&mut self) -> Result<Outcome, Fault>
        ensures { Takes (first_of outcome_of self.old) result self.new }
    {
        let word = self.next()?;
        Ok(read_outcome(word)?)
    }

    /// The next word, a cause of refusal.
    pub(crate) fn cause(&mut self) -> Result<Cause, Fault>
        ensures { Takes (first_of cause_of self.old) result self.new }
    {
        let word = self.next()?;
        Ok(read_cause(word)?)
    }

    /// The next word, whether a process was waiting.
    pub(crate) fn waits(&mut self) -> Result<bool, Fault>
        ensures { Takes (first_of waits_of self.old) result self.new }
    {
        let word = self.next()?;
        Ok(read_waits(word)?)
    }

    /// All words that are left, the ends of a message of a version.
    pub(crate) fn ends(self, version: u8) -> Result<Ends, Fault>
        ensures { result ≡ ends_of (most_ends version) self.entry }
    {
        read_ends(self.rest, most_ends(version))
    }

    /// All words that are left, a call.
    pub(crate) fn call(self, version: u8) -> Result<Call, Fault>
        ensures { result ≡ call_of version self.entry }
    {
        read_call(self.rest, version)
    }
}
