//! The fields of an end's value, one after the other.
ghost use Rattle.std.specs.Prelude.{◌≡◌, Ok, Err, MatchResult};
ghost use Rattle.charlotte_text.specs.Reading.{Gives, parts, part_at, ended, end_of};
ghost use Rattle.charlotte_text.specs.Spelling.{colon};
ghost use Rattle.transcript_forms.specs.Cursor.{Takes};
ghost use Rattle.transcript_reading.specs.Forms.{first_of, u8_of, u32_of, bit_of};

use crate::word::{read_bit, read_u8, read_u32};
use charlotte_calls::EndId;
use charlotte_text::{Fault, end_of_parts, next_part, read_end};
use std::marker::Model;

/// What colons separate and is not read yet. Contracts see it as a list.
#[derive(Debug, Drop)]
pub(crate) struct Fields<'a> {
    rest: Option<&'a [u8]>,
}

impl<'a> Model for Fields<'a> {
    ghost use Rattle.std.specs.Prelude.{ℕ, List, option_copied};
    ghost use Rattle.charlotte_text.specs.Reading.{rest_parts};
    ghost use Rattle.charlotte_text.specs.Spelling.{colon};

    ghost Value = { List (List ℕ) };

    ghost view = { λ f. rest_parts colon (option_copied f.rest) };
}

impl<'a> Fields<'a> {
    /// All fields of a word.
    pub(crate) fn of(word: &'a [u8]) -> Fields<'a>
        ensures { result ≡ parts colon word.now }
    {
        Fields { rest: Some(word) }
    }

    /// The next field. `Form` where none is left.
    fn next(&mut self) -> Result<&'a [u8], Fault>
        ensures { MatchResult result (λ w. part_at self.old ≡ Ok (w.now, self.new)) (λ e. part_at self.old ≡ Err e) }
    {
        let (field, rest) = next_part(b':', self.rest)?;
        self.rest = rest;
        Ok(field)
    }

    /// No field is left, or the value has another form.
    pub(crate) fn finish(self) -> Result<(), Fault>
        ensures { Gives (λ _. tt) result (ended self.entry) }
    {
        end_of_parts(b':', self.rest)
    }

    /// The next field, an end.
    pub(crate) fn end(&mut self) -> Result<EndId, Fault>
        ensures { Takes (first_of end_of self.old) result self.new }
    {
        let word = self.next()?;
        Ok(read_end(word)?)
    }

    /// The next field, a number of 8 bits.
    pub(crate) fn u8(&mut self) -> Result<u8, Fault>
        ensures { Takes (first_of u8_of self.old) result self.new }
    {
        let word = self.next()?;
        Ok(read_u8(word)?)
    }

    /// The next field, a number of 32 bits.
    pub(crate) fn u32(&mut self) -> Result<u32, Fault>
        ensures { Takes (first_of u32_of self.old) result self.new }
    {
        let word = self.next()?;
        Ok(read_u32(word)?)
    }

    /// The next field, 1 for yes and 0 for no.
    pub(crate) fn bit(&mut self) -> Result<bool, Fault>
        ensures { Takes (first_of bit_of self.old) result self.new }
    {
        let word = self.next()?;
        Ok(read_bit(word)?)
    }
}
