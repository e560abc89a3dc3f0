ghost use Rattle.std.specs.Prelude.{◌≡◌, ◌==◌, ◌<◌, ◌∷◌, IfSome, length, option_copied};
ghost use Rattle.std.specs.List.{position};
ghost use Rattle.std.specs.Str.{bytes_eq};
ghost use Rattle.charlotte_text.specs.Reading.{Gives, parts, rest_parts, part_at, ended};
ghost use Rattle.charlotte_text.specs.Spelling.{blank};

use crate::fault::Fault;

/// The first part of a text that each place of a byte cuts into parts, and what stands behind that place, if it has one.
pub fn cut(separator: u8, text: &[u8]) -> (&[u8], Option<&[u8]>)
    ensures { parts separator text.now ≡ result.0.now ∷ rest_parts separator (option_copied result.1) }
{
    match first_at(separator, text) {
        None => (text, None),
        Some(at) => (&text[..at], Some(&text[at + 1..])),
    }
}

fn first_at(separator: u8, text: &[u8]) -> Option<usize>
    ensures exact { result ≡ position (λ b. b == separator) text.now }
    ensures within { IfSome result (λ at. at < length text.now) }
{
    text.iter().position(|byte| *byte == separator)
}

/// The next part of a text that a byte cuts into parts and of which this is left, and what is then left. `Form` where no part is left.
pub fn next_part(separator: u8, rest: Option<&[u8]>) -> Result<(&[u8], Option<&[u8]>), Fault>
    ensures { Gives (λ x. (x.0.now, rest_parts separator (option_copied x.1))) result (part_at (rest_parts separator (option_copied rest.entry))) }
{
    let text = rest.ok_or(Fault::Form)?;
    Ok(cut(separator, text))
}

/// The next word of a line of which this is left, and what is then left. `Form` where no word is left.
pub fn next_word(rest: Option<&[u8]>) -> Result<(&[u8], Option<&[u8]>), Fault>
    ensures { Gives (λ x. (x.0.now, rest_parts blank (option_copied x.1))) result (part_at (rest_parts blank (option_copied rest.entry))) }
{
    next_part(b' ', rest)
}

/// Whether a word is this one.
#[inline(always)]
pub fn is_word<const N: usize>(word: &[u8], this: &[u8; N]) -> bool
    ensures { result ≡ bytes_eq word.now this.now }
{
    word == this.as_slice()
}

/// Nothing is left of a line. `Form` where a word is left.
pub fn end_of_line(rest: Option<&[u8]>) -> Result<(), Fault>
    ensures { Gives (λ _. tt) result (ended (rest_parts blank (option_copied rest.entry))) }
{
    end_of_parts(b' ', rest)
}

/// Nothing is left of a text that a byte cuts into parts. `Form` where a part is left.
#[tactic(auto, using(crate::proofs::Parts::ended_rest))]
pub fn end_of_parts(separator: u8, rest: Option<&[u8]>) -> Result<(), Fault>
    ensures { Gives (λ _. tt) result (ended (rest_parts separator (option_copied rest.entry))) }
{
    match rest {
        None => Ok(()),
        Some(_) => Err(Fault::Form),
    }
}
