//! The words of a line.
ghost use Rattle.std.specs.Prelude.{◌≡◌, drop, option_copied, slice_get};
ghost use Rattle.charlotte_text.specs.Reading.{rest_parts};
ghost use Rattle.charlotte_text.specs.Spelling.{blank};
ghost use Rattle.transcript_expected.specs.Texts.{word_in};

use charlotte_text::cut;

/// The word of a line with so many before it.
pub(crate) fn word(line: &[u8], before: usize) -> Option<&[u8]>
    ensures { option_copied result ≡ word_in line.now before }
{
    let mut rest = Some(line);
    for _ in 0..before {
        rest = behind(rest);
    }
    first(rest)
}

/// What stands behind the first word.
fn behind(rest: Option<&[u8]>) -> Option<&[u8]>
    ensures { rest_parts blank (option_copied result) ≡ drop 1 (rest_parts blank (option_copied rest.entry)) }
{
    let (_, others) = cut(b' ', rest?);
    others
}

/// The first word.
fn first(rest: Option<&[u8]>) -> Option<&[u8]>
    ensures { option_copied result ≡ slice_get (rest_parts blank (option_copied rest.entry)) 0 }
{
    let (word, _) = cut(b' ', rest?);
    Some(word)
}
