//! A line of a text, as it stands.
ghost use Rattle.std.specs.Prelude.{◌≡◌, ◌++◌, IfOk, OnOk, drop, option_copied};
ghost use Rattle.charlotte_text.specs.Reading.{rest_parts};
ghost use Rattle.charlotte_text.specs.Spelling.{line_feed};
ghost use Rattle.transcript_lines.specs.Transcript.{line};
ghost use Rattle.transcript_shown.specs.Standing.{first_line, first_text, line_at, standing_text};

use crate::shown::push_shown;
use charlotte_calls::NoMemory;
use charlotte_text::{cut, push_number};
use std::alloc::Global;
use std::marker::Model;

/// The text of a line, without its line feed.
#[derive(Drop)]
pub struct Standing<'a> {
    pub text: &'a [u8],
    /// Whether a line feed ends it, and not the text of the file.
    pub ended: bool,
}

impl<'a> Model for Standing<'a> {
    ghost use Rattle.transcript_shown.specs.Standing.{Line};

    ghost Value = { Line };

    ghost view = { λ s. record { text = s.text.now; ended = s.ended } };
}

/// The line of a number, from 1; nothing stands there where the text has fewer.
pub fn line_at(bytes: &[u8], number: u32) -> Standing<'_>
    ensures { result ≡ line_at bytes.now number }
{
    let mut rest = Some(bytes);
    for _ in 0..number.saturating_sub(1) {
        rest = behind(rest);
    }
    first(rest)
}

/// What stands behind the first line.
fn behind(rest: Option<&[u8]>) -> Option<&[u8]>
    ensures { rest_parts line_feed (option_copied result) ≡ drop 1 (rest_parts line_feed (option_copied rest.entry)) }
{
    let (_, others) = cut(b'\n', rest?);
    others
}

/// The first line.
fn first(rest: Option<&[u8]>) -> Standing<'_>
    ensures { result ≡ first_line (rest_parts line_feed (option_copied rest.entry)) }
{
    let Some(rest) = rest else {
        return Standing {
            text: &[],
            ended: false,
        };
    };
    let (text, others) = cut(b'\n', rest);
    match others {
        Some(_) => Standing { text, ended: true },
        None => Standing { text, ended: false },
    }
}

/// The line that shows the line of a number.
pub fn standing_line(alloc: Global, bytes: &[u8], number: u32) -> Result<Vec<u8>, NoMemory>
    ensures { IfOk result (λ l. l.items ≡ line (first_text bytes.now number)) }
{
    let mut out = b"line ".to_vec(alloc)?;
    push_number(&mut out, u64::from(number))?;
    out.extend_from_slice(b": ")?;
    push_standing(&mut out, line_at(bytes, number))?;
    out.push(b'\n')?;
    Ok(out)
}

fn push_standing(out: &mut Vec<u8>, standing: Standing) -> Result<(), NoMemory>
    ensures { OnOk result (out.new.items ≡ out.old.items ++ standing_text standing.entry) }
{
    push_shown(out, standing.text)?;
    if !standing.ended {
        out.extend_from_slice(b"\\end")?;
    }
    Ok(())
}
