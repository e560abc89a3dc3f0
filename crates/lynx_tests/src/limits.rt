//! Names, texts, rows and exceptions, and what each test uses in place of an assertion.

use lynx_lexer::{Ident, TextLit};
use lynx_types::{Exception, Row16, ShortText};
use std::test::Fail;

/// Fails the test, and tells what was looked at, unless this holds.
pub(crate) fn holds(is_so: bool, what: &str) -> Result<(), Fail> {
    if is_so { Ok(()) } else { Err(what.into()) }
}

/// What was kept of so many items has their number, or nothing was kept where that is not allowed.
fn keeps(kept: Option<usize>, length: usize, allowed: bool) -> Result<(), Fail> {
    holds(kept == allowed.then_some(length), "what a list keeps")
}

/// Names have 1 to 32 bytes.
fn name_keeps(length: usize) -> Result<(), Fail> {
    let name = Ident::from_slice(&[b'x'; 33][..length.min(33)]);
    let kept = name.map(|name| name.as_slice().len());
    keeps(kept, length, (1..=32).contains(&length))
}

/// Texts have at most 64 bytes.
fn text_keeps(length: usize) -> Result<(), Fail> {
    let text = TextLit::from_slice(&[b'x'; 65][..length.min(65)]);
    let kept = text.map(|text| text.as_slice().len());
    keeps(kept, length, length <= 64)
}

fn short_text_keeps(length: usize) -> Result<(), Fail> {
    let text = ShortText::from_slice(&[b'x'; 65][..length.min(65)]);
    let kept = text.map(|text| text.copy().as_slice().len());
    keeps(kept, length, length <= 64)
}

/// Rows have 1 to 16 numbers.
fn row_keeps(length: usize) -> Result<(), Fail> {
    let row = Row16::from_slice(&[-7_i64; 17][..length.min(17)]);
    let kept = row.map(|row| row.copy().as_slice().len());
    keeps(kept, length, (1..=16).contains(&length))
}

#[test]
fn lists_keep_their_limits() -> Result<(), Fail> {
    for length in [0, 1, 32, 33] {
        name_keeps(length)?;
    }
    for length in [0, 1, 64, 65] {
        text_keeps(length)?;
        short_text_keeps(length)?;
    }
    for length in [0, 1, 16, 17] {
        row_keeps(length)?;
    }
    Ok(())
}

const EXCEPTIONS: [&str; 9] = [
    "BUSYLINK",
    "DEADLINK",
    "NOLINK",
    "DIVIDE",
    "OVERFLOW",
    "RANGE",
    "FAILED",
    "REPLIED",
    "LINKSFULL",
];

fn is_spelled(name: &str) -> Result<(), Fail> {
    let spelled = Exception::from_slice(name.as_bytes()).map(|exception| exception.as_slice());
    holds(spelled == Some(name.as_bytes()), name)
}

#[test]
fn exceptions_are_spelled() -> Result<(), Fail> {
    for name in EXCEPTIONS {
        is_spelled(name)?;
    }
    for name in ["range", "RANGES"] {
        holds(Exception::from_slice(name.as_bytes()) == None, name)?;
    }
    Ok(())
}
