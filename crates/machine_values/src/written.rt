//! What `write` prints.

ghost use Rattle.std.specs.Prelude.{◌≡◌};
ghost use Rattle.lynx_meaning.specs.Values.{written, Int, Truth};

use itoa::Buffer;
use typing_rules::ShortText;

/// A number in decimal digits, with `-` before a negative one.
pub fn written_number(number: i64) -> ShortText
    ensures { result ≡ written (Int number) }
{
    let mut buffer = Buffer::new();
    match ShortText::from_slice(buffer.format(number).as_bytes()) {
        Some(text) => text,
        None => unreachable!(),
    }
}

/// `true` or `false`.
pub fn written_truth(truth: bool) -> ShortText
    ensures { result ≡ written (Truth truth) }
{
    let word: &[u8] = if truth { b"true" } else { b"false" };
    match ShortText::from_slice(word) {
        Some(text) => text,
        None => unreachable!(),
    }
}
