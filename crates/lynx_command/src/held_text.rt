//! Texts that are held as their bytes.
ghost use Rattle.std.specs.Prelude.{◌≡◌, ◌==◌, ◌<◌, ◌≤◌, ◌∷◌, IfOk, IfSome, drop, length, take};
ghost use Rattle.std.specs.List.{position};
ghost use Rattle.lynx_command.specs.Text.{IsNextLine, lines_of};

use crate::text::Text;
use charlotte_calls::NoMemory;
use std::marker::Model;

/// A text that is held, of whose bytes so many were given already.
#[derive(Drop)]
pub struct HeldText {
    bytes: Vec<u8>,
    given: usize,
}

impl Model for HeldText {
    ghost use Rattle.std.specs.Prelude.{ℕ, List, ◌≤◌, drop, length};
    ghost use Rattle.lynx_command.specs.Text.{lines_of};

    ghost Value = { List (List ℕ) };

    ghost view = { λ t. lines_of (drop t.given t.bytes.items) };

    ghost invariant = { λ t. t.given ≤ length t.bytes.items };
}

impl HeldText {
    /// The text of these bytes.
    pub fn of(bytes: Vec<u8>) -> HeldText
        ensures { result ≡ lines_of bytes.items }
    {
        HeldText { bytes, given: 0 }
    }
}

impl Text for HeldText {
    ghost lines_left = { λ t. t };

    fn next_line(&mut self, line: &mut Vec<u8>) -> Result<bool, NoMemory>
        ensures { IfOk result (λ more. IsNextLine more self.old self.new line.new.items) }
    {
        let left = &self.bytes[self.given..];
        if left.is_empty() {
            return Ok(false);
        }
        let end = end_of_line(left);
        line.clear();
        line.extend_from_slice(&left[..end])?;
        self.given += end;
        Ok(true)
    }
}

// Where the first line of a text ends: behind its line feed, or at the end of the text.
fn end_of_line(text: &[u8]) -> usize
    requires { 0 < length text.now }
    ensures within { result ≤ length text.now }
    ensures line { lines_of text.now ≡ take result text.now ∷ lines_of (drop result text.now) }
{
    match first_line_feed(text) {
        Some(at) => at + 1,
        None => text.len(),
    }
}

fn first_line_feed(text: &[u8]) -> Option<usize>
    ensures exact { result ≡ position (λ b. b == 10) text.now }
    ensures within { IfSome result (λ at. at < length text.now) }
{
    text.iter().position(|byte| *byte == b'\n')
}
