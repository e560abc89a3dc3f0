//! Texts that are held as their lines.
ghost use Rattle.std.specs.Prelude.{◌≡◌, ℕ, List, map, drop, IfOk};
ghost use Rattle.lynx_command.specs.Text.{IsNextLine};

use crate::text::Text;
use charlotte_calls::NoMemory;
use std::collections::VecDeque;
use std::marker::Model;

/// Lines that are held, each with its line feed.
#[derive(Drop)]
pub struct Lines {
    lines: VecDeque<Vec<u8>>,
}

impl Model for Lines {
    ghost Value = { List (List ℕ) };

    ghost view = { λ a. map (λ line. line.items) a.lines.items };
}

impl Lines {
    /// These lines.
    pub fn of(lines: Vec<Vec<u8>>) -> Lines
        ensures { result ≡ map (λ line. line.items) lines.items }
    {
        Lines {
            lines: VecDeque::from(lines),
        }
    }
}

impl Text for Lines {
    ghost lines_left = { λ lines. lines };

    fn next_line(&mut self, line: &mut Vec<u8>) -> Result<bool, NoMemory>
        ensures { IfOk result (λ more. IsNextLine more self.old self.new line.new.items) }
    {
        match self.lines.pop_front() {
            Some(next) => {
                *line = next;
                Ok(true)
            }
            None => Ok(false),
        }
    }
}
