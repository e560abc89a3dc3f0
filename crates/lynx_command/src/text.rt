//! Texts that are given line by line.
ghost use Rattle.std.specs.Prelude.{List, ℕ, IfOk};
ghost use Rattle.lynx_command.specs.Text.{IsNextLine};

use charlotte_calls::NoMemory;

/// A text whose lines are given one after the other, so that it need not be held whole.
pub trait Text {
    /// The lines that are still to come, each with its line feed.
    ghost lines_left: { Self → List (List ℕ) };

    /// Puts the next line into the buffer, in place of what stands there, and gives `true`; `false` exactly where no
    /// line is left. After want of memory it is not called again.
    fn next_line(&mut self, line: &mut Vec<u8>) -> Result<bool, NoMemory>
        ensures { IfOk result (λ more. IsNextLine more (lines_left self.old) (lines_left self.new) line.new.items) };
}
