//! The lines of a script that are not done yet.
ghost use Rattle.std.specs.Prelude.{◌≡◌, ◌++◌, [], IfNone, option_to_list};

use charlotte_calls::Items;
use lynx_plan::ScriptLine;
use std::marker::Model;

/// The lines that are not done yet. The memory of those that were is given back as they go, half of it at a time. Contracts see the list.
#[derive(Drop)]
pub(crate) struct Undone {
    /// The last one comes first.
    lines: Vec<ScriptLine>,
}

impl Model for Undone {
    ghost use Rattle.std.specs.Prelude.{List, reverse};
    ghost use Rattle.lynx_plan.specs.declared.script.ScriptLine.{ScriptLine};

    ghost Value = { List ScriptLine };

    ghost view = { λ u. reverse u.lines.items };
}

impl Undone {
    /// All these lines.
    pub(crate) fn of(lines: Items<ScriptLine>) -> Undone
        ensures { result ≡ lines }
    {
        let mut lines = lines.into_vec();
        lines.reverse();
        Undone { lines }
    }

    /// Takes out the next line; none exactly where all are done.
    pub(crate) fn next(&mut self) -> Option<ScriptLine>
        ensures lines { self.old ≡ option_to_list result ++ self.new }
        ensures none { IfNone result (self.new ≡ []) }
    {
        let next = self.lines.pop();
        if self.lines.len() < self.lines.capacity() / 2 {
            self.lines.shrink_to_fit();
        }
        next
    }
}
