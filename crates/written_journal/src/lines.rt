ghost use Rattle.std.specs.Prelude.{◌≡◌, [], IfOk, List, OnErr};
ghost use Rattle.std.specs.List.{flat_map};
ghost use Rattle.transcript_lines.specs.Transcript.{entry_lines};
ghost use Rattle.kernel_entries.specs.declared.entry.Placed.{Placed};
ghost use Rattle.written_journal.specs.Given.{AreLeft, rest_at};
ghost use Rattle.written_journal.specs.Left.{GivesFirst};

use crate::Merged;
use crate::order::Order;
use crate::reader::Reader;
use charlotte_calls::NoMemory;
use std::marker::Model;

/// The lines of merged entries that are not given yet. Contracts see them as a list.
#[derive(Drop)]
pub(crate) struct MergedLines {
    readers: Vec<Reader>,
    /// The kernel of the last entry whose first line is given.
    kernel: u8,
    /// The entries behind it.
    order: Order,
}

impl Model for MergedLines {
    ghost use Rattle.std.specs.Prelude.{ℕ, List, ◌++◌};
    ghost use Rattle.std.specs.List.{flat_map};
    ghost use Rattle.transcript_lines.specs.Transcript.{entry_lines};
    ghost use Rattle.written_journal.specs.Given.{AreLeft, rest_at};

    ghost Value = { List (List ℕ) };

    ghost view = { λ m. (rest_at m.readers.items m.kernel).lines ++ flat_map entry_lines m.order };

    ghost invariant = { λ m. AreLeft m.readers.items m.kernel m.order };
}

impl MergedLines {
    /// All lines of merged entries.
    pub(crate) fn of(merged: Merged) -> MergedLines
        ensures { result ≡ flat_map entry_lines merged }
    {
        let Merged { readers, order } = merged;
        MergedLines {
            readers,
            kernel: 0,
            order,
        }
    }

    /// Appends the next line, if one is left.
    pub(crate) fn next_line(&mut self, out: &mut Vec<u8>) -> Result<bool, NoMemory>
        requires { out.old.items ≡ [] }
        ensures given { IfOk result (λ some. GivesFirst some self.old self.new out.new.items) }
        ensures same { OnErr result (self.new ≡ self.old) }
    {
        if step_line(&mut self.readers, self.kernel, out)? {
            return Ok(true);
        }
        let Some(kernel) = self.order.first() else {
            return Ok(false);
        };
        self.readers[usize::from(kernel)].first_line(kernel, out)?;
        self.kernel = kernel;
        self.order.pop();
        Ok(true)
    }
}

/// Appends the next line of the event that is begun at this kernel, if one is left.
fn step_line(readers: &mut [Reader], kernel: u8, out: &mut Vec<u8>) -> Result<bool, NoMemory>
    requires { out.old.items ≡ [] }
    ensures given { IfOk result (λ some. GivesFirst some (rest_at readers.old kernel).lines (rest_at readers.new kernel).lines out.new.items) }
    ensures left { (placed : List Placed) → AreLeft readers.old kernel placed → AreLeft readers.new kernel placed }
    ensures same { OnErr result (readers.new ≡ readers.old) }
{
    let place = usize::from(kernel);
    if readers.len() <= place {
        return Ok(false);
    }
    readers[place].step_line(out)
}
