ghost use Rattle.std.specs.Prelude.{◌≡◌, ◌≤◌, IfOk, List, length, map};
ghost use Rattle.kernel_entries.specs.Order.{IsMerge};
ghost use Rattle.kernel_entries.specs.declared.entry.Placed.{Placed as APlaced};
ghost use Rattle.written_journal.specs.Given.{all_of};
ghost use Rattle.written_journal.specs.Merging.{journals_of};

use crate::WrittenJournal;
use crate::merging::order_of;
use crate::order::Order;
use crate::reader::Reader;
use crate::stored::Stored;
use charlotte_calls::NoMemory;
use std::alloc::Global;
use std::marker::Model;

/// The entries of a run in the order of its transcript, as their text. Contracts see them as a list.
#[derive(Drop)]
pub struct Merged {
    pub(crate) readers: Vec<Reader>,
    pub(crate) order: Order,
}

impl Model for Merged {
    ghost use Rattle.std.specs.Prelude.{List};
    ghost use Rattle.kernel_entries.specs.declared.entry.Placed.{Placed};
    ghost use Rattle.kernel_entries.specs.declared.entry.Placed.{Placed as APlaced};
    ghost use Rattle.written_journal.specs.Given.{AreAll};

    ghost Value = { List Placed };

    ghost view = { λ m. m.order };

    ghost invariant = { λ m. AreAll m.readers.items m.order };
}

impl Merged {
    /// The merge of at most eight journals, one for each kernel in order.
    pub fn of_journals(alloc: Global, journals: Vec<WrittenJournal>) -> Result<Merged, NoMemory>
        requires { length journals.items ≤ 8 }
        ensures merge { IfOk result (IsMerge (journals_of journals.items)) }
        ensures only { IfOk result (λ merged. (ps : List APlaced) → IsMerge (journals_of journals.items) ps → ps ≡ merged) }
    {
        let stored = stored_of(alloc, journals)?;
        let order = order_of(alloc, &stored)?;
        let readers = readers_of(alloc, stored)?;
        Ok(Merged { readers, order })
    }
}

/// The same journals, all of whose entries are stored as text.
fn stored_of(alloc: Global, journals: Vec<WrittenJournal>) -> Result<Vec<Stored>, NoMemory>
    ensures { IfOk result (λ stored. stored.items ≡ journals.items) }
{
    let mut stored = Vec::with_capacity(alloc, journals.len())?;
    for journal in journals {
        stored.push(journal.into_stored()?)?;
    }
    Ok(stored)
}

/// A reader of each journal.
fn readers_of(alloc: Global, journals: Vec<Stored>) -> Result<Vec<Reader>, NoMemory>
    ensures { IfOk result (λ readers. readers.items ≡ map all_of journals.items) }
{
    let mut readers = Vec::with_capacity(alloc, journals.len())?;
    for journal in journals {
        readers.push(Reader::of(journal))?;
    }
    Ok(readers)
}
