ghost use Rattle.std.specs.Prelude.{◌≡◌, ◌≤◌, ◌∷◌, ◌++◌, [], All, IfOk, OnOk, length, List};
ghost use Rattle.journal_text.specs.Heads.{first_stamp, IsFirstBelow};
ghost use Rattle.journal_text.specs.Journal.{AreRising, placed_at};
ghost use Rattle.kernel_entries.specs.Order.{IsMerge};
ghost use Rattle.kernel_entries.specs.declared.entry.Entry.{Entry};
ghost use Rattle.written_journal.specs.Merging.{journals_of};

use crate::order::Order;
use crate::stored::Stored;
use charlotte_calls::NoMemory;
use journal_text::{Head, earlier};
use std::alloc::Global;
use std::marker::Model;

/// The events of a kernel that are not placed yet. Contracts see their entries.
#[derive(Drop)]
pub(crate) struct Queue<'a> {
    journal: &'a Stored,
    /// How many events are placed.
    placed: usize,
    /// The stamp of the next.
    stamp: Option<u64>,
}

impl<'a> Model for Queue<'a> {
    ghost use Rattle.std.specs.Prelude.{List, drop};
    ghost use Rattle.kernel_entries.specs.declared.entry.Entry.{Entry};
    ghost use Rattle.written_journal.specs.Merging.{IsQueue};

    ghost Value = { List Entry };

    ghost view = { λ q. drop q.placed q.journal.now.entries };

    ghost invariant = { λ q. IsQueue q.journal.now.entries q.placed q.stamp };
}

impl<'a> Queue<'a> {
    /// All events of a journal.
    fn of(journal: &'a Stored) -> Queue<'a>
        ensures same { result ≡ journal.now.entries }
        ensures rising { AreRising journal.now.entries }
    {
        Queue {
            journal,
            placed: 0,
            stamp: journal.stamp(0),
        }
    }

    /// The stamp of the first event.
    fn stamp(&self) -> Option<u64>
        ensures { result ≡ first_stamp self.now }
    {
        self.stamp
    }

    /// Places the first event, which is one of this kernel, behind those of an order.
    fn place_first(&mut self, kernel: u8, order: &mut Order) -> Result<(), NoMemory>
        requires { (e : Entry) × (es : List Entry) × (self.old ≡ e ∷ es) }
        ensures { OnOk result ((e : Entry) (es : List Entry) → self.old ≡ e ∷ es → (self.new ≡ es) × (order.new ≡ order.old ++ placed_at kernel e ∷ [])) }
    {
        order.push(kernel, self.journal, self.placed)?;
        self.placed += 1;
        self.stamp = self.journal.stamp(self.placed);
        Ok(())
    }
}

/// The order of the events of at most eight journals, one for each kernel in order: by stamp and kernel.
pub(crate) fn order_of(alloc: Global, journals: &[Stored]) -> Result<Order, NoMemory>
    requires { length journals.now ≤ 8 }
    ensures { IfOk result (IsMerge (journals_of journals.now)) }
{
    let mut order = Order::with_room(alloc, events_in(journals))?;
    let mut queues = queues_of(alloc, journals)?;
    while let Some(head) = first_head(&queues) {
        queues[head.kernel].place_first(head.kernel as u8, &mut order)?;
    }
    Ok(order)
}

/// How many events the journals have together.
fn events_in(journals: &[Stored]) -> usize {
    let mut events = 0usize;
    for journal in journals {
        events = events.saturating_add(journal.written.events.len());
    }
    events
}

/// The events of each kernel.
fn queues_of<'a>(alloc: Global, journals: &'a [Stored]) -> Result<Vec<Queue<'a>>, NoMemory>
    ensures same { IfOk result (λ queues. queues.items ≡ journals_of journals.now) }
    ensures rising { IfOk result (λ queues. All AreRising queues.items) }
{
    let mut queues = Vec::with_capacity(alloc, journals.len())?;
    for journal in journals {
        queues.push(Queue::of(journal))?;
    }
    Ok(queues)
}

/// The event that stands before all others; `None` where the queues are empty.
fn first_head(queues: &[Queue<'_>]) -> Option<Head>
    ensures { IsFirstBelow queues.now (length queues.now) result }
{
    let mut first = None;
    for (kernel, queue) in queues.iter().enumerate() {
        first = earlier(first, kernel, queue.stamp());
    }
    first
}
