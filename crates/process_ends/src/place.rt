//! An end that a process got.

ghost use Rattle.std.specs.Prelude.{◌≡◌, option_copied, option_map};
ghost use Rattle.process_run.specs.Ends.{coming_to};
ghost use Rattle.process_run.specs.Runs.{is_in_use};
ghost use Rattle.process_run.specs.States.{Keeps};
ghost use Rattle.process_ends.specs.Ends.{kept_by, owns_by, used_by};
ghost use Rattle.process_ends.specs.Seen.{seen};

use charlotte_calls::EndId;
use end_protocol::{Kept, Sending};
use std::marker::Model;
use std::mem;

/// Whether a process holds an end.
#[derive(Drop)]
pub(crate) enum Holding {
    /// It does, and keeps this for it.
    Keeps(Box<Kept>),
    /// It does not: whether a send was started, when it was destroyed, whose ends were the process's own.
    Gone(bool),
}

/// An end that a process got, and whether it holds it.
#[derive(Drop)]
pub(crate) struct Place {
    end: EndId,
    holding: Holding,
}

impl Model for Place {
    ghost use Rattle.process_run.specs.States.{Place as Seen};
    ghost use Rattle.process_ends.specs.Seen.{seen};

    ghost Value = { Seen };

    ghost view = { λ p. record { end = p.end; holding = seen p.holding } };
}

impl Holding {
    /// What is kept for the end, where it is held.
    pub(crate) fn into_kept(self) -> Option<Box<Kept>>
        ensures { option_map (λ kept. kept.value) result ≡ kept_by (seen self) }
    {
        match self {
            Holding::Keeps(kept) => Some(kept),
            Holding::Gone(_) => None,
        }
    }

    /// 1 where a request is in part for an entry, 0 elsewhere.
    pub(crate) fn coming(&self) -> usize
        ensures { result ≡ coming_to (seen self.now) }
    {
        match self {
            Holding::Keeps(kept) => usize::from(kept.counts_as_thread()),
            Holding::Gone(_) => 0,
        }
    }

    /// 1 where an entry is bound, or a packet is queued or started, 0 elsewhere.
    pub(crate) fn used(&self) -> usize
        ensures { result ≡ used_by (seen self.now) }
    {
        match self {
            Holding::Keeps(kept) => usize::from(is_in_use(kept)),
            Holding::Gone(_) => 0,
        }
    }
}

/// Whether an entry is bound, or a packet is queued or started.
fn is_in_use(kept: &Kept) -> bool
    ensures { result ≡ is_in_use (Keeps kept.now) }
{
    !kept.bindings.is_empty() || !kept.queue.is_empty() || !matches!(kept.sending, Sending::Idle)
}

impl Place {
    pub(crate) fn new(end: EndId, holding: Holding) -> Place
        ensures end { result.end ≡ end }
        ensures holding { result.holding ≡ seen holding }
    {
        Place { end, holding }
    }

    pub(crate) fn end(&self) -> EndId
        ensures { result ≡ self.now.end }
    {
        self.end
    }

    /// What is kept for the end, where it is held.
    pub(crate) fn kept(&self) -> Option<&Kept>
        ensures { option_copied result ≡ kept_by self.now.holding }
    {
        match &self.holding {
            Holding::Keeps(kept) => Some(kept),
            Holding::Gone(_) => None,
        }
    }

    /// Whether the ends that a report returns were the process's own, where this one is not held.
    pub(crate) fn owns(&self) -> bool
        ensures { result ≡ owns_by self.now.holding }
    {
        match &self.holding {
            Holding::Keeps(_) => false,
            Holding::Gone(own) => *own,
        }
    }

    /// Another holding comes in the stead of this one.
    pub(crate) fn exchange(&mut self, holding: Holding) -> Holding
        ensures end { self.new.end ≡ self.old.end }
        ensures new { self.new.holding ≡ seen holding }
        ensures old { seen result ≡ self.old.holding }
    {
        mem::replace(&mut self.holding, holding)
    }
}
