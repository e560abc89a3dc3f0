ghost use Rattle.std.specs.Prelude.{◌≡◌};
ghost use Rattle.history_text.specs.Lines.{is_step};

use crate::name::Name;
use charlotte_calls::{EndId, LinkId, Pid, ServiceStep};

/// A step of a history. It takes some 400 bytes, so it is read into a place that the caller has.
#[derive(Drop)]
pub struct Act {
    /// Where the line says who made the step on an end: that process owned the end.
    pub owner: Option<(Pid, EndId)>,
    pub step: ServiceStep,
}

/// What a line says. Its step is in a place of its own.
#[derive(Drop)]
pub(crate) enum Meaning {
    Version(u8),
    /// The next process and its home.
    Process(Name, Pid, u8),
    /// A link from the start, and the processes of its ends a and b.
    Wire(Name, LinkId, Pid, Pid),
    /// A step by which a link is made.
    Make(Name, LinkId),
    /// Any other step.
    Step,
}

impl Meaning {
    /// Whether the line tells a step.
    pub(crate) fn is_step(&self) -> bool
        ensures { result ≡ is_step self.now }
    {
        matches!(self, Meaning::Make(..) | Meaning::Step)
    }
}
