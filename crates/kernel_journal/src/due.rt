//! The service steps that the next lines have to show.
ghost use Rattle.std.specs.Prelude.{◌≡◌, ◌↔◌, ◌∷◌, [], IsTrue, List, MatchOption};
ghost use Rattle.charlotte_calls.specs.declared.calls.ServiceStep.{ServiceStep as AStep};

use charlotte_calls::ServiceStep;
use std::alloc::Global;
use std::marker::Model;

/// The steps of the last event that no line has shown yet, in order. Those that were shown stay in the list, whose room the next event takes.
#[derive(Drop)]
pub(crate) struct Due {
    steps: Vec<ServiceStep>,
    /// How many of them lines have shown.
    shown: usize,
}

impl Model for Due {
    ghost use Rattle.std.specs.Prelude.{List, ◌≤◌, drop, length};
    ghost use Rattle.charlotte_calls.specs.declared.calls.ServiceStep.{ServiceStep};

    ghost Value = { List ServiceStep };

    ghost view = { λ d. drop d.shown d.steps.items };

    ghost invariant = { λ d. d.shown ≤ length d.steps.items };
}

impl Due {
    pub(crate) fn none(alloc: Global) -> Due
        ensures { result ≡ [] }
    {
        Due::of(Vec::new(alloc))
    }

    /// The steps of an event that no line has shown.
    pub(crate) fn of(steps: Vec<ServiceStep>) -> Due
        ensures { result ≡ steps.items }
    {
        Due { steps, shown: 0 }
    }

    /// The room of the list.
    pub(crate) fn into_room(self) -> Vec<ServiceStep> {
        let Due { steps, shown: _ } = self;
        steps
    }

    pub(crate) fn is_empty(&self) -> bool
        ensures { IsTrue result ↔ (self.now ≡ []) }
    {
        self.shown >= self.steps.len()
    }

    /// The first step, lent.
    pub(crate) fn first(&self) -> Option<&ServiceStep>
        ensures { MatchOption result (self.now ≡ []) (λ s. (others : List AStep) × (self.now ≡ s.now ∷ others)) }
    {
        if self.is_empty() {
            return None;
        }
        Some(&self.steps[self.shown])
    }

    /// A line shows the first step.
    pub(crate) fn pass_first(&mut self)
        requires { (s : AStep) × (others : List AStep) × (self.old ≡ s ∷ others) }
        ensures { (s : AStep) (others : List AStep) → self.old ≡ s ∷ others → self.new ≡ others }
    {
        self.shown += 1;
    }
}
