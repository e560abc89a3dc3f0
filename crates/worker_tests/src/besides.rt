//! What runs beside the workers.
ghost use Rattle.std.specs.Prelude.{◌≡◌, true};
ghost use Rattle.std.proofs.Common.{◌∙◌, refl};

use crate::nodes::{Nodes, Started, holds, start};
use crate::runs::{AMPLE, PRINTS};
use charlotte_calls::NoMemory;
use kernel_worker::{Beside, Crew, NoGate, WithEnd, run_nodes_with};
use std::test::Fail;

/// Counts rounds, and may stop the run after the first.
#[derive(Drop)]
struct Count {
    stops: bool,
    rounds: u32,
}

impl Beside for Count {
    ghost follows = { λ x y. x.stops ≡ y.stops };

    ghost stopped = { λ x. x.stops ≡ true };

    fn round(&mut self, _crew: &Crew) -> Result<bool, NoMemory> {
        self.rounds = self.rounds.saturating_add(1);
        Ok(!self.stops)
    }

    ghost itself = { λ x. refl };

    ghost chains = { λ x y z a b. a ∙ b };
}

/// How many events the nodes made.
fn events(nodes: &Nodes) -> u32 {
    let mut events = 0u32;
    for node in nodes {
        events = events.saturating_add(node.journal().len());
    }
    events
}

/// A run of one round, in which two programs print twice.
#[test]
fn a_run_is_stopped(rt: HostRuntime) -> Result<(), Fail> {
    for (stops, end) in [(true, WithEnd::Stopped), (false, WithEnd::Quiet)] {
        let Started { nodes, .. } = start(rt.alloc(), AMPLE, PRINTS)?;
        let mut nodes = nodes;
        let mut count = Count { stops, rounds: 0 };
        let ended = run_nodes_with(&rt, &mut nodes, &NoGate, &mut count)?;
        holds(ended == end, "how it ended")?;
        holds(count.rounds == 1, "one round")?;
        holds(events(&nodes) == 4, "all events")?;
    }
    Ok(())
}
