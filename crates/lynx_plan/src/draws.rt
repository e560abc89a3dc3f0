ghost use Rattle.std.specs.Prelude.{◌≡◌, ◌<◌};

use std::marker::Model;

/// Numbers that are drawn from a seed one after the other, by a linear congruential generator (Knuth, 1997).
#[derive(Drop)]
pub(crate) struct Draws {
    state: u64,
}

impl Model for Draws {
    ghost use Rattle.std.specs.Prelude.{ℕ};

    ghost Value = { ℕ };

    ghost view = { λ d. d.state };
}

impl Draws {
    ghost use Rattle.lynx_plan.specs.Draws.{draw};

    pub(crate) fn new(seed: u32) -> Draws
        ensures { result ≡ seed }
    {
        Draws {
            state: u64::from(seed),
        }
    }

    /// A number below `limit`.
    #[tactic(auto, unfolding(crate::specs::Draws::draw))]
    pub(crate) fn draw(&mut self, limit: u8) -> u8
        requires { 0 < limit }
        ensures exact { draw limit self.old ≡ (result, self.new) }
        ensures small { result < limit }
    {
        self.state = self
            .state
            .wrapping_mul(6_364_136_223_846_793_005)
            .wrapping_add(1_442_695_040_888_963_407);
        (self.state / (1 << 33) % u64::from(limit)) as u8
    }
}
