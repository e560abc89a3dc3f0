ghost use Rattle.std.specs.Prelude.{◌≡◌};
ghost use Rattle.program_round.specs.Doings.{can_go_on, doing_after};

use charlotte_calls::Next;

/// What a program is doing, as its node knows without a look into the kernel.
#[derive(Clone, Copy, Debug)]
pub enum Doing {
    /// It made no step yet.
    Begins,
    /// It asked, and the answer stands that it was not lent yet.
    Answered,
    /// It asked, and no answer stands.
    Pending,
    /// It paused.
    Paused,
    /// It has ended.
    Ended,
}

impl Doing {
    /// Whether the program can make a step.
    pub fn can_go_on(self) -> bool
        ensures { result ≡ can_go_on self }
    {
        match self {
            Doing::Begins | Doing::Answered | Doing::Paused => true,
            Doing::Pending | Doing::Ended => false,
        }
    }

    /// Of a program that made this step, where no answer stands yet.
    pub fn after(step: &Next) -> Doing
        ensures { result ≡ doing_after step.now }
    {
        match step {
            Next::Ask(_) => Doing::Pending,
            Next::Pause => Doing::Paused,
            Next::Ended => Doing::Ended,
        }
    }
}
