//! What proofs alone see of a step.
ghost use Rattle.std.specs.Prelude.{◌≡◌};
ghost use base.Fml.{ftrue};
ghost use Rattle.charlotte_calls.specs.declared.program.Next.{Next};
ghost use Rattle.lynx_rt.specs.CodedNext.{coded_next};

use charlotte_calls::Next;
use std::marker::Model;

/// What proofs see of a step of a program. It takes no memory.
#[derive(Drop)]
pub(crate) struct NextSeen {
    pub(crate) ghost next: { Next } by { coded_next },
}

impl Model for NextSeen {
    ghost also_owns = { λ _. ftrue };
}

impl NextSeen {
    /// What proofs see of this step.
    #[inline(always)]
    pub(crate) fn of(_next: &Next) -> NextSeen
        ensures { result.next ≡ _next.now }
    {
        NextSeen {}
    }
}
