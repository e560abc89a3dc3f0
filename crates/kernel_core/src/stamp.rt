ghost use Rattle.std.specs.Prelude.{◌≡◌, max, IfOk, OnErr};
ghost use Rattle.kernel_step.specs.Kernel.{next_stamp};

use charlotte_calls::NoMemory;
use charlotte_packets::Effect;

/// The stamp of the event after one with this stamp. The greatest stamp is followed by itself.
pub(crate) fn stamp_after(stamp: u64) -> u64
    ensures { result ≡ next_stamp stamp }
{
    stamp.saturating_add(1)
}

/// The greater of two stamps.
pub(crate) fn greater(first: u64, second: u64) -> u64
    ensures { result ≡ max first second }
{
    if first < second { second } else { first }
}

/// The stamp of a kernel after an event; where the event did not happen, as before.
pub(crate) fn stamp_with(happened: &Result<Effect, NoMemory>, before: u64) -> u64
    ensures happened { IfOk happened.now (λ effect. result ≡ effect.stamp) }
    ensures kept { OnErr happened.now (result ≡ before) }
{
    match happened {
        Ok(effect) => effect.stamp,
        Err(NoMemory) => before,
    }
}
