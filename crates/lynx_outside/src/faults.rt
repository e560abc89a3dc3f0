// Counts that stand still at the greatest u64.
ghost use Rattle.std.specs.Prelude.{◌≡◌};
ghost use Rattle.lynx_outside.specs.Faults.{next_count};

// One more, up to the greatest u64.
pub fn raised(count: u64) -> u64
    ensures { result ≡ next_count count }
{
    count.saturating_add(1)
}
