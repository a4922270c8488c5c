// Counts that stay at their last value.

ghost use Rattle.std.specs.Prelude.{◌≡◌};
ghost use Rattle.hp_outside.specs.Counts.{counted};

/// One more, or the last value.
pub(crate) fn counted(count: u64) -> u64
    ensures { result ≡ counted count }
{
    count.saturating_add(1)
}
