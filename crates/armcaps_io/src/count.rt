//! Counts of 64 bits that never fall.

ghost use Rattle.std.specs.Prelude.{◌≡◌};
ghost use Rattle.armcaps_io.specs.Causes.{raised};

// One more, or the largest number again.
pub(crate) fn raise(count: u64) -> u64
    ensures { result ≡ raised count }
{
    count.saturating_add(1)
}
