//! Counts of calls and of faults.

ghost use Rattle.std.specs.Prelude.{◌≡◌};
ghost use Rattle.zb_base.specs.Counts as counts;

/// A count with one more. It goes from 0 to 2^64-1, where it stays.
pub fn one_more(count: u64) -> u64
    ensures { result ≡ counts.one_more count }
{
    count.saturating_add(1)
}
