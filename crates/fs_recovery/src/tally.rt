//! What is known of one transaction among the numbers of a list.

ghost use Rattle.std.specs.Prelude.{◌≡◌, ◌+◌, ◌<◌, ◌^◌, IfSome, IsSome};
ghost use Rattle.fs_recovery.specs.Numbers.{tally_of};

/// How many changes the transactions up to one have, and whether a pack has gone over that one.
#[derive(Clone, Copy, Debug, PartialEq, Eq)]
pub struct Tally {
    /// The number of changes.
    pub changes: u64,
    /// Whether a pack has gone over that transaction.
    pub packed: bool,
}

/// What a kept number has more where a pack has gone over the transaction: its highest bit.
const PACKED: u64 = 1 << 63;

/// The tally that a number keeps.
#[tactic(auto, unfolding(crate::specs::Numbers::tally_of))]
pub(crate) fn tally_in(kept: u64) -> Tally
    ensures { result ≡ tally_of kept }
{
    if kept < PACKED {
        return Tally {
            changes: kept,
            packed: false,
        };
    }
    Tally {
        changes: kept - PACKED,
        packed: true,
    }
}

/// The number that keeps a tally.
#[tactic(auto, unfolding(crate::specs::Numbers::tally_of))]
pub(crate) fn kept_for(changes: u64, packed: bool) -> u64
    requires { changes < 2 ^ 63 }
    ensures { tally_of result ≡ record { changes = changes; packed = packed } }
{
    if packed { changes + PACKED } else { changes }
}

/// So many changes and more, or `None` where they are 2^63 or more.
pub(crate) fn sum_of(total: u64, more: u64) -> Option<u64>
    ensures sum { IfSome result (λ n. n ≡ total + more) }
    ensures below { IfSome result (λ n. n < 2 ^ 63) }
    ensures some { total + more < 2 ^ 63 → IsSome result }
{
    let Some(sum) = total.checked_add(more) else {
        return None;
    };
    if sum < PACKED { Some(sum) } else { None }
}
