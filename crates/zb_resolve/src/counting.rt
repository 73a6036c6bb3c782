//! Counters.

ghost use Rattle.std.specs.Prelude.{◌≡◌, ◌+ℤ◌, ◌-ℤ◌};
ghost use Rattle.zb_resolve.specs.Resolution.{count_of};

/// What a counter comes to when both sides add to it: committed and stored less old, where 128 bits have it.
/// Nothing in between leaves them.
pub(crate) fn joint_count(old: i128, committed: i128, stored: i128) -> Option<i128>
    ensures { result ≡ count_of ((committed +ℤ stored) -ℤ old) }
{
    if (committed < 0) != (stored < 0) {
        return (committed + stored).checked_sub(old);
    }
    match committed.checked_sub(old) {
        None => None,
        Some(added) => added.checked_add(stored),
    }
}
