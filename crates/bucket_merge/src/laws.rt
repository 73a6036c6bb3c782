//! Laws of merging. A law is the contract of a function that does nothing.

ghost use Rattle.bucket_merge.specs.Laws.{MergedIsMap, LeastIsNamed, CommittedAloneIsKept, StoredAloneIsKept, ExchangedMergeAlike};

/// A merge has its value at each key, keys that rise, and the committed link; and a key that is named is the least
/// that both sides changed.
pub fn merges_are_maps()
    ensures merged { MergedIsMap }
    ensures named { LeastIsNamed }
{}

/// Where one side changed nothing, the merge is the other side, or the refusal of the rules on links, on empty
/// sides and on the first key.
pub fn one_changed_side_is_kept()
    ensures committed { CommittedAloneIsKept }
    ensures stored { StoredAloneIsKept }
{}

/// Where no key was changed by both sides, the merge is the same with committed and stored exchanged.
pub fn exchanged_sides_merge_alike()
    ensures { ExchangedMergeAlike }
{}
