//! Laws of packing.

ghost use Rattle.pack_reach.specs.Laws.{PackKeepsContents, PackOutlastsCommits, PackedRecordsStand, ReachedIsAll};
ghost use Rattle.pack_reach.specs.Laws.{StateIsReached, UnreadableIsLeast};

/// The objects that are computed, step by step, are those at the end of a path.
pub fn reached_is_all()
    ensures { ReachedIsAll }
{}

/// The record that is computed is the least of those that the reach follows and that can't be read.
pub fn unreadable_is_least()
    ensures { UnreadableIsLeast }
{}

/// Above the tid of a pack, an object that it keeps has the same content in the packed list, below every front.
pub fn packs_keep_contents()
    ensures { PackKeepsContents }
{}

/// Above the tid of a pack that collects, every object that references lead to from the root is kept.
pub fn states_are_reached()
    ensures { StateIsReached }
{}

/// A record in a packed list stands in the list, with the same serial, bytes and next revision.
pub fn packed_records_stand()
    ensures { PackedRecordsStand }
{}

/// What a pack that no commit overtook leaves of the grown list is what a pack of that list leaves.
pub fn packs_outlast_commits()
    ensures { PackOutlastsCommits }
{}
