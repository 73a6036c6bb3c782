//! Laws. A law is the contract of a function that does nothing.

ghost use Rattle.bucket_state.specs.Depths.{ReadIsShallow, ReadLeafIsShallow, WrittenIsShallow, WrittenLeafIsShallow};
ghost use Rattle.bucket_state.specs.Flat.{FlatStand, FlatAreShallow, FlatIsSpelled, FlatMakesFew};
ghost use Rattle.bucket_state.specs.Laws.{SameIsSpelledAlike, WrittenBucketReadsBack, WrittenLeafReadsBack, SameHoldsTheSame, LinkStandsApart, WrittenInnerReadsBack};

use pickle_round_trip::written_pickles_read_back;

/// Graphs that are the same, up to the numbers of nodes and to leaves that stand apart, are spelled alike: so
/// what is written, read and written again is the same text.
pub fn same_graphs_are_spelled_alike()
    ensures { SameIsSpelledAlike }
{}

/// A bucket of a class reads back from the state that is written of it, where each value makes no more nodes than a
/// pickle may have.
pub fn written_buckets_read_back()
    ensures { WrittenBucketReadsBack }
{
    written_pickles_read_back();
}

/// The items of a tree of one leaf read back from the state that is written of it, where each value makes no more
/// nodes than a pickle may have.
pub fn written_leaves_read_back()
    ensures { WrittenLeafReadsBack }
{
    written_pickles_read_back();
}

/// The values of a state that is not too deep to write are not too deep for a state of such an object, and a state of
/// such values is not too deep to write. So is the state of a tree of one leaf.
pub fn states_keep_their_depth()
    ensures read { ReadIsShallow }
    ensures read_leaf { ReadLeafIsShallow }
    ensures written { WrittenIsShallow }
    ensures written_leaf { WrittenLeafIsShallow }
{
    written_pickles_read_back();
}

/// Graphs that are the same hold the same bucket, and the same tree's object.
pub fn same_graphs_hold_the_same()
    ensures { SameHoldsTheSame }
{}

/// The state of a bucket with a link to the next one holds the items of that without a link, and the link.
pub fn links_stand_apart()
    ensures { LinkStandsApart }
{
    written_pickles_read_back();
}

/// An object with others below it reads back from the state that is written of it, where its keys are of the family,
/// rise strictly and are of one kind.
pub fn written_objects_read_back()
    ensures { WrittenInnerReadsBack }
{}

/// Flat values are values of the family, and no walk of an edge starts at one. The text of a bucket of
/// flat values is the spelling of the graph of its state, and makes two nodes for each item at most,
/// and six more.
pub fn flat_states_are_spelled()
    ensures stand { FlatStand }
    ensures shallow { FlatAreShallow }
    ensures spelled { FlatIsSpelled }
    ensures few { FlatMakesFew }
{
    written_pickles_read_back();
}
