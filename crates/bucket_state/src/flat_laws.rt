//! Laws of graphs of leaves. A law is the contract of a function that does nothing.

ghost use Rattle.bucket_state.specs.FlatGraphs.{FlatIsNamed, FlatIsSound, InnerIsNamed, InnerIsSound};
ghost use Rattle.bucket_state.specs.InnerText.{InnerIsSpelled, InnerMakesFew};
ghost use Rattle.bucket_state.specs.LoneText.{LoneIsSpelled, LoneMakesFew, LoneIsSound, LoneIsNamed};

use pickle_round_trip::written_pickles_read_back;

/// The graph of a bucket whose values are leaves holds what its kinds say, where its keys and its class's
/// names can be written, and the references in it all name something.
#[tactic(auto, using(crate::proofs::FlatGraphs::flat_sound, crate::proofs::FlatGraphs::flat_named))]
pub fn flat_states_are_graphs()
    ensures sound { FlatIsSound }
    ensures named { FlatIsNamed }
{
    written_pickles_read_back();
}

/// The text of an object with others below it is the spelling of the graph of its state, and makes
/// five nodes for each separator, and ten more at most.
pub fn inner_states_are_spelled()
    ensures spelled { InnerIsSpelled }
    ensures few { InnerMakesFew }
{}

/// The graph of an object with others below it holds what its kinds say, where its separators and
/// its classes' names can be written, and the references in it all name something.
#[tactic(auto, using(crate::proofs::FlatGraphs::inner_sound, crate::proofs::FlatGraphs::inner_named))]
pub fn inner_states_are_graphs()
    ensures sound { InnerIsSound }
    ensures named { InnerIsNamed }
{}

/// The text of a tree of one leaf is the spelling of the graph of its state, and makes two nodes
/// for each item at most, and four more.
pub fn lone_states_are_spelled()
    ensures spelled { LoneIsSpelled }
    ensures few { LoneMakesFew }
{
    written_pickles_read_back();
}

/// The graph of a tree of one leaf whose values are leaves holds what its kinds say, where its keys
/// can be written, and the references in it all name something.
#[tactic(auto, using(crate::proofs::FlatGraphs::lone_sound, crate::proofs::FlatGraphs::lone_named))]
pub fn lone_states_are_graphs()
    ensures sound { LoneIsSound }
    ensures named { LoneIsNamed }
{
    written_pickles_read_back();
}
