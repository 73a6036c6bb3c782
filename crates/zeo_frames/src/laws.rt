//! The law of reading frames. A law is the contract of a function that does nothing.

ghost use Rattle.zeo_frames.specs.Laws.{AreCutOneWay};

/// Bytes are cut into frames in one way, whatever the pieces in which they come.
pub fn streams_are_cut_one_way()
    ensures { AreCutOneWay }
{}
