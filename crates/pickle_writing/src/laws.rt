//! Laws of writing. A law is the contract of a function that does nothing.

ghost use Rattle.pickle_writing.specs.Laws.{CyclicIsTooDeep};

/// In a cyclic graph a walk of more than [`WALK_LIMIT`](crate::WALK_LIMIT) edges starts at the
/// root, so none is ever written.
pub fn cyclic_graphs_are_too_deep()
    ensures { CyclicIsTooDeep }
{}
