//! Laws of references. A law is the contract of a function that does nothing.

ghost use Rattle.pickle_references.specs.Named.{CopiesAreNamed, NamedIsTold, PartIsLeft, ToldIsNamed};

/// What a pickle says is its graph, as it is read to the same place, and its oids are those that
/// the references among its own nodes name, in the order of their numbers; where a graph is read
/// and its own references all name something, that is what the pickle says. What it leaves may be
/// left to another. Where the references of a graph all name something, so do those of one that is
/// the same.
pub fn references_are_those_of_nodes()
    ensures told { ToldIsNamed }
    ensures named { NamedIsTold }
    ensures left { PartIsLeft }
    ensures copies { CopiesAreNamed }
{}
