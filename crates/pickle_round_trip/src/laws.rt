//! Laws of reading what was written. A law is the contract of a function that does nothing.

ghost use Rattle.pickle_round_trip.specs.Laws.{WrittenReadsBack, WrittenReadsAnywhere, WrittenReadsBehind};

use pickle_ops::spelled_tokens_are_read;

/// What is written reads back, to its end, as the same graph up to the numbers of nodes, where its
/// text makes at most [`NODE_LIMIT`](crate::NODE_LIMIT) nodes; leaves and empty tuples that were
/// shared stand apart in it. Else it reads as `TooLarge`, since a shared leaf is written once for
/// each edge to it.
pub fn written_pickles_read_back()
    ensures { WrittenReadsBack }
{
    spelled_tokens_are_read();
}

/// Where its text makes at most [`NODE_LIMIT`](crate::NODE_LIMIT) nodes, what is written reads as
/// the same graph at each place, whatever follows.
pub fn written_pickles_read_anywhere()
    ensures { WrittenReadsAnywhere }
{
    spelled_tokens_are_read();
}

/// What is written gets nothing that it did not put: so it reads back as the same graph also behind
/// another pickle, whatever that one left. Its references then name something where those of the
/// graph do.
pub fn written_pickles_read_behind()
    ensures { WrittenReadsBehind }
{
    spelled_tokens_are_read();
}
