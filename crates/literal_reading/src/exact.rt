//! The law that a literal has one graph. A law is the contract of a function that does nothing.

ghost use Rattle.literal_reading.specs.Exact.{LiteralIsSpelled, SpelledIsLiteral};

/// Which graph bytes are the literal of is a function of the bytes: it gives a graph exactly where they are
/// the literal of that graph. So bytes are the literal of at most one.
pub fn literals_are_exact()
    ensures spelled { SpelledIsLiteral }
    ensures literal { LiteralIsSpelled }
{}
