//! Laws of turns: what holds of every script, over every database, whatever reads fail.

ghost use Rattle.client_turns.specs.Laws.{FrontsNeverFall, NumbersAreNew, ReadsStayBelowTheFront, RefusalsHaveTheirCause};
ghost use Rattle.client_turns.specs.Laws.{TheListStaysADatabase};

/// The list that turns leave is a database, which came of the one that they found by later transactions and
/// by packs; where there was no pack, it begins with that one.
pub fn the_list_stays_a_database()
    ensures { TheListStaysADatabase }
{}

/// No client is given a front below one that was given before, to it or to another; of what a client with a link
/// begins with it holds among its own.
pub fn fronts_never_fall()
    ensures { FrontsNeverFall }
{}

/// A number for a new object is above those given before, and above every object of the list at any moment before it.
pub fn new_numbers_are_new()
    ensures { NumbersAreNew }
{}

/// `load` answers the object's revision below the front of the client's view, in the list that the view was taken of.
pub fn reads_stay_below_the_front()
    ensures { ReadsStayBelowTheFront }
{}

/// Each refusal of a turn has the cause that it shows.
pub fn refusals_have_their_cause()
    ensures { RefusalsHaveTheirCause }
{}
