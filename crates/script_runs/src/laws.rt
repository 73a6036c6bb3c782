//! Laws of runs: each function does nothing, its contract is the law.

ghost use Rattle.script_runs.specs.Committed.{CommittedStays};

/// The law that what was answered as committed stays: behind every run of turns, over whatever rules and by
/// whatever clock, the list is what the answers since then left of the list at each moment that the run came
/// by. So it has each transaction that was answered as committed, or what the packs since then left of it.
pub fn what_was_committed_stays()
    ensures { CommittedStays }
{}
