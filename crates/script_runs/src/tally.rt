//! What is counted of replies.

ghost use Rattle.std.specs.Prelude.{◌≡◌, ◌<◌, ◌-◌, ◌^◌};
ghost use Rattle.script_runs.specs.Summary.{is_conflict};
ghost use Rattle.script_runs.specs.Tallies.{no_replies, tally_more};

use zb_answers::Answer;
use zb_model::Refusal;

/// How many replies there were of each kind that is counted.
#[derive(Clone, Copy, Debug, PartialEq, Eq)]
pub(crate) struct Tally {
    /// Those that tell of a commit.
    pub committed: u64,
    /// Those that are refused for a conflict.
    pub conflicts: u64,
    /// All that are refused.
    pub refused: u64,
}

/// Nothing was counted.
pub(crate) fn no_replies() -> Tally
    ensures { result ≡ no_replies }
{
    Tally {
        committed: 0,
        conflicts: 0,
        refused: 0,
    }
}

/// Whether a refusal is a conflict.
fn is_conflict(why: &Refusal) -> bool
    ensures { result ≡ is_conflict why.now }
{
    matches!(why, Refusal::Conflict { .. })
}

/// Counts a reply.
pub(crate) fn tally_more(tally: Tally, answer: &Answer) -> Tally
    requires committed { tally.committed < 2 ^ 64 - 1 }
    requires conflicts { tally.conflicts < 2 ^ 64 - 1 }
    requires refused { tally.refused < 2 ^ 64 - 1 }
    ensures { result ≡ tally_more tally answer.now }
{
    match answer {
        Answer::Committed { .. } => Tally {
            committed: tally.committed + 1,
            conflicts: tally.conflicts,
            refused: tally.refused,
        },
        Answer::Refused(why) => Tally {
            committed: tally.committed,
            conflicts: if is_conflict(why) {
                tally.conflicts + 1
            } else {
                tally.conflicts
            },
            refused: tally.refused + 1,
        },
        _ => tally,
    }
}
