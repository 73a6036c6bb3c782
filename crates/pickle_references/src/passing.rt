//! Values that are passed on the stack, of which no list is made.

ghost use Rattle.std.specs.Prelude.{◌≡◌, MatchOption, Some, None};
ghost use Rattle.pickle_references.specs.Shapes.{none_passed, to_mark, past_top, values_passed};
ghost use Rattle.pickle_references.specs.Shapes;

use pickle_reading::{Extent, Item, Stack};

/// What was seen of values that were passed on the stack.
#[derive(Clone, Copy)]
pub(crate) struct Passed {
    /// Whether they were an odd number.
    pub odd: bool,
    /// The lowest of them.
    pub lowest: Option<u32>,
}

/// What is seen once one more value is passed, below the others.
fn one_passed(seen: Passed, value: u32) -> Passed
    ensures { result ≡ Shapes.one_passed seen value }
{
    Passed {
        odd: !seen.odd,
        lowest: Some(value),
    }
}

/// Passes the values above the last mark, and the mark.
fn pass_to_mark(stack: &mut Stack) -> Option<Passed>
    ensures { MatchOption result (to_mark stack.old none_passed ≡ None) (λ seen. to_mark stack.old none_passed ≡ Some (seen, stack.new)) }
{
    let mut seen = Passed {
        odd: false,
        lowest: None,
    };
    while let Some(item) = stack.pop() {
        match item {
            Item::Mark => return Some(seen),
            Item::Value(value) => seen = one_passed(seen, value),
        }
    }
    None
}

/// Passes so many values from the top.
#[tactic(auto, using(crate::proofs::OnePassed::passed_one))]
fn pass_values(stack: &mut Stack, count: usize) -> Option<Passed>
    ensures { MatchOption result (past_top count stack.old none_passed ≡ None) (λ seen. past_top count stack.old none_passed ≡ Some (seen, stack.new)) }
{
    let mut seen = Passed {
        odd: false,
        lowest: None,
    };
    let mut left = count;
    while left > 0 {
        let Some(Item::Value(value)) = stack.pop() else {
            return None;
        };
        seen = one_passed(seen, value);
        left -= 1;
    }
    Some(seen)
}

/// Passes the values of an extent, or answers `None` where there are too few.
pub(crate) fn pass(stack: &mut Stack, extent: Extent) -> Option<Passed>
    ensures { MatchOption result (values_passed extent stack.old ≡ None) (λ seen. values_passed extent stack.old ≡ Some (seen, stack.new)) }
{
    match extent {
        Extent::Marked => pass_to_mark(stack),
        Extent::Top(count) => pass_values(stack, count),
    }
}
