//! Laws of calls on trees.

ghost use Rattle.tree_attempts.specs.Laws.{CallsDrawAlike};

use btree_setting::changes_are_alike;

/// A call that needs numbers is never refused by its tree, and where it is made again over the same objects draws as many.
#[tactic(auto, using(crate::proofs::Alike::calls_draw_alike))]
pub fn calls_draw_alike()
    ensures { CallsDrawAlike }
{
    changes_are_alike();
}
