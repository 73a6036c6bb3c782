//! A check under way.

ghost use Rattle.std.specs.Prelude.{◌≡◌, false};
ghost use Rattle.btree_checking.specs.Rules.{was_visited};

use crate::place::Place;
use crate::verdict::Verdict;
use crate::walk::Walk;
use btree_family::ClassRow;

/// A check of a tree whose objects the caller reads: it names the object that it wants next, is told
/// what stands there, and ends with the verdict of [`check_tree`](crate::check_tree). It wants no
/// object twice, and keeps the numbers of those that it met and what is left of one way down.
#[derive(Drop)]
pub struct Checking {
    /// The class of the tree, once its root was read.
    pub(crate) row: Option<&'static ClassRow>,
    pub(crate) walk: Walk,
    /// The object that is read next.
    pub(crate) place: Place,
    ghost new: { was_visited walk.survey.visits place.oid ≡ false },
}

/// How a check goes on.
#[derive(Drop)]
pub enum Progress {
    /// It wants to read one more object.
    Wants(
        /// The check.
        Checking,
    ),
    /// It has ended.
    Ended(
        /// What it says.
        Verdict,
    ),
}
