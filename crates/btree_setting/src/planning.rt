//! What a set changes, from the leaf up to the root.

ghost use Rattle.std.specs.Prelude.{◌≡◌, ◌<◌, length, IfOk};
ghost use Rattle.btree_setting.specs.Changes.{AreDrawn, IsRootSet};

use crate::bottom::Bottom;
use crate::change::Change;
use crate::growing::{Terms, grow_leaf, rise, rise_root};
use crate::rung::Rung;
use btree_putting::Rungs;
use std::alloc::{AllocError, Global};
use zb_ids::Oid;

/// What a leaf below others and the objects above it change.
#[tactic(auto, using(crate::proofs::Rising::climb_start, crate::proofs::Rising::climb_step, crate::proofs::Rising::climb_root))]
fn climb(
    alloc: Global,
    terms: &Terms,
    bottom: &Bottom,
    rungs: &Rungs<Rung>,
    oids: &[Oid],
) -> Result<Change, AllocError>
    requires { 0 < length rungs.now }
    ensures set { IfOk result (λ change. IsRootSet terms.now bottom.now rungs.now change) }
    ensures drawn { IfOk result (λ change. AreDrawn oids.now change.news) }
{
    let mut change = grow_leaf(alloc, terms, bottom, oids)?;
    let mut place = rungs.len();
    'up: while place > 1 {
        place -= 1;
        change = rise(alloc, terms, rungs.at(place), change, oids)?;
    }
    rise_root(alloc, terms, rungs.at(0), change, oids)
}

/// What a leaf and the objects above it change, with these numbers for new objects, in the order in
/// which they were drawn. Where there are too few of them, it is refused as want of memory.
#[tactic(auto, using(crate::proofs::Rising::no_rungs))]
pub(crate) fn plan(
    alloc: Global,
    terms: &Terms,
    bottom: &Bottom,
    rungs: &Rungs<Rung>,
    oids: &[Oid],
) -> Result<Change, AllocError>
    ensures set { IfOk result (λ change. IsRootSet terms.now bottom.now rungs.now change) }
    ensures drawn { IfOk result (λ change. AreDrawn oids.now change.news) }
{
    if rungs.len() == 0 {
        return grow_leaf(alloc, terms, bottom, oids);
    }
    climb(alloc, terms, bottom, rungs, oids)
}
