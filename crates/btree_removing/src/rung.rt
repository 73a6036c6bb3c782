//! The objects above a leaf that leaves its tree.

ghost use Rattle.std.specs.Prelude.{◌≡◌, IfOk};
ghost use Rattle.btree_removing.specs.Rungs.{rungs_of};

use btree_putting::Rungs;
use btree_shapes::{Path, Shared, Step};
use bucket_state::Inner;
use pickle_graph::Pickle;
use std::alloc::{AllocError, Global};
use zb_ids::Oid;

/// An object with others below it on the way to a leaf: its number, its class, what it holds, and
/// whether its children are leaves.
#[derive(Drop)]
pub(crate) struct Rung {
    pub oid: Oid,
    pub class: Shared<Pickle>,
    pub inner: Shared<Inner>,
    pub leaves: bool,
}

/// The objects of a way; `leaf` says whether a leaf stands below the lowest.
#[tactic(auto, using(crate::proofs::Raising::rungs_start, crate::proofs::Raising::rungs_step, crate::proofs::Raising::rungs_end))]
pub(crate) fn rungs_of(alloc: Global, leaf: bool, path: Path) -> Result<Rungs<Rung>, AllocError>
    ensures { IfOk result (λ rungs. rungs ≡ rungs_of leaf path) }
{
    let mut path = path;
    let mut rungs = Rungs::new(alloc);
    let mut leaves = leaf;
    'up: while let Some(step) = path.pop() {
        let Step { oid, class, inner } = step;
        let rung = Rung {
            oid,
            class,
            inner,
            leaves,
        };
        rungs.put_above(rung)?;
        leaves = false;
    }
    Ok(rungs)
}
