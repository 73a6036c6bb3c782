//! What a set finds by its way.

ghost use Rattle.std.specs.Prelude.{◌≡◌, ◌++◌, true, IfOk};
ghost use Rattle.btree_family.specs.Buckets.{IsValue};
ghost use Rattle.btree_shapes.specs.Nodes.{objects_of};
ghost use Rattle.btree_shapes.specs.Reading.{IsRooted};
ghost use Rattle.btree_shapes.specs.Spaces.{handed_on};
ghost use Rattle.btree_shapes.specs.Met.{ReadsFirst};
ghost use Rattle.btree_shapes.specs.Ways.{Answers, reads};
ghost use Rattle.btree_setting.specs.Tasks.{task_found, asked_found, splits, rungs_above};

use crate::bottom::{Bottom, End, Place, bottom_of};
use crate::growing::leaf_grows;
use crate::rung::{Rung, rungs_of};
use crate::settling::settle;
use btree_family::Key;
use btree_putting::Rungs;
use btree_shapes::{Found, Rooted, Space, TreeError};
use std::alloc::Global;
use zb_ids::Text8;

/// How many items a leaf, and how many children an object above it, has at most where a set splits
/// it.
#[derive(Clone, Copy, Debug, PartialEq, Eq)]
pub struct Sizes {
    /// Of items; 2 or more.
    pub leaf: usize,
    /// Of children; 3 or more.
    pub inner: usize,
}

/// What a set is to change: the leaf with the new item, and the objects above it, from the root on.
#[derive(Drop)]
pub(crate) struct Task {
    pub bottom: Bottom,
    pub rungs: Rungs<Rung>,
}

/// Whether a leaf below others is split.
fn splits(max: usize, bottom: &Bottom) -> bool
    ensures { result ≡ splits max bottom.now }
{
    match bottom.place {
        Place::Below => leaf_grows(max, bottom),
        Place::Lone => false,
        Place::Alone => false,
    }
}

/// What is to be set where a way ends: nothing, where the key has the value already. The children
/// besides the way of which the first leaves are needed are read, from the root down.
#[tactic(auto, using(crate::proofs::Finding::none_is, crate::proofs::Finding::found_none, crate::proofs::Finding::reads_none, crate::proofs::Finding::found_some, crate::proofs::Finding::found_refused, crate::proofs::Finding::reads_some, btree_shapes::specs::MetLaws::first_start))]
pub(crate) fn prepare<S: Space>(
    alloc: Global,
    space: &mut S,
    tree: &Rooted,
    sizes: Sizes,
    key: &Key,
    value: Option<Text8>,
    found: Found,
) -> Result<Option<Task>, TreeError>
    requires rooted { IsRooted (S.contents space.old) tree.now }
    requires value { IsValue value }
    ensures answer { Answers result
        (task_found (objects_of (S.contents space.old) tree.now.root) true sizes key.now value
        found) }
    ensures contents { S.contents space.new ≡ S.contents space.old }
    ensures log { IfOk result (λ task. S.told
        → S.log space.new ≡ S.log space.old ++ reads (asked_found sizes key.now value found)) }
    ensures met { S.told → ReadsFirst (asked_found sizes key.now value found) (S.log space.old)
        (S.log space.new) }
    ensures refusals { S.told → S.refusals space.new ≡ S.refusals space.old ++ handed_on result }
{
    let Found {
        path,
        oid,
        class,
        node,
    } = found;
    let is_root = path.is_empty();
    let end = End {
        oid,
        class,
        node,
        is_root,
    };
    let Some(bottom) = bottom_of(alloc, end, key, value)? else {
        return Ok(None);
    };
    let grows = splits(sizes.leaf, &bottom);
    let rungs = rungs_of(alloc, sizes.inner, key, grows, path, bottom.oid)?;
    let rungs = settle(alloc, space, tree, true, key, rungs)?;
    Ok(Some(Task { bottom, rungs }))
}
