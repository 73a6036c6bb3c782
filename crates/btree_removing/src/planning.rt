//! What a remove is to put.

ghost use Rattle.std.specs.Prelude.{◌≡◌, ◌++◌, IfOk};
ghost use Rattle.btree_shapes.specs.Nodes.{objects_of};
ghost use Rattle.btree_shapes.specs.Reading.{IsRooted};
ghost use Rattle.btree_shapes.specs.Spaces.{handed_on};
ghost use Rattle.btree_shapes.specs.Met.{ReadsFirst};
ghost use Rattle.btree_shapes.specs.Ways.{Answers, reads};
ghost use Rattle.btree_removing.specs.Sides.{sides_of};
ghost use Rattle.btree_removing.specs.Plans.{left_asked, puts_leaving, oids_leaving, puts_for, oids_for, plan_found, oids_found, met_beside, met_leaving, met_puts};

use crate::bottom::{bottom_of, is_emptied, is_leaf, next_of};
use crate::linking::{first_head, link_before};
use crate::losing::raise;
use crate::rung::{Rung, rungs_of};
use crate::sides::{Sides, Start, sides_of};
use btree_family::Key;
use btree_putting::{Put, Puts, Rungs, in_order};
use btree_shapes::{Found, Path, Rooted, Space, TreeError};
use std::alloc::Global;

/// The nearest child to the left, where what leaves is a leaf: an embedded one has no link that the
/// leaf before it could take over.
fn left_asked(leaf: bool, start: Option<Start>) -> Option<Start>
    ensures { result ≡ left_asked leaf start }
{
    if leaf {
        return start;
    }
    None
}

/// What is to be put where an emptied leaf leaves its tree. The way to the leaf before it is read
/// first, and then the child that is the first one now.
#[tactic(auto, using(crate::proofs::Finding::before_refused, crate::proofs::Finding::first_refused, crate::proofs::Finding::leaving, crate::proofs::Finding::leaving_log, btree_shapes::specs::MetLaws::first_start))]
fn leave<S: Space>(
    alloc: Global,
    space: &mut S,
    tree: &Rooted,
    key: &Key,
    rungs: Rungs<Rung>,
    leaf: Put,
) -> Result<Puts, TreeError>
    requires rooted { IsRooted (S.contents space.old) tree.now }
    ensures answer { Answers result
        (puts_leaving key.now (objects_of (S.contents space.old) tree.now.root) rungs leaf
        (sides_of key.now rungs)) }
    ensures log { IfOk result (λ puts. S.told → S.log space.new ≡ S.log space.old
        ++ reads (oids_leaving key.now (objects_of (S.contents space.old) tree.now.root) leaf
        (sides_of key.now rungs))) }
    ensures met { S.told → ReadsFirst
        (met_leaving (objects_of (S.contents space.old) tree.now.root) leaf
        (sides_of key.now rungs)) (S.log space.old) (S.log space.new) }
    ensures contents { S.contents space.new ≡ S.contents space.old }
    ensures refusals { S.told → S.refusals space.new ≡ S.refusals space.old ++ handed_on result }
{
    let Sides { left, head } = sides_of(alloc, key, &rungs)?;
    let left = left_asked(is_leaf(&leaf.node), left);
    let before = link_before(alloc, space, tree, key, next_of(&leaf.node), left)?;
    let known = first_head(alloc, space, tree, key, head)?;
    let puts = raise(alloc, key, &known, rungs, leaf)?;
    let all = in_order(alloc, before, puts)?;
    Ok(all)
}

/// What is to be put where a leaf lost an item.
#[tactic(auto, using(crate::proofs::Finding::stays_so, crate::proofs::Finding::stays_log, crate::proofs::Finding::gone_found, crate::proofs::Finding::gone_refused, crate::proofs::Finding::gone_log, crate::proofs::Finding::gone_met, btree_shapes::specs::MetLaws::first_start))]
fn puts_for<S: Space>(
    alloc: Global,
    space: &mut S,
    tree: &Rooted,
    key: &Key,
    path: Path,
    leaf: Put,
) -> Result<Puts, TreeError>
    requires rooted { IsRooted (S.contents space.old) tree.now }
    ensures answer { Answers result
        (puts_for key.now (objects_of (S.contents space.old) tree.now.root) path leaf) }
    ensures log { IfOk result (λ puts. S.told → S.log space.new ≡ S.log space.old
        ++ reads (oids_for key.now (objects_of (S.contents space.old) tree.now.root) path leaf)) }
    ensures met { S.told → ReadsFirst
        (met_puts key.now (objects_of (S.contents space.old) tree.now.root) path leaf)
        (S.log space.old) (S.log space.new) }
    ensures contents { S.contents space.new ≡ S.contents space.old }
    ensures refusals { S.told → S.refusals space.new ≡ S.refusals space.old ++ handed_on result }
{
    if !is_emptied(&leaf.node) {
        let mut puts = Puts::new(alloc);
        puts.push(leaf)?;
        return Ok(puts);
    }
    let rungs = rungs_of(alloc, is_leaf(&leaf.node), path)?;
    leave(alloc, space, tree, key, rungs, leaf)
}

/// What is to be put where a way ends: nothing, where the key is absent.
#[tactic(auto, using(crate::proofs::Finding::absent, crate::proofs::Finding::absent_log, crate::proofs::Finding::puts_refused, crate::proofs::Finding::puts_found, crate::proofs::Finding::puts_log, crate::proofs::Finding::puts_met, btree_shapes::specs::MetLaws::first_start))]
pub(crate) fn plan<S: Space>(
    alloc: Global,
    space: &mut S,
    tree: &Rooted,
    key: &Key,
    found: Found,
) -> Result<Option<Puts>, TreeError>
    requires rooted { IsRooted (S.contents space.old) tree.now }
    ensures answer { Answers result
        (plan_found key.now (objects_of (S.contents space.old) tree.now.root) found) }
    ensures log { IfOk result (λ puts. S.told → S.log space.new ≡ S.log space.old
        ++ reads (oids_found key.now (objects_of (S.contents space.old) tree.now.root) found)) }
    ensures met { S.told → ReadsFirst
        (met_beside key.now (objects_of (S.contents space.old) tree.now.root) found)
        (S.log space.old) (S.log space.new) }
    ensures contents { S.contents space.new ≡ S.contents space.old }
    ensures refusals { S.told → S.refusals space.new ≡ S.refusals space.old ++ handed_on result }
{
    let Found {
        path,
        oid,
        class,
        node,
    } = found;
    let Some(leaf) = bottom_of(alloc, oid, class, &node, key)? else {
        return Ok(None);
    };
    let puts = puts_for(alloc, space, tree, key, path, leaf)?;
    Ok(Some(puts))
}
