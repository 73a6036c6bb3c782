//! What is read besides the way to a leaf that leaves its tree.

ghost use Rattle.std.specs.Prelude.{◌≡◌, ◌++◌, IfOk};
ghost use Rattle.btree_shapes.specs.Nodes.{objects_of};
ghost use Rattle.btree_shapes.specs.Reading.{IsRooted};
ghost use Rattle.btree_shapes.specs.Spaces.{handed_on};
ghost use Rattle.btree_shapes.specs.Met.{ReadsFirst};
ghost use Rattle.btree_shapes.specs.Ways.{Answers, reads};
ghost use Rattle.btree_removing.specs.Lasts.{last_oids, met_lasts, relinked, link_before};
ghost use Rattle.btree_removing.specs.Plans.{first_head, head_oids};

use crate::last::{Last, follow_last, stands_in};
use crate::sides::Start;
use btree_family::{Bucket, Key};
use btree_putting::{Put, Puts, first_below, same_link, with_items};
use btree_shapes::{Node, Rooted, Shared, Space, TreeError};
use std::alloc::{AllocError, Global};
use zb_ids::{ListOf, Oid};

/// A leaf with this link.
#[tactic(auto, using(crate::proofs::Buckets::same_contents))]
fn with_link(alloc: Global, leaf: &Bucket, next: Option<Oid>) -> Result<Bucket, AllocError>
    ensures { IfOk result (λ linked. linked ≡ record { items = leaf.now.items; next = next }) }
{
    let items = with_items(ListOf::new(alloc), leaf.items().as_slice())?;
    Ok(Bucket::new(items, next))
}

/// An object with this link, where it is a leaf that has another one.
fn relinked(alloc: Global, last: Last, next: Option<Oid>) -> Result<Puts, AllocError>
    ensures { IfOk result (λ puts. puts ≡ relinked last.oid last.class last.node next) }
{
    let mut puts = Puts::new(alloc);
    let Last {
        above: _,
        oid,
        class,
        node,
    } = last;
    match node {
        Node::Lone(_) => Ok(puts),
        Node::Inner(_) => Ok(puts),
        Node::Leaf(leaf) => {
            if same_link(leaf.next(), next) {
                return Ok(puts);
            }
            let linked = with_link(alloc, &leaf, next)?;
            let node = Node::Leaf(Shared::new(alloc, linked)?);
            puts.push(Put {
                oid,
                class,
                leaves: false,
                node,
            })?;
            Ok(puts)
        }
    }
}

/// The leaf before takes over a link, where there is one before.
#[tactic(auto, using(crate::proofs::Finding::relink_refused, crate::proofs::Finding::relink_found, crate::proofs::Finding::link_log, crate::proofs::Finding::log_none, crate::proofs::Finding::link_met, btree_shapes::specs::MetLaws::first_start))]
pub(crate) fn link_before<S: Space>(
    alloc: Global,
    space: &mut S,
    tree: &Rooted,
    key: &Key,
    next: Option<Oid>,
    start: Option<Start>,
) -> Result<Puts, TreeError>
    requires rooted { IsRooted (S.contents space.old) tree.now }
    ensures answer { Answers result
        (link_before key.now (objects_of (S.contents space.old) tree.now.root) next start) }
    ensures log { IfOk result (λ puts. S.told → S.log space.new ≡ S.log space.old
        ++ reads (last_oids key.now (objects_of (S.contents space.old) tree.now.root) start)) }
    ensures met { S.told → ReadsFirst
        (met_lasts (objects_of (S.contents space.old) tree.now.root) start) (S.log space.old)
        (S.log space.new) }
    ensures contents { S.contents space.new ≡ S.contents space.old }
    ensures refusals { S.told → S.refusals space.new ≡ S.refusals space.old ++ handed_on result }
{
    let Some(start) = start else {
        return Ok(Puts::new(alloc));
    };
    let last = follow_last(alloc, space, tree, key, start)?;
    let puts = relinked(alloc, last, next)?;
    Ok(puts)
}

/// The first leaf below the child that is the first one now, where it is to be read.
#[tactic(auto, using(crate::proofs::Finding::head_twice, crate::proofs::Finding::head_refused, crate::proofs::Finding::head_found, crate::proofs::Finding::log_none, crate::proofs::Finding::head_met, crate::proofs::Finding::head_read, btree_shapes::specs::MetLaws::first_start))]
pub(crate) fn first_head<S: Space>(
    alloc: Global,
    space: &mut S,
    tree: &Rooted,
    key: &Key,
    start: Option<Start>,
) -> Result<Option<Oid>, TreeError>
    requires rooted { IsRooted (S.contents space.old) tree.now }
    ensures answer { Answers result
        (first_head key.now (objects_of (S.contents space.old) tree.now.root) start) }
    ensures log { IfOk result (λ known. S.told
        → S.log space.new ≡ S.log space.old ++ reads (head_oids start)) }
    ensures met { S.told → ReadsFirst (head_oids start) (S.log space.old) (S.log space.new) }
    ensures contents { S.contents space.new ≡ S.contents space.old }
    ensures refusals { S.told → S.refusals space.new ≡ S.refusals space.old ++ handed_on result }
{
    let Some(Start { above, child }) = start else {
        return Ok(None);
    };
    if stands_in(&above, child) {
        return Err(TreeError::NotATree { oid: child });
    }
    let first = first_below(alloc, space, tree, true, key, child)?;
    Ok(Some(first))
}
