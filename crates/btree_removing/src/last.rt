//! The last leaf below an object.

ghost use Rattle.std.specs.Prelude.{◌≡◌, ◌++◌, ◌-◌, ◌<◌, ◌^◌, length, Ok, IfOk};
ghost use Rattle.btree_shapes.specs.Nodes.{objects_of};
ghost use Rattle.btree_shapes.specs.Reading.{IsRooted};
ghost use Rattle.btree_shapes.specs.Spaces.{handed_on};
ghost use Rattle.btree_shapes.specs.Met.{ReadsFirst};
ghost use Rattle.btree_shapes.specs.Ways.{Answers, stands_in, reads};
ghost use Rattle.btree_removing.specs.Lasts.{last_child, last_below, met_last, oids_to};

use crate::sides::Start;
use btree_family::Key;
use btree_shapes::{Entry, Node, Rooted, Shared, Space, TreeError, read_entry, suits};
use bucket_state::Inner;
use pickle_graph::Pickle;
use std::alloc::{AllocError, Global};
use zb_ids::{ListOf, Oid};

/// Where a way by last children ends: the objects above the end, from the root on, and the end, its
/// class and what it holds.
#[derive(Drop)]
pub(crate) struct Last {
    pub above: ListOf<Oid>,
    pub oid: Oid,
    pub class: Shared<Pickle>,
    pub node: Node,
}

/// The last child.
fn last_child(inner: &Inner) -> Oid
    ensures { result ≡ last_child inner.now.head inner.now.tail }
{
    let mut child = inner.head;
    for branch in inner.tail.as_slice() {
        child = branch.child;
    }
    child
}

/// Whether an object is one of these.
pub(crate) fn stands_in(oids: &ListOf<Oid>, oid: Oid) -> bool
    ensures is { result ≡ stands_in oids.now oid }
    ensures room { length oids.now < 2 ^ 64 }
{
    oids.len() > 0 && oids.as_slice().contains(&oid)
}

/// The way from an object on by last children.
#[tactic(auto, using(crate::proofs::Lasting::unread))]
pub(crate) fn follow_last<S: Space>(
    alloc: Global,
    space: &mut S,
    tree: &Rooted,
    key: &Key,
    start: Start,
) -> Result<Last, TreeError>
    requires rooted { IsRooted (S.contents space.old) tree.now }
    ensures answer { Answers result
        (last_below key.now (objects_of (S.contents space.old) tree.now.root) start) }
    ensures log { IfOk result (λ last. S.told
        → S.log space.new ≡ S.log space.old ++ reads (oids_to start.above (Ok last))) }
    ensures met { S.told → ReadsFirst
        (met_last (objects_of (S.contents space.old) tree.now.root) (2 ^ 64 - length start.above)
        start.above start.child) (S.log space.old) (S.log space.new) }
    ensures contents { S.contents space.new ≡ S.contents space.old }
    ensures refusals { S.told → S.refusals space.new ≡ S.refusals space.old ++ handed_on result }
{
    let Start { above, child } = start;
    let mut above = above;
    let mut oid = child;
    'down: loop {
        if stands_in(&above, oid) {
            return Err(TreeError::NotATree { oid });
        }
        let Entry { class, node } = read_entry(alloc, space, tree, oid)?;
        if !suits(true, key, &node) {
            return Err(TreeError::BadKey);
        }
        match node {
            Node::Inner(inner) => {
                let next = last_child(&inner);
                above.push(oid)?;
                oid = next;
            }
            Node::Lone(leaf) => {
                let node = Node::Lone(leaf);
                return Ok(Last {
                    above,
                    oid,
                    class,
                    node,
                });
            }
            Node::Leaf(leaf) => {
                let node = Node::Leaf(leaf);
                return Ok(Last {
                    above,
                    oid,
                    class,
                    node,
                });
            }
        }
    }
}
