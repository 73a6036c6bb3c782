//! The first leaf below an object.

ghost use Rattle.std.specs.Prelude.{◌≡◌, ◌++◌};
ghost use Rattle.btree_shapes.specs.Nodes.{objects_of};
ghost use Rattle.btree_shapes.specs.Reading.{IsRooted};
ghost use Rattle.btree_shapes.specs.Spaces.{handed_on, out_of_memory, IsLogged};
ghost use Rattle.btree_shapes.specs.Ways.{Answers};
ghost use Rattle.btree_putting.specs.Firsts.{first_of, first_held};

use btree_family::Key;
use btree_shapes::{Entry, Node, Rooted, Space, TreeError, read_entry, suits};
use std::alloc::Global;
use zb_ids::Oid;

/// The first leaf below an object, which a leaf is itself.
fn first_of(oid: Oid, node: &Node) -> Oid
    ensures { result ≡ first_of oid node.now }
{
    match node {
        Node::Inner(inner) => inner.first,
        Node::Lone(_) => oid,
        Node::Leaf(_) => oid,
    }
}

/// Reads an object, and gives the first leaf below it.
#[tactic(auto, using(crate::proofs::Firsts::first_read, crate::proofs::Firsts::first_unread, crate::proofs::Firsts::first_bad))]
pub fn first_below<S: Space>(
    alloc: Global,
    space: &mut S,
    tree: &Rooted,
    fits: bool,
    key: &Key,
    oid: Oid,
) -> Result<Oid, TreeError>
    requires rooted { IsRooted (S.contents space.old) tree.now }
    ensures answer { Answers result
        (first_held fits key.now oid (objects_of (S.contents space.old) tree.now.root oid)) }
    ensures contents { S.contents space.new ≡ S.contents space.old }
    ensures log { S.told → IsLogged oid (out_of_memory result) (S.log space.old) (S.log space.new) }
    ensures refusals { S.told → S.refusals space.new ≡ S.refusals space.old ++ handed_on result }
{
    let Entry { node, .. } = read_entry(alloc, space, tree, oid)?;
    if !suits(fits, key, &node) {
        return Err(TreeError::BadKey);
    }
    Ok(first_of(oid, &node))
}
