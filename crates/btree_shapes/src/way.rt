//! The way for a key.

ghost use Rattle.std.specs.Prelude.{◌≡◌, ◌++◌, ◌∷◌, [], ◌-◌, ◌<◌, ◌^◌, List, Ok, IfOk, length, map};
ghost use Rattle.btree_shapes.specs.Reading.{IsRooted};
ghost use Rattle.btree_shapes.specs.declared.space.Call.{Call};
ghost use Rattle.btree_shapes.specs.declared.space.Call.TheVariants.{Read};
ghost use Rattle.btree_shapes.specs.Spaces.{handed_on};
ghost use Rattle.btree_shapes.specs.Nodes.{objects_of, Holds};
ghost use Rattle.btree_shapes.specs.Met.{ReadsFirst, met_for, met_from};
ghost use Rattle.btree_shapes.specs.Ways.{Answers, way_from, way_for, below_path, step_oid, reads, reads_of, key_way};

use crate::error::TreeError;
use crate::node::{Node, child_for, suits};
use crate::path::{Path, Step};
use crate::reading::{Entry, Rooted, read_entry, read_root};
use crate::shared::Shared;
use crate::space::Space;
use btree_family::{Key, key_fits};
use pickle_graph::Pickle;
use std::alloc::Global;
use zb_ids::Oid;

/// Where a way ends: the steps to it, and the object that has no others below it.
#[derive(Drop)]
pub struct Found {
    pub path: Path,
    pub oid: Oid,
    pub class: Shared<Pickle>,
    pub node: Node,
}

/// The way for a key from an object on, below these steps. The root is read, and of this class; `fits` says whether
/// the key, and the value that is to be set, are of its family.
#[tactic(auto, using(crate::proofs::Goings::unread))]
fn follow<S: Space>(
    alloc: Global,
    space: &mut S,
    tree: &Rooted,
    fits: bool,
    key: &Key,
    path: Path,
    oid: Oid,
) -> Result<Found, TreeError>
    requires room { length path < 2 ^ 64 }
    requires rooted { IsRooted (S.contents space.old) tree.now }
    ensures answer { Answers result (below_path path
        (way_from fits key.now (objects_of (S.contents space.old) tree.now.root) (2 ^ 64 - length path)
        (map step_oid path) oid)) }
    ensures log { IfOk result (λ found. S.told → (base : List Call)
        → S.log space.old ≡ base ++ reads (map step_oid path)
        → S.log space.new ≡ base ++ reads (map step_oid found.path ++ found.oid ∷ [])) }
    ensures met { S.told → ReadsFirst (met_from key.now (objects_of (S.contents space.old) tree.now.root)
        (2 ^ 64 - length path) (map step_oid path) oid) (S.log space.old) (S.log space.new) }
    ensures contents { S.contents space.new ≡ S.contents space.old }
    ensures refusals { S.told → S.refusals space.new ≡ S.refusals space.old ++ handed_on result }
{
    let mut path = path;
    let mut oid = oid;
    'down: loop {
        if path.contains(oid) {
            return Err(TreeError::NotATree { oid });
        }
        let Entry { class, node } = read_entry(alloc, space, tree, oid)?;
        if !suits(fits, key, &node) {
            return Err(TreeError::BadKey);
        }
        match node {
            Node::Inner(inner) => {
                let next = child_for(&inner, key);
                path.push(Step { oid, class, inner })?;
                oid = next;
            }
            Node::Lone(bucket) => {
                let node = Node::Lone(bucket);
                return Ok(Found {
                    path,
                    oid,
                    class,
                    node,
                });
            }
            Node::Leaf(bucket) => {
                let node = Node::Leaf(bucket);
                return Ok(Found {
                    path,
                    oid,
                    class,
                    node,
                });
            }
        }
    }
}

/// The way for a key from the root on, which was read.
pub fn follow_root<S: Space>(
    alloc: Global,
    space: &mut S,
    tree: &Rooted,
    fits: bool,
    key: &Key,
    entry: Entry,
) -> Result<Found, TreeError>
    requires rooted { IsRooted (S.contents space.old) tree.now }
    requires entry { objects_of (S.contents space.old) tree.now.root tree.now.root ≡ Holds entry.class entry.node }
    ensures answer { Answers result
        (way_for fits key.now (objects_of (S.contents space.old) tree.now.root) tree.now.root) }
    ensures log { IfOk result (λ found. S.told → (base : List Call) → S.log space.old ≡ base ++ Read tree.now.root ∷ []
        → S.log space.new ≡ base ++ reads (map step_oid found.path ++ found.oid ∷ [])) }
    ensures met { S.told → (base : List Call) → S.log space.old ≡ base ++ Read tree.now.root ∷ []
        → ReadsFirst (met_for (S.contents space.old) tree.now.root key.now) base (S.log space.new) }
    ensures contents { S.contents space.new ≡ S.contents space.old }
    ensures refusals { S.told → S.refusals space.new ≡ S.refusals space.old ++ handed_on result }
{
    let Entry { class, node } = entry;
    if !suits(fits, key, &node) {
        return Err(TreeError::BadKey);
    }
    let mut path = Path::new(alloc);
    match node {
        Node::Inner(inner) => {
            let next = child_for(&inner, key);
            path.push(Step {
                oid: tree.root,
                class,
                inner,
            })?;
            follow(alloc, space, tree, fits, key, path, next)
        }
        Node::Lone(bucket) => {
            let node = Node::Lone(bucket);
            Ok(Found {
                path,
                oid: tree.root,
                class,
                node,
            })
        }
        Node::Leaf(bucket) => {
            let node = Node::Leaf(bucket);
            Ok(Found {
                path,
                oid: tree.root,
                class,
                node,
            })
        }
    }
}

/// The object in which a key is to be looked up in the tree with this root.
#[tactic(auto, using(crate::proofs::Goings::way_is_call, crate::proofs::Goings::root_unread))]
pub fn find<S: Space>(
    alloc: Global,
    space: &mut S,
    root: Oid,
    key: &Key,
) -> Result<Found, TreeError>
    ensures answer { Answers result (key_way (S.contents space.old) root key.now) }
    ensures log { IfOk result (λ found. S.told → S.log space.new ≡ S.log space.old ++ reads_of (Ok found)) }
    ensures met { S.told → ReadsFirst (met_for (S.contents space.old) root key.now) (S.log space.old) (S.log space.new) }
    ensures contents { S.contents space.new ≡ S.contents space.old }
    ensures refusals { S.told → S.refusals space.new ≡ S.refusals space.old ++ handed_on result }
{
    let (tree, entry) = read_root(alloc, space, root)?;
    let fits = key_fits(tree.row.key, key);
    follow_root(alloc, space, &tree, fits, key, entry)
}
