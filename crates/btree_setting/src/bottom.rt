//! The leaf that is set.

ghost use Rattle.std.specs.Prelude.{◌≡◌, IfOk};
ghost use Rattle.btree_family.specs.Buckets.{IsValue};
ghost use Rattle.btree_putting.specs.Items.{has_key, has_value};
ghost use Rattle.btree_setting.specs.Inserting.{set_item};
ghost use Rattle.btree_setting.specs.Bottoms.{leaf_at, bottom_of};

use crate::inserting::{item_has, item_stands, set_item};
use btree_family::{Bucket, Key};
use btree_shapes::{Node, Shared};
use pickle_graph::Pickle;
use std::alloc::{AllocError, Global};
use zb_ids::{Oid, Text8};

/// Where a leaf stands.
#[derive(Clone, Copy, Debug, PartialEq, Eq)]
pub(crate) enum Place {
    /// In a tree's object, and so without a number of its own.
    Lone,
    /// Alone, below no tree.
    Alone,
    /// Below others.
    Below,
}

/// Where a way ends: the object, its class and what it holds, and whether it is the root.
#[derive(Drop)]
pub(crate) struct End {
    pub oid: Oid,
    pub class: Shared<Pickle>,
    pub node: Node,
    pub is_root: bool,
}

/// A leaf with the item that is set: the object that it is or stands in, with its class, and
/// whether its key is a new one.
#[derive(Drop)]
pub(crate) struct Bottom {
    pub oid: Oid,
    pub class: Shared<Pickle>,
    pub leaf: Shared<Bucket>,
    pub place: Place,
    pub adds: bool,
}

/// A leaf with this value at a key.
#[tactic(auto, using(crate::proofs::Buckets::set_is_bucket))]
fn set_leaf(
    alloc: Global,
    leaf: &Bucket,
    key: Key,
    value: Option<Text8>,
) -> Result<Bucket, AllocError>
    requires { IsValue value }
    ensures items { IfOk result (λ new. new.items ≡ set_item leaf.now.items key value) }
    ensures next { IfOk result (λ new. new.next ≡ leaf.now.next) }
{
    let items = set_item(alloc, leaf.items().as_slice(), key, value)?;
    Ok(Bucket::new(items, leaf.next()))
}

/// Whether a key stands in a leaf with this value.
fn leaf_has(leaf: &Bucket, key: &Key, value: &Option<Text8>) -> bool
    ensures { result ≡ has_value leaf.now.items key.now value.now }
{
    item_has(leaf.items().as_slice(), key, value)
}

/// Whether a key stands in a leaf.
fn leaf_has_key(leaf: &Bucket, key: &Key) -> bool
    ensures { result ≡ has_key leaf.now.items key.now }
{
    item_stands(leaf.items().as_slice(), key)
}

/// The leaf at the end of a way, and where it stands. There is none where others stand below the
/// object.
fn leaf_at(node: Node, is_root: bool) -> Option<(Shared<Bucket>, Place)>
    ensures { result ≡ leaf_at node is_root }
{
    match node {
        Node::Lone(leaf) => Some((leaf, Place::Lone)),
        Node::Leaf(leaf) => {
            if is_root {
                return Some((leaf, Place::Alone));
            }
            Some((leaf, Place::Below))
        }
        Node::Inner(_) => None,
    }
}

/// The leaf at the end of a way, with this value at a key. There is none where the key has that
/// value.
pub(crate) fn bottom_of(
    alloc: Global,
    end: End,
    key: &Key,
    value: Option<Text8>,
) -> Result<Option<Bottom>, AllocError>
    requires { IsValue value }
    ensures { IfOk result (λ bottom. bottom ≡ bottom_of end key.now value) }
{
    let End {
        oid,
        class,
        node,
        is_root,
    } = end;
    let Some((leaf, place)) = leaf_at(node, is_root) else {
        return Ok(None);
    };
    if leaf_has(&leaf, key, &value) {
        return Ok(None);
    }
    let adds = !leaf_has_key(&leaf, key);
    let leaf = Shared::new(alloc, set_leaf(alloc, &leaf, key.clone()?, value)?)?;
    Ok(Some(Bottom {
        oid,
        class,
        leaf,
        place,
        adds,
    }))
}
