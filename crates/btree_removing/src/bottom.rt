//! The leaf that loses an item.

ghost use Rattle.std.specs.Prelude.{◌≡◌, IfOk};
ghost use Rattle.btree_removing.specs.Bottoms.{leaf_without, node_without, bottom_of, is_emptied, is_leaf, next_of};

use crate::items::remove_item;
use btree_family::{Bucket, Key};
use btree_putting::{Put, has_key};
use btree_shapes::{Node, Shared};
use pickle_graph::Pickle;
use std::alloc::{AllocError, Global};
use zb_ids::Oid;

/// A leaf without a key.
#[tactic(auto, using(crate::proofs::Buckets::without_is_bucket, crate::proofs::Buckets::same_contents))]
fn leaf_without(alloc: Global, leaf: &Bucket, key: &Key) -> Result<Bucket, AllocError>
    ensures { IfOk result (λ left. left ≡ leaf_without leaf.now key.now) }
{
    let items = remove_item(alloc, leaf.items().as_slice(), key)?;
    Ok(Bucket::new(items, leaf.next()))
}

/// What an object holds without a key, where that stands in it.
fn node_without(alloc: Global, node: &Node, key: &Key) -> Result<Option<Node>, AllocError>
    ensures { IfOk result (λ left. left ≡ node_without node.now key.now) }
{
    match node {
        Node::Lone(leaf) => {
            if !has_key(leaf.items().as_slice(), key) {
                return Ok(None);
            }
            let left = leaf_without(alloc, leaf, key)?;
            Ok(Some(Node::Lone(Shared::new(alloc, left)?)))
        }
        Node::Leaf(leaf) => {
            if !has_key(leaf.items().as_slice(), key) {
                return Ok(None);
            }
            let left = leaf_without(alloc, leaf, key)?;
            Ok(Some(Node::Leaf(Shared::new(alloc, left)?)))
        }
        Node::Inner(_) => Ok(None),
    }
}

/// An object without a key, as it is put. There is none where the key doesn't stand in it.
pub(crate) fn bottom_of(
    alloc: Global,
    oid: Oid,
    class: Shared<Pickle>,
    node: &Node,
    key: &Key,
) -> Result<Option<Put>, AllocError>
    ensures { IfOk result (λ bottom. bottom ≡ bottom_of oid class node.now key.now) }
{
    let Some(node) = node_without(alloc, node, key)? else {
        return Ok(None);
    };
    Ok(Some(Put {
        oid,
        class,
        leaves: false,
        node,
    }))
}

/// Whether a leaf is left without items.
pub(crate) fn is_emptied(node: &Node) -> bool
    ensures { result ≡ is_emptied node.now }
{
    match node {
        Node::Lone(leaf) => leaf.items().is_empty(),
        Node::Leaf(leaf) => leaf.items().is_empty(),
        Node::Inner(_) => false,
    }
}

/// Whether an object is a bucket or a set.
pub(crate) fn is_leaf(node: &Node) -> bool
    ensures { result ≡ is_leaf node.now }
{
    match node {
        Node::Lone(_) => false,
        Node::Leaf(_) => true,
        Node::Inner(_) => false,
    }
}

/// The leaf that follows a leaf, if one does.
pub(crate) fn next_of(node: &Node) -> Option<Oid>
    ensures { result ≡ next_of node.now }
{
    match node {
        Node::Lone(leaf) => leaf.next(),
        Node::Leaf(leaf) => leaf.next(),
        Node::Inner(_) => None,
    }
}
