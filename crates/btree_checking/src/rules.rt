//! The rules on what an object of a tree holds.

ghost use Rattle.std.specs.Prelude.{◌≡◌, ◌&&◌};
ghost use Rattle.btree_family.specs.Buckets.{keys_of};
ghost use Rattle.btree_family.specs.Keys.{rank_of};
ghost use Rattle.bucket_state.specs.Trees.{separators_of};
ghost use Rattle.std.specs.Option.{option_map};
ghost use Rattle.btree_checking.specs.Rules.{keys_in, may_stand, are_of_kind, suit_kind, is_from, is_up_to, are_within, suits_depth};

use btree_family::{Item, Key, is_same_kind};
use btree_shapes::{Node, is_below};
use bucket_state::Branch;

/// Whether an object may stand so far below a root: one without others below it that has its items
/// itself is a root.
pub(crate) fn may_stand(level: u64, node: &Node) -> bool
    ensures { result ≡ may_stand level node.now }
{
    match node {
        Node::Lone(_) => level == 0,
        Node::Leaf(_) => true,
        Node::Inner(_) => true,
    }
}

/// Whether the keys of items are of a key's kind.
fn items_of_kind(kind: &Key, items: &[Item]) -> bool
    ensures { result ≡ are_of_kind (rank_of kind.now) (keys_of items.now) }
{
    for item in items {
        if !is_same_kind(&item.key, kind) {
            return false;
        }
    }
    true
}

/// Whether separators are of a key's kind.
fn branches_of_kind(kind: &Key, branches: &[Branch]) -> bool
    ensures { result ≡ are_of_kind (rank_of kind.now) (separators_of branches.now) }
{
    for branch in branches {
        if !is_same_kind(&branch.key, kind) {
            return false;
        }
    }
    true
}

/// Whether the keys or separators of an object are of the kind of a key that was met, if one was.
pub(crate) fn suit_kind(met: &Option<Key>, node: &Node) -> bool
    ensures { result ≡ suit_kind (option_map rank_of met.now) (keys_in node.now) }
{
    let Some(kind) = met else {
        return true;
    };
    match node {
        Node::Lone(bucket) => items_of_kind(kind, bucket.items().as_slice()),
        Node::Leaf(bucket) => items_of_kind(kind, bucket.items().as_slice()),
        Node::Inner(inner) => branches_of_kind(kind, inner.tail.as_slice()),
    }
}

/// Whether a key is not below a bound, if there is one.
fn is_from(low: &Option<Key>, key: &Key) -> bool
    ensures { result ≡ is_from low.now key.now }
{
    match low {
        Some(low) => !is_below(key, low),
        None => true,
    }
}

/// Whether a key is below a bound, if there is one.
fn is_up_to(high: &Option<Key>, key: &Key) -> bool
    ensures { result ≡ is_up_to high.now key.now }
{
    match high {
        Some(high) => is_below(key, high),
        None => true,
    }
}

/// Whether a key stands from one bound on and below the other.
fn is_within(low: &Option<Key>, high: &Option<Key>, key: &Key) -> bool
    ensures { result ≡ (is_from low.now key.now && is_up_to high.now key.now) }
{
    is_from(low, key) && is_up_to(high, key)
}

/// Whether the keys of items stand from one bound on and below the other.
fn items_within(low: &Option<Key>, high: &Option<Key>, items: &[Item]) -> bool
    ensures { result ≡ are_within low.now high.now (keys_of items.now) }
{
    for item in items {
        if !is_within(low, high, &item.key) {
            return false;
        }
    }
    true
}

/// Whether separators stand from one bound on and below the other.
fn branches_within(low: &Option<Key>, high: &Option<Key>, branches: &[Branch]) -> bool
    ensures { result ≡ are_within low.now high.now (separators_of branches.now) }
{
    for branch in branches {
        if !is_within(low, high, &branch.key) {
            return false;
        }
    }
    true
}

/// Whether the keys or separators of an object stand from one bound on and below the other.
pub(crate) fn are_within(low: &Option<Key>, high: &Option<Key>, node: &Node) -> bool
    ensures { result ≡ are_within low.now high.now (keys_in node.now) }
{
    match node {
        Node::Lone(bucket) => items_within(low, high, bucket.items().as_slice()),
        Node::Leaf(bucket) => items_within(low, high, bucket.items().as_slice()),
        Node::Inner(inner) => branches_within(low, high, inner.tail.as_slice()),
    }
}

/// Whether a leaf is as deep as the first one, if one was met.
pub(crate) fn suits_depth(depth: Option<u64>, level: u64, node: &Node) -> bool
    ensures { result ≡ suits_depth depth level node.now }
{
    let Some(depth) = depth else {
        return true;
    };
    match node {
        Node::Lone(_) => depth == level,
        Node::Leaf(_) => depth == level,
        Node::Inner(_) => true,
    }
}
