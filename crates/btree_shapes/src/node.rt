//! What an object of a tree holds.

ghost use Rattle.std.specs.Prelude.{◌≡◌, ◌&&◌, None, IfOk};
ghost use Rattle.btree_family.specs.Classes.{class_seen};
ghost use Rattle.bucket_state.specs.Answers.{AnswersFound};
ghost use Rattle.btree_family.specs.Rising.{Rises};
ghost use Rattle.bucket_state.specs.Trees.{separators_of, tree_state_of};
ghost use Rattle.bucket_state.specs.States.{bucket_of};
ghost use Rattle.std.specs.Option.{option_map};
ghost use Rattle.btree_shapes.specs.declared.node.Node.TheVariants.{Leaf};
ghost use Rattle.btree_shapes.specs.Nodes.{lone_or_inner, own_node, leaf_named, node_of, node_suits, child_for, value_in, shown};

use crate::class::is_class_of;
use crate::key::{place_by_halves, suits_branches, suits_items};
use crate::shared::Shared;
use btree_family::{Bucket, ClassRow, Item, Key, Kind, leaf_of};
use bucket_state::{Inner, StateError, TreeState, read_bucket, read_tree};
use pickle_graph::Pickle;
use std::alloc::{AllocError, Global};
use zb_ids::{ListOf, Oid, Text8};
use zb_record::ObjectRecord;

/// What an object of a tree holds.
#[derive(Drop)]
pub enum Node {
    /// A tree's object without others below it: the items of its one leaf, which is no object of its own.
    Lone(Shared<Bucket>),
    /// A bucket or a set.
    Leaf(Shared<Bucket>),
    /// A tree's object with others below it.
    Inner(Shared<Inner>),
}

impl Node {
    /// What the object holds, with one owner more.
    pub fn again(&self) -> Result<Node, AllocError>
        ensures { IfOk result (λ node. node ≡ self.now) }
    {
        match self {
            Node::Lone(bucket) => Ok(Node::Lone(bucket.again()?)),
            Node::Leaf(bucket) => Ok(Node::Leaf(bucket.again()?)),
            Node::Inner(inner) => Ok(Node::Inner(inner.again()?)),
        }
    }
}

/// The state of a tree's object as a node.
fn lone_or_inner(alloc: Global, state: TreeState) -> Result<Node, AllocError>
    ensures { IfOk result (λ node. node ≡ lone_or_inner state) }
{
    match state {
        TreeState::Empty => {
            let leaf = Bucket::new(ListOf::new(alloc), None);
            Ok(Node::Lone(Shared::new(alloc, leaf)?))
        }
        TreeState::Leaf(leaf) => Ok(Node::Lone(Shared::new(alloc, leaf)?)),
        TreeState::Children(inner) => Ok(Node::Inner(Shared::new(alloc, inner)?)),
    }
}

/// A bucket or set of this class.
fn read_leaf(alloc: Global, row: &ClassRow, state: &Pickle) -> Result<Node, StateError>
    ensures { AnswersFound result (option_map Leaf (bucket_of (class_seen row.now) state.now)) }
{
    let bucket = read_bucket(alloc, state, row)?;
    Ok(Node::Leaf(Shared::new(alloc, bucket)?))
}

/// An object of a tree of this class.
fn read_root(alloc: Global, row: &ClassRow, state: &Pickle) -> Result<Node, StateError>
    ensures { AnswersFound result (option_map lone_or_inner (tree_state_of (class_seen row.now) state.now)) }
{
    let tree = read_tree(alloc, state, row)?;
    Ok(lone_or_inner(alloc, tree)?)
}

/// What a state of this very class holds.
fn read_own(alloc: Global, row: &ClassRow, state: &Pickle) -> Result<Node, StateError>
    ensures { AnswersFound result (own_node (class_seen row.now) state.now) }
{
    match row.kind {
        Kind::Bucket | Kind::Set => read_leaf(alloc, row, state),
        Kind::Tree | Kind::TreeSet => read_root(alloc, row, state),
    }
}

/// What a record holds, where its class is that of the leaves of a tree.
fn read_below(alloc: Global, row: &ClassRow, entry: &ObjectRecord) -> Result<Node, StateError>
    ensures { AnswersFound result (leaf_named (class_seen row.now) entry.now.class entry.now.state) }
{
    let Some(leaf) = leaf_of(row) else {
        return Err(StateError::BadState);
    };
    if !is_class_of(leaf, &entry.class) {
        return Err(StateError::BadState);
    }
    read_leaf(alloc, leaf, &entry.state)
}

/// What a record holds as an object of a tree whose root is of this class. It is `BadState` where the record is
/// neither of this class nor of the class of its leaves, or its state is none of its class.
pub fn read_node(alloc: Global, row: &ClassRow, entry: &ObjectRecord) -> Result<Node, StateError>
    ensures { AnswersFound result (node_of (class_seen row.now) entry.now.class entry.now.state) }
{
    if is_class_of(row, &entry.class) {
        return read_own(alloc, row, &entry.state);
    }
    read_below(alloc, row, entry)
}

/// Whether a key is of the kind of a node's keys.
fn node_suits(key: &Key, node: &Node) -> bool
    ensures { result ≡ node_suits key.now node.now }
{
    match node {
        Node::Lone(bucket) => suits_items(key, bucket.items().as_slice()),
        Node::Leaf(bucket) => suits_items(key, bucket.items().as_slice()),
        Node::Inner(inner) => suits_branches(key, inner.tail.as_slice()),
    }
}

/// Whether a key is of the family, and of the kind of a node's keys.
pub fn suits(fits: bool, key: &Key, node: &Node) -> bool
    ensures { result ≡ (fits && node_suits key.now node.now) }
{
    fits && node_suits(key, node)
}

/// The last child whose separator isn't above the key, or else the first child, where the separators rise.
#[tactic(auto, using(crate::proofs::Halving::child_first, crate::proofs::Halving::child_behind))]
pub fn child_for(inner: &Inner, key: &Key) -> Oid
    requires rises { Rises None (separators_of inner.now.tail) }
    ensures { result ≡ child_for inner.now.head inner.now.tail key.now }
{
    let branches = inner.tail.as_slice();
    let place = place_by_halves(branches, key);
    if place == 0 {
        return inner.head;
    }
    branches[place - 1].child
}

/// The value as it is shown: a member of a set has the spelling of True.
fn show_value(alloc: Global, item: &Item) -> Result<Text8, AllocError>
    ensures { IfOk result (λ text. text ≡ shown item.now.value) }
{
    match &item.value {
        Some(text) => text.clone(),
        None => Text8::from_slice(alloc, &[0x88]),
    }
}

/// What stands under a key of items.
pub fn value_in(alloc: Global, items: &[Item], key: &Key) -> Result<Option<Text8>, AllocError>
    ensures { IfOk result (λ value. value ≡ value_in items.now key.now) }
{
    for item in items {
        if item.key == *key {
            let value = show_value(alloc, item)?;
            return Ok(Some(value));
        }
    }
    Ok(None)
}
