//! Records of leaves that are made without graphs, and need not be read back.

ghost use Rattle.std.specs.Prelude.{◌≡◌, ◌++◌, ◌∷◌, [], None, Some, true, IfOk, IfSome};
ghost use Rattle.pickle_graph.specs.Graph.{IsSigned128};
ghost use Rattle.btree_family.specs.Buckets.{keys_of};
ghost use Rattle.btree_family.specs.Classes.{class_seen};
ghost use Rattle.bucket_state.specs.FlatGraphs.{IsSignedKey, AreSignedKeys};
ghost use Rattle.bucket_state.specs.Laws.{IsLink};
ghost use Rattle.bucket_state.specs.States.{stand_in_row};
ghost use Rattle.btree_shapes.specs.declared.node.Node.TheVariants.{Leaf};
ghost use Rattle.btree_putting.specs.Straight.{StraightIsTried, are_of_one_kind, is_leaf_kind, global_pickle, IsLoneClass, IsStraightState, IsStraightText, ReadsAsLeaf, IsClassBack, IsTriedSo};
ghost use Rattle.btree_putting.specs.Writing.{AreGlobal};

use crate::puts::Put;
use crate::trying::{Written, is_class_kept};
use crate::writing::{Family, graph_of, node_writable};
use btree_family::{Bucket, ClassRow, Item, Key, Kind, is_same_kind, leaf_of};
use btree_shapes::{Entry, Node, Shared, is_class_of};
use bucket_state::{
    flat_state, flat_states_are_graphs, flat_states_are_spelled, same_graphs_hold_the_same,
    written_buckets_read_back,
};
use pickle_graph::{Node as GraphNode, Pickle};
use std::alloc::{AllocError, Global};
use zb_ids::{Oid, Text8};
use zb_record::{records_are_two_pickles, written_records_read_back};

/// So many items make no more nodes than a pickle may have.
pub(crate) const MOST_ITEMS: usize = 2_097_149;

/// Whether items have keys of one kind.
pub(crate) fn are_of_one_kind(items: &[Item]) -> bool
    ensures { result ≡ are_of_one_kind None (keys_of items.now) }
{
    let mut before: Option<&Key> = None;
    for item in items {
        if let Some(key) = before {
            if !is_same_kind(key, &item.key) {
                return false;
            }
        }
        before = Some(&item.key);
    }
    true
}

/// A number has 128 bits with a sign.
fn see_number(number: i128)
    ensures { IsSigned128 number }
{}

/// A key that is a number has 128 bits with a sign.
pub(crate) fn see_signed(key: &Key)
    ensures { IsSignedKey key.now }
{
    match key {
        Key::Number(number) => see_number(*number),
        Key::Text(_) | Key::Bytes(_) => {}
    }
}

/// Keys that are numbers have 128 bits with a sign.
pub(crate) fn see_all_signed(items: &[Item])
    ensures { AreSignedKeys (keys_of items.now) }
{
    for item in items {
        see_signed(&item.key);
    }
}

/// The number of the bucket that follows is one of 64 bits.
fn next_of(bucket: &Bucket) -> Option<Oid>
    ensures next { result ≡ bucket.now.next }
    ensures link { IsLink result }
{
    match bucket.next() {
        None => None,
        Some(oid) => Some(Oid(oid.0)),
    }
}

/// The text of a bucket's state, where its keys are of one kind, its values are leaves, and it has
/// few enough items.
#[tactic(auto, using(crate::proofs::StraightTexts::state_so))]
fn state_text(alloc: Global, row: &ClassRow, bucket: &Bucket) -> Result<Option<Text8>, AllocError>
    ensures { IfOk result (λ found. IfSome found
        (IsStraightState (class_seen row.now) bucket.now)) }
{
    let items = bucket.items().as_slice();
    if items.len() > MOST_ITEMS {
        return Ok(None);
    }
    if !are_of_one_kind(items) {
        return Ok(None);
    }
    see_all_signed(items);
    let _ = next_of(bucket);
    flat_state(alloc, bucket, row)
}

/// A class alone, as a pickle.
fn global_pickle(alloc: Global, first: &Text8, second: &Text8) -> Result<Text8, AllocError>
    ensures { IfOk result (λ text. text ≡ global_pickle first.now second.now) }
{
    let mut text = Text8::from_slice(alloc, &[0x80, 3, 0x63])?;
    text.extend_from_slice(first.as_slice())?;
    text.push(0x0a)?;
    text.extend_from_slice(second.as_slice())?;
    text.extend_from_slice(&[0x0a, 0x2e])?;
    Ok(text)
}

/// The text of a class that is one node.
pub(crate) fn class_text(alloc: Global, class: &Pickle) -> Result<Option<Text8>, AllocError>
    ensures { IfOk result (λ found. IfSome found (IsLoneClass class.now)) }
{
    let root = class.root();
    let [node] = class.nodes().as_slice() else {
        return Ok(None);
    };
    let GraphNode::Global { module, name } = node else {
        return Ok(None);
    };
    let text = global_pickle(alloc, module, name)?;
    Ok(Some(text))
}

/// The bytes of the record of a put that is a leaf, where its class is one node and its values are
/// leaves of the graph.
fn leaf_text(alloc: Global, family: &Family, put: &Put) -> Result<Option<Text8>, AllocError>
    ensures { IfOk result (λ found. IfSome found
        (IsStraightText (class_seen family.now.leaf.now) put.now)) }
{
    let Node::Leaf(bucket) = &put.node else {
        return Ok(None);
    };
    if !node_writable(&put.node) {
        return Ok(None);
    }
    let Some(class) = class_text(alloc, &put.class)? else {
        return Ok(None);
    };
    let Some(state) = state_text(alloc, family.leaf, bucket)? else {
        return Ok(None);
    };
    let mut text = class;
    text.extend_from_slice(&[0x80, 3])?;
    text.extend_from_slice(state.as_slice())?;
    text.push(0x2e)?;
    Ok(Some(text))
}

/// Whether two rows are of the same class.
fn same_class(a: &ClassRow, b: &ClassRow) -> bool
    ensures { result ≡ true → class_seen a.now ≡ class_seen b.now }
{
    a.kind == b.kind
        && a.key == b.key
        && a.value == b.value
        && a.module.as_bytes() == b.module.as_bytes()
        && a.name.as_bytes() == b.name.as_bytes()
}

/// Whether a class is that of buckets or sets.
fn is_of_leaves(row: &ClassRow) -> bool
    ensures { result ≡ is_leaf_kind (class_seen row.now).kind }
{
    match row.kind {
        Kind::Bucket | Kind::Set => true,
        Kind::Tree | Kind::TreeSet => false,
    }
}

/// Whether a record of this class is read as a leaf.
#[tactic(auto, using(crate::proofs::StraightTexts::own_leaf, crate::proofs::StraightTexts::leaf_below))]
fn reads_as_leaf(family: &Family, own: &Pickle) -> bool
    ensures { result ≡ true → ReadsAsLeaf (class_seen family.now.row.now)
        (class_seen family.now.leaf.now) own.now }
{
    if is_class_of(family.row, own) {
        return is_of_leaves(family.row) && same_class(family.row, family.leaf);
    }
    match leaf_of(family.row) {
        Some(leaf) => is_class_of(leaf, own) && same_class(leaf, family.leaf),
        None => false,
    }
}

/// The class of a record as it is read back, where it is of the same class of BTrees, and that is
/// the one of leaves.
fn class_back(
    alloc: Global,
    family: &Family,
    put: &Put,
    bytes: &Text8,
) -> Result<Option<Pickle>, AllocError>
    ensures { IfOk result (λ found. IfSome found
        (IsClassBack (class_seen family.now.row.now) (class_seen family.now.leaf.now) put.now
        bytes.now)) }
{
    let Some(own) = graph_of(alloc, bytes)? else {
        return Ok(None);
    };
    if !is_class_kept(&put.class, &own) {
        return Ok(None);
    }
    if !reads_as_leaf(family, &own) {
        return Ok(None);
    }
    Ok(Some(own))
}

/// The record of a leaf that is made so is kept, where its class reads back: the law of
/// [`keep_straight`].
fn straight_records_are_tried()
    ensures { StraightIsTried }
{
    written_records_read_back();
    records_are_two_pickles();
    written_buckets_read_back();
    same_graphs_hold_the_same();
    flat_states_are_spelled();
    flat_states_are_graphs();
}

/// The bytes of the record of a leaf, and what they hold, where they are made without graphs. Where
/// nothing is answered, nothing is said of the put.
pub(crate) fn keep_straight(
    alloc: Global,
    family: &Family,
    put: &Put,
) -> Result<Option<Written>, AllocError>
    requires global { AreGlobal family.now }
    ensures { IfOk result (λ found. IfSome found
        (IsTriedSo (class_seen family.now.row.now) (class_seen family.now.leaf.now) put.now)) }
{
    straight_records_are_tried();
    let Some(bytes) = leaf_text(alloc, family, put)? else {
        return Ok(None);
    };
    let Some(own) = class_back(alloc, family, put, &bytes)? else {
        return Ok(None);
    };
    let class = Shared::new(alloc, own)?;
    let node = put.node.again()?;
    let entry = Entry { class, node };
    Ok(Some(Written { bytes, entry }))
}
