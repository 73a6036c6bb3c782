//! Records of trees of one leaf that are made without graphs, and need not be read back.

ghost use Rattle.std.specs.Prelude.{◌≡◌, IfOk, IfSome};
ghost use Rattle.btree_family.specs.Classes.{class_seen};
ghost use Rattle.btree_putting.specs.Straight.{IsTriedSo};
ghost use Rattle.btree_putting.specs.StraightLone.{is_last, IsStraightLone, IsLoneText, LoneIsTried};

use crate::puts::Put;
use crate::straight::{MOST_ITEMS, are_of_one_kind, class_text, see_all_signed};
use crate::straight_inner::tree_back;
use crate::trying::Written;
use crate::writing::{Family, node_writable};
use btree_family::{Bucket, ClassRow};
use btree_shapes::{Entry, Node, Shared};
use bucket_state::{
    flat_states_are_spelled, lone_state, lone_states_are_graphs, lone_states_are_spelled,
    same_graphs_hold_the_same, written_leaves_read_back,
};
use std::alloc::{AllocError, Global};
use zb_ids::Text8;
use zb_record::{records_are_two_pickles, written_records_read_back};

/// Whether no bucket follows.
fn is_last(bucket: &Bucket) -> bool
    ensures { result ≡ is_last bucket.now.next }
{
    match bucket.next() {
        None => true,
        Some(_) => false,
    }
}

/// The text of the state of a tree of one leaf, where its keys are of one kind, its values are
/// leaves of a graph, and it has few enough items.
fn state_text(alloc: Global, row: &ClassRow, bucket: &Bucket) -> Result<Option<Text8>, AllocError>
    ensures { IfOk result (λ found. IfSome found (IsStraightLone (class_seen row.now) bucket.now)) }
{
    let items = bucket.items().as_slice();
    if items.len() > MOST_ITEMS {
        return Ok(None);
    }
    if !are_of_one_kind(items) {
        return Ok(None);
    }
    if !is_last(bucket) {
        return Ok(None);
    }
    see_all_signed(items);
    lone_state(alloc, bucket, row)
}

/// The bytes of the record of a put that is a tree of one leaf, where its class is one node and its
/// values are leaves of a graph.
fn lone_bytes(alloc: Global, family: &Family, put: &Put) -> Result<Option<Text8>, AllocError>
    ensures { IfOk result
        (λ found. IfSome found (IsLoneText (class_seen family.now.row.now) put.now)) }
{
    let Node::Lone(bucket) = &put.node else {
        return Ok(None);
    };
    if !node_writable(&put.node) {
        return Ok(None);
    }
    let Some(class) = class_text(alloc, &put.class)? else {
        return Ok(None);
    };
    let Some(state) = state_text(alloc, family.row, bucket)? else {
        return Ok(None);
    };
    let mut text = class;
    text.extend_from_slice(&[0x80, 3])?;
    text.extend_from_slice(state.as_slice())?;
    text.push(0x2e)?;
    Ok(Some(text))
}

/// The record of a tree of one leaf that is made so is kept, where its class reads back: the law of
/// [`keep_lone`].
fn lone_records_are_tried()
    ensures { LoneIsTried }
{
    written_records_read_back();
    records_are_two_pickles();
    written_leaves_read_back();
    same_graphs_hold_the_same();
    flat_states_are_spelled();
    lone_states_are_spelled();
    lone_states_are_graphs();
}

/// The bytes of the record of a tree of one leaf, and what they hold, where they are made without
/// graphs. Where nothing is answered, nothing is said of the put.
pub(crate) fn keep_lone(
    alloc: Global,
    family: &Family,
    put: &Put,
) -> Result<Option<Written>, AllocError>
    ensures { IfOk result (λ found. IfSome found
        (IsTriedSo (class_seen family.now.row.now) (class_seen family.now.leaf.now) put.now)) }
{
    lone_records_are_tried();
    let Some(bytes) = lone_bytes(alloc, family, put)? else {
        return Ok(None);
    };
    let Some(own) = tree_back(alloc, family.row, put, &bytes)? else {
        return Ok(None);
    };
    let class = Shared::new(alloc, own)?;
    let node = put.node.again()?;
    let entry = Entry { class, node };
    Ok(Some(Written { bytes, entry }))
}
