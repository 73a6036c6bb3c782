//! Records of objects with others below them that are made without graphs, and need not be read
//! back.

ghost use Rattle.std.specs.Prelude.{◌≡◌, ◌++◌, ◌∷◌, [], ◌<◌, ◌^◌, None, Some, true, IfOk, IfSome};
ghost use Rattle.std.specs.Option.{option_copied};
ghost use Rattle.btree_family.specs.Classes.{class_seen};
ghost use Rattle.bucket_state.specs.States.{follows, stand_in_row};
ghost use Rattle.bucket_state.specs.Trees.{separators_of};
ghost use Rattle.btree_putting.specs.Straight.{IsTriedSo};
ghost use Rattle.btree_putting.specs.StraightInner.{branches_fit, AreSeen, IsStraightInner, IsInnerText, is_tree_kind, ReadsAsTree, IsTreeBack, InnerIsTried};
ghost use Rattle.btree_putting.specs.Writing.{child_class, AreGlobal};

use crate::puts::Put;
use crate::straight::{class_text, see_signed};
use crate::trying::{Written, is_class_kept};
use crate::writing::{Family, graph_of, node_writable};
use btree_family::{ClassRow, Key, KeyKind, Kind, is_same_kind, key_fits, key_order};
use btree_shapes::{Entry, Node, Shared, is_class_of};
use bucket_state::{
    Branch, Inner, inner_state, inner_states_are_graphs, inner_states_are_spelled,
    links_stand_apart, same_graphs_hold_the_same, written_buckets_read_back,
    written_objects_read_back,
};
use pickle_graph::Pickle;
use std::alloc::{AllocError, Global};
use std::cmp::Ordering;
use zb_ids::{Oid, Text8};
use zb_record::{records_are_two_pickles, written_records_read_back};

/// So many separators make no more nodes than a pickle may have.
const MOST_CHILDREN: usize = 838_858;

/// Whether a key follows the one before it: above it, and of its kind.
fn follows(before: Option<&Key>, key: &Key) -> bool
    ensures { result ≡ follows (option_copied before.entry) key.now }
{
    match before {
        None => true,
        Some(low) => match key_order(low, key) {
            Ordering::Less => is_same_kind(low, key),
            _ => false,
        },
    }
}

/// Whether separators rise strictly and are of one kind.
fn branches_stand(branches: &[Branch]) -> bool
    ensures { result ≡ stand_in_row None (separators_of branches.now) }
{
    let mut before: Option<&Key> = None;
    for branch in branches {
        if !follows(before, &branch.key) {
            return false;
        }
        before = Some(&branch.key);
    }
    true
}

/// Whether separators are keys of a family.
fn branches_fit(kind: KeyKind, branches: &[Branch]) -> bool
    ensures { result ≡ branches_fit kind branches.now }
{
    for branch in branches {
        if !key_fits(kind, &branch.key) {
            return false;
        }
    }
    true
}

/// The number of an object has 64 bits.
fn see_number(oid: Oid)
    ensures { oid < 2 ^ 64 }
{}

/// Separators that are numbers have 128 bits with a sign, and children have numbers of 64 bits.
#[tactic(auto, using(crate::proofs::StraightInners::seen_more, crate::proofs::StraightInners::seen_none))]
fn see_branches(branches: &[Branch])
    ensures { AreSeen branches.now }
{
    for branch in branches {
        see_signed(&branch.key);
        see_number(branch.child);
    }
}

/// The class of the children of an object: that of leaves, or the tree's own.
fn child_row(family: &Family, leaves: bool) -> &'static ClassRow
    ensures { class_seen result.now ≡ child_class (class_seen family.now.row.now)
        (class_seen family.now.leaf.now) leaves }
{
    if leaves { family.leaf } else { family.row }
}

/// The text of the state of an object with others below it, where its separators are keys of the
/// class, rise strictly and are of one kind, and there are few enough of them.
fn state_text(
    alloc: Global,
    family: &Family,
    leaves: bool,
    inner: &Inner,
) -> Result<Option<Text8>, AllocError>
    ensures { IfOk result (λ found. IfSome found (IsStraightInner (class_seen family.now.row.now)
        (child_class (class_seen family.now.row.now) (class_seen family.now.leaf.now) leaves)
        (class_seen family.now.leaf.now) inner.now)) }
{
    let branches = inner.tail.as_slice();
    if branches.len() > MOST_CHILDREN {
        return Ok(None);
    }
    if !branches_stand(branches) {
        return Ok(None);
    }
    if !branches_fit(family.row.key, branches) {
        return Ok(None);
    }
    see_branches(branches);
    see_number(inner.head);
    see_number(inner.first);
    let text = inner_state(alloc, inner, child_row(family, leaves), family.leaf)?;
    Ok(Some(text))
}

/// The bytes of the record of a put that has others below it, where its class is one node.
fn inner_bytes(alloc: Global, family: &Family, put: &Put) -> Result<Option<Text8>, AllocError>
    ensures { IfOk result (λ found. IfSome found
        (IsInnerText (class_seen family.now.row.now) (class_seen family.now.leaf.now) put.now)) }
{
    let Node::Inner(inner) = &put.node else {
        return Ok(None);
    };
    if !node_writable(&put.node) {
        return Ok(None);
    }
    let Some(class) = class_text(alloc, &put.class)? else {
        return Ok(None);
    };
    let Some(state) = state_text(alloc, family, put.leaves, inner)? else {
        return Ok(None);
    };
    let mut text = class;
    text.extend_from_slice(&[0x80, 3])?;
    text.extend_from_slice(state.as_slice())?;
    text.push(0x2e)?;
    Ok(Some(text))
}

/// Whether a class is that of trees.
fn is_of_trees(row: &ClassRow) -> bool
    ensures { result ≡ is_tree_kind (class_seen row.now).kind }
{
    match row.kind {
        Kind::Bucket | Kind::Set => false,
        Kind::Tree | Kind::TreeSet => true,
    }
}

/// Whether a record of this class is read as an object of the tree.
#[tactic(auto, using(crate::proofs::StraightInners::own_tree))]
fn reads_as_tree(row: &ClassRow, own: &Pickle) -> bool
    ensures { result ≡ true → ReadsAsTree (class_seen row.now) own.now }
{
    if !is_class_of(row, own) {
        return false;
    }
    is_of_trees(row)
}

/// The class of a record as it is read back, where it is of the same class of BTrees, and that is
/// the tree's.
pub(crate) fn tree_back(
    alloc: Global,
    row: &ClassRow,
    put: &Put,
    bytes: &Text8,
) -> Result<Option<Pickle>, AllocError>
    ensures { IfOk result (λ found. IfSome found
        (IsTreeBack (class_seen row.now) put.now bytes.now)) }
{
    let Some(own) = graph_of(alloc, bytes)? else {
        return Ok(None);
    };
    if !is_class_kept(&put.class, &own) {
        return Ok(None);
    }
    if !reads_as_tree(row, &own) {
        return Ok(None);
    }
    Ok(Some(own))
}

/// The record of an object with others below it that is made so is kept, where its class reads
/// back: the law of [`keep_inner`].
fn inner_records_are_tried()
    ensures { InnerIsTried }
{
    written_records_read_back();
    records_are_two_pickles();
    written_objects_read_back();
    same_graphs_hold_the_same();
    written_buckets_read_back();
    links_stand_apart();
    inner_states_are_spelled();
    inner_states_are_graphs();
}

/// The bytes of the record of an object with others below it, and what they hold, where they are
/// made without graphs. Where nothing is answered, nothing is said of the put.
pub(crate) fn keep_inner(
    alloc: Global,
    family: &Family,
    put: &Put,
) -> Result<Option<Written>, AllocError>
    requires global { AreGlobal family.now }
    ensures { IfOk result (λ found. IfSome found
        (IsTriedSo (class_seen family.now.row.now) (class_seen family.now.leaf.now) put.now)) }
{
    inner_records_are_tried();
    let Some(bytes) = inner_bytes(alloc, family, put)? else {
        return Ok(None);
    };
    let Some(own) = tree_back(alloc, family.row, put, &bytes)? else {
        return Ok(None);
    };
    let class = Shared::new(alloc, own)?;
    let node = put.node.again()?;
    let entry = Entry { class, node };
    Ok(Some(Written { bytes, entry }))
}
