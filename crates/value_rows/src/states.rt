//! The calls of the states of buckets and trees.

use crate::graphs::push_written;
use crate::keys::push_key;
use btree_family::{Bucket, ClassRow, row_of};
use bucket_state::{Inner, TreeState, read_bucket, read_tree, write_bucket, write_embedded};
use pickle_graph::Pickle;
use pickle_reading::read_pickle;
use pickle_writing::write_pickle;
use row_cases::{Row, RowError, push_bytes};
use std::alloc::Global;
use std::fmt::Write;
use zb_ids::Oid;

fn push_next(text: &mut String, next: Option<Oid>) -> Result<(), RowError> {
    if let Some(oid) = next {
        let number = oid.0;
        write!(text, " next {number:x}")?;
    }
    Ok(())
}

/// The items, each a key and the spelling of its value.
fn push_bucket(alloc: Global, text: &mut String, bucket: &Bucket) -> Result<(), RowError> {
    let count = bucket.items().len();
    write!(text, "{count} items:")?;
    for item in bucket.items().as_slice() {
        text.push_str(" ")?;
        push_key(alloc, text, &item.key)?;
        if let Some(value) = &item.value {
            text.push_str("=")?;
            push_bytes(alloc, text, value.as_slice())?;
        }
    }
    push_next(text, bucket.next())
}

/// The children with the keys between them, and the first leaf.
fn push_inner(alloc: Global, text: &mut String, inner: &Inner) -> Result<(), RowError> {
    let head = inner.head.0;
    write!(text, "children {head:x}")?;
    for branch in inner.tail.as_slice() {
        let child = branch.child.0;
        text.push_str(" ")?;
        push_key(alloc, text, &branch.key)?;
        write!(text, " {child:x}")?;
    }
    let first = inner.first.0;
    write!(text, " first {first:x}")?;
    Ok(())
}

fn push_state(alloc: Global, text: &mut String, state: &Pickle) -> Result<(), RowError> {
    text.push_str("; ")?;
    push_written(alloc, text, write_pickle(alloc, state))
}

/// The class that the first two fields name.
fn class_of(row: &Row) -> Result<&'static ClassRow, RowError> {
    match row_of(row.text(0)?.as_bytes(), row.text(1)?.as_bytes()) {
        Some(class) => Ok(class),
        None => Err(RowError::Value),
    }
}

/// The state that the third field is the pickle of.
fn state_of(alloc: Global, row: &Row) -> Result<Pickle, RowError> {
    match read_pickle(alloc, row.bytes(alloc, 2)?.as_slice(), 0) {
        Ok((state, _)) => Ok(state),
        Err(_) => Err(RowError::Value),
    }
}

/// A bucket or a set, and what it is written as.
fn bucket(alloc: Global, row: &Row) -> Result<String, RowError> {
    let Some(class) = row_of(row.text(0)?.as_bytes(), row.text(1)?.as_bytes()) else {
        return Err(RowError::Value);
    };
    let state = state_of(alloc, row)?;
    match read_bucket(alloc, &state, class) {
        Ok(bucket) => {
            let again = write_bucket(alloc, &bucket, class)?;
            let mut text = String::new(alloc);
            push_bucket(alloc, &mut text, &bucket)?;
            push_state(alloc, &mut text, &again)?;
            Ok(text)
        }
        Err(refusal) => Ok(format!(in alloc; "{refusal}")?),
    }
}

/// A tree of one leaf, and what it is written as.
fn push_leaf(
    alloc: Global,
    text: &mut String,
    leaf: &Bucket,
    again: &Pickle,
) -> Result<(), RowError> {
    text.push_str("leaf ")?;
    push_bucket(alloc, text, leaf)?;
    push_state(alloc, text, again)
}

/// The state of a tree's object, and what it is written as where it has no children.
fn tree(alloc: Global, row: &Row) -> Result<String, RowError> {
    let class = class_of(row)?;
    let state = state_of(alloc, row)?;
    let mut text = String::new(alloc);
    match read_tree(alloc, &state, class) {
        Ok(TreeState::Empty) => text.push_str("empty")?,
        Ok(TreeState::Leaf(bucket)) => {
            let again = write_embedded(alloc, &bucket)?;
            push_leaf(alloc, &mut text, &bucket, &again)?;
        }
        Ok(TreeState::Children(inner)) => {
            push_inner(alloc, &mut text, &inner)?;
        }
        Err(refusal) => write!(text, "{refusal}")?,
    }
    Ok(text)
}

/// The answer of a call of states, if the row names one.
pub fn answer(alloc: Global, row: &Row) -> Result<Option<String>, RowError> {
    let text = match row.call.as_str() {
        "bucket" => bucket(alloc, row)?,
        "tree" => tree(alloc, row)?,
        _ => return Ok(None),
    };
    Ok(Some(text))
}
