//! The items of a bucket.

ghost use Rattle.std.specs.Prelude.{◌≡◌, Some, None, slice_get, ◌<◌, length};
ghost use Rattle.std.specs.Option.{option_copied};
ghost use Rattle.pickle_graph.specs.Graph.{IsGraph};
ghost use Rattle.btree_family.specs.Buckets.{keys_of, IsBucket};
ghost use Rattle.btree_family.specs.Classes.{class_seen};
ghost use Rattle.bucket_state.specs.Answers.{AnswersFound};
ghost use Rattle.bucket_state.specs.States.{key_in, key_at, value_fits, family_value_at, has_values, entry_item, found_all, follows, stand_in_row, member_items};
ghost use Rattle.bucket_state.specs.States;

use crate::entries::{Entry, entries};
use crate::error::StateError;
use btree_family::{
    ClassRow, Item, Key, KeyKind, Kind, ValueKind, is_same_kind, key_fits, key_order, number_fits,
};
use pickle_graph::{Node, Pickle};
use pickle_writing::spelling;
use std::alloc::Global;
use std::cmp::Ordering;
use zb_ids::{ListOf, Text8};

/// The key that a node is.
fn key_of(node: &Node) -> Result<Key, StateError>
    ensures { AnswersFound result (key_in (Some node.now)) }
{
    match node {
        Node::Text(text) => Ok(Key::Text(text.clone()?)),
        Node::Bytes(bytes) => Ok(Key::Bytes(bytes.clone()?)),
        Node::Number(number) => Ok(Key::Number(*number)),
        _ => Err(StateError::BadState),
    }
}

/// The key of a family that the node of a number is.
pub(crate) fn read_key(nodes: &[Node], number: u32, kind: KeyKind) -> Result<Key, StateError>
    ensures { AnswersFound result (key_at kind nodes.now number) }
{
    let Some(node) = nodes.get(number as usize) else {
        return Err(StateError::BadState);
    };
    let key = key_of(node)?;
    if !key_fits(kind, &key) {
        return Err(StateError::BadState);
    }
    Ok(key)
}

/// Whether a node may be a value of a family.
fn value_fits(kind: ValueKind, node: &Node) -> bool
    ensures { result ≡ States.value_fits kind node.now }
{
    match kind {
        ValueKind::Object => true,
        _ => match node {
            Node::Number(number) => number_fits(kind, *number),
            _ => false,
        },
    }
}

/// The spelling of the value of a family that the node of a number is.
fn read_value(
    alloc: Global,
    pickle: &Pickle,
    number: u32,
    kind: ValueKind,
) -> Result<Text8, StateError>
    ensures { AnswersFound result (family_value_at kind pickle.now.nodes number) }
{
    let nodes = pickle.nodes().as_slice();
    let Some(node) = nodes.get(number as usize) else {
        return Err(StateError::BadState);
    };
    if !value_fits(kind, node) {
        return Err(StateError::BadState);
    }
    let text = spelling(alloc, pickle, number)?;
    Ok(text)
}

/// The item that an entry is.
fn read_item(
    alloc: Global,
    pickle: &Pickle,
    row: &ClassRow,
    entry: Entry,
) -> Result<Item, StateError>
    ensures { AnswersFound result (entry_item (class_seen row.now) pickle.now.nodes entry) }
{
    let key = read_key(pickle.nodes().as_slice(), entry.key, row.key)?;
    let Some(number) = entry.value else {
        return Ok(Item { key, value: None });
    };
    let text = read_value(alloc, pickle, number, row.value)?;
    Ok(Item {
        key,
        value: Some(text),
    })
}

/// The items that entries are.
fn read_all(
    alloc: Global,
    pickle: &Pickle,
    row: &ClassRow,
    entries: &[Entry],
) -> Result<ListOf<Item>, StateError>
    ensures { AnswersFound result (found_all (entry_item (class_seen row.now) pickle.now.nodes) entries.now) }
{
    let mut items = Vec::new(alloc);
    for entry in entries {
        items.push(read_item(alloc, pickle, row, *entry)?)?;
    }
    Ok(ListOf::from_vec(items))
}

/// Whether a key follows the one before it: above it, and of its kind.
pub(crate) fn follows(before: Option<&Key>, key: &Key) -> bool
    ensures { result ≡ States.follows (option_copied before.entry) key.now }
{
    match before {
        None => true,
        Some(low) => match key_order(low, key) {
            Ordering::Less => is_same_kind(low, key),
            _ => false,
        },
    }
}

/// Whether the keys of items stand in a row.
fn stand(items: &[Item]) -> bool
    ensures { result ≡ stand_in_row None (keys_of items.now) }
{
    let mut before: Option<&Key> = None;
    for item in items {
        if !follows(before, &item.key) {
            return false;
        }
        before = Some(&item.key);
    }
    true
}

/// Whether the objects of such a class, or their leaves, have values.
pub(crate) fn has_values(kind: Kind) -> bool
    ensures { result ≡ States.has_values kind }
{
    match kind {
        Kind::Bucket | Kind::Tree => true,
        Kind::Set | Kind::TreeSet => false,
    }
}

/// The items that the members of a tuple are.
pub(crate) fn read_items(
    alloc: Global,
    pickle: &Pickle,
    row: &ClassRow,
    members: &[u32],
) -> Result<ListOf<Item>, StateError>
    ensures { AnswersFound result (member_items (class_seen row.now) pickle.now.nodes members.now) }
{
    let entries = entries(alloc, has_values(row.kind), members)?;
    let items = read_all(alloc, pickle, row, entries.as_slice())?;
    if !stand(items.as_slice()) {
        return Err(StateError::BadState);
    }
    Ok(items)
}
