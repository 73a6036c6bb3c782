//! Objects of a tree as they are written.

ghost use Rattle.std.specs.Prelude.{◌≡◌, true, IfOk};
ghost use Rattle.std.specs.Str.{is_utf8};
ghost use Rattle.pickle_graph.specs.Graph.{IsGraph};
ghost use Rattle.pickle_reading.specs.Reading.{graph_at};
ghost use Rattle.pickle_reading.specs.declared.reading.TheConstants.{NODE_LIMIT};
ghost use Rattle.btree_family.specs.Buckets.{keys_of};
ghost use Rattle.btree_family.specs.Classes.{class_seen};
ghost use Rattle.bucket_state.specs.Trees.{separators_of};
ghost use Rattle.btree_putting.specs.Writing.{graph_read, child_class, class_pickle, plain_class, node_writable, node_graph, are_writable, AreNodeValues, AreGlobal};
ghost use Rattle.btree_putting.specs.Writing;

use btree_family::{ClassRow, Item, Key};
use btree_shapes::Node;
use bucket_state::{Branch, write_bucket, write_embedded, write_inner};
use pickle_graph::Pickle;
use pickle_reading::{PickleError, read_pickle};
use std::alloc::{AllocError, Global};
use zb_ids::Text8;

/// The class of a tree, and that of its leaves.
#[derive(Clone, Copy)]
pub struct Family {
    pub row: &'static ClassRow,
    pub leaf: &'static ClassRow,
}

/// Whether bytes are UTF-8.
fn is_text(bytes: &[u8]) -> bool
    ensures { result ≡ is_utf8 bytes.now }
{
    match std::str::from_utf8(bytes) {
        Ok(_) => true,
        Err(_) => false,
    }
}

/// Whether a key can be written: a text is UTF-8, and no text or bytes is too long.
fn is_writable(key: &Key) -> bool
    ensures { result ≡ Writing.is_writable key.now }
{
    match key {
        Key::Text(text) => is_text(text.as_slice()) && text.len() < 0x1_0000_0000,
        Key::Bytes(bytes) => bytes.len() < 0x1_0000_0000,
        Key::Number(_) => true,
    }
}

/// Whether the keys of items can be written.
fn items_writable(items: &[Item]) -> bool
    ensures is { result ≡ are_writable (keys_of items.now) }
{
    for item in items {
        if !is_writable(&item.key) {
            return false;
        }
    }
    true
}

/// Whether separators can be written.
fn branches_writable(branches: &[Branch]) -> bool
    ensures { result ≡ are_writable (separators_of branches.now) }
{
    for branch in branches {
        if !is_writable(&branch.key) {
            return false;
        }
    }
    true
}

/// The graph that a text is read as, where it is one.
pub(crate) fn graph_of(alloc: Global, text: &Text8) -> Result<Option<Pickle>, AllocError>
    ensures { IfOk result (λ graph. graph ≡ graph_read (graph_at NODE_LIMIT 0 text.now)) }
{
    match read_pickle(alloc, text.as_slice(), 0) {
        Ok((pickle, _)) => Ok(Some(pickle)),
        Err(PickleError::Memory) => Err(AllocError),
        Err(_) => Ok(None),
    }
}

/// Whether the keys of a node can be written.
pub(crate) fn node_writable(node: &Node) -> bool
    ensures writable { result ≡ node_writable node.now }
    ensures values { AreNodeValues node.now }
{
    match node {
        Node::Lone(bucket) => items_writable(bucket.items().as_slice()),
        Node::Leaf(bucket) => items_writable(bucket.items().as_slice()),
        Node::Inner(inner) => branches_writable(inner.tail.as_slice()),
    }
}

/// The state of a node whose keys can be written.
#[tactic(auto, using(crate::proofs::Writables::all_writable))]
pub(crate) fn write_node(
    alloc: Global,
    family: &Family,
    leaves: bool,
    node: &Node,
) -> Result<Pickle, AllocError>
    requires global { AreGlobal family.now }
    requires writable { node_writable node.now ≡ true }
    ensures state { IfOk result (λ state.
        state ≡ node_graph (class_seen family.now.row.now)
        (class_seen family.now.leaf.now) leaves node.now) }
    ensures graph { IfOk result (λ state. IsGraph state.nodes state.root) }
{
    match node {
        Node::Lone(bucket) => write_embedded(alloc, bucket),
        Node::Leaf(bucket) => write_bucket(alloc, bucket, family.leaf),
        Node::Inner(inner) => {
            let child = if leaves { family.leaf } else { family.row };
            write_inner(alloc, inner, child, family.leaf)
        }
    }
}

/// A class alone, as a pickle is spelled.
fn class_text(alloc: Global, row: &ClassRow) -> Result<Text8, AllocError>
    ensures { IfOk result (λ text. text ≡ class_pickle (class_seen row.now)) }
{
    let mut text = Text8::from_slice(alloc, &[0x80, 3, 0x63])?;
    text.extend_from_slice(row.module.as_bytes())?;
    text.push(0x0a)?;
    text.extend_from_slice(row.name.as_bytes())?;
    text.extend_from_slice(&[0x0a, 0x2e])?;
    Ok(text)
}

/// The class of a new object, or `None` where its names can't be read back. The one error is want
/// of memory.
pub fn plain_class(alloc: Global, row: &ClassRow) -> Result<Option<Pickle>, AllocError>
    ensures { IfOk result (λ class. class ≡ plain_class (class_seen row.now)) }
{
    let text = class_text(alloc, row)?;
    graph_of(alloc, &text)
}
