//! Copies of nodes.

ghost use Rattle.std.specs.Prelude.{◌≡◌, IfOk};

use pickle_graph::Node;
use std::alloc::{AllocError, Global};
use zb_ids::ListOf;

/// The same items once more.
fn copied_items<T: Copy>(alloc: Global, items: &ListOf<T>) -> Result<ListOf<T>, AllocError>
    ensures { IfOk result (λ copy. copy ≡ items.now) }
{
    let mut copy = Vec::new(alloc);
    copy.extend_from_slice(items.as_slice())?;
    Ok(ListOf::from_vec(copy))
}

/// The same node once more.
fn copied_node(alloc: Global, node: &Node) -> Result<Node, AllocError>
    ensures { IfOk result (λ copy. copy ≡ node.now) }
{
    match node {
        Node::None => Ok(Node::None),
        Node::Bool(is) => Ok(Node::Bool(*is)),
        Node::Number(number) => Ok(Node::Number(*number)),
        Node::Wide(bytes) => Ok(Node::Wide(bytes.clone()?)),
        Node::Float(bytes) => Ok(Node::Float(bytes.clone()?)),
        Node::Bytes(bytes) => Ok(Node::Bytes(bytes.clone()?)),
        Node::OldText(bytes) => Ok(Node::OldText(bytes.clone()?)),
        Node::Text(bytes) => Ok(Node::Text(bytes.clone()?)),
        Node::Tuple(items) => Ok(Node::Tuple(copied_items(alloc, items)?)),
        Node::List(items) => Ok(Node::List(copied_items(alloc, items)?)),
        Node::Dict(pairs) => Ok(Node::Dict(copied_items(alloc, pairs)?)),
        Node::Global { module, name } => Ok(Node::Global {
            module: module.clone()?,
            name: name.clone()?,
        }),
        Node::Reference(id) => Ok(Node::Reference(*id)),
        Node::Object {
            callee,
            arguments,
            by_new,
            acts,
        } => Ok(Node::Object {
            callee: *callee,
            arguments: *arguments,
            by_new: *by_new,
            acts: copied_items(alloc, acts)?,
        }),
    }
}

/// The same nodes once more.
pub(crate) fn copied_nodes(alloc: Global, nodes: &ListOf<Node>) -> Result<ListOf<Node>, AllocError>
    ensures { IfOk result (λ copy. copy ≡ nodes.now) }
{
    let mut copy = Vec::new(alloc);
    for node in nodes.as_slice() {
        copy.push(copied_node(alloc, node)?)?;
    }
    Ok(ListOf::from_vec(copy))
}
