//! Copies of what is read of a tree.

ghost use Rattle.std.specs.Prelude.{◌≡◌, ◌++◌, IfOk};
ghost use Rattle.pickle_graph.specs.Graph.{IsGraph};

use btree_family::Item;
use bucket_state::Branch;
use pickle_graph::{Act, Node, Pickle};
use std::alloc::{AllocError, Global};
use zb_ids::ListOf;

/// Numbers of nodes again.
fn copy_numbers(alloc: Global, numbers: &[u32]) -> Result<ListOf<u32>, AllocError>
    ensures { IfOk result (λ copy. copy ≡ numbers.now) }
{
    let mut copy = Vec::new(alloc);
    for number in numbers {
        copy.push(*number)?;
    }
    Ok(ListOf::from_vec(copy))
}

/// Keys and values again.
fn copy_pairs(alloc: Global, pairs: &[(u32, u32)]) -> Result<ListOf<(u32, u32)>, AllocError>
    ensures { IfOk result (λ copy. copy ≡ pairs.now) }
{
    let mut copy = Vec::new(alloc);
    for pair in pairs {
        copy.push(*pair)?;
    }
    Ok(ListOf::from_vec(copy))
}

/// Acts again.
fn copy_acts(alloc: Global, acts: &[Act]) -> Result<ListOf<Act>, AllocError>
    ensures { IfOk result (λ copy. copy ≡ acts.now) }
{
    let mut copy = Vec::new(alloc);
    for act in acts {
        copy.push(*act)?;
    }
    Ok(ListOf::from_vec(copy))
}

/// A node again.
fn copy_node(alloc: Global, node: &Node) -> Result<Node, AllocError>
    ensures { IfOk result (λ copy. copy ≡ node.now) }
{
    match node {
        Node::None => Ok(Node::None),
        Node::Bool(value) => Ok(Node::Bool(*value)),
        Node::Number(number) => Ok(Node::Number(*number)),
        Node::Wide(bytes) => Ok(Node::Wide(bytes.clone()?)),
        Node::Float(bytes) => Ok(Node::Float(bytes.clone()?)),
        Node::Bytes(bytes) => Ok(Node::Bytes(bytes.clone()?)),
        Node::OldText(bytes) => Ok(Node::OldText(bytes.clone()?)),
        Node::Text(bytes) => Ok(Node::Text(bytes.clone()?)),
        Node::Tuple(items) => Ok(Node::Tuple(copy_numbers(alloc, items.as_slice())?)),
        Node::List(items) => Ok(Node::List(copy_numbers(alloc, items.as_slice())?)),
        Node::Dict(pairs) => Ok(Node::Dict(copy_pairs(alloc, pairs.as_slice())?)),
        Node::Global { module, name } => {
            let module = module.clone()?;
            let name = name.clone()?;
            Ok(Node::Global { module, name })
        }
        Node::Reference(id) => Ok(Node::Reference(*id)),
        Node::Object {
            callee,
            arguments,
            by_new,
            acts,
        } => Ok(Node::Object {
            callee: *callee,
            arguments: *arguments,
            by_new: *by_new,
            acts: copy_acts(alloc, acts.as_slice())?,
        }),
    }
}

/// Nodes again.
fn copy_nodes(alloc: Global, nodes: &[Node]) -> Result<ListOf<Node>, AllocError>
    ensures { IfOk result (λ copy. copy ≡ nodes.now) }
{
    let mut copy = Vec::new(alloc);
    for node in nodes {
        copy.push(copy_node(alloc, node)?)?;
    }
    Ok(ListOf::from_vec(copy))
}

/// A graph again.
pub fn copy_pickle(alloc: Global, pickle: &Pickle) -> Result<Pickle, AllocError>
    ensures same { IfOk result (λ copy. copy ≡ pickle.now) }
    ensures graph { IfOk result (λ copy. IsGraph pickle.now.nodes pickle.now.root) }
{
    let nodes = copy_nodes(alloc, pickle.nodes().as_slice())?;
    Ok(Pickle::new(nodes, pickle.root()))
}

/// Items, and copies of more behind them.
pub fn with_items(items: ListOf<Item>, more: &[Item]) -> Result<ListOf<Item>, AllocError>
    ensures { IfOk result (λ all. all ≡ items ++ more.now) }
{
    let mut all = items;
    for item in more {
        all.push(item.clone()?)?;
    }
    Ok(all)
}

/// A branch again.
fn copy_branch(branch: &Branch) -> Result<Branch, AllocError>
    ensures { IfOk result (λ copy. copy ≡ branch.now) }
{
    let key = branch.key.clone()?;
    Ok(Branch {
        key,
        child: branch.child,
    })
}

/// Branches, and copies of more behind them.
pub fn with_branches(
    branches: ListOf<Branch>,
    more: &[Branch],
) -> Result<ListOf<Branch>, AllocError>
    ensures { IfOk result (λ all. all ≡ branches ++ more.now) }
{
    let mut all = branches;
    for branch in more {
        all.push(copy_branch(branch)?)?;
    }
    Ok(all)
}
