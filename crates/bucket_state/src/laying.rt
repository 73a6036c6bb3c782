//! Graphs laid side by side.

ghost use Rattle.std.specs.Prelude.{◌≡◌, ◌+◌, ◌++◌, map, length, slice_get, Some, IfOk};
ghost use Rattle.pickle_graph.specs.Graph.{IsGraph, IsNode, AreNodes};
ghost use Rattle.bucket_state.specs.Written.{shifted_act, shifted_pair, shifted, no_graphs, laid_on, closed, leaf_graph, IsLaid};

use pickle_graph::{Act, Node, Pickle};
use std::alloc::{AllocError, Global};
use std::marker::Model;
use zb_ids::ListOf;

/// The nodes of graphs, one graph behind the other, and the numbers of their roots. No node is part of two
/// graphs.
#[derive(Drop)]
pub(crate) struct Side {
    nodes: Vec<Node>,
    roots: Vec<u32>,
}

impl Model for Side {
    ghost use Rattle.bucket_state.specs.Written.{Laid, IsLaid};

    ghost Value = { Laid };

    ghost view = { λ side. record { nodes = side.nodes.items; roots = side.roots.items } };

    ghost invariant = { λ side. IsLaid side.nodes.items side.roots.items };
}

/// A number of a node, greater by so many. Numbers of 32 bits run out as memory does.
fn moved_number(by: u32, number: u32) -> Result<u32, AllocError>
    ensures { IfOk result (λ moved. moved ≡ by + number) }
{
    match by.checked_add(number) {
        Some(moved) => Ok(moved),
        None => Err(AllocError),
    }
}

/// Numbers of nodes, each greater by so many.
fn moved_numbers(alloc: Global, by: u32, numbers: &[u32]) -> Result<ListOf<u32>, AllocError>
    ensures { IfOk result (λ moved. moved ≡ map (λ n. by + n) numbers.now) }
{
    let mut moved = Vec::new(alloc);
    for number in numbers {
        moved.push(moved_number(by, *number)?)?;
    }
    Ok(ListOf::from_vec(moved))
}

/// Keys and values, each with a number greater by so many.
fn moved_pairs(
    alloc: Global,
    by: u32,
    pairs: &[(u32, u32)],
) -> Result<ListOf<(u32, u32)>, AllocError>
    ensures { IfOk result (λ moved. moved ≡ map (shifted_pair by) pairs.now) }
{
    let mut moved = Vec::new(alloc);
    for pair in pairs {
        let key = moved_number(by, pair.0)?;
        let value = moved_number(by, pair.1)?;
        moved.push((key, value))?;
    }
    Ok(ListOf::from_vec(moved))
}

/// An act whose nodes have numbers greater by so many.
fn moved_act(by: u32, act: Act) -> Result<Act, AllocError>
    ensures { IfOk result (λ moved. moved ≡ shifted_act by act) }
{
    match act {
        Act::Append(value) => Ok(Act::Append(moved_number(by, value)?)),
        Act::Set(key, value) => {
            let key = moved_number(by, key)?;
            let value = moved_number(by, value)?;
            Ok(Act::Set(key, value))
        }
        Act::Build(state) => Ok(Act::Build(moved_number(by, state)?)),
    }
}

/// Acts whose nodes have numbers greater by so many.
fn moved_acts(alloc: Global, by: u32, acts: &[Act]) -> Result<ListOf<Act>, AllocError>
    ensures { IfOk result (λ moved. moved ≡ map (shifted_act by) acts.now) }
{
    let mut moved = Vec::new(alloc);
    for act in acts {
        moved.push(moved_act(by, *act)?)?;
    }
    Ok(ListOf::from_vec(moved))
}

/// A copy of a node that names nodes with numbers greater by so many.
fn moved_node(alloc: Global, by: u32, node: &Node) -> Result<Node, AllocError>
    ensures { IfOk result (λ moved. moved ≡ shifted by node.now) }
{
    match node {
        Node::None => Ok(Node::None),
        Node::Bool(value) => Ok(Node::Bool(*value)),
        Node::Number(number) => Ok(Node::Number(*number)),
        Node::Wide(bytes) => Ok(Node::Wide(bytes.clone()?)),
        Node::Float(bytes) => Ok(Node::Float(bytes.clone()?)),
        Node::Bytes(bytes) => Ok(Node::Bytes(bytes.clone()?)),
        Node::OldText(bytes) => Ok(Node::OldText(bytes.clone()?)),
        Node::Text(bytes) => Ok(Node::Text(bytes.clone()?)),
        Node::Tuple(items) => Ok(Node::Tuple(moved_numbers(alloc, by, items.as_slice())?)),
        Node::List(items) => Ok(Node::List(moved_numbers(alloc, by, items.as_slice())?)),
        Node::Dict(pairs) => Ok(Node::Dict(moved_pairs(alloc, by, pairs.as_slice())?)),
        Node::Global { module, name } => {
            let module = module.clone()?;
            let name = name.clone()?;
            Ok(Node::Global { module, name })
        }
        Node::Reference(id) => Ok(Node::Reference(moved_number(by, *id)?)),
        Node::Object {
            callee,
            arguments,
            by_new,
            acts,
        } => moved_object(alloc, by, *callee, *arguments, *by_new, acts.as_slice()),
    }
}

/// An object that names nodes with numbers greater by so many.
fn moved_object(
    alloc: Global,
    by: u32,
    callee: u32,
    arguments: u32,
    by_new: bool,
    acts: &[Act],
) -> Result<Node, AllocError>
    ensures { IfOk result
        (λ moved. moved ≡ Node.Object (by + callee) (by + arguments) by_new (map (shifted_act by) acts.now)) }
{
    let callee = moved_number(by, callee)?;
    let arguments = moved_number(by, arguments)?;
    let acts = moved_acts(alloc, by, acts)?;
    Ok(Node::Object {
        callee,
        arguments,
        by_new,
        acts,
    })
}

/// The nodes, and behind them copies of others with numbers greater by so many.
fn with_moved(
    alloc: Global,
    mut nodes: Vec<Node>,
    by: u32,
    others: &[Node],
) -> Result<Vec<Node>, AllocError>
    ensures { IfOk result (λ all. all.items ≡ nodes.items ++ map (shifted by) others.now) }
{
    for node in others {
        nodes.push(moved_node(alloc, by, node)?)?;
    }
    Ok(nodes)
}

/// How many nodes there are, where 32 bits have it.
fn count(nodes: &[Node]) -> Result<u32, AllocError>
    ensures { IfOk result (λ n. n ≡ length nodes.now) }
{
    match u32::try_from(nodes.len()) {
        Ok(number) => Ok(number),
        Err(_) => Err(AllocError),
    }
}

impl Side {
    /// No graphs.
    pub(crate) fn new(alloc: Global) -> Side
        ensures { result ≡ no_graphs }
    {
        Side {
            nodes: Vec::new(alloc),
            roots: Vec::new(alloc),
        }
    }

    /// The graphs, and one more behind them.
    #[tactic(auto, using(crate::proofs::Graphs::laid_sound))]
    pub(crate) fn lay(self, alloc: Global, graph: &Pickle) -> Result<Side, AllocError>
        ensures { IfOk result (λ all. all ≡ laid_on self graph.now) }
    {
        let Side { nodes, mut roots } = self;
        let by = count(nodes.as_slice())?;
        roots.push(moved_number(by, graph.root())?)?;
        let nodes = with_moved(alloc, nodes, by, graph.nodes().as_slice())?;
        Ok(Side { nodes, roots })
    }

    /// The tuple of the graphs.
    #[tactic(auto, using(crate::proofs::Graphs::closed_sound))]
    pub(crate) fn close(self) -> Result<Pickle, AllocError>
        ensures closed { IfOk result (λ graph. graph ≡ closed self) }
        ensures graph { IfOk result (λ graph. IsGraph graph.nodes graph.root) }
    {
        let Side { mut nodes, roots } = self;
        let root = count(nodes.as_slice())?;
        nodes.push(Node::Tuple(ListOf::from_vec(roots)))?;
        Ok(Pickle::new(ListOf::from_vec(nodes), root))
    }
}
