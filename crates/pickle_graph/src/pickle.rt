//! Graphs.

ghost use Rattle.std.specs.Prelude.{◌≡◌, ◌<◌, length};
ghost use Rattle.pickle_graph.specs.Graph.{IsGraph};

use crate::node::Node;
use std::marker::Model;
use zb_ids::ListOf;

/// A graph: its nodes, and the number of the one that stands for the whole. Every number that a node
/// names is that of a node, and each node holds what its kind says.
#[derive(Drop)]
pub struct Pickle {
    nodes: ListOf<Node>,
    root: u32,
}

impl Model for Pickle {
    ghost use Rattle.pickle_graph.specs.Graph.{Graph, IsGraph};

    ghost Value = { Graph };

    ghost view = { λ a. record { nodes = a.nodes; root = a.root } };

    ghost invariant = { λ a. IsGraph a.nodes a.root };
}

impl Pickle {
    /// The graph of these nodes with this root.
    pub fn new(nodes: ListOf<Node>, root: u32) -> Pickle
        requires graph { IsGraph nodes root }
        ensures nodes { result.nodes ≡ nodes }
        ensures root { result.root ≡ root }
    {
        Pickle { nodes, root }
    }

    /// The nodes, by number.
    pub fn nodes(&self) -> &ListOf<Node>
        ensures nodes { result.now ≡ self.now.nodes }
        ensures graph { IsGraph self.now.nodes self.now.root }
    {
        &self.nodes
    }

    /// The number of the node that stands for the whole.
    pub fn root(&self) -> u32
        ensures root { result ≡ self.now.root }
        ensures named { self.now.root < length self.now.nodes }
    {
        self.root
    }
}
