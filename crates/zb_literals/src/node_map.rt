//! Numbers kept by node.

ghost use Rattle.std.specs.Prelude.{◌≡◌, [], ◌∷◌, reverse, length, IfOk};
ghost use Rattle.pickle_writing.specs.Numbers.{number_of};

use std::alloc::{AllocError, Global};
use std::collections::BTreeMap;
use std::marker::Model;

/// Numbers, each kept for a node. Contracts see the nodes with their numbers, the newest first.
#[derive(Drop)]
pub(crate) struct NodeMap {
    numbers: BTreeMap<u32, u64>,
    pairs: Vec<(u32, u64)>,
}

impl Model for NodeMap {
    ghost use Rattle.std.specs.Prelude.{List, ℕ, ◌≡◌, reverse};
    ghost use Rattle.std.specs.Ordering.{nat_cmp};
    ghost use Rattle.std.specs.BTreeMap.{get};
    ghost use Rattle.pickle_writing.specs.Numbers.{number_of};

    ghost Value = { List (ℕ × ℕ) };

    ghost view = { λ map. reverse map.pairs.items };

    ghost invariant = { λ map. (node : ℕ) → get nat_cmp map.numbers node ≡ number_of node (reverse map.pairs.items) };
}

impl NodeMap {
    /// No numbers.
    pub fn new(alloc: Global) -> NodeMap
        ensures { result ≡ [] }
    {
        NodeMap {
            numbers: BTreeMap::new(alloc),
            pairs: Vec::new(alloc),
        }
    }

    /// The number kept last for a node.
    pub fn get(&self, node: u32) -> Option<u64>
        ensures { result ≡ number_of node self.now }
    {
        self.numbers.get(&node).copied()
    }

    /// How many numbers were kept.
    pub fn len(&self) -> usize
        ensures { result ≡ length self.now }
    {
        self.pairs.len()
    }

    /// The numbers with one more, which is kept for a node.
    pub fn with(self, node: u32, number: u64) -> Result<NodeMap, AllocError>
        ensures { IfOk result (λ more. more ≡ (node, number) ∷ self) }
    {
        let NodeMap {
            mut numbers,
            mut pairs,
        } = self;
        numbers.insert(node, number)?;
        pairs.push((node, number))?;
        Ok(NodeMap { numbers, pairs })
    }
}
