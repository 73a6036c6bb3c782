//! Nodes, as a reader of graphs keeps them.

use crate::additions::{Addition, add, in_pairs};
use crate::kept::Kept;
use crate::leaves::leaf;
use crate::state::{Extent, NodeTable, Stack};
use pickle_graph::Node;
use pickle_ops::Token;
use std::alloc::{AllocError, Global};
use zb_ids::ListOf;

impl Kept for Node {
    ghost use Rattle.pickle_reading.specs.Nodes.{nodes};

    type Values = ListOf<u32>;

    type Addition = Addition;

    ghost keeping = { nodes };

    #[inline(always)]
    fn leaf(alloc: Global, token: Token, bytes: &[u8]) -> Result<Option<Node>, AllocError> {
        leaf(alloc, token, bytes)
    }

    fn taken(
        alloc: Global,
        stack: &mut Stack,
        extent: Extent,
    ) -> Result<Option<ListOf<u32>>, AllocError> {
        stack.take(alloc, extent)
    }

    fn tuple(_nodes: &NodeTable<Node>, values: ListOf<u32>) -> Node {
        Node::Tuple(values)
    }

    fn values(values: ListOf<u32>) -> Addition {
        Addition::Values(values)
    }

    fn pairs(alloc: Global, values: ListOf<u32>) -> Result<Option<Addition>, AllocError> {
        match in_pairs(alloc, values.as_slice())? {
            Some(pairs) => Ok(Some(Addition::Pairs(pairs))),
            None => Ok(None),
        }
    }

    fn state(number: u32) -> Addition {
        Addition::State(number)
    }

    #[tactic(auto, using(crate::proofs::Sets::set_twice))]
    fn add(
        nodes: &mut NodeTable<Node>,
        number: u32,
        addition: Addition,
    ) -> Result<bool, AllocError> {
        if number as usize >= nodes.len() {
            return Ok(false);
        }
        let node = nodes.replace(number, Node::None);
        let Some(changed) = add(node, addition)? else {
            return Ok(false);
        };
        let _ = nodes.replace(number, changed);
        Ok(true)
    }

    fn is_tuple(nodes: &NodeTable<Node>, number: u32) -> bool {
        match nodes.get(number) {
            Some(Node::Tuple(_)) => true,
            _ => false,
        }
    }

    fn object(alloc: Global, callee: u32, arguments: u32, by_new: bool) -> Node {
        Node::Object {
            callee,
            arguments,
            by_new,
            acts: ListOf::new(alloc),
        }
    }

    fn reference(id: u32) -> Node {
        Node::Reference(id)
    }
}
