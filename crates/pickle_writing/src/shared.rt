//! Which nodes more than one edge leads to.

ghost use Rattle.std.specs.Prelude.{◌≡◌, [], ◌∷◌, OnOk};
ghost use Rattle.pickle_graph.specs.Parts.{items_in, object_parts_of, parts_of};
ghost use Rattle.pickle_writing.specs.Numbers.{with_edge, with_edges, held_among};
ghost use Rattle.pickle_writing.specs.Numbers;

use crate::node_map::NodeMap;
use pickle_graph::{Node, Part, is_held_at, part_count, part_of};
use std::alloc::AllocError;
use zb_ids::ListOf;

/// Counts one more edge to a node. Beyond two none is counted.
#[inline(always)]
pub(crate) fn count(counts: &mut NodeMap, node: u32) -> Result<(), AllocError>
    ensures { OnOk result (counts.new ≡ with_edge node counts.old) }
{
    match counts.get(node) {
        None => counts.push(node, 1),
        Some(number) => {
            if number < 2 {
                return counts.push(node, 2);
            }
            Ok(())
        }
    }
}

/// Counts one more edge to a node, if it stands once.
#[inline(always)]
fn count_held(counts: &mut NodeMap, nodes: &ListOf<Node>, node: u32) -> Result<(), AllocError>
    ensures { OnOk result (counts.new ≡ with_edges (held_among nodes.now (node ∷ [])) counts.old) }
{
    if is_held_at(nodes, node) {
        return count(counts, node);
    }
    Ok(())
}

/// Counts the edges to those items of a node that stand once.
#[inline(always)]
#[tactic(auto, using(crate::proofs::Counts::held_step))]
pub(crate) fn count_items(
    counts: &mut NodeMap,
    nodes: &ListOf<Node>,
    node: &Node,
    listed: &[Part],
) -> Result<(), AllocError>
    requires { listed.now ≡ object_parts_of node.now }
    ensures { OnOk result (counts.new ≡ with_edges (held_among nodes.now (items_in (parts_of node.now))) counts.old) }
{
    for index in 0..part_count(node, listed) {
        match part_of(node, listed, index) {
            Part::Byte(_) => {}
            Part::Item(item) => count_held(counts, nodes, item)?,
        }
    }
    Ok(())
}

/// Whether more than one edge was counted to a node.
#[inline(always)]
pub(crate) fn is_many(counts: &NodeMap, node: u32) -> bool
    ensures { result ≡ Numbers.is_many counts.now node }
{
    match counts.get(node) {
        None => false,
        Some(number) => number > 1,
    }
}
