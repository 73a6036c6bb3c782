//! How long the walks from a node are.

ghost use Rattle.std.specs.Prelude.{◌≡◌, ◌+◌, [], true, Some, None, slice_get, OnOk, IfOk, IfErr};
ghost use Rattle.pickle_writing.specs.declared.error.WriteError.TheVariants.{TooDeep};
ghost use Rattle.pickle_graph.specs.Parts.{items_in, object_parts_of, parts_of};
ghost use Rattle.pickle_graph.specs.Walks.{has_walk};
ghost use Rattle.pickle_writing.specs.Numbers.{number_of, IsMeasured, IsOpen, AllOpen, IsMeasuredSince, Measures, MeasuresAll, counted_for, IsTally, walks_in};

use crate::error::WriteError;
use crate::node_map::NodeMap;
use crate::shared::{count, count_items};
use pickle_graph::{Node, Part, is_held, listed_parts, part_count, part_of};
use std::alloc::Global;
use zb_ids::ListOf;

/// The most edges that a walk from the root of a written pickle has.
pub const WALK_LIMIT: u32 = 200;

/// The nodes that were begun, the heights of those that were measured, and the counts of the edges from these
/// to nodes that stand once, so far.
#[derive(Drop)]
pub(crate) struct Measured {
    pub begun: NodeMap,
    pub heights: NodeMap,
    pub counts: NodeMap,
}

/// A height that is known already.
#[inline(always)]
#[tactic(auto, using(crate::proofs::Heights::recalled))]
fn recall(
    nodes: &ListOf<Node>,
    node: u32,
    measured: &Measured,
    height: u64,
    levels: u64,
) -> Result<u64, WriteError>
    requires measured { IsMeasured nodes.now measured.now.heights }
    requires known { number_of node measured.now.heights ≡ Some height }
    ensures ok { IfOk result (λ h. Measures nodes.now levels measured.now.heights node measured.now.heights h) }
    ensures err { IfErr result (λ e. e ≡ TooDeep → has_walk (levels + 1) nodes.now node ≡ true) }
{
    if height > levels {
        return Err(WriteError::TooDeep);
    }
    Ok(height)
}

/// Measures the items of a node. Each walk from them may have one edge less than there are levels.
#[cycle(measuring)]
#[tactic(auto, using(crate::proofs::Heights::deep_at, crate::proofs::Heights::deep_zero, crate::proofs::Heights::all_none))]
fn measure_items(
    alloc: Global,
    measured: &mut Measured,
    nodes: &ListOf<Node>,
    node: &Node,
    listed: &[Part],
    levels: u64,
) -> Result<u64, WriteError>
    requires listed { listed.now ≡ object_parts_of node.now }
    requires measured { IsMeasured nodes.now measured.old.heights }
    requires way { AllOpen nodes.now measured.old.begun measured.old.heights (items_in (parts_of node.now)) }
    requires counted { measured.old.counts ≡ counted_for nodes.now measured.old.heights }
    ensures ok { IfOk result (λ h. MeasuresAll nodes.now levels measured.old.heights (items_in (parts_of node.now)) measured.new.heights h) }
    ensures settled { OnOk result (IsMeasuredSince measured.old.begun measured.new.begun measured.new.heights) }
    ensures counted { OnOk result (measured.new.counts ≡ counted_for nodes.now measured.new.heights) }
    ensures err { IfErr result (λ e. e ≡ TooDeep → walks_in (levels + 1) nodes.now (items_in (parts_of node.now)) ≡ true) }
{
    let mut height = 0;
    for index in 0..part_count(node, listed) {
        match part_of(node, listed, index) {
            Part::Byte(_) => {}
            Part::Item(item) => {
                if levels == 0 {
                    return Err(WriteError::TooDeep);
                }
                let below = measure(alloc, measured, nodes, item, levels - 1)?;
                if below >= height {
                    height = below + 1;
                }
            }
        }
    }
    Ok(height)
}

/// Measures a node whose height isn't known and that wasn't begun.
#[cycle(measuring)]
#[tactic(auto, using(crate::proofs::Heights::deep_node))]
fn measure_new(
    alloc: Global,
    measured: &mut Measured,
    nodes: &ListOf<Node>,
    node: u32,
    found: &Node,
    levels: u64,
) -> Result<u64, WriteError>
    requires found { slice_get nodes.now node ≡ Some found.now }
    requires measured { IsMeasured nodes.now measured.old.heights }
    requires unknown { number_of node measured.old.heights ≡ None }
    requires way { IsOpen nodes.now measured.old.begun measured.old.heights node }
    requires counted { measured.old.counts ≡ counted_for nodes.now measured.old.heights }
    ensures ok { IfOk result (λ h. Measures nodes.now levels measured.old.heights node measured.new.heights h) }
    ensures settled { OnOk result (IsMeasuredSince measured.old.begun measured.new.begun measured.new.heights) }
    ensures counted { OnOk result (measured.new.counts ≡ counted_for nodes.now measured.new.heights) }
    ensures err { IfErr result (λ e. e ≡ TooDeep → has_walk (levels + 1) nodes.now node ≡ true) }
{
    let listed = listed_parts(alloc, found)?;
    measured.begun.push(node, 0)?;
    let height = measure_items(alloc, measured, nodes, found, listed.as_slice(), levels)?;
    count_items(&mut measured.counts, nodes, found, listed.as_slice())?;
    measured.heights.push(node, height)?;
    Ok(height)
}

/// Measures a node, from which each walk may have so many edges as there are levels. A node is begun
/// once, however many edges lead to it. One that was begun and isn't measured lies on a cycle. Of a node at
/// which no edge starts nothing is kept.
#[inline(always)]
#[cycle(measuring)]
#[tactic(auto, using(crate::proofs::Heights::settled_none))]
fn measure(
    alloc: Global,
    measured: &mut Measured,
    nodes: &ListOf<Node>,
    node: u32,
    levels: u64,
) -> Result<u64, WriteError>
    requires measured { IsMeasured nodes.now measured.old.heights }
    requires way { IsOpen nodes.now measured.old.begun measured.old.heights node }
    requires counted { measured.old.counts ≡ counted_for nodes.now measured.old.heights }
    ensures ok { IfOk result (λ h. Measures nodes.now levels measured.old.heights node measured.new.heights h) }
    ensures settled { OnOk result (IsMeasuredSince measured.old.begun measured.new.begun measured.new.heights) }
    ensures counted { OnOk result (measured.new.counts ≡ counted_for nodes.now measured.new.heights) }
    ensures err { IfErr result (λ e. e ≡ TooDeep → has_walk (levels + 1) nodes.now node ≡ true) }
{
    let Some(found) = nodes.get(node as usize) else {
        return Ok(0);
    };
    if !is_held(found) {
        return Ok(0);
    }
    match measured.heights.get(node) {
        Some(height) => recall(nodes, node, measured, height, levels),
        None => match measured.begun.get(node) {
            Some(_) => Err(WriteError::TooDeep),
            None => measure_new(alloc, measured, nodes, node, found, levels),
        },
    }
}

/// How many edges lead to each node that stands once from those that a root reaches, and one more to the root.
/// Beyond two none is counted.
#[tactic(auto, using(crate::proofs::Heights::measured_none, crate::proofs::Counts::counted_none))]
pub(crate) fn measure_from(
    alloc: Global,
    nodes: &ListOf<Node>,
    root: u32,
) -> Result<NodeMap, WriteError>
    ensures ok { IfOk result (λ counts. IsTally nodes.now root counts) }
    ensures err { IfErr result (λ e. e ≡ TooDeep → has_walk (WALK_LIMIT + 1) nodes.now root ≡ true) }
{
    let mut measured = Measured {
        begun: NodeMap::new(alloc, nodes.len()),
        heights: NodeMap::new(alloc, nodes.len()),
        counts: NodeMap::new(alloc, nodes.len()),
    };
    measure(alloc, &mut measured, nodes, root, WALK_LIMIT as u64)?;
    count(&mut measured.counts, root)?;
    Ok(measured.counts)
}
