//! Reading literals.

ghost use Rattle.std.specs.Prelude.{◌≡◌, ◌+◌, [], false, IfOk, IfErr};
ghost use Rattle.pickle_graph.specs.Walks.{has_walk};
ghost use Rattle.literal_reading.specs.declared.error.LiteralError.TheVariants.{Memory};
ghost use Rattle.zb_literals.specs.Graphs;
ghost use Rattle.literal_reading.specs.Literals.{IsLiteral};
ghost use Rattle.zb_literals.specs.Values.{Value, IsValue, literal_text};
ghost use Rattle.literal_reading.specs.Reading.{ReadsLiteral, plain_form, pair_form, leaf_found, item_at, pair_at, values_at, pairs_at, tuple_rest_at, tuple_at, list_at, dict_at, reference_at, address_at, shape_at, value_at, literal_at};

use crate::error::LiteralError;
use crate::form::Form;
use crate::leaves::{begins_number, eight_of, form_of, global_of, leaf_of};
use crate::words::{after, behind};
use pickle_graph::{Node, Pickle};
use pickle_writing::WALK_LIMIT;
use std::alloc::Global;
use zb_ids::{ListOf, Text8};

/// The number of the last node.
fn last_of(nodes: &ListOf<Node>) -> Result<u32, LiteralError>
    ensures ok { IfOk result (λ number. number ≡ Graphs.last_of nodes.now) }
    ensures err { IfErr result (λ e. e ≡ Memory) }
{
    match u32::try_from(nodes.len().saturating_sub(1)) {
        Ok(number) => Ok(number),
        Err(_) => Err(LiteralError::Memory),
    }
}

fn plain() -> Form
    ensures { result ≡ plain_form }
{
    Form {
        oid: false,
        global: false,
        short: false,
    }
}

/// What a tuple of two can be in a reference.
fn pair(one: Form, other: Form) -> Form
    ensures { result ≡ pair_form one other }
{
    Form {
        oid: false,
        global: false,
        short: one.oid && other.global,
    }
}

/// A value without items.
#[tactic(auto, unfolding(crate::specs::Reading::leaf_found))]
fn found_leaf<'a>(
    alloc: Global,
    mut nodes: ListOf<Node>,
    bytes: &'a [u8],
) -> Result<(ListOf<Node>, Form, &'a [u8]), LiteralError>
    ensures { ReadsLiteral (λ x. (x.0, x.1, x.2.now)) result (leaf_found nodes bytes.now) }
{
    let (leaf, rest) = leaf_of(alloc, bytes)?;
    let form = form_of(&leaf);
    nodes.push(leaf)?;
    Ok((nodes, form, rest))
}

/// One more item.
#[cycle(reading)]
#[tactic(auto, unfolding(crate::specs::Reading::item_at))]
fn item_of<'a>(
    alloc: Global,
    nodes: ListOf<Node>,
    mut items: ListOf<u32>,
    bytes: &'a [u8],
    levels: u32,
) -> Result<(ListOf<Node>, ListOf<u32>, &'a [u8]), LiteralError>
    ensures { ReadsLiteral (λ x. (x.0, x.1, x.2.now)) result (item_at (value_at levels) nodes items bytes.now) }
{
    let (nodes, _, rest) = value_of(alloc, nodes, bytes, levels)?;
    let item = last_of(&nodes)?;
    items.push(item)?;
    Ok((nodes, items, rest))
}

/// One more key and value.
#[cycle(reading)]
#[tactic(auto, unfolding(crate::specs::Reading::pair_at))]
fn pair_of<'a>(
    alloc: Global,
    nodes: ListOf<Node>,
    mut pairs: ListOf<(u32, u32)>,
    bytes: &'a [u8],
    levels: u32,
) -> Result<(ListOf<Node>, ListOf<(u32, u32)>, &'a [u8]), LiteralError>
    ensures { ReadsLiteral (λ x. (x.0, x.1, x.2.now)) result (pair_at (value_at levels) nodes pairs bytes.now) }
{
    let (nodes, _, rest) = value_of(alloc, nodes, bytes, levels)?;
    let key = last_of(&nodes)?;
    let rest = behind(b":", rest)?;
    let (nodes, _, rest) = value_of(alloc, nodes, rest, levels)?;
    let value = last_of(&nodes)?;
    pairs.push((key, value))?;
    Ok((nodes, pairs, rest))
}

/// Further items, each behind a comma.
#[cycle(reading)]
#[tactic(auto)]
fn items_of<'a>(
    alloc: Global,
    mut nodes: ListOf<Node>,
    mut items: ListOf<u32>,
    bytes: &'a [u8],
    levels: u32,
) -> Result<(ListOf<Node>, ListOf<u32>, &'a [u8]), LiteralError>
    ensures { ReadsLiteral (λ x. (x.0, x.1, x.2.now)) result (values_at (value_at levels) nodes items bytes.now) }
{
    let mut rest = bytes;
    'items: loop {
        let Some(next) = after(b",", rest) else {
            return Ok((nodes, items, rest));
        };
        let more = item_of(alloc, nodes, items, next, levels)?;
        nodes = more.0;
        items = more.1;
        rest = more.2;
    }
}

/// Further keys and values, each behind a comma.
#[cycle(reading)]
#[tactic(auto)]
fn pairs_of<'a>(
    alloc: Global,
    mut nodes: ListOf<Node>,
    mut pairs: ListOf<(u32, u32)>,
    bytes: &'a [u8],
    levels: u32,
) -> Result<(ListOf<Node>, ListOf<(u32, u32)>, &'a [u8]), LiteralError>
    ensures { ReadsLiteral (λ x. (x.0, x.1, x.2.now)) result (pairs_at (value_at levels) nodes pairs bytes.now) }
{
    let mut rest = bytes;
    'pairs: loop {
        let Some(next) = after(b",", rest) else {
            return Ok((nodes, pairs, rest));
        };
        let more = pair_of(alloc, nodes, pairs, next, levels)?;
        nodes = more.0;
        pairs = more.1;
        rest = more.2;
    }
}

/// A tuple, behind its first item and the comma.
#[cycle(reading)]
#[tactic(auto, unfolding(crate::specs::Reading::tuple_rest_at, crate::specs::Reading::rest_behind))]
fn tuple_rest_of<'a>(
    alloc: Global,
    mut nodes: ListOf<Node>,
    form: Form,
    bytes: &'a [u8],
    levels: u32,
) -> Result<(ListOf<Node>, Form, &'a [u8]), LiteralError>
    ensures { ReadsLiteral (λ x. (x.0, x.1, x.2.now)) result (tuple_rest_at (value_at levels) nodes form bytes.now) }
{
    let first = last_of(&nodes)?;
    let mut items = ListOf::new(alloc);
    items.push(first)?;
    if let Some(rest) = bytes.strip_prefix(b")") {
        nodes.push(Node::Tuple(items))?;
        return Ok((nodes, plain(), rest));
    }
    let (nodes, second, rest) = value_of(alloc, nodes, bytes, levels)?;
    let number = last_of(&nodes)?;
    items.push(number)?;
    let (mut nodes, items, rest) = items_of(alloc, nodes, items, rest, levels)?;
    let rest = behind(b")", rest)?;
    let whole = if items.len() == 2 {
        pair(form, second)
    } else {
        plain()
    };
    nodes.push(Node::Tuple(items))?;
    Ok((nodes, whole, rest))
}

/// A tuple, behind its `(`.
#[cycle(reading)]
#[tactic(auto, unfolding(crate::specs::Reading::tuple_at, crate::specs::Reading::rest_behind))]
fn tuple_of<'a>(
    alloc: Global,
    mut nodes: ListOf<Node>,
    bytes: &'a [u8],
    levels: u32,
) -> Result<(ListOf<Node>, Form, &'a [u8]), LiteralError>
    ensures { ReadsLiteral (λ x. (x.0, x.1, x.2.now)) result (tuple_at (value_at levels) nodes bytes.now) }
{
    if let Some(rest) = bytes.strip_prefix(b")") {
        nodes.push(Node::Tuple(ListOf::new(alloc)))?;
        return Ok((nodes, plain(), rest));
    }
    let (nodes, form, rest) = value_of(alloc, nodes, bytes, levels)?;
    let rest = behind(b",", rest)?;
    tuple_rest_of(alloc, nodes, form, rest, levels)
}

/// A list, behind its `[`.
#[cycle(reading)]
#[tactic(auto, unfolding(crate::specs::Reading::list_at, crate::specs::Reading::rest_behind))]
fn list_of<'a>(
    alloc: Global,
    mut nodes: ListOf<Node>,
    bytes: &'a [u8],
    levels: u32,
) -> Result<(ListOf<Node>, Form, &'a [u8]), LiteralError>
    ensures { ReadsLiteral (λ x. (x.0, x.1, x.2.now)) result (list_at (value_at levels) nodes bytes.now) }
{
    if let Some(rest) = bytes.strip_prefix(b"]") {
        nodes.push(Node::List(ListOf::new(alloc)))?;
        return Ok((nodes, plain(), rest));
    }
    let (nodes, items, rest) = item_of(alloc, nodes, ListOf::new(alloc), bytes, levels)?;
    let (mut nodes, items, rest) = items_of(alloc, nodes, items, rest, levels)?;
    let rest = behind(b"]", rest)?;
    nodes.push(Node::List(items))?;
    Ok((nodes, plain(), rest))
}

/// A dictionary, behind its `{`.
#[cycle(reading)]
#[tactic(auto, unfolding(crate::specs::Reading::dict_at, crate::specs::Reading::rest_behind))]
fn dict_of<'a>(
    alloc: Global,
    mut nodes: ListOf<Node>,
    bytes: &'a [u8],
    levels: u32,
) -> Result<(ListOf<Node>, Form, &'a [u8]), LiteralError>
    ensures { ReadsLiteral (λ x. (x.0, x.1, x.2.now)) result (dict_at (value_at levels) nodes bytes.now) }
{
    if let Some(rest) = bytes.strip_prefix(b"}") {
        nodes.push(Node::Dict(ListOf::new(alloc)))?;
        return Ok((nodes, plain(), rest));
    }
    let (nodes, pairs, rest) = pair_of(alloc, nodes, ListOf::new(alloc), bytes, levels)?;
    let (mut nodes, pairs, rest) = pairs_of(alloc, nodes, pairs, rest, levels)?;
    let rest = behind(b"}", rest)?;
    nodes.push(Node::Dict(pairs))?;
    Ok((nodes, plain(), rest))
}

/// A reference, behind its `ref(`.
#[cycle(reading)]
#[tactic(auto, unfolding(crate::specs::Reading::reference_at))]
fn reference_of<'a>(
    alloc: Global,
    nodes: ListOf<Node>,
    bytes: &'a [u8],
    levels: u32,
) -> Result<(ListOf<Node>, Form, &'a [u8]), LiteralError>
    ensures { ReadsLiteral (λ x. (x.0, x.1, x.2.now)) result (reference_at (value_at levels) nodes bytes.now) }
{
    let (mut nodes, form, rest) = value_of(alloc, nodes, bytes, levels)?;
    let rest = behind(b")", rest)?;
    if form.short {
        return Err(LiteralError::NotLiteral);
    }
    let id = last_of(&nodes)?;
    nodes.push(Node::Reference(id))?;
    Ok((nodes, plain(), rest))
}

/// A reference, behind its `@`. So many edges may lead on from it.
#[tactic(auto, unfolding(crate::specs::Reading::address_at, crate::specs::Reading::rest_behind))]
fn address_of<'a>(
    alloc: Global,
    mut nodes: ListOf<Node>,
    bytes: &'a [u8],
    levels: u32,
) -> Result<(ListOf<Node>, Form, &'a [u8]), LiteralError>
    ensures { ReadsLiteral (λ x. (x.0, x.1, x.2.now)) result (address_at levels nodes bytes.now) }
{
    let (oid, rest) = eight_of(alloc, bytes)?;
    if let Some(behind_oid) = rest.strip_prefix(b"<") {
        if levels < 2 {
            return Err(LiteralError::NotLiteral);
        }
        let (class, rest) = global_of(alloc, behind_oid)?;
        nodes.push(Node::Bytes(oid))?;
        let first = last_of(&nodes)?;
        nodes.push(class)?;
        let second = last_of(&nodes)?;
        let items = Vec::from_slice(alloc, &[first, second])?;
        nodes.push(Node::Tuple(ListOf::from_vec(items)))?;
        let id = last_of(&nodes)?;
        nodes.push(Node::Reference(id))?;
        return Ok((nodes, plain(), rest));
    }
    if levels < 1 {
        return Err(LiteralError::NotLiteral);
    }
    nodes.push(Node::Bytes(oid))?;
    let id = last_of(&nodes)?;
    nodes.push(Node::Reference(id))?;
    Ok((nodes, plain(), rest))
}

/// A value that is no number.
#[cycle(reading)]
#[tactic(auto, unfolding(crate::specs::Reading::shape_at, crate::specs::Reading::rest_behind))]
fn shape_of<'a>(
    alloc: Global,
    nodes: ListOf<Node>,
    bytes: &'a [u8],
    levels: u32,
) -> Result<(ListOf<Node>, Form, &'a [u8]), LiteralError>
    ensures { ReadsLiteral (λ x. (x.0, x.1, x.2.now)) result (shape_at levels (value_at levels) nodes bytes.now) }
{
    if let Some(rest) = bytes.strip_prefix(b"(") {
        tuple_of(alloc, nodes, rest, levels)
    } else if let Some(rest) = bytes.strip_prefix(b"[") {
        list_of(alloc, nodes, rest, levels)
    } else if let Some(rest) = bytes.strip_prefix(b"{") {
        dict_of(alloc, nodes, rest, levels)
    } else if let Some(rest) = bytes.strip_prefix(b"ref(") {
        reference_of(alloc, nodes, rest, levels)
    } else if let Some(rest) = bytes.strip_prefix(b"@") {
        address_of(alloc, nodes, rest, levels)
    } else {
        found_leaf(alloc, nodes, bytes)
    }
}

/// A value from which each walk has fewer edges than there are levels.
#[cycle(reading)]
#[tactic(auto, unfolding(crate::specs::Reading::value_at))]
fn value_of<'a>(
    alloc: Global,
    nodes: ListOf<Node>,
    bytes: &'a [u8],
    levels: u32,
) -> Result<(ListOf<Node>, Form, &'a [u8]), LiteralError>
    ensures { ReadsLiteral (λ x. (x.0, x.1, x.2.now)) result (value_at levels nodes bytes.now) }
{
    if levels == 0 {
        return Err(LiteralError::NotLiteral);
    }
    if begins_number(bytes) {
        return found_leaf(alloc, nodes, bytes);
    }
    shape_of(alloc, nodes, bytes, levels - 1)
}

/// The nodes of the value that all of the bytes spell.
#[tactic(auto, unfolding(crate::specs::Reading::literal_at))]
fn nodes_of(alloc: Global, bytes: &[u8]) -> Result<ListOf<Node>, LiteralError>
    ensures { ReadsLiteral (λ nodes. nodes) result (literal_at (WALK_LIMIT + 1) bytes.now) }
{
    let (nodes, _, rest) = value_of(alloc, ListOf::new(alloc), bytes, WALK_LIMIT + 1)?;
    if !rest.is_empty() {
        return Err(LiteralError::NotLiteral);
    }
    Ok(nodes)
}

/// The graph of the value that the bytes spell. Each value has one literal: other bytes are `NotLiteral`,
/// and so is the literal of a value at which a walk of more than [`WALK_LIMIT`] edges starts. The graph has
/// no object and shares no node, and writing it is never too deep.
pub fn read_literal(alloc: Global, bytes: &[u8]) -> Result<Pickle, LiteralError>
    // What is read is spelled so.
    ensures found { IfOk result (λ graph. IsLiteral bytes.now graph) }

    // What is spelled so is read, unless memory runs out.
    ensures only { (tree : Value) → IsValue (WALK_LIMIT + 1) tree → bytes.now ≡ literal_text tree → ReadsLiteral (λ graph. graph) result (Some (Graphs.graph_of tree)) }

    // What is read can be written.
    ensures shallow { IfOk result (λ graph. has_walk (WALK_LIMIT + 1) graph.nodes graph.root ≡ false) }
{
    let nodes = nodes_of(alloc, bytes)?;
    let root = last_of(&nodes)?;
    Ok(Pickle::new(nodes, root))
}
