//! What the text of a node with items is made of.

ghost use Rattle.std.specs.Prelude.{◌≡◌, ◌<◌, [], ◌∷◌, ◌++◌, IfOk, length, slice_get, slice_index_or};
ghost use Rattle.pickle_graph.specs.Parts.{item_parts, pair_parts, act_parts, many_parts, tuple_parts, list_parts, dict_parts, object_parts, object_parts_of, parts_of, held_in};
ghost use Rattle.pickle_graph.specs.Parts;

use crate::node::{Act, Node};
use std::alloc::{AllocError, Global};
use zb_ids::ListOf;

/// A part of the text of a node with items.
#[derive(Clone, Copy, Debug, PartialEq, Eq)]
pub enum Part {
    /// A byte that stands there itself.
    Byte(u8),
    /// The place of the text of an item, which is a node.
    Item(u32),
}

/// Whether a node stands once, whichever edges lead to it. Leaves and the empty tuple don't.
#[inline(always)]
pub fn is_held(node: &Node) -> bool
    ensures { result ≡ Parts.is_held node.now }
{
    match node {
        Node::Tuple(items) => !items.is_empty(),
        Node::List(_) | Node::Dict(_) | Node::Reference(_) | Node::Object { .. } => true,
        _ => false,
    }
}

/// Whether the node of a number stands once, whichever edges lead to it.
#[inline(always)]
pub fn is_held_at(nodes: &ListOf<Node>, node: u32) -> bool
    ensures { result ≡ held_in (slice_get nodes.now node) }
{
    match nodes.get(node as usize) {
        Some(found) => is_held(found),
        None => false,
    }
}

/// These parts.
fn few(alloc: Global, parts: &[Part]) -> Result<ListOf<Part>, AllocError>
    ensures { IfOk result (λ list. list ≡ parts.now) }
{
    Ok(ListOf::from_vec(Vec::from_slice(alloc, parts)?))
}

/// The parts, and behind them an act.
fn with_act(mut parts: Vec<Part>, act: Act) -> Result<Vec<Part>, AllocError>
    ensures { IfOk result (λ all. all.items ≡ parts.items ++ act_parts (act ∷ [])) }
{
    match act {
        Act::Append(value) => {
            parts.push(Part::Item(value))?;
            parts.push(Part::Byte(0x61))?;
        }
        Act::Set(key, value) => {
            parts.push(Part::Item(key))?;
            parts.push(Part::Item(value))?;
            parts.push(Part::Byte(0x73))?;
        }
        Act::Build(state) => {
            parts.push(Part::Item(state))?;
            parts.push(Part::Byte(0x62))?;
        }
    }
    Ok(parts)
}

/// The parts, and behind them acts.
fn with_acts(parts: ListOf<Part>, acts: &[Act]) -> Result<ListOf<Part>, AllocError>
    ensures { IfOk result (λ all. all ≡ parts ++ act_parts acts.now) }
{
    let mut all = parts.into_vec();
    for act in acts {
        all = with_act(all, *act)?;
    }
    Ok(ListOf::from_vec(all))
}

/// A part of items that stand above a mark, with an opcode behind them.
#[inline(always)]
#[tactic(auto, using(crate::proofs::PartPlaces::item_above, crate::proofs::PartPlaces::items_end))]
fn many_part(items: &[u32], byte: u8, index: usize) -> Part
    requires { index < length (many_parts (item_parts items.now) byte) }
    ensures { slice_index_or (many_parts (item_parts items.now) byte) index result ≡ result }
{
    if index == 0 {
        return Part::Byte(0x28);
    }
    let place = index - 1;
    if place < items.len() {
        return Part::Item(items[place]);
    }
    Part::Byte(byte)
}

/// A part of keys and values that stand above a mark.
#[inline(always)]
#[tactic(auto, using(crate::proofs::PartPlaces::key_above, crate::proofs::PartPlaces::value_above, crate::proofs::PartPlaces::pairs_end))]
fn many_pair_part(pairs: &[(u32, u32)], index: usize) -> Part
    requires { index < length (many_parts (pair_parts pairs.now) 0x75) }
    ensures { slice_index_or (many_parts (pair_parts pairs.now) 0x75) index result ≡ result }
{
    if index == 0 {
        return Part::Byte(0x28);
    }
    let place = (index - 1) / 2;
    if place >= pairs.len() {
        return Part::Byte(0x75);
    }
    if index % 2 == 1 {
        return Part::Item(pairs[place].0);
    }
    Part::Item(pairs[place].1)
}

/// How many parts a tuple has.
#[inline(always)]
#[tactic(auto, using(crate::proofs::PartPlaces::items_length))]
fn tuple_count(items: &[u32]) -> usize
    ensures { result ≡ length (tuple_parts items.now) }
{
    match items {
        [] => 0,
        [_] => 2,
        [_, _] => 3,
        [_, _, _] => 4,
        _ => items.len() + 2,
    }
}

/// A part of a tuple.
#[inline(always)]
fn tuple_part(items: &[u32], index: usize) -> Part
    requires { index < length (tuple_parts items.now) }
    ensures { slice_index_or (tuple_parts items.now) index result ≡ result }
{
    match items {
        [] => Part::Byte(0x29),
        [a] => match index {
            0 => Part::Item(*a),
            _ => Part::Byte(0x85),
        },
        [a, b] => match index {
            0 => Part::Item(*a),
            1 => Part::Item(*b),
            _ => Part::Byte(0x86),
        },
        [a, b, c] => match index {
            0 => Part::Item(*a),
            1 => Part::Item(*b),
            2 => Part::Item(*c),
            _ => Part::Byte(0x87),
        },
        _ => many_part(items, 0x74, index),
    }
}

/// How many parts a list has.
#[inline(always)]
#[tactic(auto, using(crate::proofs::PartPlaces::items_length))]
fn list_count(items: &[u32]) -> usize
    ensures { result ≡ length (list_parts items.now) }
{
    match items {
        [] => 1,
        [_] => 3,
        _ => items.len() + 3,
    }
}

/// A part of a list.
#[inline(always)]
fn list_part(items: &[u32], index: usize) -> Part
    requires { index < length (list_parts items.now) }
    ensures { slice_index_or (list_parts items.now) index result ≡ result }
{
    match items {
        [] => Part::Byte(0x5d),
        [a] => match index {
            0 => Part::Byte(0x5d),
            1 => Part::Item(*a),
            _ => Part::Byte(0x61),
        },
        _ => {
            if index == 0 {
                return Part::Byte(0x5d);
            }
            many_part(items, 0x65, index - 1)
        }
    }
}

/// How many parts a dictionary has.
#[inline(always)]
#[tactic(auto, using(crate::proofs::PartPlaces::pairs_length))]
fn dict_count(pairs: &[(u32, u32)]) -> usize
    ensures { result ≡ length (dict_parts pairs.now) }
{
    match pairs {
        [] => 1,
        [_] => 4,
        _ => 2 * pairs.len() + 3,
    }
}

/// A part of a dictionary.
#[inline(always)]
fn dict_part(pairs: &[(u32, u32)], index: usize) -> Part
    requires { index < length (dict_parts pairs.now) }
    ensures { slice_index_or (dict_parts pairs.now) index result ≡ result }
{
    match pairs {
        [] => Part::Byte(0x7d),
        [pair] => match index {
            0 => Part::Byte(0x7d),
            1 => Part::Item(pair.0),
            2 => Part::Item(pair.1),
            _ => Part::Byte(0x73),
        },
        _ => {
            if index == 0 {
                return Part::Byte(0x7d);
            }
            many_pair_part(pairs, index - 1)
        }
    }
}

/// The parts of an object.
fn object(
    alloc: Global,
    callee: u32,
    arguments: u32,
    by_new: bool,
    acts: &[Act],
) -> Result<ListOf<Part>, AllocError>
    ensures { IfOk result (λ parts. parts ≡ object_parts callee arguments by_new acts.now) }
{
    let byte = if by_new { 0x81 } else { 0x52 };
    let parts = few(
        alloc,
        &[Part::Item(callee), Part::Item(arguments), Part::Byte(byte)],
    )?;
    with_acts(parts, acts)
}

/// The parts of an object as a list. Those of other nodes need none, and the list is empty.
pub fn listed_parts(alloc: Global, node: &Node) -> Result<ListOf<Part>, AllocError>
    ensures { IfOk result (λ listed. listed ≡ object_parts_of node.now) }
{
    match node {
        Node::Object {
            callee,
            arguments,
            by_new,
            acts,
        } => object(alloc, *callee, *arguments, *by_new, acts.as_slice()),
        _ => Ok(ListOf::new(alloc)),
    }
}

/// How many parts a node has. A leaf has none.
#[inline(always)]
pub fn part_count(node: &Node, listed: &[Part]) -> usize
    requires { listed.now ≡ object_parts_of node.now }
    ensures { result ≡ length (parts_of node.now) }
{
    match node {
        Node::Tuple(items) => tuple_count(items.as_slice()),
        Node::List(items) => list_count(items.as_slice()),
        Node::Dict(pairs) => dict_count(pairs.as_slice()),
        Node::Reference(_) => 2,
        Node::Object { .. } => listed.len(),
        _ => 0,
    }
}

/// A part of a node.
#[inline(always)]
pub fn part_of(node: &Node, listed: &[Part], index: usize) -> Part
    requires listed { listed.now ≡ object_parts_of node.now }
    requires inside { index < length (parts_of node.now) }
    ensures { slice_index_or (parts_of node.now) index result ≡ result }
{
    match node {
        Node::Tuple(items) => tuple_part(items.as_slice(), index),
        Node::List(items) => list_part(items.as_slice(), index),
        Node::Dict(pairs) => dict_part(pairs.as_slice(), index),
        Node::Reference(id) => match index {
            0 => Part::Item(*id),
            _ => Part::Byte(0x51),
        },
        Node::Object { .. } => listed[index],
        _ => Part::Byte(0x29),
    }
}
