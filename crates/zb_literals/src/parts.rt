//! What the literal of a node with items is made of.

ghost use Rattle.std.specs.Prelude.{◌≡◌, [], ◌∷◌, ◌++◌, IfOk, OnOk, None, Some, is_some, slice_get};
ghost use Rattle.zb_ids.specs.Hex.{hex_text};
ghost use Rattle.zb_literals.specs.Values.{leaf_oid, leaf_global, digits_of};
ghost use Rattle.zb_literals.specs.Printing.{bytes_parts, more_parts, more_pair_parts, tuple_marks, list_marks, dict_marks, act_marks, object_marks, made_text, oid_at, class_at, both_texts, pair_short, id_short, reference_parts, text_behind, short_print};

use crate::hexadecimal::push_digits;
use crate::texts::push_global;
use pickle_graph::{Act, Node};
use std::alloc::{AllocError, Global};
use zb_ids::ListOf;

/// A part of the literal of a node with items.
#[derive(Clone, Copy, Debug, PartialEq, Eq)]
pub(crate) enum Part {
    /// A byte that stands there itself.
    Byte(u8),
    /// The place of the literal of an item, which is a node.
    Item(u32),
}

/// The parts, and behind them bytes.
fn with_bytes(mut parts: Vec<Part>, bytes: &[u8]) -> Result<Vec<Part>, AllocError>
    ensures { IfOk result (λ all. all.items ≡ parts.items ++ bytes_parts bytes.now) }
{
    for byte in bytes {
        parts.push(Part::Byte(*byte))?;
    }
    Ok(parts)
}

/// The parts, and behind them items, each behind a comma.
fn with_items(mut parts: Vec<Part>, items: &[u32]) -> Result<Vec<Part>, AllocError>
    ensures { IfOk result (λ all. all.items ≡ parts.items ++ more_parts items.now) }
{
    for item in items {
        parts.push(Part::Byte(b','))?;
        parts.push(Part::Item(*item))?;
    }
    Ok(parts)
}

/// The parts, and behind them keys and values, each pair behind a comma.
fn with_pairs(mut parts: Vec<Part>, pairs: &[(u32, u32)]) -> Result<Vec<Part>, AllocError>
    ensures { IfOk result (λ all. all.items ≡ parts.items ++ more_pair_parts pairs.now) }
{
    for pair in pairs {
        parts.push(Part::Byte(b','))?;
        parts.push(Part::Item(pair.0))?;
        parts.push(Part::Byte(b':'))?;
        parts.push(Part::Item(pair.1))?;
    }
    Ok(parts)
}

/// The parts, and behind them an act.
fn with_act(mut parts: Vec<Part>, act: Act) -> Result<Vec<Part>, AllocError>
    ensures { IfOk result (λ all. all.items ≡ parts.items ++ act_marks (act ∷ [])) }
{
    match act {
        Act::Append(value) => {
            parts.push(Part::Byte(b'+'))?;
            parts.push(Part::Item(value))?;
            Ok(parts)
        }
        Act::Set(key, value) => {
            parts.push(Part::Byte(b'+'))?;
            parts.push(Part::Byte(b'{'))?;
            parts.push(Part::Item(key))?;
            parts.push(Part::Byte(b':'))?;
            parts.push(Part::Item(value))?;
            parts.push(Part::Byte(b'}'))?;
            Ok(parts)
        }
        Act::Build(state) => {
            let mut parts = with_bytes(parts, b"+build(")?;
            parts.push(Part::Item(state))?;
            parts.push(Part::Byte(b')'))?;
            Ok(parts)
        }
    }
}

/// The parts, and behind them acts.
#[tactic(auto, using(crate::proofs::PrintLaws::acts_step))]
fn with_acts(mut parts: Vec<Part>, acts: &[Act]) -> Result<Vec<Part>, AllocError>
    ensures { IfOk result (λ all. all.items ≡ parts.items ++ act_marks acts.now) }
{
    for act in acts {
        parts = with_act(parts, *act)?;
    }
    Ok(parts)
}

/// The parts of a tuple.
pub(crate) fn tuple(alloc: Global, items: &[u32]) -> Result<Vec<Part>, AllocError>
    ensures { IfOk result (λ parts. parts.items ≡ tuple_marks items.now) }
{
    match items {
        [] => Vec::from_slice(alloc, &[Part::Byte(b'('), Part::Byte(b')')]),
        [a] => Vec::from_slice(
            alloc,
            &[
                Part::Byte(b'('),
                Part::Item(*a),
                Part::Byte(b','),
                Part::Byte(b')'),
            ],
        ),
        [a, rest @ ..] => {
            let parts = Vec::from_slice(alloc, &[Part::Byte(b'('), Part::Item(*a)])?;
            let mut parts = with_items(parts, rest)?;
            parts.push(Part::Byte(b')'))?;
            Ok(parts)
        }
    }
}

/// The parts of a list.
pub(crate) fn list(alloc: Global, items: &[u32]) -> Result<Vec<Part>, AllocError>
    ensures { IfOk result (λ parts. parts.items ≡ list_marks items.now) }
{
    match items {
        [] => Vec::from_slice(alloc, &[Part::Byte(b'['), Part::Byte(b']')]),
        [a, rest @ ..] => {
            let parts = Vec::from_slice(alloc, &[Part::Byte(b'['), Part::Item(*a)])?;
            let mut parts = with_items(parts, rest)?;
            parts.push(Part::Byte(b']'))?;
            Ok(parts)
        }
    }
}

/// The parts of a dictionary.
pub(crate) fn dict(alloc: Global, pairs: &[(u32, u32)]) -> Result<Vec<Part>, AllocError>
    ensures { IfOk result (λ parts. parts.items ≡ dict_marks pairs.now) }
{
    match pairs {
        [] => Vec::from_slice(alloc, &[Part::Byte(b'{'), Part::Byte(b'}')]),
        [pair, rest @ ..] => {
            let parts = Vec::from_slice(
                alloc,
                &[
                    Part::Byte(b'{'),
                    Part::Item(pair.0),
                    Part::Byte(b':'),
                    Part::Item(pair.1),
                ],
            )?;
            let mut parts = with_pairs(parts, rest)?;
            parts.push(Part::Byte(b'}'))?;
            Ok(parts)
        }
    }
}

/// How the literal of an object begins.
fn made(alloc: Global, by_new: bool) -> Result<Vec<Part>, AllocError>
    ensures { IfOk result (λ parts. parts.items ≡ bytes_parts (made_text by_new)) }
{
    if by_new {
        return with_bytes(Vec::new(alloc), b"[[new(");
    }
    with_bytes(Vec::new(alloc), b"[[call(")
}

/// The parts of an object.
pub(crate) fn object(
    alloc: Global,
    callee: u32,
    arguments: u32,
    by_new: bool,
    acts: &[Act],
) -> Result<Vec<Part>, AllocError>
    ensures { IfOk result (λ parts. parts.items ≡ object_marks callee arguments by_new acts.now) }
{
    let mut parts = made(alloc, by_new)?;
    parts.push(Part::Item(callee))?;
    parts.push(Part::Byte(b','))?;
    parts.push(Part::Item(arguments))?;
    parts.push(Part::Byte(b')'))?;
    let mut parts = with_acts(parts, acts)?;
    parts.push(Part::Byte(b']'))?;
    parts.push(Part::Byte(b']'))?;
    Ok(parts)
}

/// Puts `@` and the digits of an oid at the end and answers `true`, or puts nothing and answers
/// `false` for another node.
fn push_oid(out: &mut Vec<u8>, node: &Node) -> Result<bool, AllocError>
    ensures short { IfOk result (λ short. short ≡ is_some (digits_of (leaf_oid node.now))) }
    ensures text { OnOk result (out.new.items ≡ text_behind out.old.items (short_print (digits_of (leaf_oid node.now)))) }
{
    match node {
        Node::Bytes(bytes) => {
            if bytes.len() != 8 {
                return Ok(false);
            }
            out.push(b'@')?;
            push_digits(out, bytes.as_slice())?;
            Ok(true)
        }
        _ => Ok(false),
    }
}

/// Puts `@`, the digits of an oid and a global at the end, if the node is one.
fn push_classed(out: &mut Vec<u8>, oid: &[u8], class: &Node) -> Result<bool, AllocError>
    ensures short { IfOk result (λ short. short ≡ is_some (both_texts (Some (hex_text oid.now)) (leaf_global class.now))) }
    ensures text { OnOk result (out.new.items ≡ text_behind out.old.items (short_print (both_texts (Some (hex_text oid.now)) (leaf_global class.now)))) }
{
    match class {
        Node::Global { module, name } => {
            out.push(b'@')?;
            push_digits(out, oid)?;
            push_global(out, module.as_slice(), name.as_slice())?;
            Ok(true)
        }
        _ => Ok(false),
    }
}

/// The same for the global of a number.
fn push_classed_at(
    out: &mut Vec<u8>,
    nodes: &ListOf<Node>,
    oid: &[u8],
    class: u32,
) -> Result<bool, AllocError>
    ensures short { IfOk result (λ short. short ≡ is_some (both_texts (Some (hex_text oid.now)) (class_at (slice_get nodes.now class)))) }
    ensures text { OnOk result (out.new.items ≡ text_behind out.old.items (short_print (both_texts (Some (hex_text oid.now)) (class_at (slice_get nodes.now class))))) }
{
    match nodes.get(class as usize) {
        Some(found) => push_classed(out, oid, found),
        None => Ok(false),
    }
}

/// The same, if the other node is an oid.
fn push_pair(
    out: &mut Vec<u8>,
    nodes: &ListOf<Node>,
    oid: &Node,
    class: u32,
) -> Result<bool, AllocError>
    ensures short { IfOk result (λ short. short ≡ is_some (both_texts (digits_of (leaf_oid oid.now)) (class_at (slice_get nodes.now class)))) }
    ensures text { OnOk result (out.new.items ≡ text_behind out.old.items (short_print (both_texts (digits_of (leaf_oid oid.now)) (class_at (slice_get nodes.now class))))) }
{
    match oid {
        Node::Bytes(bytes) => {
            if bytes.len() != 8 {
                return Ok(false);
            }
            push_classed_at(out, nodes, bytes.as_slice(), class)
        }
        _ => Ok(false),
    }
}

/// The same for the nodes of two numbers.
fn push_pair_at(
    out: &mut Vec<u8>,
    nodes: &ListOf<Node>,
    oid: u32,
    class: u32,
) -> Result<bool, AllocError>
    ensures short { IfOk result (λ short. short ≡ is_some (both_texts (digits_of (oid_at (slice_get nodes.now oid))) (class_at (slice_get nodes.now class)))) }
    ensures text { OnOk result (out.new.items ≡ text_behind out.old.items (short_print (both_texts (digits_of (oid_at (slice_get nodes.now oid))) (class_at (slice_get nodes.now class))))) }
{
    match nodes.get(oid as usize) {
        Some(found) => push_pair(out, nodes, found, class),
        None => Ok(false),
    }
}

/// Puts the short form of a reference to a tuple of these items at the end, if there is one.
fn push_short_of_items(
    out: &mut Vec<u8>,
    nodes: &ListOf<Node>,
    put: Option<u64>,
    items: &[u32],
) -> Result<bool, AllocError>
    ensures short { IfOk result (λ short. short ≡ is_some (pair_short nodes.now put items.now)) }
    ensures text { OnOk result (out.new.items ≡ text_behind out.old.items (short_print (pair_short nodes.now put items.now))) }
{
    if let Some(_) = put {
        return Ok(false);
    }
    match items {
        [a, b] => push_pair_at(out, nodes, *a, *b),
        _ => Ok(false),
    }
}

/// Puts the short form of a reference to an id at the end, `@` and what stands behind it, and
/// answers `true`; or puts nothing and answers `false` for an id that has no such form.
pub(crate) fn push_short(
    out: &mut Vec<u8>,
    nodes: &ListOf<Node>,
    put: Option<u64>,
    id: u32,
) -> Result<bool, AllocError>
    ensures short { IfOk result (λ short. short ≡ is_some (id_short nodes.now put (slice_get nodes.now id))) }
    ensures text { OnOk result (out.new.items ≡ text_behind out.old.items (short_print (id_short nodes.now put (slice_get nodes.now id)))) }
{
    match nodes.get(id as usize) {
        None => Ok(false),
        Some(found) => match found {
            Node::Bytes(_) => push_oid(out, found),
            Node::Tuple(items) => push_short_of_items(out, nodes, put, items.as_slice()),
            _ => Ok(false),
        },
    }
}

/// The parts of a reference to an id that has no short form.
pub(crate) fn reference(alloc: Global, id: u32) -> Result<Vec<Part>, AllocError>
    ensures { IfOk result (λ parts. parts.items ≡ reference_parts None id) }
{
    let mut parts = with_bytes(Vec::new(alloc), b"ref(")?;
    parts.push(Part::Item(id))?;
    parts.push(Part::Byte(b')'))?;
    Ok(parts)
}
