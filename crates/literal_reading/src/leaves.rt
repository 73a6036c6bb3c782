//! Reading values without items.

ghost use Rattle.std.specs.Prelude.{◌≡◌, ℕ, Bool};
ghost use Rattle.pickle_graph.specs.declared.node.Node.TheVariants as kinds;
ghost use Rattle.literal_reading.specs.Reading;
ghost use Rattle.literal_reading.specs.Reading.{ReadsLiteral, counted_at, held_as, text_at, global_at, constant_at, bytes_kind_at, leaf_at, is_wide_size, is_float_size, is_bytes_size, is_old_size, leaf_form};

use crate::characters::{characters_of, line_of};
use crate::error::LiteralError;
use crate::form::Form;
use crate::numbers::number_node;
use crate::words::{bytes_of, split_word};
use pickle_graph::Node;
use std::alloc::Global;
use zb_ids::Text8;

/// The bytes that the digits spell which stand first, and what stands behind them. Contracts test how
/// many bytes there are.
#[tactic(auto, unfolding(crate::specs::Reading::counted_at))]
fn wide_of(alloc: Global, bytes: &[u8]) -> Result<(Text8, &[u8]), LiteralError>
    ensures { ReadsLiteral (λ x. (x.0, x.1.now)) result (counted_at is_wide_size bytes.now) }
{
    let (word, rest) = split_word(bytes);
    let held = bytes_of(alloc, word)?;
    if held.len() <= 16 || held.len() >= 0x8000_0000 {
        return Err(LiteralError::NotLiteral);
    }
    Ok((held, rest))
}

/// Eight bytes.
#[tactic(auto, unfolding(crate::specs::Reading::counted_at))]
pub(crate) fn eight_of(alloc: Global, bytes: &[u8]) -> Result<(Text8, &[u8]), LiteralError>
    ensures { ReadsLiteral (λ x. (x.0, x.1.now)) result (counted_at is_float_size bytes.now) }
{
    let (word, rest) = split_word(bytes);
    let held = bytes_of(alloc, word)?;
    if held.len() != 8 {
        return Err(LiteralError::NotLiteral);
    }
    Ok((held, rest))
}

/// Fewer than 2^32 bytes.
#[tactic(auto, unfolding(crate::specs::Reading::counted_at))]
fn many_of(alloc: Global, bytes: &[u8]) -> Result<(Text8, &[u8]), LiteralError>
    ensures { ReadsLiteral (λ x. (x.0, x.1.now)) result (counted_at is_bytes_size bytes.now) }
{
    let (word, rest) = split_word(bytes);
    let held = bytes_of(alloc, word)?;
    if held.len() >= 0x1_0000_0000 {
        return Err(LiteralError::NotLiteral);
    }
    Ok((held, rest))
}

/// Fewer than 2^31 bytes.
#[tactic(auto, unfolding(crate::specs::Reading::counted_at))]
fn old_of(alloc: Global, bytes: &[u8]) -> Result<(Text8, &[u8]), LiteralError>
    ensures { ReadsLiteral (λ x. (x.0, x.1.now)) result (counted_at is_old_size bytes.now) }
{
    let (word, rest) = split_word(bytes);
    let held = bytes_of(alloc, word)?;
    if held.len() >= 0x8000_0000 {
        return Err(LiteralError::NotLiteral);
    }
    Ok((held, rest))
}

/// A text, behind its first quote.
#[tactic(auto, unfolding(crate::specs::Reading::text_at))]
fn text_of(alloc: Global, bytes: &[u8]) -> Result<(Node, &[u8]), LiteralError>
    ensures { ReadsLiteral (λ x. (x.0, x.1.now)) result (text_at bytes.now) }
{
    let (text, rest) = characters_of(alloc, bytes)?;
    if text.len() >= 0x1_0000_0000 {
        return Err(LiteralError::NotLiteral);
    }
    Ok((Node::Text(text), rest))
}

/// A global, behind its `<`.
#[tactic(auto, unfolding(crate::specs::Reading::global_at))]
pub(crate) fn global_of(alloc: Global, bytes: &[u8]) -> Result<(Node, &[u8]), LiteralError>
    ensures { ReadsLiteral (λ x. (x.0, x.1.now)) result (global_at bytes.now) }
{
    let (module, rest) = line_of(alloc, b':', bytes)?;
    let (name, rest) = line_of(alloc, b'>', rest)?;
    Ok((Node::Global { module, name }, rest))
}

/// None, True or False.
#[tactic(auto, unfolding(crate::specs::Reading::constant_at, crate::specs::Reading::rest_behind))]
fn constant_of(bytes: &[u8]) -> Result<(Node, &[u8]), LiteralError>
    ensures { ReadsLiteral (λ x. (x.0, x.1.now)) result (constant_at bytes.now) }
{
    if let Some(rest) = bytes.strip_prefix(b"None") {
        return Ok((Node::None, rest));
    }
    if let Some(rest) = bytes.strip_prefix(b"True") {
        return Ok((Node::Bool(true), rest));
    }
    if let Some(rest) = bytes.strip_prefix(b"False") {
        return Ok((Node::Bool(false), rest));
    }
    Err(LiteralError::NotLiteral)
}

fn wide_node(alloc: Global, bytes: &[u8]) -> Result<(Node, &[u8]), LiteralError>
    ensures { ReadsLiteral (λ x. (x.0, x.1.now)) result (held_as kinds.Wide (counted_at is_wide_size bytes.now)) }
{
    let (held, rest) = wide_of(alloc, bytes)?;
    Ok((Node::Wide(held), rest))
}

fn float_node(alloc: Global, bytes: &[u8]) -> Result<(Node, &[u8]), LiteralError>
    ensures { ReadsLiteral (λ x. (x.0, x.1.now)) result (held_as kinds.Float (counted_at is_float_size bytes.now)) }
{
    let (held, rest) = eight_of(alloc, bytes)?;
    Ok((Node::Float(held), rest))
}

fn bytes_node(alloc: Global, bytes: &[u8]) -> Result<(Node, &[u8]), LiteralError>
    ensures { ReadsLiteral (λ x. (x.0, x.1.now)) result (held_as kinds.Bytes (counted_at is_bytes_size bytes.now)) }
{
    let (held, rest) = many_of(alloc, bytes)?;
    Ok((Node::Bytes(held), rest))
}

fn old_text_node(alloc: Global, bytes: &[u8]) -> Result<(Node, &[u8]), LiteralError>
    ensures { ReadsLiteral (λ x. (x.0, x.1.now)) result (held_as kinds.OldText (counted_at is_old_size bytes.now)) }
{
    let (held, rest) = old_of(alloc, bytes)?;
    Ok((Node::OldText(held), rest))
}

/// Bytes of one of the four kinds, or a constant.
#[tactic(auto, unfolding(crate::specs::Reading::bytes_kind_at, crate::specs::Reading::rest_behind))]
fn bytes_kind_of(alloc: Global, bytes: &[u8]) -> Result<(Node, &[u8]), LiteralError>
    ensures { ReadsLiteral (λ x. (x.0, x.1.now)) result (bytes_kind_at bytes.now) }
{
    if let Some(rest) = bytes.strip_prefix(b"n:") {
        wide_node(alloc, rest)
    } else if let Some(rest) = bytes.strip_prefix(b"f:") {
        float_node(alloc, rest)
    } else if let Some(rest) = bytes.strip_prefix(b"b:") {
        bytes_node(alloc, rest)
    } else if let Some(rest) = bytes.strip_prefix(b"s:") {
        old_text_node(alloc, rest)
    } else {
        constant_of(bytes)
    }
}

/// Whether bytes begin as a number does.
pub(crate) fn begins_number(bytes: &[u8]) -> bool
    ensures { result ≡ Reading.begins_number bytes.now }
{
    if bytes.is_empty() {
        return false;
    }
    match bytes[0] {
        b'-' | b'0'..=b'9' => true,
        _ => false,
    }
}

/// The value without items that stands first, and what stands behind it.
#[tactic(auto, unfolding(crate::specs::Reading::leaf_at, crate::specs::Reading::rest_behind))]
pub(crate) fn leaf_of(alloc: Global, bytes: &[u8]) -> Result<(Node, &[u8]), LiteralError>
    ensures { ReadsLiteral (λ x. (x.0, x.1.now)) result (leaf_at bytes.now) }
{
    if begins_number(bytes) {
        return number_node(bytes);
    }
    if let Some(rest) = bytes.strip_prefix(b"\"") {
        return text_of(alloc, rest);
    }
    if let Some(rest) = bytes.strip_prefix(b"<") {
        return global_of(alloc, rest);
    }
    bytes_kind_of(alloc, bytes)
}

/// What a node without items can be in a reference.
pub(crate) fn form_of(node: &Node) -> Form
    ensures { result ≡ leaf_form node.now }
{
    match node {
        Node::Bytes(bytes) => {
            let eight = bytes.len() == 8;
            Form {
                oid: eight,
                global: false,
                short: eight,
            }
        }
        Node::Global { .. } => Form {
            oid: false,
            global: true,
            short: false,
        },
        _ => Form {
            oid: false,
            global: false,
            short: false,
        },
    }
}
