//! Reading keys.

ghost use Rattle.std.specs.Prelude.{◌≡◌};
ghost use Rattle.std.specs.Option.{option_copied};
ghost use Rattle.zb_script.specs.Reading.{ReadsAs, key_at, key_field_at, key_in, small_at, small_in};

use crate::errors::ReadError;
use crate::stored::graph_of;
use crate::words::cut_literal;
use btree_family::Key;
use pickle_graph::Node;
use std::alloc::Global;

/// The key that a node is.
fn key_in(node: Option<&Node>) -> Result<Key, ReadError>
    ensures { ReadsAs (λ key. key) result (key_in (option_copied node.entry)) }
{
    match node {
        Some(Node::Text(text)) => Ok(Key::Text(text.clone()?)),
        Some(Node::Bytes(bytes)) => Ok(Key::Bytes(bytes.clone()?)),
        Some(Node::Number(number)) => Ok(Key::Number(*number)),
        _ => Err(ReadError::Bad),
    }
}

/// The key that a literal spells.
#[tactic(auto, unfolding(crate::specs::Reading::key_at))]
pub(crate) fn key_of(alloc: Global, bytes: &[u8]) -> Result<Key, ReadError>
    ensures { ReadsAs (λ key. key) result (key_at bytes.now) }
{
    let graph = graph_of(alloc, bytes)?;
    key_in(graph.nodes().get(graph.root() as usize))
}

/// A key and a blank.
#[tactic(auto, unfolding(crate::specs::Reading::key_field_at))]
pub(crate) fn key_field_of(alloc: Global, bytes: &[u8]) -> Result<(Key, &[u8]), ReadError>
    ensures { ReadsAs (λ x. (x.0, x.1.now)) result (key_field_at bytes.now) }
{
    let (word, rest) = cut_literal(bytes)?;
    let key = key_of(alloc, word)?;
    Ok((key, rest))
}

/// The number below 2^32 that a key is.
fn small_in(key: &Key) -> Result<u64, ReadError>
    ensures { ReadsAs (λ number. number) result (small_in key.now) }
{
    match key {
        Key::Number(number) => match u32::try_from(*number) {
            Ok(number) => Ok(u64::from(number)),
            Err(_) => Err(ReadError::Bad),
        },
        _ => Err(ReadError::Bad),
    }
}

/// The number below 2^32 that a literal spells, in decimal without a sign or a leading zero.
#[tactic(auto, unfolding(crate::specs::Reading::small_at))]
pub(crate) fn small_of(alloc: Global, bytes: &[u8]) -> Result<u64, ReadError>
    ensures { ReadsAs (λ number. number) result (small_at bytes.now) }
{
    let key = key_of(alloc, bytes)?;
    small_in(&key)
}
