//! Reading what a vote, an undo and a pack say.

ghost use Rattle.std.specs.Prelude.{◌≡◌};
ghost use Rattle.std.specs.Option.{option_copied};
ghost use Rattle.zb_script.specs.Reading.{ReadsAs, collecting_at, lower_at, short_at, short_field_at, sixteen_at, text_in, tids_at};

use crate::errors::ReadError;
use crate::stored::graph_of;
use crate::words::{cut_literal, number_of};
use pickle_graph::Node;
use std::alloc::Global;
use zb_ids::{ListOf, Text8, Tid};

/// The text that a node is.
fn text_in(node: Option<&Node>) -> Result<Text8, ReadError>
    ensures { ReadsAs (λ text. text) result (text_in (option_copied node.entry)) }
{
    match node {
        Some(Node::Text(text)) => Ok(text.clone()?),
        _ => Err(ReadError::Bad),
    }
}

/// A user or a description.
#[tactic(auto, unfolding(crate::specs::Reading::short_at))]
pub(crate) fn short_of(alloc: Global, bytes: &[u8]) -> Result<Text8, ReadError>
    ensures { ReadsAs (λ text. text) result (short_at bytes.now) }
{
    let graph = graph_of(alloc, bytes)?;
    let text = text_in(graph.nodes().get(graph.root() as usize))?;
    if text.len() > 65_535 {
        return Err(ReadError::Bad);
    }
    Ok(text)
}

/// A user or a description, and a blank.
#[tactic(auto, unfolding(crate::specs::Reading::short_field_at))]
pub(crate) fn short_field_of(alloc: Global, bytes: &[u8]) -> Result<(Text8, &[u8]), ReadError>
    ensures { ReadsAs (λ x. (x.0, x.1.now)) result (short_field_at bytes.now) }
{
    let (word, rest) = cut_literal(bytes)?;
    let text = short_of(alloc, word)?;
    Ok((text, rest))
}

/// A number, and what stands behind its digits.
#[tactic(auto, unfolding(crate::specs::Reading::sixteen_at))]
pub(crate) fn sixteen_of(bytes: &[u8]) -> Result<(u64, &[u8]), ReadError>
    ensures { ReadsAs (λ x. (x.0, x.1.now)) result (sixteen_at bytes.now) }
{
    let (digits, rest) = bytes.split_at(bytes.len().min(16));
    let number = number_of(digits)?;
    Ok((number, rest))
}

/// Whether a pack collects: nothing stands behind its tid, or `nogc`.
pub(crate) fn collecting_of(rest: &[u8]) -> Result<bool, ReadError>
    ensures { ReadsAs (λ collect. collect) result (collecting_at rest.now) }
{
    if rest == b"".as_slice() {
        Ok(true)
    } else if rest == b" nogc".as_slice() {
        Ok(false)
    } else {
        Err(ReadError::Bad)
    }
}

/// A blank and a lower number.
#[tactic(auto, unfolding(crate::specs::Reading::lower_at, crate::specs::Reading::behind_word))]
fn lower_of(bound: u64, bytes: &[u8]) -> Result<(u64, &[u8]), ReadError>
    ensures { ReadsAs (λ x. (x.0, x.1.now)) result (lower_at bound bytes.now) }
{
    let Some(rest) = bytes.strip_prefix(b" ") else {
        return Err(ReadError::Bad);
    };
    let (number, rest) = sixteen_of(rest)?;
    if number >= bound {
        return Err(ReadError::Bad);
    }
    Ok((number, rest))
}

/// The tids of an undo, each lower than the one before it.
#[tactic(auto, unfolding(crate::specs::Reading::tids_at, crate::specs::Reading::lowers_at), using(crate::proofs::Lowers::lower_more, crate::proofs::Lowers::lower_refused, crate::proofs::Lowers::lowers_done, crate::proofs::Lowers::lowers_left))]
pub(crate) fn tids_of(alloc: Global, bytes: &[u8]) -> Result<ListOf<Tid>, ReadError>
    ensures { ReadsAs (λ tids. tids) result (tids_at bytes.now) }
{
    let (mut last, mut rest) = sixteen_of(bytes)?;
    let mut tids = ListOf::new(alloc);
    tids.push(Tid(last))?;
    for _i in 0..rest.len() / 17 {
        let (tid, more) = lower_of(last, rest)?;
        tids.push(Tid(tid))?;
        last = tid;
        rest = more;
    }
    if !rest.is_empty() {
        return Err(ReadError::Bad);
    }
    Ok(tids)
}
