//! Reading the lines of trees.

ghost use Rattle.std.specs.Prelude.{◌≡◌};
ghost use Rattle.pickle_writing.specs.Spelling.{spelling_of};
ghost use Rattle.zb_script.specs.declared.tree_call.TreeCall.TheVariants as calls;
ghost use Rattle.zb_script.specs.Keys.{text_or_none};
ghost use Rattle.zb_script.specs.Reading.{ReadsAs, behind_word, items_at, keyed_at, range_at, set_at, tree_line_at, value_at};

use crate::errors::ReadError;
use crate::keys::{key_field_of, key_of};
use crate::line::Line;
use crate::stored::graph_of;
use crate::tree_call::TreeCall;
use crate::words::{field_of, number_of};
use pickle_graph::Pickle;
use pickle_writing::{WriteError, spelling};
use std::alloc::Global;
use zb_ids::{Oid, Text8};

/// The spelling of a graph.
fn spelled(alloc: Global, graph: &Pickle) -> Result<Text8, ReadError>
    ensures { ReadsAs (λ text. text) result (text_or_none (spelling_of graph.now.nodes graph.now.root)) }
{
    match spelling(alloc, graph, graph.root()) {
        Ok(text) => Ok(text),
        Err(WriteError::TooDeep) => Err(ReadError::Bad),
        Err(WriteError::Memory) => Err(ReadError::Memory),
    }
}

/// The spelling of the value of a literal.
#[tactic(auto, unfolding(crate::specs::Reading::value_at))]
fn value_of(alloc: Global, bytes: &[u8]) -> Result<Text8, ReadError>
    ensures { ReadsAs (λ value. value) result (value_at bytes.now) }
{
    let graph = graph_of(alloc, bytes)?;
    spelled(alloc, &graph)
}

#[tactic(auto, unfolding(crate::specs::Reading::set_at))]
fn set_of(alloc: Global, bytes: &[u8]) -> Result<Line, ReadError>
    ensures { ReadsAs (λ line. line) result (set_at bytes.now) }
{
    let (oid, rest) = field_of(bytes)?;
    let (key, rest) = key_field_of(alloc, rest)?;
    let value = value_of(alloc, rest)?;
    Ok(Line::Tree {
        root: Oid(oid),
        call: TreeCall::Set { key, value },
    })
}

#[tactic(auto, unfolding(crate::specs::Reading::keyed_at))]
fn insert_of(alloc: Global, bytes: &[u8]) -> Result<Line, ReadError>
    ensures { ReadsAs (λ line. line) result (keyed_at calls.Insert bytes.now) }
{
    let (oid, rest) = field_of(bytes)?;
    let key = key_of(alloc, rest)?;
    Ok(Line::Tree {
        root: Oid(oid),
        call: TreeCall::Insert { key },
    })
}

#[tactic(auto, unfolding(crate::specs::Reading::keyed_at))]
fn del_of(alloc: Global, bytes: &[u8]) -> Result<Line, ReadError>
    ensures { ReadsAs (λ line. line) result (keyed_at calls.Del bytes.now) }
{
    let (oid, rest) = field_of(bytes)?;
    let key = key_of(alloc, rest)?;
    Ok(Line::Tree {
        root: Oid(oid),
        call: TreeCall::Del { key },
    })
}

#[tactic(auto, unfolding(crate::specs::Reading::keyed_at))]
fn find_of(alloc: Global, bytes: &[u8]) -> Result<Line, ReadError>
    ensures { ReadsAs (λ line. line) result (keyed_at calls.Find bytes.now) }
{
    let (oid, rest) = field_of(bytes)?;
    let key = key_of(alloc, rest)?;
    Ok(Line::Tree {
        root: Oid(oid),
        call: TreeCall::Find { key },
    })
}

#[tactic(auto, unfolding(crate::specs::Reading::items_at))]
fn items_of(bytes: &[u8]) -> Result<Line, ReadError>
    ensures { ReadsAs (λ line. line) result (items_at bytes.now) }
{
    let oid = number_of(bytes)?;
    Ok(Line::Tree {
        root: Oid(oid),
        call: TreeCall::Items,
    })
}

#[tactic(auto, unfolding(crate::specs::Reading::range_at))]
fn range_of(alloc: Global, bytes: &[u8]) -> Result<Line, ReadError>
    ensures { ReadsAs (λ line. line) result (range_at bytes.now) }
{
    let (oid, rest) = field_of(bytes)?;
    let (from, rest) = key_field_of(alloc, rest)?;
    let to = key_of(alloc, rest)?;
    Ok(Line::Tree {
        root: Oid(oid),
        call: TreeCall::Range { from, to },
    })
}

/// A line with a call on a tree.
#[tactic(auto, unfolding(crate::specs::Reading::tree_line_at, crate::specs::Reading::behind_word))]
pub(crate) fn tree_line_of(alloc: Global, bytes: &[u8]) -> Result<Line, ReadError>
    ensures { ReadsAs (λ line. line) result (tree_line_at bytes.now) }
{
    if let Some(rest) = bytes.strip_prefix(b"set ") {
        set_of(alloc, rest)
    } else if let Some(rest) = bytes.strip_prefix(b"insert ") {
        insert_of(alloc, rest)
    } else if let Some(rest) = bytes.strip_prefix(b"del ") {
        del_of(alloc, rest)
    } else if let Some(rest) = bytes.strip_prefix(b"find ") {
        find_of(alloc, rest)
    } else if let Some(rest) = bytes.strip_prefix(b"items ") {
        items_of(rest)
    } else if let Some(rest) = bytes.strip_prefix(b"range ") {
        range_of(alloc, rest)
    } else {
        Err(ReadError::Bad)
    }
}
