//! The calls of literals.

use literal_reading::read_literal;
use pickle_graph::Pickle;
use pickle_reading::read_pickle;
use pickle_writing::spelling;
use row_cases::{Row, RowError, push_bytes, push_text8};
use std::alloc::Global;
use std::fmt::Write;
use zb_literals::{node_literal, push_text, write_literal};

/// What the value that a literal spells is pickled as, without the two bytes before and the one
/// behind; and its literal, where that is another.
fn spelled(alloc: Global, literal: &[u8]) -> Result<String, RowError> {
    let mut text = String::new(alloc);
    let graph = match read_literal(alloc, literal) {
        Ok(graph) => graph,
        Err(refusal) => {
            write!(text, "{refusal}")?;
            return Ok(text);
        }
    };
    match spelling(alloc, &graph, graph.root()) {
        Ok(bytes) => push_bytes(alloc, &mut text, bytes.as_slice())?,
        Err(refusal) => write!(text, "{refusal}")?,
    }
    match write_literal(alloc, &graph) {
        Ok(again) if again.as_slice() == literal => {}
        Ok(again) => {
            text.push_str(", printed ")?;
            push_text8(&mut text, &again)?;
        }
        Err(refusal) => write!(text, ", not printed: {refusal}")?,
    }
    Ok(text)
}

/// The literal of a node of a graph; without a number of the root.
fn printed_node(alloc: Global, row: &Row, graph: &Pickle) -> Result<String, RowError> {
    let printed = match row.fields.get(1) {
        None => write_literal(alloc, graph),
        Some(_) => {
            let node = row.number(1)?;
            if node >= graph.nodes().len() as u64 || node > u32::MAX as u64 {
                return Err(RowError::Value);
            }
            node_literal(alloc, graph, node as u32)
        }
    };
    match printed {
        Ok(literal) => {
            let mut text = String::new(alloc);
            push_text8(&mut text, &literal)?;
            Ok(text)
        }
        Err(refusal) => Ok(format!(in alloc; "{refusal}")?),
    }
}

/// The literal of a pickle, or of one node of it.
fn printed(alloc: Global, row: &Row) -> Result<String, RowError> {
    let bytes = row.bytes(alloc, 0)?;
    match read_pickle(alloc, bytes.as_slice(), 0) {
        Ok((graph, _)) => printed_node(alloc, row, &graph),
        Err(refusal) => Ok(format!(in alloc; "{refusal}")?),
    }
}

/// Bytes between quotes, or by their digits.
fn quoted(alloc: Global, row: &Row) -> Result<String, RowError> {
    let bytes = row.bytes(alloc, 0)?;
    let mut out = Vec::new(alloc);
    push_text(&mut out, bytes.as_slice())?;
    Ok(String::from_str(
        alloc,
        std::str::from_utf8(out.as_slice()).unwrap_or("(no text)"),
    )?)
}

/// The answer of a call of literals, if the row names one.
pub fn answer(alloc: Global, row: &Row) -> Result<Option<String>, RowError> {
    let text = match row.call.as_str() {
        "literal" => spelled(alloc, row.text(0)?.as_bytes())?,
        "literal_bytes" => spelled(alloc, row.bytes(alloc, 0)?.as_slice())?,
        "printed" => printed(alloc, row)?,
        "quoted" => quoted(alloc, row)?,
        _ => return Ok(None),
    };
    Ok(Some(text))
}
