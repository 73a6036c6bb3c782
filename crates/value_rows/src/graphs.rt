//! The calls of graphs.

use pickle_graph::{Act, Node, Pickle};
use pickle_ops::TokenError;
use pickle_reading::{PickleError, read_pickle};
use pickle_references::references_of;
use pickle_writing::{WriteError, spelling, write_pickle};
use row_cases::{Row, RowError, push_bytes};
use std::alloc::Global;
use std::fmt::Write;
use zb_ids::{Oid, Text8};

/// A mark and digits.
fn push_digits(text: &mut String, mark: &str, bytes: &[u8]) -> Result<(), RowError> {
    text.push_str(mark)?;
    for byte in bytes {
        write!(text, "{byte:02x}")?;
    }
    Ok(())
}

/// A mark and a line of a global.
fn push_line(text: &mut String, mark: &str, bytes: &[u8]) -> Result<(), RowError> {
    text.push_str(mark)?;
    text.push_str(std::str::from_utf8(bytes).unwrap_or("?"))?;
    Ok(())
}

/// Numbers with commas between them, between two brackets.
fn push_items(text: &mut String, open: &str, items: &[u32], close: &str) -> Result<(), RowError> {
    text.push_str(open)?;
    let mut comma = "";
    for item in items {
        write!(text, "{comma}{item}")?;
        comma = ",";
    }
    text.push_str(close)?;
    Ok(())
}

fn push_pairs(text: &mut String, pairs: &[(u32, u32)]) -> Result<(), RowError> {
    text.push_str("{")?;
    let mut comma = "";
    for (key, value) in pairs {
        write!(text, "{comma}{key}:{value}")?;
        comma = ",";
    }
    text.push_str("}")?;
    Ok(())
}

fn push_acts(text: &mut String, acts: &[Act]) -> Result<(), RowError> {
    for act in acts {
        match act {
            Act::Append(value) => write!(text, "+{value}")?,
            Act::Set(key, value) => write!(text, "={key}:{value}")?,
            Act::Build(state) => write!(text, "!{state}")?,
        }
    }
    Ok(())
}

/// An object: how it is made, and what is done to it.
fn push_object(
    text: &mut String,
    by_new: bool,
    callee: u32,
    arguments: u32,
    acts: &[Act],
) -> Result<(), RowError> {
    let letter = if by_new { "n" } else { "c" };
    write!(text, "{letter}{callee},{arguments}")?;
    push_acts(text, acts)
}

/// A letter for its kind, and what a node holds.
fn push_node(text: &mut String, node: &Node) -> Result<(), RowError> {
    match node {
        Node::None => Ok(text.push_str("N")?),
        Node::Bool(true) => Ok(text.push_str("T")?),
        Node::Bool(false) => Ok(text.push_str("F")?),
        Node::Number(number) => Ok(write!(text, "i{number}")?),
        Node::Wide(bytes) => push_digits(text, "w", bytes.as_slice()),
        Node::Float(bytes) => push_digits(text, "f", bytes.as_slice()),
        Node::Bytes(bytes) => push_digits(text, "b", bytes.as_slice()),
        Node::OldText(bytes) => push_digits(text, "o", bytes.as_slice()),
        Node::Text(bytes) => push_digits(text, "t", bytes.as_slice()),
        Node::Tuple(items) => push_items(text, "(", items.as_slice(), ")"),
        Node::List(items) => push_items(text, "[", items.as_slice(), "]"),
        Node::Dict(pairs) => push_pairs(text, pairs.as_slice()),
        Node::Global { module, name } => {
            push_line(text, "g", module.as_slice())?;
            push_line(text, ".", name.as_slice())
        }
        Node::Reference(id) => Ok(write!(text, "r{id}")?),
        Node::Object {
            callee,
            arguments,
            by_new,
            acts,
        } => push_object(text, *by_new, *callee, *arguments, acts.as_slice()),
    }
}

/// The nodes in order, each a word, and the number of the root.
fn push_graph(text: &mut String, pickle: &Pickle) -> Result<(), RowError> {
    for node in pickle.nodes().as_slice() {
        push_node(text, node)?;
        text.push_str(" ")?;
    }
    let root = pickle.root();
    write!(text, "@{root}")?;
    Ok(())
}

/// What was written, or why nothing was.
pub fn push_written(
    alloc: Global,
    text: &mut String,
    written: Result<Text8, WriteError>,
) -> Result<(), RowError> {
    match written {
        Ok(bytes) => push_bytes(alloc, text, bytes.as_slice()),
        Err(refusal) => Ok(write!(text, "{refusal}")?),
    }
}

/// The graph at a place, the place behind it, and what it is written as.
fn graph(alloc: Global, row: &Row) -> Result<String, RowError> {
    let bytes = row.bytes(alloc, 0)?;
    let at = row.number_or(1, 0)? as usize;
    let mut text = String::new(alloc);
    match read_pickle(alloc, bytes.as_slice(), at) {
        Ok((pickle, behind)) => {
            push_graph(&mut text, &pickle)?;
            write!(text, "; ends {behind}; ")?;
            push_written(alloc, &mut text, write_pickle(alloc, &pickle))?;
        }
        Err(refusal) => write!(text, "{refusal}")?,
    }
    Ok(text)
}

/// How many nodes a large graph has, and what it is written as.
fn rewritten(alloc: Global, row: &Row) -> Result<String, RowError> {
    let bytes = row.bytes(alloc, 0)?;
    let mut text = String::new(alloc);
    match read_pickle(alloc, bytes.as_slice(), 0) {
        Ok((pickle, _)) => {
            let count = pickle.nodes().len();
            write!(text, "{count} nodes; ")?;
            push_written(alloc, &mut text, write_pickle(alloc, &pickle))?;
        }
        Err(refusal) => write!(text, "{refusal}")?,
    }
    Ok(text)
}

/// How many nodes a graph has that isn't written.
fn counted(alloc: Global, row: &Row) -> Result<String, RowError> {
    let bytes = row.bytes(alloc, 0)?;
    match read_pickle(alloc, bytes.as_slice(), 0) {
        Ok((pickle, behind)) => {
            let count = pickle.nodes().len();
            Ok(format!(in alloc; "{count} nodes; ends {behind}")?)
        }
        Err(refusal) => Ok(format!(in alloc; "{refusal}")?),
    }
}

/// What the node of a number is spelled as; without a number the root.
fn spelled(alloc: Global, row: &Row) -> Result<String, RowError> {
    let bytes = row.bytes(alloc, 0)?;
    let (pickle, _) = match read_pickle(alloc, bytes.as_slice(), 0) {
        Ok(found) => found,
        Err(refusal) => return Ok(format!(in alloc; "{refusal}")?),
    };
    let node = row.number_or(1, pickle.root() as u64)?;
    if node >= pickle.nodes().len() as u64 || node > u32::MAX as u64 {
        return Err(RowError::Value);
    }
    let mut text = String::new(alloc);
    push_written(alloc, &mut text, spelling(alloc, &pickle, node as u32))?;
    Ok(text)
}

/// The place of the token that a front ends in, for each front but the whole.
fn fronts(alloc: Global, row: &Row) -> Result<String, RowError> {
    let bytes = row.bytes(alloc, 0)?;
    let mut text = String::new(alloc);
    for end in 0..bytes.len() {
        match read_pickle(alloc, &bytes[..end], 0) {
            Err(PickleError::Token(TokenError::Cut { at })) => write!(text, "{at} ")?,
            _ => text.push_str("- ")?,
        }
    }
    text.push_str("end")?;
    Ok(text)
}

/// Oids in digits, with a blank behind each.
pub fn push_oids(text: &mut String, oids: &[Oid]) -> Result<(), RowError> {
    for oid in oids {
        let number = oid.0;
        write!(text, "{number:x} ")?;
    }
    Ok(())
}

/// The oids that the pickle at a place refers to, and the place behind it.
fn refers(alloc: Global, row: &Row) -> Result<String, RowError> {
    let bytes = row.bytes(alloc, 0)?;
    let at = row.number_or(1, 0)? as usize;
    let mut text = String::new(alloc);
    match references_of(alloc, bytes.as_slice(), at) {
        Ok((oids, behind)) => {
            push_oids(&mut text, oids.as_slice())?;
            write!(text, "ends {behind}")?;
        }
        Err(refusal) => write!(text, "{refusal}")?,
    }
    Ok(text)
}

/// The answer of a call of graphs, if the row names one.
pub fn answer(alloc: Global, row: &Row) -> Result<Option<String>, RowError> {
    let text = match row.call.as_str() {
        "graph" => graph(alloc, row)?,
        "rewritten" => rewritten(alloc, row)?,
        "counted" => counted(alloc, row)?,
        "spelled" => spelled(alloc, row)?,
        "fronts" => fronts(alloc, row)?,
        "refers" => refers(alloc, row)?,
        _ => return Ok(None),
    };
    Ok(Some(text))
}
