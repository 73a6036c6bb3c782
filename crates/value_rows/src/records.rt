//! The calls of records.

use crate::graphs::{push_oids, push_written};
use literal_reading::read_literal;
use pickle_graph::{Pickle, is_class};
use row_cases::{Row, RowError, push_text8};
use std::alloc::Global;
use std::fmt::Write;
use zb_ids::Text8;
use zb_record::{ObjectRecord, object_literal, read_record, references, write_record};

/// What an object's bytes are printed as.
fn printed(alloc: Global, row: &Row) -> Result<String, RowError> {
    let bytes = row.bytes(alloc, 0)?;
    let mut text = String::new(alloc);
    push_text8(&mut text, &object_literal(alloc, bytes.as_slice())?)?;
    Ok(text)
}

/// What a record is written as, and the oids that it names; or why it is none, as a record and as
/// one whose references are read.
fn record_of(alloc: Global, row: &Row) -> Result<String, RowError> {
    let bytes = row.bytes(alloc, 0)?;
    let mut text = String::new(alloc);
    match read_record(alloc, bytes.as_slice()) {
        Ok(object) => push_written(alloc, &mut text, write_record(alloc, &object))?,
        Err(refusal) => write!(text, "{refusal}")?,
    }
    match references(alloc, bytes.as_slice()) {
        Ok(oids) => {
            text.push_str("; names ")?;
            push_oids(&mut text, oids.as_slice())?;
            text.push_str("end")?;
        }
        Err(refusal) => write!(text, "; {refusal}")?,
    }
    Ok(text)
}

/// The graph that a literal spells.
pub fn value_of(alloc: Global, literal: &str) -> Result<Pickle, RowError> {
    match read_literal(alloc, literal.as_bytes()) {
        Ok(graph) => Ok(graph),
        Err(_) => Err(RowError::Value),
    }
}

/// What the record of two literals is written as, where the first one is a class.
fn made(alloc: Global, row: &Row) -> Result<String, RowError> {
    let class = value_of(alloc, row.text(0)?)?;
    let state = value_of(alloc, row.text(1)?)?;
    if !is_class(&class) {
        return Ok(String::from_str(alloc, "no class")?);
    }
    let object = ObjectRecord { class, state };
    let mut text = String::new(alloc);
    push_written(alloc, &mut text, write_record(alloc, &object))?;
    Ok(text)
}

/// The answer of a call of records, if the row names one.
pub fn answer(alloc: Global, row: &Row) -> Result<Option<String>, RowError> {
    let text = match row.call.as_str() {
        "object" => printed(alloc, row)?,
        "record" => record_of(alloc, row)?,
        "made" => made(alloc, row)?,
        _ => return Ok(None),
    };
    Ok(Some(text))
}
