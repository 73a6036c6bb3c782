//! The calls of merges.

use crate::graphs::push_oids;
use crate::records::value_of;
use pickle_writing::write_pickle;
use row_cases::{Row, RowError, push_bytes, push_text8};
use std::alloc::Global;
use zb_ids::Text8;
use zb_model::{Refs, RefsError, ResolveError, Resolver, Why};
use zb_record::object_literal;
use zb_resolve::{StockRefs, StockResolver};

/// The name of a reason, and a key's spelling behind it.
fn push_why(alloc: Global, text: &mut String, why: &Why) -> Result<(), RowError> {
    let name = match why {
        Why::NoRule => "NoRule",
        Why::Gone => "Gone",
        Why::NoOld => "NoOld",
        Why::Unreadable => "Unreadable",
        Why::NotEmbedded => "NotEmbedded",
        Why::Link => "Link",
        Why::EmptySide => "EmptySide",
        Why::Key(_) => "Key ",
        Why::FirstKey => "FirstKey",
        Why::Overflow => "Overflow",
    };
    text.push_str(name)?;
    if let Why::Key(key) = why {
        push_bytes(alloc, text, key.as_slice())?;
    }
    Ok(())
}

/// What became of three records: the record that was made, or why none was.
fn merged(
    alloc: Global,
    old: &[u8],
    committed: &[u8],
    stored: &[u8],
) -> Result<Result<Text8, String>, RowError> {
    match StockResolver.resolve(alloc, old, committed, stored) {
        Ok(bytes) => Ok(Ok(bytes)),
        Err(ResolveError::Memory) => Err(RowError::Memory),
        Err(ResolveError::Refused(why)) => {
            let mut text = String::new(alloc);
            push_why(alloc, &mut text, &why)?;
            Ok(Err(text))
        }
    }
}

/// Three records by their bytes: what they are merged to.
fn resolve(alloc: Global, row: &Row) -> Result<String, RowError> {
    let old = row.bytes(alloc, 0)?;
    let committed = row.bytes(alloc, 1)?;
    let stored = row.bytes(alloc, 2)?;
    match merged(
        alloc,
        old.as_slice(),
        committed.as_slice(),
        stored.as_slice(),
    )? {
        Ok(bytes) => {
            let mut text = String::new(alloc);
            push_bytes(alloc, &mut text, bytes.as_slice())?;
            Ok(text)
        }
        Err(text) => Ok(text),
    }
}

/// The record of a class and a state, by their literals.
fn record_of(alloc: Global, class: &str, state: &str) -> Result<Text8, RowError> {
    let class = value_of(alloc, class)?;
    let state = value_of(alloc, state)?;
    let Ok(mut text) = write_pickle(alloc, &class) else {
        return Err(RowError::Value);
    };
    let Ok(behind) = write_pickle(alloc, &state) else {
        return Err(RowError::Value);
    };
    text.extend_from_slice(behind.as_slice())?;
    Ok(text)
}

/// Three states of a class, by their literals: the object that they are merged to.
fn merge(alloc: Global, row: &Row) -> Result<String, RowError> {
    let class = row.text(0)?;
    let old = record_of(alloc, class, row.text(1)?)?;
    let committed = record_of(alloc, class, row.text(2)?)?;
    let stored = record_of(alloc, class, row.text(3)?)?;
    match merged(
        alloc,
        old.as_slice(),
        committed.as_slice(),
        stored.as_slice(),
    )? {
        Ok(bytes) => {
            let mut text = String::new(alloc);
            push_text8(&mut text, &object_literal(alloc, bytes.as_slice())?)?;
            Ok(text)
        }
        Err(text) => Ok(text),
    }
}

/// Whether bytes are of a class that has a rule.
fn has_rule(alloc: Global, row: &Row) -> Result<String, RowError> {
    let bytes = row.bytes(alloc, 0)?;
    let has = StockResolver.has_rule(alloc, bytes.as_slice())?;
    Ok(format!(in alloc; "{has}")?)
}

/// The objects that a record names.
fn names(alloc: Global, row: &Row) -> Result<String, RowError> {
    let bytes = row.bytes(alloc, 0)?;
    match StockRefs.references(alloc, bytes.as_slice()) {
        Ok(oids) => {
            let mut text = String::new(alloc);
            push_oids(&mut text, oids.as_slice())?;
            text.push_str("end")?;
            Ok(text)
        }
        Err(RefsError::Memory) => Err(RowError::Memory),
        Err(RefsError::Unreadable) => Ok(String::from_str(alloc, "Unreadable")?),
    }
}

/// The answer of a call of merges, if the row names one.
pub fn answer(alloc: Global, row: &Row) -> Result<Option<String>, RowError> {
    let text = match row.call.as_str() {
        "resolve" => resolve(alloc, row)?,
        "merge" => merge(alloc, row)?,
        "rule" => has_rule(alloc, row)?,
        "names" => names(alloc, row)?,
        _ => return Ok(None),
    };
    Ok(Some(text))
}
