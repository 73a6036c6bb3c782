//! The calls of a ring of news.

use invalidation_queue::Queue;
use row_cases::{Row, RowError, number};
use std::alloc::Global;
use std::fmt::Write;

/// The greatest capacity of a ring of a row.
const MOST_ROOM: u64 = 10_000;

/// Puts what a field says into a ring, or clears it.
fn take(ring: &mut Queue, field: &str) -> Result<(), RowError> {
    if field == "clear" {
        ring.clear();
    } else {
        ring.push(number(field)?);
    }
    Ok(())
}

/// What a ring holds.
fn push_held(text: &mut String, ring: &Queue) -> Result<(), RowError> {
    let count = ring.len();
    let forgotten = ring.forgotten();
    write!(text, "{count} numbers, forgotten {forgotten}")?;
    let mut mark = ":";
    for place in 0..count {
        if let Some(number) = ring.item(place) {
            write!(text, "{mark} {number}")?;
            mark = "";
        }
    }
    Ok(())
}

/// What a ring of a capacity holds behind each field.
fn ring(alloc: Global, row: &Row) -> Result<String, RowError> {
    let room = row.number(0)?;
    if room > MOST_ROOM {
        return Err(RowError::Value);
    }
    let mut ring = Queue::with_capacity(alloc, room as usize)?;
    let mut text = String::new(alloc);
    for field in row.fields.iter().skip(1) {
        take(&mut ring, field.as_str())?;
        if !text.is_empty() {
            text.push_str("; ")?;
        }
        push_held(&mut text, &ring)?;
    }
    Ok(text)
}

/// The answer of a call of a ring, if the row names one.
pub fn answer(alloc: Global, row: &Row) -> Result<Option<String>, RowError> {
    match row.call.as_str() {
        "ring" => Ok(Some(ring(alloc, row)?)),
        _ => Ok(None),
    }
}
