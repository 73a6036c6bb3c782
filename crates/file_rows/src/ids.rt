//! The calls of numbers and stamps.

use row_cases::{Row, RowError};
use std::alloc::Global;
use zb_ids::{Stamp, Tid, hex, hex_pair, next_tid, read_hex, read_hex_pair, tid_of_stamp};

/// Digits as text.
fn digits(alloc: Global, bytes: &[u8]) -> Result<String, RowError> {
    Ok(String::from_str(alloc, std::str::from_utf8(bytes).unwrap_or("(no text)"))?)
}

/// The number of a field as one byte.
fn byte_at(row: &Row, place: usize) -> Result<u8, RowError> {
    match u8::try_from(row.number(place)?) {
        Ok(number) => Ok(number),
        Err(_) => Err(RowError::Number),
    }
}

/// The number in sixteen digits.
fn sixteen(row: &Row, place: usize) -> Result<u64, RowError> {
    match read_hex(row.text(place)?.as_bytes()) {
        Ok(number) => Ok(number),
        Err(_) => Err(RowError::Hex),
    }
}

/// The stamp of six numbers from a field on, or why there is none.
fn stamp_at(alloc: Global, row: &Row, from: usize) -> Result<Result<Stamp, String>, RowError> {
    let place = |more: usize| from.saturating_add(more);
    let Ok(year) = u16::try_from(row.number(from)?) else {
        return Err(RowError::Number);
    };
    let Ok(micros) = u32::try_from(row.number(place(5))?) else {
        return Err(RowError::Number);
    };
    let month = byte_at(row, place(1))?;
    let day = byte_at(row, place(2))?;
    let hour = byte_at(row, place(3))?;
    let minute = byte_at(row, place(4))?;
    match Stamp::new(year, month, day, hour, minute, micros) {
        Ok(stamp) => Ok(Ok(stamp)),
        Err(refusal) => Ok(Err(format!(in alloc; "{refusal}")?)),
    }
}

/// The tid of a stamp.
fn stamp(alloc: Global, row: &Row) -> Result<String, RowError> {
    match stamp_at(alloc, row, 0)? {
        Ok(stamp) => digits(alloc, &hex(tid_of_stamp(stamp).0)),
        Err(text) => Ok(text),
    }
}

/// The tid of the stamp that a text spells.
fn moment(alloc: Global, row: &Row) -> Result<String, RowError> {
    match Stamp::read(row.text(0)?) {
        Ok(stamp) => digits(alloc, &hex(tid_of_stamp(stamp).0)),
        Err(refusal) => Ok(format!(in alloc; "{refusal}")?),
    }
}

/// Whether one stamp is before another, and whether its tid is.
fn earlier(alloc: Global, row: &Row) -> Result<String, RowError> {
    let one = match stamp_at(alloc, row, 0)? {
        Ok(stamp) => stamp,
        Err(text) => return Ok(text),
    };
    let other = match stamp_at(alloc, row, 6)? {
        Ok(stamp) => stamp,
        Err(text) => return Ok(text),
    };
    let stamps = one < other;
    let tids = tid_of_stamp(one) < tid_of_stamp(other);
    Ok(format!(in alloc; "{stamps} {tids}")?)
}

/// The tid behind one, at a stamp.
fn next(alloc: Global, row: &Row) -> Result<String, RowError> {
    let last = Tid(sixteen(row, 0)?);
    let clock = match stamp_at(alloc, row, 1)? {
        Ok(stamp) => stamp,
        Err(text) => return Ok(text),
    };
    match next_tid(last, clock) {
        Ok(tid) => digits(alloc, &hex(tid.0)),
        Err(refusal) => Ok(format!(in alloc; "{refusal}")?),
    }
}

/// The number of sixteen digits, and the digits of that number where they are others.
fn number(alloc: Global, row: &Row) -> Result<String, RowError> {
    let text = row.text(0)?;
    match read_hex(text.as_bytes()) {
        Ok(number) if hex(number).as_slice() == text.as_bytes() => {
            Ok(format!(in alloc; "{number}")?)
        }
        Ok(number) => Ok(format!(in alloc; "{number}, and written otherwise")?),
        Err(refusal) => Ok(format!(in alloc; "{refusal}")?),
    }
}

/// The byte of two digits, and the digits of that byte where they are others.
fn pair(alloc: Global, row: &Row) -> Result<String, RowError> {
    let [high, low] = row.text(0)?.as_bytes() else {
        return Err(RowError::Value);
    };
    match read_hex_pair(*high, *low) {
        Some(byte) if hex_pair(byte) == [*high, *low] => Ok(format!(in alloc; "{byte}")?),
        Some(byte) => Ok(format!(in alloc; "{byte}, and written otherwise")?),
        None => Ok(String::from_str(alloc, "none")?),
    }
}

/// The answer of a call of numbers, if the row names one.
pub fn answer(alloc: Global, row: &Row) -> Result<Option<String>, RowError> {
    let text = match row.call.as_str() {
        "stamp" => stamp(alloc, row)?,
        "moment" => moment(alloc, row)?,
        "earlier" => earlier(alloc, row)?,
        "next" => next(alloc, row)?,
        "number" => number(alloc, row)?,
        "pair" => pair(alloc, row)?,
        _ => return Ok(None),
    };
    Ok(Some(text))
}
