//! The fields of a line.

use crate::case::Outside;
use crate::case_error::CaseError;
use std::alloc::{AllocError, Global};
use zb_ids::Stamp;

/// The greatest number of a call that may be named.
pub const MOST_CALLS: u64 = 100_000;

/// How many bytes or lines are made at most.
pub const MOST_MADE: u64 = 1 << 27;

/// The word up to the first blank, and what stands behind that blank.
pub fn word_and_rest(line: &str) -> (&str, &str) {
    match line.split_once(' ') {
        Some(parts) => parts,
        None => (line, ""),
    }
}

/// The number that digits spell.
pub fn number(text: &str, most: u64) -> Result<u64, CaseError> {
    match text.parse::<u64>() {
        Ok(value) if value <= most => Ok(value),
        _ => Err(CaseError::Number),
    }
}

/// The exit status that digits spell.
pub fn exit_status(text: &str) -> Result<u8, CaseError> {
    match text.parse::<u8>() {
        Ok(status) => Ok(status),
        Err(_) => Err(CaseError::Number),
    }
}

/// The bytes that pairs of digits spell.
pub fn bytes(alloc: Global, digits: &str) -> Result<Vec<u8>, CaseError> {
    match hex::decode(alloc, digits) {
        Ok(bytes) => Ok(bytes),
        Err(hex::FromHexError::OutOfMemory) => Err(CaseError::Memory),
        Err(_) => Err(CaseError::Hex),
    }
}

/// The bytes of `BYTE COUNT`, which are all alike.
pub fn filled(alloc: Global, text: &str) -> Result<Vec<u8>, CaseError> {
    let (digits, count) = word_and_rest(text);
    let count = number(count, MOST_MADE)?;
    match bytes(alloc, digits)?.as_slice() {
        [byte] => Ok(vec![in alloc; *byte; count as usize]?),
        _ => Err(CaseError::Hex),
    }
}

/// The number of a call, which counts from 1.
pub fn call_number(text: &str) -> Result<u64, CaseError> {
    match number(text, MOST_CALLS)? {
        0 => Err(CaseError::Number),
        call => Ok(call),
    }
}

/// Numbers of calls with a blank between them.
pub fn call_numbers(alloc: Global, text: &str) -> Result<Vec<u64>, CaseError> {
    let mut numbers = Vec::new(alloc);
    for word in text.split(' ') {
        push(&mut numbers, call_number(word)?)?;
    }
    Ok(numbers)
}

/// Words with a blank between them, of which `""` is the empty one.
pub fn words(alloc: Global, text: &str) -> Result<Vec<String>, AllocError> {
    let mut words = Vec::new(alloc);
    if text.is_empty() {
        return Ok(words);
    }
    for word in text.split(' ') {
        let word = if word == "\"\"" { "" } else { word };
        words.push(String::from_str(alloc, word)?)?;
    }
    Ok(words)
}

/// Who is called, and what stands behind that.
pub fn outside_and_rest(text: &str) -> Result<(Outside, &str), CaseError> {
    let (word, rest) = word_and_rest(text);
    let of = match word {
        "source" => Outside::Source,
        "sink" => Outside::Sink,
        "volume" => Outside::Volume,
        _ => return Err(CaseError::Form),
    };
    Ok((of, rest))
}

/// Three texts with a character between them.
fn three(text: &str, between: char) -> Option<(&str, &str, &str)> {
    let (first, rest) = text.split_once(between)?;
    let (second, third) = rest.split_once(between)?;
    Some((first, second, third))
}

/// The millionths of a second of `SS` or `SS.FFFFFF`.
fn micros_of(text: &str) -> Option<u32> {
    let (seconds, millionths) = match text.split_once('.') {
        Some((seconds, millionths)) if millionths.len() == 6 => (seconds, millionths),
        Some(_) => return None,
        None => (text, "0"),
    };
    let seconds = seconds.parse::<u32>().ok()?;
    let millionths = millionths.parse::<u32>().ok()?;
    seconds.checked_mul(1_000_000)?.checked_add(millionths)
}

fn stamp_of(text: &str) -> Option<Stamp> {
    let (date, time) = text.split_once(' ')?;
    let (year, month, day) = three(date, '-')?;
    let (hour, minute, seconds) = three(time, ':')?;
    Stamp::new(
        year.parse::<u16>().ok()?,
        month.parse::<u8>().ok()?,
        day.parse::<u8>().ok()?,
        hour.parse::<u8>().ok()?,
        minute.parse::<u8>().ok()?,
        micros_of(seconds)?,
    )
    .ok()
}

/// The moment of `YYYY-MM-DD HH:MM:SS`, with `.FFFFFF` behind it where it has millionths.
pub fn stamp(text: &str) -> Result<Stamp, CaseError> {
    stamp_of(text).ok_or(CaseError::Stamp)
}

/// Puts a value at the end.
pub fn push<T: Drop>(list: &mut Vec<T>, value: T) -> Result<(), AllocError> {
    list.push(value)?;
    Ok(())
}
