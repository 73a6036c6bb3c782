//! A row: a call, what it is given, and the answer that is expected.

use crate::row_error::RowError;
use std::alloc::Global;

/// The greatest number of times that a piece of bytes is repeated.
const MOST_TIMES: u64 = 1 << 27;

/// A row.
#[derive(Drop)]
pub struct Row {
    /// The number of its first line, from 1 on.
    pub line: u64,
    /// The call.
    pub call: String,
    /// What it is given.
    pub fields: Vec<String>,
    /// The answer that is expected.
    pub wanted: Option<String>,
    /// The answer that is given, where it isn't the expected one.
    pub told: Option<String>,
}

/// The bytes of pairs of digits.
fn digits(alloc: Global, text: &str) -> Result<Vec<u8>, RowError> {
    match hex::decode(alloc, text) {
        Ok(bytes) => Ok(bytes),
        Err(hex::FromHexError::OutOfMemory) => Err(RowError::Memory),
        Err(_) => Err(RowError::Hex),
    }
}

/// Puts the bytes of `HEX` or of `HEX*TIMES` at the end.
fn push_piece(alloc: Global, all: &mut Vec<u8>, piece: &str) -> Result<(), RowError> {
    let (text, times) = match piece.split_once('*') {
        Some((text, times)) => (text, number(times)?),
        None => (piece, 1),
    };
    if times > MOST_TIMES {
        return Err(RowError::Number);
    }
    let bytes = digits(alloc, text)?;
    for _ in 0..times {
        all.extend_from_slice(bytes.as_slice())?;
    }
    Ok(())
}

/// The bytes of pieces with `+` between them; `-` is no byte.
pub fn bytes_of(alloc: Global, text: &str) -> Result<Vec<u8>, RowError> {
    let mut all = Vec::new(alloc);
    if text == "-" {
        return Ok(all);
    }
    for piece in text.split('+') {
        push_piece(alloc, &mut all, piece)?;
    }
    Ok(all)
}

/// The number that decimal digits spell.
pub fn number(text: &str) -> Result<u64, RowError> {
    match text.parse::<u64>() {
        Ok(value) => Ok(value),
        Err(_) => Err(RowError::Number),
    }
}

/// The text without blanks in front.
pub fn trimmed(alloc: Global, text: &String) -> Result<String, RowError> {
    Ok(String::from_str(alloc, text.as_str().trim_start())?)
}

impl Row {
    /// A field.
    pub fn text(&self, place: usize) -> Result<&str, RowError> {
        match self.fields.get(place) {
            Some(field) => Ok(field.as_str()),
            None => Err(RowError::Fields),
        }
    }

    /// The bytes that a field says.
    pub fn bytes(&self, alloc: Global, place: usize) -> Result<Vec<u8>, RowError> {
        bytes_of(alloc, self.text(place)?)
    }

    /// The number that a field says.
    pub fn number(&self, place: usize) -> Result<u64, RowError> {
        number(self.text(place)?)
    }

    /// The number that a field says, or one where there is no such field.
    pub fn number_or(&self, place: usize, other: u64) -> Result<u64, RowError> {
        match self.fields.get(place) {
            Some(field) => number(field.as_str()),
            None => Ok(other),
        }
    }
}
