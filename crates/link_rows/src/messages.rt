//! The calls of messages.

use row_cases::{Row, RowError};
use sha2::{Digest, Sha256};
use std::alloc::Global;
use std::fmt::Write;
use zeo_messages::{length_of, write_message};
use zeo_reading::{MessageError, read_message};

/// The greatest number of letters that are shown of a message.
const MOST_LETTERS: usize = 2_000;

/// A message as it is shown: a long one by how many letters it has, and by their SHA-256.
fn push_shown(alloc: Global, text: &mut String, shown: &str) -> Result<(), RowError> {
    let count = shown.len();
    if count <= MOST_LETTERS {
        return Ok(text.push_str(shown)?);
    }
    let digest = Sha256::digest(shown.as_bytes());
    let digits = hex::encode(alloc, digest.as_slice())?;
    Ok(write!(text, "{count} letters {digits}")?)
}

/// The message that a payload spells, whether it is written as that payload, and its counted length.
fn message(alloc: Global, row: &Row) -> Result<String, RowError> {
    let payload = row.bytes(alloc, 0)?;
    match read_message(alloc, payload.as_slice()) {
        Ok(message) => {
            let mut text = String::new(alloc);
            let shown = format!(in alloc; "{message:?}")?;
            push_shown(alloc, &mut text, shown.as_str())?;
            let written = write_message(alloc, &message)?;
            let again = written.as_slice() == payload.as_slice();
            let length = length_of(alloc, &message)?;
            write!(text, "; again {again}; counted {length}")?;
            Ok(text)
        }
        Err(MessageError::Memory) => Err(RowError::Memory),
        Err(error) => Ok(format!(in alloc; "{error:?}")?),
    }
}

/// The answer of a call of messages, if the row names one.
pub fn answer(alloc: Global, row: &Row) -> Result<Option<String>, RowError> {
    let text = match row.call.as_str() {
        "message" => message(alloc, row)?,
        _ => return Ok(None),
    };
    Ok(Some(text))
}
