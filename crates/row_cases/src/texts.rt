//! How answers spell bytes.

use crate::row_error::RowError;
use sha2::{Digest, Sha256};
use std::alloc::Global;
use std::fmt::Write;
use zb_ids::Text8;

/// How many bytes are shown by their digits.
const MOST_SHOWN: usize = 1_000;

/// Puts bytes at the end by their digits, or where there are more than 1,000 by their count and
/// their SHA-256.
pub fn push_bytes(alloc: Global, text: &mut String, bytes: &[u8]) -> Result<(), RowError> {
    if bytes.len() <= MOST_SHOWN {
        text.push_str(hex::encode(alloc, bytes)?.as_str())?;
        return Ok(());
    }
    let digest = Sha256::digest(bytes);
    let digits = hex::encode(alloc, digest.as_slice())?;
    let count = bytes.len();
    write!(text, "{count} bytes {digits}")?;
    Ok(())
}

/// Puts bytes at the end as the text that they spell, or `(no text)`.
pub fn push_text8(text: &mut String, bytes: &Text8) -> Result<(), RowError> {
    text.push_str(std::str::from_utf8(bytes.as_slice()).unwrap_or("(no text)"))?;
    Ok(())
}
