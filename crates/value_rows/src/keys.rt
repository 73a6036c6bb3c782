//! Keys and items of trees as words.

use btree_family::Key;
use row_cases::{RowError, bytes_of, push_bytes};
use std::alloc::Global;
use std::fmt::Write;
use zb_ids::Text8;

/// The key that a word is: `t:HEX` a text, `b:HEX` bytes, a number, or else a text.
pub fn key_of(alloc: Global, word: &str) -> Result<Key, RowError> {
    if let Some(digits) = word.strip_prefix("t:") {
        return Ok(Key::Text(Text8::from_vec(bytes_of(alloc, digits)?)));
    }
    if let Some(digits) = word.strip_prefix("b:") {
        return Ok(Key::Bytes(Text8::from_vec(bytes_of(alloc, digits)?)));
    }
    match word.parse::<i128>() {
        Ok(number) => Ok(Key::Number(number)),
        Err(_) => Ok(Key::Text(Text8::from_slice(alloc, word.as_bytes())?)),
    }
}

/// A key: a number, a text, or `b:` and digits.
pub fn push_key(alloc: Global, text: &mut String, key: &Key) -> Result<(), RowError> {
    match key {
        Key::Number(number) => Ok(write!(text, "{number}")?),
        Key::Text(bytes) => {
            Ok(text.push_str(std::str::from_utf8(bytes.as_slice()).unwrap_or("?"))?)
        }
        Key::Bytes(bytes) => {
            text.push_str("b:")?;
            push_bytes(alloc, text, bytes.as_slice())
        }
    }
}
