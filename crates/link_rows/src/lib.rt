//! The calls of rows of frames and messages, of a client of a link, and of a ring of news.
#![tactic(auto)]

mod clients;
mod frames;
mod messages;
mod rings;

use row_cases::{Row, RowError};
use std::alloc::Global;

/// The answer of the call that a row names, if it is one of frames and messages, of a client of a
/// link, and of a ring of news.
pub fn answer(alloc: Global, row: &Row) -> Result<Option<String>, RowError> {
    if let Some(text) = frames::answer(alloc, row)? {
        return Ok(Some(text));
    }
    if let Some(text) = clients::answer(alloc, row)? {
        return Ok(Some(text));
    }
    if let Some(text) = rings::answer(alloc, row)? {
        return Ok(Some(text));
    }
    messages::answer(alloc, row)
}
