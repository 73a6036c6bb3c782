//! The calls of rows of numbers, lists, files, scripts and volumes.
#![tactic(auto)]

mod files;
mod ids;
mod lists;
mod scripts;
mod volumes;

use row_cases::{Row, RowError};
use std::alloc::Global;

/// The answer of the call that a row names, if it is one of numbers, lists, files, scripts and
/// volumes.
pub fn answer(alloc: Global, row: &Row) -> Result<Option<String>, RowError> {
    if let Some(text) = ids::answer(alloc, row)? {
        return Ok(Some(text));
    }
    if let Some(text) = lists::answer(alloc, row)? {
        return Ok(Some(text));
    }
    if let Some(text) = files::answer(alloc, row)? {
        return Ok(Some(text));
    }
    if let Some(text) = scripts::answer(alloc, row)? {
        return Ok(Some(text));
    }
    volumes::answer(alloc, row)
}
