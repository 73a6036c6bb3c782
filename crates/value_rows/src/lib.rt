//! The calls of rows of pickles, records, literals, and the classes, states and merges of trees.
#![tactic(auto)]

mod classes;
mod graphs;
mod keys;
mod literals;
mod merges;
mod records;
mod states;
mod tokens;

use row_cases::{Row, RowError};
use std::alloc::Global;

/// The answer of the call that a row names, if it is one of pickles, records, literals, and the
/// classes, states and merges of trees.
pub fn answer(alloc: Global, row: &Row) -> Result<Option<String>, RowError> {
    if let Some(text) = tokens::answer(alloc, row)? {
        return Ok(Some(text));
    }
    if let Some(text) = graphs::answer(alloc, row)? {
        return Ok(Some(text));
    }
    if let Some(text) = records::answer(alloc, row)? {
        return Ok(Some(text));
    }
    if let Some(text) = literals::answer(alloc, row)? {
        return Ok(Some(text));
    }
    if let Some(text) = classes::answer(alloc, row)? {
        return Ok(Some(text));
    }
    if let Some(text) = states::answer(alloc, row)? {
        return Ok(Some(text));
    }
    merges::answer(alloc, row)
}
