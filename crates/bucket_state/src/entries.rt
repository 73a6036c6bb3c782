//! The members of a tuple of keys and values.

ghost use Rattle.std.specs.Prelude.{◌≡◌, IfOk, Some};
ghost use Rattle.bucket_state.specs.Answers.{AnswersFound};
ghost use Rattle.bucket_state.specs.States.{single_entries, pair_entries, entries_in};

use crate::error::StateError;
use std::alloc::{AllocError, Global};
use zb_ids::ListOf;

/// The numbers of a key's node and, where it stands beside a value, of the value's.
#[derive(Clone, Copy, Debug)]
pub(crate) struct Entry {
    pub key: u32,
    pub value: Option<u32>,
}

/// Each number as a key alone.
fn singles(alloc: Global, members: &[u32]) -> Result<ListOf<Entry>, AllocError>
    ensures { IfOk result (λ entries. entries ≡ single_entries members.now) }
{
    let mut entries = Vec::new(alloc);
    for key in members {
        entries.push(Entry {
            key: *key,
            value: None,
        })?;
    }
    Ok(ListOf::from_vec(entries))
}

/// Keys, each with the value behind it.
pub(crate) fn pairs(alloc: Global, members: &[u32]) -> Result<ListOf<Entry>, StateError>
    ensures { AnswersFound result (pair_entries members.now) }
{
    let mut entries = Vec::new(alloc);
    let mut rest = members;
    'pairs: while let [key, behind @ ..] = rest {
        let [value, next @ ..] = behind else {
            return Err(StateError::BadState);
        };
        entries.push(Entry {
            key: *key,
            value: Some(*value),
        })?;
        rest = next;
    }
    Ok(ListOf::from_vec(entries))
}

/// The members of a tuple, as keys with values or alone.
pub(crate) fn entries(
    alloc: Global,
    with_values: bool,
    members: &[u32],
) -> Result<ListOf<Entry>, StateError>
    ensures { AnswersFound result (entries_in with_values members.now) }
{
    if with_values {
        return pairs(alloc, members);
    }
    let entries = singles(alloc, members)?;
    Ok(entries)
}
