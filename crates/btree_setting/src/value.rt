//! Whether a value is one of a family.

ghost use Rattle.std.specs.Prelude.{◌≡◌, true, IfOk, slice_get};
ghost use Rattle.pickle_graph.specs.Graph.{IsGraph};
ghost use Rattle.btree_family.specs.Buckets.{IsSpelling, IsValue};
ghost use Rattle.btree_family.specs.Classes.{class_seen};
ghost use Rattle.bucket_state.specs.Laws.{node_fits};
ghost use Rattle.bucket_state.specs.States;
ghost use Rattle.bucket_state.specs.Written.{value_pickle};
ghost use Rattle.btree_setting.specs.Values;

use btree_family::{ClassRow, Kind, ValueKind, number_fits};
use pickle_graph::{Node, Pickle};
use pickle_reading::{PickleError, read_pickle};
use pickle_writing::{WriteError, spelling};
use std::alloc::{AllocError, Global};
use zb_ids::Text8;

/// Whether a graph's root may be a value of a family.
fn root_fits(kind: ValueKind, pickle: &Pickle) -> bool
    ensures fits { result ≡ node_fits kind (slice_get pickle.now.nodes pickle.now.root) }
    ensures graph { IsGraph pickle.now.nodes pickle.now.root }
{
    match pickle.nodes().as_slice().get(pickle.root() as usize) {
        None => false,
        Some(node) => match kind {
            ValueKind::Object => true,
            _ => match node {
                Node::Number(number) => number_fits(kind, *number),
                _ => false,
            },
        },
    }
}

/// Whether the bytes are the spelling of a graph's root, which may be a value of a family.
fn is_value_of(
    alloc: Global,
    kind: ValueKind,
    text: &Text8,
    pickle: &Pickle,
) -> Result<bool, AllocError>
    ensures is { IfOk result (λ is. is ≡ Values.is_value_of kind text.now pickle.now) }
    ensures spelled { IfOk result (λ is. is ≡ true → IsSpelling text.now) }
{
    if !root_fits(kind, pickle) {
        return Ok(false);
    }
    match spelling(alloc, pickle, pickle.root()) {
        Ok(spelled) => Ok(spelled == *text),
        Err(WriteError::TooDeep) => Ok(false),
        Err(WriteError::Memory) => Err(AllocError),
    }
}

/// A spelling as a pickle.
fn value_pickle(alloc: Global, text: &Text8) -> Result<Text8, AllocError>
    ensures { IfOk result (λ bytes. bytes ≡ value_pickle text.now) }
{
    let mut bytes = Text8::from_slice(alloc, &[0x80, 3])?;
    bytes.extend_from_slice(text.as_slice())?;
    bytes.push(0x2e)?;
    Ok(bytes)
}

/// Whether the bytes are the spelling of a value of a family.
fn is_family_text(alloc: Global, kind: ValueKind, text: &Text8) -> Result<bool, AllocError>
    ensures is { IfOk result (λ is. is ≡ Values.is_family_text kind text.now) }
    ensures spelled { IfOk result (λ is. is ≡ true → IsSpelling text.now) }
{
    let bytes = value_pickle(alloc, text)?;
    match read_pickle(alloc, bytes.as_slice(), 0) {
        Ok((pickle, _)) => is_value_of(alloc, kind, text, &pickle),
        Err(PickleError::Memory) => Err(AllocError),
        Err(_) => Ok(false),
    }
}

/// Whether the objects of such a class, or their leaves, have values.
fn has_values(kind: Kind) -> bool
    ensures { result ≡ States.has_values kind }
{
    match kind {
        Kind::Bucket | Kind::Tree => true,
        Kind::Set | Kind::TreeSet => false,
    }
}

/// Whether a value stands exactly where the class has values, and is one of its family.
pub(crate) fn fits_class(
    alloc: Global,
    row: &ClassRow,
    value: &Option<Text8>,
) -> Result<bool, AllocError>
    ensures fits { IfOk result (λ fits. fits ≡ Values.fits_class (class_seen row.now) value.now) }
    ensures value { IfOk result (λ fits. fits ≡ true → IsValue value.now) }
{
    match value {
        None => Ok(!has_values(row.kind)),
        Some(text) => {
            if !has_values(row.kind) {
                return Ok(false);
            }
            is_family_text(alloc, row.value, text)
        }
    }
}
