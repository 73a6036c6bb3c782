//! The calls of classes and keys.

use crate::keys::key_of;
use btree_family::{
    Key, KeyKind, ValueKind, is_same_kind, key_fits, key_order, leaf_of, number_fits, row_of,
};
use row_cases::{Row, RowError};
use std::alloc::Global;

/// What a class is, what its keys and values are, and the class of its leaves.
fn class(alloc: Global, row: &Row) -> Result<String, RowError> {
    let module = row.text(0)?.as_bytes();
    let name = row.text(1)?.as_bytes();
    let Some(found) = row_of(module, name) else {
        return Ok(String::from_str(alloc, "none")?);
    };
    let leaf = match leaf_of(found) {
        Some(leaf) => leaf.name,
        None => "no leaf",
    };
    let kind = found.kind;
    let key = found.key;
    let value = found.value;
    Ok(format!(in alloc; "{kind:?} {key:?} {value:?}, {leaf}")?)
}

/// How two keys stand, and whether they are of one kind.
fn order(alloc: Global, row: &Row) -> Result<String, RowError> {
    let one = key_of(alloc, row.text(0)?)?;
    let other = key_of(alloc, row.text(1)?)?;
    let order = key_order(&one, &other);
    let equal = one == other;
    let kin = is_same_kind(&one, &other);
    Ok(format!(in alloc; "{order:?}, equal {equal}, alike {kin}")?)
}

/// Whether a key is one of each kind, and a number a value of each.
fn fits(alloc: Global, row: &Row) -> Result<String, RowError> {
    let key = key_of(alloc, row.text(0)?)?;
    let object = key_fits(KeyKind::Object, &key);
    let int32 = key_fits(KeyKind::Int32, &key);
    let int64 = key_fits(KeyKind::Int64, &key);
    let Key::Number(number) = key else {
        return Ok(format!(in alloc; "key {object} {int32} {int64}")?);
    };
    let any = number_fits(ValueKind::Object, number);
    let in_32 = number_fits(ValueKind::Int32, number);
    let in_64 = number_fits(ValueKind::Int64, number);
    Ok(format!(in alloc; "key {object} {int32} {int64}, value {any} {in_32} {in_64}")?)
}

/// The answer of a call of classes, if the row names one.
pub fn answer(alloc: Global, row: &Row) -> Result<Option<String>, RowError> {
    let text = match row.call.as_str() {
        "class" => class(alloc, row)?,
        "order" => order(alloc, row)?,
        "fits" => fits(alloc, row)?,
        _ => return Ok(None),
    };
    Ok(Some(text))
}
