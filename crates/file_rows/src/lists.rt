//! The calls of plain lists of transactions, which stand in the fields behind those of the call.

use row_cases::{Row, RowError, bytes_of, number, push_bytes};
use std::alloc::Global;
use std::fmt::Write;
use zb_ids::{ListOf, Oid, Text8, Tid};
use zb_model::{
    Change, Content, NewChange, NewContent, NewTransaction, Transaction, content_at, is_votable,
    newest_of, revision_before, serial_in,
};

/// The number and the rest of `OID=REST`.
fn change_of(text: &str) -> Result<(u64, &str), RowError> {
    match text.split_once('=') {
        Some((oid, rest)) => Ok((number(oid)?, rest)),
        None => Err(RowError::Value),
    }
}

/// The change of `OID=HEX`; no byte stands for an object that isn't there.
fn change(alloc: Global, text: &str) -> Result<Change, RowError> {
    let (oid, digits) = change_of(text)?;
    let bytes = bytes_of(alloc, digits)?;
    let content = if bytes.is_empty() {
        Content::Absent
    } else {
        Content::Held(Text8::from_vec(bytes))
    };
    Ok(Change {
        oid: Oid(oid),
        content,
    })
}

/// The transaction of `TID OID=HEX ..`.
fn transaction(alloc: Global, text: &str) -> Result<Transaction, RowError> {
    let mut words = text.split(' ');
    let tid = Tid(number(words.next().unwrap_or(""))?);
    let mut changes = ListOf::new(alloc);
    for word in words {
        changes.push(change(alloc, word)?)?;
    }
    Ok(Transaction {
        tid,
        packed: false,
        user: Text8::new(alloc),
        description: Text8::new(alloc),
        extension: Text8::new(alloc),
        changes,
    })
}

/// The list in the fields from one on.
fn list_of(alloc: Global, row: &Row, from: usize) -> Result<Vec<Transaction>, RowError> {
    let mut list = Vec::new(alloc);
    for field in row.fields.iter().skip(from) {
        list.push(transaction(alloc, field.as_str())?)?;
    }
    Ok(list)
}

fn push_content(alloc: Global, text: &mut String, content: &Content) -> Result<(), RowError> {
    match content {
        Content::Held(bytes) => push_bytes(alloc, text, bytes.as_slice()),
        Content::Absent => Ok(text.push_str("absent")?),
    }
}

/// The newest tid of a list, and an object's serial.
fn newest(alloc: Global, row: &Row) -> Result<String, RowError> {
    let list = list_of(alloc, row, 1)?;
    let tid = newest_of(list.as_slice()).0;
    let serial = serial_in(list.as_slice(), Oid(row.number(0)?)).0;
    Ok(format!(in alloc; "{tid}, serial {serial}")?)
}

/// An object's revision below a front.
fn revision(alloc: Global, row: &Row) -> Result<String, RowError> {
    let list = list_of(alloc, row, 2)?;
    let mut text = String::new(alloc);
    match revision_before(list.as_slice(), Oid(row.number(0)?), Tid(row.number(1)?)) {
        Some((serial, content)) => {
            let tid = serial.0;
            write!(text, "{tid} ")?;
            push_content(alloc, &mut text, content)?;
        }
        None => text.push_str("none")?,
    }
    Ok(text)
}

/// What an object has by a serial.
fn content(alloc: Global, row: &Row) -> Result<String, RowError> {
    let list = list_of(alloc, row, 2)?;
    let mut text = String::new(alloc);
    match content_at(list.as_slice(), Oid(row.number(0)?), Tid(row.number(1)?)) {
        Some(content) => push_content(alloc, &mut text, content)?,
        None => text.push_str("none")?,
    }
    Ok(text)
}

/// The new change of `OID=HEX`, of `OID=` for an object that is to go, or of `OID=@SERIAL`; `OID=-`
/// is a record of no byte.
fn new_change(alloc: Global, text: &str) -> Result<NewChange, RowError> {
    let (oid, rest) = change_of(text)?;
    let content = match rest.strip_prefix('@') {
        Some(serial) => NewContent::AsOf(Tid(number(serial)?)),
        None if rest.is_empty() => NewContent::Absent,
        None => NewContent::Bytes(Text8::from_vec(bytes_of(alloc, rest)?)),
    };
    Ok(NewChange {
        oid: Oid(oid),
        content,
    })
}

/// The new changes with commas between them; `none` is none.
fn new_changes(alloc: Global, text: &str) -> Result<ListOf<NewChange>, RowError> {
    let mut changes = ListOf::new(alloc);
    if text == "none" {
        return Ok(changes);
    }
    for word in text.split(',') {
        changes.push(new_change(alloc, word)?)?;
    }
    Ok(changes)
}

/// Whether a new transaction may be voted: its tid, how many bytes its user has, and its changes.
fn votable(alloc: Global, row: &Row) -> Result<String, RowError> {
    let list = list_of(alloc, row, 3)?;
    let length = row.number(1)?;
    if length > 1 << 20 {
        return Err(RowError::Number);
    }
    let new = NewTransaction {
        tid: Tid(row.number(0)?),
        user: Text8::from_vec(vec![in alloc; 0x75; length as usize]?),
        description: Text8::new(alloc),
        extension: Text8::new(alloc),
        changes: new_changes(alloc, row.text(2)?)?,
    };
    let may = is_votable(list.as_slice(), &new);
    Ok(format!(in alloc; "{may}")?)
}

/// The answer of a call of lists, if the row names one.
pub fn answer(alloc: Global, row: &Row) -> Result<Option<String>, RowError> {
    let text = match row.call.as_str() {
        "newest" => newest(alloc, row)?,
        "revision" => revision(alloc, row)?,
        "content" => content(alloc, row)?,
        "votable" => votable(alloc, row)?,
        _ => return Ok(None),
    };
    Ok(Some(text))
}
