//! The calls of a client of a link.

use row_cases::{Row, RowError, bytes_of, push_bytes};
use std::alloc::Global;
use std::fmt::Write;
use zb_ids::{ListOf, Oid, Tid};
use zeo_client::{ClientError, ZeoClient};
use zeo_messages::Message;

/// The number that hexadecimal digits spell.
fn hex_number(text: &str) -> Result<u64, RowError> {
    match u64::from_str_radix(text, 16) {
        Ok(value) => Ok(value),
        Err(_) => Err(RowError::Number),
    }
}

/// How many messages a piece gives, or why the client takes no more.
fn push_fed(text: &mut String, fed: &Result<ListOf<Message>, ClientError>) -> Result<(), RowError> {
    match fed {
        Ok(messages) => {
            let count = messages.len();
            Ok(write!(text, "{count} messages")?)
        }
        Err(ClientError::Memory) => Err(RowError::Memory),
        Err(error) => Ok(write!(text, "{error:?}")?),
    }
}

/// What is found of an object at a front, `-` for nothing.
fn push_found(
    alloc: Global,
    text: &mut String,
    client: &mut ZeoClient,
    oid: Oid,
    front: Tid,
) -> Result<(), RowError> {
    match client.find(oid, front)? {
        Some((Tid(serial), bytes)) => {
            write!(text, "{serial:016x} ")?;
            push_bytes(alloc, text, bytes.as_slice())
        }
        None => Ok(text.push_str("-")?),
    }
}

/// What a client is told by a piece: how many messages it gives, the front that is known then, and what is
/// found of an object at a front, and at the known one.
fn push_told(
    alloc: Global,
    text: &mut String,
    client: &mut ZeoClient,
    oid: Oid,
    front: Tid,
    piece: &[u8],
) -> Result<(), RowError> {
    push_fed(text, &client.feed(piece))?;
    let Tid(known) = client.known();
    write!(text, ", known {known:016x}, ")?;
    push_found(alloc, text, client, oid, front)?;
    text.push_str(", ")?;
    push_found(alloc, text, client, oid, Tid(known))
}

/// A client is fed a first piece, asks for an object below a front, and is fed the others: what each of these
/// tells it.
fn told(alloc: Global, row: &Row) -> Result<String, RowError> {
    let oid = Oid(hex_number(row.text(0)?)?);
    let front = Tid(hex_number(row.text(1)?)?);
    let mut client = ZeoClient::new(alloc)?;
    let mut text = String::new(alloc);
    push_fed(&mut text, &client.feed(row.bytes(alloc, 2)?.as_slice()))?;
    let _ = client.ask(oid, front)?;
    for field in row.fields.iter().skip(3) {
        text.push_str("; ")?;
        let piece = bytes_of(alloc, field.as_str())?;
        push_told(alloc, &mut text, &mut client, oid, front, piece.as_slice())?;
    }
    Ok(text)
}

/// The answer of a call of a client, if the row names one.
pub fn answer(alloc: Global, row: &Row) -> Result<Option<String>, RowError> {
    match row.call.as_str() {
        "told" => Ok(Some(told(alloc, row)?)),
        _ => Ok(None),
    }
}
