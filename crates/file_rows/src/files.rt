//! The calls of files.

use fs_index::{Index, Lookup, Place};
use fs_records::{
    DataHeader, Header, read_data_header, read_header, write_data_header, write_header,
};
use fs_recovery::{OpenError, Opened, open_main};
use row_cases::{Row, RowError, trimmed};
use std::alloc::Global;
use std::fmt::Write;
use zb_ids::{Oid, Tid, read_hex};
use zb_volume::{Area, MemoryVolume, Volume};

/// The header of a transaction, and whether it is written as it was.
fn header(alloc: Global, row: &Row) -> Result<String, RowError> {
    let bytes = row.bytes(alloc, 0)?;
    let Ok(bytes) = <[u8; 23]>::try_from(bytes.as_slice()) else {
        return Err(RowError::Value);
    };
    let found = read_header(&bytes);
    let again = write_header(&found) == bytes;
    let Header {
        tid: Tid(tid),
        length,
        status,
        user,
        description,
        extension,
    } = found;
    Ok(format!(in alloc;
        "{tid} {length} {status} {user} {description} {extension}, again {again}"
    )?)
}

/// The header of a data record, and whether it is written as it was.
fn data_header(alloc: Global, row: &Row) -> Result<String, RowError> {
    let bytes = row.bytes(alloc, 0)?;
    let Ok(bytes) = <[u8; 42]>::try_from(bytes.as_slice()) else {
        return Err(RowError::Value);
    };
    let found = read_data_header(&bytes);
    let again = write_data_header(&found) == bytes;
    let DataHeader {
        oid: Oid(oid),
        tid: Tid(tid),
        previous,
        transaction,
        version,
        length,
    } = found;
    Ok(format!(in alloc; "{oid} {tid} {previous} {transaction} {version} {length}, again {again}")?)
}

/// The file that the bytes are, as Main. The volume's call of a number fails; two are made before
/// the file is opened.
fn open(alloc: Global, bytes: &[u8], call: u64) -> Result<Result<Opened, OpenError>, RowError> {
    let mut failing = Vec::new(alloc);
    failing.push(call)?;
    let mut volume = MemoryVolume::new(alloc, failing);
    let Ok(()) = volume.write_at(Area::Main, 0, bytes) else {
        return Err(RowError::Memory);
    };
    let Ok(length) = volume.len(Area::Main) else {
        return Err(RowError::Memory);
    };
    if length == 0 {
        return Err(RowError::Value);
    }
    Ok(open_main(alloc, &mut volume))
}

fn push_place(text: &mut String, place: Place) -> Result<(), RowError> {
    let Place {
        serial: Tid(serial),
        at,
    } = place;
    write!(text, " {serial}@{at}")?;
    Ok(())
}

fn push_places(text: &mut String, places: &[Place]) -> Result<(), RowError> {
    for place in places {
        push_place(text, *place)?;
    }
    Ok(())
}

fn push_found(text: &mut String, place: Option<Place>) -> Result<(), RowError> {
    match place {
        Some(place) => push_place(text, place),
        None => Ok(text.push_str(" none")?),
    }
}

/// Where the file ends, what is cut off, and how many transactions it has; or its damage. The
/// second field may be the number of a call that fails.
fn file(alloc: Global, row: &Row) -> Result<String, RowError> {
    let bytes = row.bytes(alloc, 0)?;
    match open(alloc, bytes.as_slice(), row.number_or(1, 0)?)? {
        Ok(opened) => {
            let mut text = String::new(alloc);
            let end = opened.end;
            write!(text, "ends {end}")?;
            if let Some(cut) = opened.cut {
                write!(text, ", cut {cut}")?;
            }
            let count = opened.index.transactions().len();
            write!(text, "; {count} transactions")?;
            let oid = opened.numbers.greatest_oid().0;
            let point = opened.numbers.pack_point().0;
            write!(text, ", greatest object {oid:x}, packed {point}")?;
            Ok(text)
        }
        Err(refusal) => Ok(format!(in alloc; "{refusal}")?),
    }
}

/// The file of the first field, which is to be one.
fn opened_of(alloc: Global, row: &Row) -> Result<Opened, RowError> {
    let bytes = row.bytes(alloc, 0)?;
    match open(alloc, bytes.as_slice(), 0)? {
        Ok(opened) => Ok(opened),
        Err(_) => Err(RowError::Value),
    }
}

/// The object that a field names by its digits.
fn oid_of(digits: &str) -> Result<Oid, RowError> {
    match read_hex(digits.as_bytes()) {
        Ok(number) => Ok(Oid(number)),
        Err(_) => Err(RowError::Hex),
    }
}

/// The places of the transactions, and of the objects of the fields behind the file.
fn places(alloc: Global, row: &Row) -> Result<String, RowError> {
    let opened = opened_of(alloc, row)?;
    let mut text = String::new(alloc);
    push_places(&mut text, opened.index.transactions())?;
    text.push_str(";")?;
    for field in row.fields.iter().skip(1) {
        let oid = oid_of(field.as_str())?;
        push_places(&mut text, opened.index.places(oid))?;
        text.push_str(";")?;
    }
    trimmed(alloc, &text)
}

fn push_lookup(text: &mut String, index: &Index, oid: Oid, front: Tid) -> Result<(), RowError> {
    push_found(text, index.before(oid, front))?;
    push_found(text, index.newest(oid))
}

/// An object's last place below a front, its newest place, and whether a record of it stands at
/// each of the places behind these.
fn lookup(alloc: Global, row: &Row) -> Result<String, RowError> {
    let opened = opened_of(alloc, row)?;
    let oid = oid_of(row.text(1)?)?;
    let front = Tid(row.number(2)?);
    let mut text = String::new(alloc);
    push_lookup(&mut text, &opened.index, oid, front)?;
    for place in 3..row.fields.len() {
        let there = opened.index.stands_at(oid, row.number(place)?);
        write!(text, " {there}")?;
    }
    trimmed(alloc, &text)
}

/// How many changes there are up to each of the transactions behind the file.
fn changes(alloc: Global, row: &Row) -> Result<String, RowError> {
    let opened = opened_of(alloc, row)?;
    let mut text = String::new(alloc);
    for place in 1..row.fields.len() {
        let tid = Tid(row.number(place)?);
        let count = opened.numbers.changes_to(opened.index.transactions(), tid);
        write!(text, " {count}")?;
    }
    trimmed(alloc, &text)
}

/// The answer of a call of files, if the row names one.
pub fn answer(alloc: Global, row: &Row) -> Result<Option<String>, RowError> {
    let text = match row.call.as_str() {
        "header" => header(alloc, row)?,
        "data_header" => data_header(alloc, row)?,
        "file" => file(alloc, row)?,
        "places" => places(alloc, row)?,
        "lookup" => lookup(alloc, row)?,
        "changes" => changes(alloc, row)?,
        _ => return Ok(None),
    };
    Ok(Some(text))
}
