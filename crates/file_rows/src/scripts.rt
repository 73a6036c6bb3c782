//! The calls of scripts.

use row_cases::{Row, RowError, bytes_of};
use std::alloc::Global;
use zb_answers::{Answer, answer_line};
use zb_ids::{Oid, Text8, Tid};
use zb_model::{Refusal, Why};
use zb_script::{Name, read_script};

/// The bytes of a field: a line with its newline, or behind `bytes ` those that digits say.
fn push_field(alloc: Global, script: &mut Vec<u8>, field: &str) -> Result<(), RowError> {
    match field.strip_prefix("bytes ") {
        Some(digits) => script.extend_from_slice(bytes_of(alloc, digits)?.as_slice())?,
        None => {
            script.extend_from_slice(field.as_bytes())?;
            script.push(b'\n')?;
        }
    }
    Ok(())
}

/// How many turns the lines are, or why they are no script.
fn script(alloc: Global, row: &Row) -> Result<String, RowError> {
    let mut script = Vec::new(alloc);
    for field in &row.fields {
        push_field(alloc, &mut script, field.as_str())?;
    }
    match read_script(alloc, script.as_slice()) {
        Ok(turns) => {
            let count = turns.len();
            Ok(format!(in alloc; "{count} turns")?)
        }
        Err(refusal) => Ok(format!(in alloc; "{refusal}")?),
    }
}

/// Whether bytes are a client's name.
fn name(alloc: Global, row: &Row) -> Result<String, RowError> {
    let bytes = row.bytes(alloc, 0)?;
    let is_name = match Name::new(bytes.as_slice()) {
        Some(name) => name.as_bytes() == bytes.as_slice(),
        None => false,
    };
    Ok(format!(in alloc; "{is_name}")?)
}

/// The line of a conflict in what stands under the key that is spelled so.
fn conflict(alloc: Global, row: &Row) -> Result<String, RowError> {
    let key = Text8::from_vec(row.bytes(alloc, 0)?);
    let answer = Answer::Refused(Refusal::Conflict {
        oid: Oid(1),
        base: Tid(0),
        current: Tid(2),
        why: Why::Key(key),
    });
    let line = answer_line(alloc, &answer)?;
    let text = std::str::from_utf8(line.as_slice()).unwrap_or("(no text)");
    Ok(String::from_str(alloc, text.trim_end_matches('\n'))?)
}

/// The answer of a call of scripts, if the row names one.
pub fn answer(alloc: Global, row: &Row) -> Result<Option<String>, RowError> {
    let text = match row.call.as_str() {
        "script" => script(alloc, row)?,
        "name" => name(alloc, row)?,
        "conflict" => conflict(alloc, row)?,
        _ => return Ok(None),
    };
    Ok(Some(text))
}
