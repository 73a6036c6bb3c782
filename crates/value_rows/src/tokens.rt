//! The calls of tokens.

use pickle_ops::{Op, TABLE, Token, TokenError, next_token, op_of};
use row_cases::{Row, RowError};
use std::alloc::Global;
use std::fmt::Write;

/// The opcode of a byte and what stands behind it, by the table and by the look-up.
fn opcode(alloc: Global, row: &Row) -> Result<String, RowError> {
    let byte = match row.bytes(alloc, 0)?.as_slice() {
        [byte] => *byte,
        _ => return Err(RowError::Value),
    };
    let table = TABLE;
    match (op_of(byte), table.row(byte)) {
        (Some(op), Some(found)) if found.op == op => {
            let kind = found.kind;
            Ok(format!(in alloc; "{op:?} {kind:?}")?)
        }
        (None, None) => Ok(String::from_str(alloc, "none")?),
        _ => Ok(String::from_str(alloc, "the table and the look-up differ")?),
    }
}

fn push_token(text: &mut String, token: Token) -> Result<(), RowError> {
    let Token {
        op,
        number,
        start,
        length,
    } = token;
    write!(text, "{op:?} {number} {start}+{length}")?;
    Ok(())
}

/// The token at a place, and the place behind it.
fn token(alloc: Global, row: &Row) -> Result<String, RowError> {
    let bytes = row.bytes(alloc, 0)?;
    let at = row.number_or(1, 0)? as usize;
    match next_token(bytes.as_slice(), at) {
        Ok((token, next)) => {
            let mut text = String::new(alloc);
            push_token(&mut text, token)?;
            write!(text, " {next}")?;
            Ok(text)
        }
        Err(refusal) => Ok(format!(in alloc; "{refusal}")?),
    }
}

/// How many of the shorter fronts are cut.
fn count_cut(bytes: &[u8]) -> usize {
    let mut count = 0usize;
    for end in 0..bytes.len() {
        if next_token(&bytes[..end], 0) == Err(TokenError::Cut { at: 0 }) {
            count = count.saturating_add(1);
        }
    }
    count
}

/// The one token that bytes are, though a byte follows, and how many shorter fronts of it are cut.
fn whole(alloc: Global, row: &Row) -> Result<String, RowError> {
    let mut bytes = row.bytes(alloc, 0)?;
    let cut = count_cut(bytes.as_slice());
    bytes.push(0xff)?;
    match next_token(bytes.as_slice(), 0) {
        Ok((token, next)) => {
            let mut text = String::new(alloc);
            push_token(&mut text, token)?;
            write!(text, " {next}, {cut} cut")?;
            Ok(text)
        }
        Err(refusal) => Ok(format!(in alloc; "{refusal}")?),
    }
}

/// The tokens from the front on, up to STOP or to a refusal.
fn tokens(alloc: Global, row: &Row) -> Result<String, RowError> {
    let bytes = row.bytes(alloc, 0)?;
    let mut text = String::new(alloc);
    let mut place = 0;
    for _ in 0..bytes.len() {
        match next_token(bytes.as_slice(), place) {
            Ok((token, next)) => {
                push_token(&mut text, token)?;
                if token.op == Op::Stop {
                    return Ok(text);
                }
                text.push_str("; ")?;
                place = next;
            }
            Err(refusal) => {
                write!(text, "{refusal}")?;
                return Ok(text);
            }
        }
    }
    Ok(text)
}

/// The answer of a call of tokens, if the row names one.
pub fn answer(alloc: Global, row: &Row) -> Result<Option<String>, RowError> {
    let text = match row.call.as_str() {
        "opcode" => opcode(alloc, row)?,
        "token" => token(alloc, row)?,
        "whole" => whole(alloc, row)?,
        "tokens" => tokens(alloc, row)?,
        _ => return Ok(None),
    };
    Ok(Some(text))
}
