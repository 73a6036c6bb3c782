//! Bytes that a line of a case adds to the script, or to what is to be written.

use crate::case_error::CaseError;
use crate::fields::{bytes, filled};
use std::alloc::{AllocError, Global};

/// To what a line adds bytes.
#[derive(Clone, Copy)]
pub enum Part {
    Script,
    Written,
}

/// Bytes that a line adds.
#[derive(Drop)]
pub struct Piece {
    pub part: Part,
    pub bytes: Vec<u8>,
}

/// The bytes of a text and of what ends it.
pub fn text_piece(alloc: Global, part: Part, text: &str, end: &str) -> Result<Piece, AllocError> {
    let mut bytes = Vec::from_slice(alloc, text.as_bytes())?;
    bytes.extend_from_slice(end.as_bytes())?;
    Ok(Piece { part, bytes })
}

/// What a line adds to the script or to what is written, if it is such a line.
pub fn piece_of(alloc: Global, word: &str, rest: &str) -> Result<Option<Piece>, CaseError> {
    let piece = match word {
        "|" => text_piece(alloc, Part::Script, rest, "\n")?,
        "text" => text_piece(alloc, Part::Script, rest, "")?,
        "bytes" => Piece {
            part: Part::Script,
            bytes: bytes(alloc, rest)?,
        },
        "fill" => Piece {
            part: Part::Script,
            bytes: filled(alloc, rest)?,
        },
        "=" => text_piece(alloc, Part::Written, rest, "\n")?,
        _ => return Ok(None),
    };
    Ok(Some(piece))
}
