//! Why a case can't be read.

use std::alloc::AllocError;
use thiserror::Error;

/// Why a line of a file is no line of a case, or can't stand where it does.
#[derive(Clone, Copy, Debug, Error)]
pub enum CaseError {
    #[error("out of memory")]
    Memory,
    #[error("no case begins here")]
    NoBeginning,
    #[error("a case has a name, and begins behind the end of the one before it")]
    Name,
    #[error("the word is unknown")]
    UnknownWord,
    #[error("not a number in digits, or too great")]
    Number,
    #[error("not pairs of hexadecimal digits")]
    Hex,
    #[error("not a date and a time")]
    Stamp,
    #[error("the line lacks something, or has too much")]
    Form,
    #[error("said already")]
    Twice,
    #[error("this is said of the first run alone")]
    FirstRunOnly,
    #[error("a run has a status, and what Main is behind it")]
    NoExpectation,
    #[error("the file has no case")]
    NoCase,
    #[error("the case has no end")]
    NoEnd,
}

impl From<AllocError> for CaseError {
    fn from(_error: AllocError) -> CaseError {
        CaseError::Memory
    }
}
