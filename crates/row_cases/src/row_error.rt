//! Why a row can't be read, or its call can't be made.

use std::alloc::{AllocError, AllocFailed};
use std::fmt;
use thiserror::Error;

/// Why a row can't be read, or its call can't be made.
#[derive(Clone, Copy, Debug, PartialEq, Eq, Error)]
pub enum RowError {
    #[error("out of memory")]
    Memory,
    #[error("no row begins before this line")]
    NoBeginning,
    #[error("this stands behind the answer")]
    Order,
    #[error("the row before this line has no answer")]
    NoAnswer,
    #[error("the file has no row")]
    NoRow,
    #[error("no such call")]
    UnknownCall,
    #[error("the call has other fields")]
    Fields,
    #[error("not a number in digits, or too great")]
    Number,
    #[error("not pairs of hexadecimal digits")]
    Hex,
    #[error("a field says nothing that the call takes")]
    Value,
}

impl From<AllocError> for RowError {
    fn from(_error: AllocError) -> RowError {
        RowError::Memory
    }
}

impl From<fmt::Error> for RowError {
    fn from(_error: fmt::Error) -> RowError {
        RowError::Memory
    }
}

impl<T: Drop> From<AllocFailed<T>> for RowError {
    fn from(_error: AllocFailed<T>) -> RowError {
        RowError::Memory
    }
}
