//! Records as they are printed.

ghost use Rattle.std.specs.Prelude.{◌≡◌, IfOk};
ghost use Rattle.zb_record.specs.Printed.{object_literal_of};

use crate::error::RecordError;
use crate::reading::read_record;
use pickle_writing::WriteError;
use std::alloc::{AllocError, Global};
use zb_ids::Text8;
use zb_literals::{raw_literal, record_literal};

/// An object's bytes as they are printed: the literals of the class and the state of a record, with a
/// blank between them; `raw` and two digits for each byte where the bytes are no record, or where
/// writing it would be too deep. The one error is want of memory.
pub fn object_literal(alloc: Global, bytes: &[u8]) -> Result<Text8, AllocError>
    ensures { IfOk result (λ text. text ≡ object_literal_of bytes.now) }
{
    let object = match read_record(alloc, bytes) {
        Ok(object) => object,
        Err(RecordError::Memory) => return Err(AllocError),
        Err(RecordError::Pickle(_)) => return raw_literal(alloc, bytes),
        Err(RecordError::Rest { at: _ }) => return raw_literal(alloc, bytes),
        Err(RecordError::BadClass) => return raw_literal(alloc, bytes),
    };
    match record_literal(alloc, &object.class, &object.state) {
        Ok(text) => Ok(text),
        Err(WriteError::TooDeep) => raw_literal(alloc, bytes),
        Err(WriteError::Memory) => Err(AllocError),
    }
}
