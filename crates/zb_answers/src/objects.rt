//! Objects as answers show them, and the key of a conflict.

ghost use Rattle.std.specs.Prelude.{◌≡◌, ◌++◌, IfOk, OnOk};
ghost use Rattle.zb_answers.specs.Objects;
ghost use Rattle.zb_answers.specs.Objects.{IsPut, key_text, object_answer, shown_line};

use crate::spelling::{push_number, push_numbered};
use pickle_reading::{PickleError, read_pickle};
use pickle_writing::WriteError;
use std::alloc::{AllocError, Global};
use zb_ids::{Text8, Tid};
use zb_literals::{push_digits, push_record_literal, write_literal};
use zb_record::{RecordError, object_literal, read_record};

/// Puts a record at the end, `object`, its serial and the literals of its class and its state, and
/// answers `true`; or puts nothing and answers `false` where the bytes are no record or one that is
/// too deep to write.
fn push_record(out: &mut Vec<u8>, serial: Tid, bytes: &[u8]) -> Result<bool, AllocError>
    ensures { IfOk result (λ is. IsPut is serial bytes.now out.old.items out.new.items) }
{
    let object = match read_record(*out.allocator(), bytes) {
        Ok(object) => object,
        Err(RecordError::Memory) => return Err(AllocError),
        Err(RecordError::Pickle(_)) => return Ok(false),
        Err(RecordError::Rest { at: _ }) => return Ok(false),
        Err(RecordError::BadClass) => return Ok(false),
    };
    let length = out.len();
    push_numbered(out, b"object ", serial.0)?;
    out.push(b' ')?;
    if push_record_literal(out, &object.class, &object.state)? {
        return Ok(true);
    }
    out.truncate(length);
    Ok(false)
}

/// Puts an object at the end: `object`, its serial, its class and its state, or `raw`, its serial and two
/// digits for each byte.
pub(crate) fn push_object(out: &mut Vec<u8>, serial: Tid, bytes: &[u8]) -> Result<(), AllocError>
    ensures { OnOk result (out.new.items ≡ out.old.items ++ object_answer serial bytes.now) }
{
    if push_record(out, serial, bytes)? {
        return Ok(());
    }
    push_numbered(out, b"raw ", serial.0)?;
    out.push(b' ')?;
    push_digits(out, bytes)
}

/// A line that shows an object, with its newline: the serial in sixteen digits, a blank, and the literals of
/// the class and the state with a blank between them; or `raw` and two digits for each byte, where the bytes
/// are no record or one that is too deep to write. The one error is want of memory.
pub fn shown_line(alloc: Global, serial: Tid, bytes: &[u8]) -> Result<Text8, AllocError>
    ensures { IfOk result (λ text. text ≡ shown_line serial bytes.now) }
{
    let object = object_literal(alloc, bytes)?;
    let mut out = Vec::new(alloc);
    push_number(&mut out, serial.0)?;
    out.push(b' ')?;
    out.extend_from_slice(object.as_slice())?;
    out.push(b'\n')?;
    Ok(Text8::from_vec(out))
}

/// The literal of the value that a pickle spells so, or `None` where the bytes spell none that can be written.
fn spelled_literal(alloc: Global, spelling: &[u8]) -> Result<Option<Text8>, AllocError>
    ensures { IfOk result (λ text. text ≡ Objects.spelled_literal spelling.now) }
{
    let mut pickle = Vec::from_slice(alloc, &[0x80, 3])?;
    pickle.extend_from_slice(spelling)?;
    pickle.push(0x2e)?;
    let (graph, behind) = match read_pickle(alloc, pickle.as_slice(), 0) {
        Ok(read) => read,
        Err(PickleError::Memory) => return Err(AllocError),
        Err(_) => return Ok(None),
    };
    if behind != pickle.len() {
        return Ok(None);
    }
    match write_literal(alloc, &graph) {
        Ok(text) => Ok(Some(text)),
        Err(WriteError::TooDeep) => Ok(None),
        Err(WriteError::Memory) => Err(AllocError),
    }
}

/// Puts a key or a value at the end by its literal, or by two digits for each byte where the bytes spell none.
pub(crate) fn push_key(out: &mut Vec<u8>, spelling: &[u8]) -> Result<(), AllocError>
    ensures { OnOk result (out.new.items ≡ out.old.items ++ key_text spelling.now) }
{
    match spelled_literal(*out.allocator(), spelling)? {
        Some(text) => out.extend_from_slice(text.as_slice()),
        None => push_digits(out, spelling),
    }
}
