//! Lines that say what a script or a file is.

ghost use Rattle.std.specs.Prelude.{◌≡◌, ◌≤◌, IfOk};
ghost use Rattle.zodb_top.specs.Texts.{bad_line, damage_line, limit_line};
ghost use Rattle.zodb_top.specs.Unopened.{SaysUnopened};

use fs_records::Field;
use fs_recovery::OpenError;
use itoa::Buffer;
use script_runs::{Status, say};
use std::alloc::{AllocError, Global};
use zb_outside::Sink;
use zb_script::Limit;

/// The line that names a bad line.
pub(crate) fn bad_line_text(alloc: Global, number: u64) -> Result<Vec<u8>, AllocError>
    ensures { IfOk result (λ text. text.items ≡ bad_line number) }
{
    let mut text = Vec::from_slice(alloc, b"bad line ")?;
    let mut buffer = Buffer::new();
    text.extend_from_slice(buffer.format(number).as_bytes())?;
    text.push(b'\n')?;
    Ok(text)
}

/// The line that names a limit that is passed.
pub(crate) fn limit_text(alloc: Global, limit: Limit) -> Result<Vec<u8>, AllocError>
    ensures { IfOk result (λ text. text.items ≡ limit_line limit) }
{
    let mut text = Vec::from_slice(alloc, b"limit ")?;
    text.extend_from_slice(limit.name())?;
    text.push(b' ')?;
    let mut buffer = Buffer::new();
    text.extend_from_slice(buffer.format(limit.count()).as_bytes())?;
    text.push(b'\n')?;
    Ok(text)
}

/// The line that names the rule that fails, and where.
fn damage_text(alloc: Global, at: u64, field: Field) -> Result<Vec<u8>, AllocError>
    ensures { IfOk result (λ text. text.items ≡ damage_line at field) }
{
    let mut text = Vec::from_slice(alloc, b"damaged ")?;
    let mut buffer = Buffer::new();
    text.extend_from_slice(buffer.format(at).as_bytes())?;
    text.push(b' ')?;
    text.extend_from_slice(field.name().as_bytes())?;
    text.push(b'\n')?;
    Ok(text)
}

/// Says why a file isn't open.
#[tactic(auto, using(crate::proofs::Said::said_fault, crate::proofs::Said::said_magic, crate::proofs::Said::said_rule))]
pub(crate) fn say_unopened<K: Sink>(alloc: Global, sink: &mut K, error: OpenError) -> Status
    ensures said { SaysUnopened result error (K.taken sink.old) (K.taken sink.new) (K.faults sink.old) (K.faults sink.new) }
    ensures counted { K.faults sink.old ≤ K.faults sink.new }
{
    match error {
        OpenError::StoreFault => say(sink, b"store fault\n", Status::StoreFault),
        OpenError::NotFileStorage => say(sink, b"damaged 0 magic\n", Status::Damaged),
        OpenError::BadRecord { at, field } => match damage_text(alloc, at, field) {
            Ok(text) => say(sink, text.as_slice(), Status::Damaged),
            Err(_) => Status::NoMemory,
        },
        OpenError::Memory => Status::NoMemory,
    }
}
