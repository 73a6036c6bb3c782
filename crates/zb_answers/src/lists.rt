//! The lines of the lists that a database answers.

ghost use Rattle.std.specs.Prelude.{◌≡◌, ◌++◌, IfOk, OnOk};
ghost use Rattle.zb_answers.specs.Lists.{log_text, log_words, revision_text, revision_words, size_text, texts_words};

use crate::spelling::{push_count, push_number};
use std::alloc::{AllocError, Global};
use zb_ids::Text8;
use zb_literals::push_text;
use zb_model::{LogLine, Revision};

fn push_texts(out: &mut Vec<u8>, user: &Text8, description: &Text8) -> Result<(), AllocError>
    ensures { OnOk result (out.new.items ≡ out.old.items ++ texts_words user.now description.now) }
{
    out.push(b' ')?;
    push_text(out, user.as_slice())?;
    out.push(b' ')?;
    push_text(out, description.as_slice())
}

fn push_size(out: &mut Vec<u8>, size: Option<u64>) -> Result<(), AllocError>
    ensures { OnOk result (out.new.items ≡ out.old.items ++ size_text size) }
{
    match size {
        Some(size) => push_count(out, size),
        None => out.extend_from_slice(b"absent"),
    }
}

/// Puts an item of the undo list at the end.
pub(crate) fn push_log(out: &mut Vec<u8>, line: &LogLine) -> Result<(), AllocError>
    ensures { OnOk result (out.new.items ≡ out.old.items ++ log_words line.now) }
{
    push_number(out, line.tid.0)?;
    push_texts(out, &line.user, &line.description)
}

/// Puts an item of a history at the end.
pub(crate) fn push_revision(out: &mut Vec<u8>, line: &Revision) -> Result<(), AllocError>
    ensures { OnOk result (out.new.items ≡ out.old.items ++ revision_words line.now) }
{
    push_number(out, line.tid.0)?;
    out.push(b' ')?;
    push_size(out, line.size)?;
    push_texts(out, &line.user, &line.description)
}

/// A line of the undo list, with its newline: the tid in sixteen digits, the user and the
/// description. The one error is want of memory.
pub fn log_line(alloc: Global, line: &LogLine) -> Result<Text8, AllocError>
    ensures { IfOk result (λ text. text ≡ log_text line.now) }
{
    let mut out = Vec::new(alloc);
    push_log(&mut out, line)?;
    out.push(b'\n')?;
    Ok(Text8::from_vec(out))
}

/// A line of an object's history, with its newline: the tid in sixteen digits, the size in bytes or
/// `absent`, the user and the description. The one error is want of memory.
pub fn revision_line(alloc: Global, line: &Revision) -> Result<Text8, AllocError>
    ensures { IfOk result (λ text. text ≡ revision_text line.now) }
{
    let mut out = Vec::new(alloc);
    push_revision(&mut out, line)?;
    out.push(b'\n')?;
    Ok(Text8::from_vec(out))
}
