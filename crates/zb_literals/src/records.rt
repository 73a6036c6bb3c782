//! Literals of records.

ghost use Rattle.std.specs.Prelude.{◌≡◌, IfOk, MatchOption, Ok, Err};
ghost use Rattle.pickle_writing.specs.Putting.{puts_of};
ghost use Rattle.pickle_writing.specs.Spelling.{Writes};
ghost use Rattle.pickle_writing.specs.declared.error.WriteError.TheVariants.{TooDeep};
ghost use Rattle.zb_literals.specs.Records.{IsPut, record_literal_of, raw_literal_of};

use crate::hexadecimal::push_digits;
use crate::printing::{literal_behind, print_behind, write_literal};
use pickle_graph::Pickle;
use pickle_writing::{PutNumbers, WriteError, put_numbers};
use std::alloc::{AllocError, Global};
use std::mem::replace;
use zb_ids::Text8;

/// The literal of a record, by the graphs of its class and its state: the one's literal, a blank and the
/// other's. It is `TooDeep` where one of them is.
pub fn record_literal(alloc: Global, class: &Pickle, state: &Pickle) -> Result<Text8, WriteError>
    ensures { Writes result (record_literal_of class.now state.now) }
{
    let mut text = write_literal(alloc, class)?;
    text.push(b' ')?;
    literal_behind(alloc, text, state)
}

/// The nodes of a graph that are put, or `None` where it is too deep to write.
fn puts_or_none(alloc: Global, pickle: &Pickle) -> Result<Option<PutNumbers>, AllocError>
    ensures { IfOk result (λ found. MatchOption found
        (puts_of pickle.now.nodes pickle.now.root ≡ Err TooDeep)
        (λ puts. puts_of pickle.now.nodes pickle.now.root ≡ Ok puts)) }
{
    match put_numbers(alloc, pickle, pickle.root()) {
        Ok(puts) => Ok(Some(puts)),
        Err(WriteError::TooDeep) => Ok(None),
        Err(WriteError::Memory) => Err(AllocError),
    }
}

/// Puts the literal of a record at the end, as [`record_literal`] makes it, and answers `true`; or
/// puts nothing and answers `false` where that is `TooDeep`. Nothing is said of what stands there
/// where there is no memory.
pub fn push_record_literal(
    out: &mut Vec<u8>,
    class: &Pickle,
    state: &Pickle,
) -> Result<bool, AllocError>
    ensures { IfOk result
        (λ is. IsPut is out.old.items out.new.items (record_literal_of class.now state.now)) }
{
    let alloc = *out.allocator();
    let Some(class_puts) = puts_or_none(alloc, class)? else {
        return Ok(false);
    };
    let Some(state_puts) = puts_or_none(alloc, state)? else {
        return Ok(false);
    };
    let before = Text8::from_vec(replace(out, Vec::new(alloc)));
    let mut text = print_behind(alloc, before, class, &class_puts)?;
    text.push(b' ')?;
    *out = print_behind(alloc, text, state, &state_puts)?.into_vec();
    Ok(true)
}

/// `raw`, a blank and two digits for each byte: bytes that are no record, or a record that is too deep.
pub fn raw_literal(alloc: Global, bytes: &[u8]) -> Result<Text8, AllocError>
    ensures { IfOk result (λ text. text ≡ raw_literal_of bytes.now) }
{
    let mut out = Vec::from_slice(alloc, b"raw ")?;
    push_digits(&mut out, bytes)?;
    Ok(Text8::from_vec(out))
}
