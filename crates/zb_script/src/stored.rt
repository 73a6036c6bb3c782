//! Reading what a line stores.

ghost use Rattle.std.specs.Prelude.{◌≡◌};
ghost use Rattle.zb_ids.specs.Hex.{bytes_at};
ghost use Rattle.literal_reading.specs.Exact.{graph_spelled};
ghost use Rattle.zb_record.specs.Records.{object_text};
ghost use Rattle.zb_script.specs.Reading.{ReadsAs, payload_at, payload_of_text, record_at};

use crate::errors::ReadError;
use crate::payload::Payload;
use literal_reading::{LiteralError, literals_are_exact, read_digits, read_literal};
use pickle_graph::{Pickle, is_class};
use pickle_writing::WriteError;
use std::alloc::Global;
use zb_ids::Text8;
use zb_record::{ObjectRecord, write_record};

/// How many digits spell the bytes that a line stores, at most.
const MOST_DIGITS: usize = 134_217_728;

/// The bytes that digits spell, two for each.
fn bytes_of(alloc: Global, text: &[u8]) -> Result<Vec<u8>, ReadError>
    ensures { ReadsAs (λ bytes. bytes.items) result (bytes_at text.now) }
{
    match read_digits(alloc, text) {
        Ok(bytes) => Ok(bytes),
        Err(LiteralError::NotLiteral) => Err(ReadError::Bad),
        Err(LiteralError::Memory) => Err(ReadError::Memory),
    }
}

#[tactic(auto, unfolding(crate::specs::Reading::payload_at))]
pub(crate) fn payload_of(alloc: Global, text: &[u8]) -> Result<Payload, ReadError>
    ensures { ReadsAs (λ payload. payload) result (payload_at text.now) }
{
    if text.len() > MOST_DIGITS {
        return Err(ReadError::Bad);
    }
    let bytes = bytes_of(alloc, text)?;
    match Payload::new(Text8::from_vec(bytes)) {
        Some(payload) => Ok(payload),
        None => Err(ReadError::Bad),
    }
}

/// The graph of a literal.
pub(crate) fn graph_of(alloc: Global, bytes: &[u8]) -> Result<Pickle, ReadError>
    ensures { ReadsAs (λ graph. graph) result (graph_spelled bytes.now) }
{
    literals_are_exact();
    match read_literal(alloc, bytes) {
        Ok(graph) => Ok(graph),
        Err(LiteralError::NotLiteral) => Err(ReadError::Bad),
        Err(LiteralError::Memory) => Err(ReadError::Memory),
    }
}

/// The bytes that a record writes.
fn written(alloc: Global, entry: &ObjectRecord) -> Result<Payload, ReadError>
    ensures { ReadsAs (λ bytes. bytes) result (payload_of_text (object_text entry.now.class entry.now.state)) }
{
    match write_record(alloc, entry) {
        Ok(text) => match Payload::new(text) {
            Some(payload) => Ok(payload),
            None => Err(ReadError::Bad),
        },
        Err(WriteError::TooDeep) => Err(ReadError::Bad),
        Err(WriteError::Memory) => Err(ReadError::Memory),
    }
}

/// The record of the class and the state that two literals spell.
#[tactic(auto, unfolding(crate::specs::Reading::record_at))]
pub(crate) fn record_of(alloc: Global, class: &[u8], state: &[u8]) -> Result<Payload, ReadError>
    ensures { ReadsAs (λ bytes. bytes) result (record_at class.now state.now) }
{
    let class = graph_of(alloc, class)?;
    let state = graph_of(alloc, state)?;
    if !is_class(&class) {
        return Err(ReadError::Bad);
    }
    written(alloc, &ObjectRecord { class, state })
}
