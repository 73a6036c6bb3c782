//! Reading records, and what they refer to.

ghost use Rattle.std.specs.Prelude.{◌≡◌, true, IfOk};
ghost use Rattle.pickle_graph.specs.Class.{is_class};
ghost use Rattle.zb_record.specs.Refusals.{AnswersFor};
ghost use Rattle.zb_record.specs.Records.{record_parts, record_of, references_of};

use crate::error::RecordError;
use crate::record::ObjectRecord;
use pickle_graph::is_class;
use pickle_references::{Pair, read_pair, references_of_pair};
use std::alloc::Global;
use zb_ids::{ListOf, Oid};

/// The two pickles of a record.
#[tactic(auto, unfolding(crate::specs::Records::record_parts))]
fn read_parts(alloc: Global, bytes: &[u8]) -> Result<Pair, RecordError>
    ensures parts { AnswersFor (λ parts. parts) result (record_parts bytes.now) }
    ensures class { IfOk result (λ parts. is_class parts.first.pickle ≡ true) }
{
    let pair = read_pair(alloc, bytes)?;
    if pair.second.behind != bytes.len() {
        return Err(RecordError::Rest {
            at: pair.second.behind,
        });
    }
    if !is_class(&pair.first.pickle) {
        return Err(RecordError::BadClass);
    }
    Ok(pair)
}

/// The record that the bytes are.
///
/// They are two pickles whose persistent ids all have a form, as
/// [`references_of`](pickle_references::references_of) says, and nothing else, and the first is a class,
/// as [`is_class`](pickle_graph::is_class) says. One reader reads both, as one writer writes both:
/// the second pickle may get what the first has put, so its graph begins with the nodes of the
/// class. The answer is else the first of these refusals, with its place counted from the start of
/// the bytes: `Pickle`, the refusal of the first pickle, and then of the second, by the first token
/// that has one; `Rest`, where bytes follow the second pickle; `BadClass`. Want of memory answers
/// `Memory`.
pub fn read_record(alloc: Global, bytes: &[u8]) -> Result<ObjectRecord, RecordError>
    ensures record { AnswersFor (λ r. (r.class, r.state)) result (record_of bytes.now) }
{
    let Pair { first, second } = read_parts(alloc, bytes)?;
    Ok(ObjectRecord {
        class: first.pickle,
        state: second.pickle,
    })
}

/// The oids that a record refers to: those of the class before those of the state, each in the
/// order of their tokens, whether or not a root reaches them. An oid that stands twice is named
/// twice. Bytes that are no record are refused as by [`read_record`]. No graph is made.
#[tactic(auto, unfolding(crate::specs::Records::record_parts))]
pub fn references(alloc: Global, bytes: &[u8]) -> Result<ListOf<Oid>, RecordError>
    ensures oids { AnswersFor (λ oids. oids) result (references_of bytes.now) }
{
    let told = references_of_pair(alloc, bytes)?;
    if told.behind != bytes.len() {
        return Err(RecordError::Rest { at: told.behind });
    }
    if !told.is_class {
        return Err(RecordError::BadClass);
    }
    Ok(told.oids)
}
