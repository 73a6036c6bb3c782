//! Reading answers loosely.

ghost use Rattle.std.specs.Prelude.{◌≡◌, IfOk};
ghost use Rattle.zeo_values.specs.Leaves.{behind};
ghost use Rattle.zeo_reading.specs.Loose.{is_line_list, is_size, list_by, list_in, lines_or_oids, loaded_in, none_answer, reply_in, stage_in, tid_answer, turn_in};

use crate::list_reading::{commits_at, lines_at, revisions_at};
use std::alloc::{AllocError, Global};
use zb_ids::{Text8, Tid};
use zeo_messages::{Answer, Stage};
use zeo_values::{
    behind, behind_bytes, behind_count, behind_maybe_id, behind_name, byte_in, bytes_in, count_in,
    id_in, items_in, maybe_id_in, name_in, oids_at,
};

/// Whether the list is of log lines, from what stands behind the number of its first item.
fn is_line_list(first: &[u8]) -> bool
    ensures { result ≡ is_line_list first.now }
{
    let description = behind_bytes(first);
    let head = byte_in(0, description);
    (head == 0x43 || head == 0x42) && byte_in(0, behind_bytes(description)) == 0x87
}

/// Whether a number or None stands here.
fn is_size(byte: u8) -> bool
    ensures { result ≡ is_size byte }
{
    byte == 0x4b || byte == 0x4d || byte == 0x4a || byte == 0x8a || byte == 0x4e
}

fn lines_or_oids(alloc: Global, lines: bool, items: &[u8]) -> Result<Answer, AllocError>
    ensures { IfOk result (λ answer. answer ≡ lines_or_oids lines items.now) }
{
    if lines {
        Ok(Answer::LogLines {
            list: lines_at(alloc, items)?,
        })
    } else {
        Ok(Answer::Oids {
            oids: oids_at(alloc, items)?,
        })
    }
}

/// A list by what stands behind its first number.
fn list_by(alloc: Global, next: u8, bytes: &[u8], items: &[u8]) -> Result<Answer, AllocError>
    ensures { IfOk result (λ answer. answer ≡ list_by next bytes.now items.now) }
{
    if next == 0x61 {
        return Ok(Answer::Oids {
            oids: oids_at(alloc, items)?,
        });
    }
    if next == 0x5d {
        return Ok(Answer::Commits {
            list: commits_at(alloc, items)?,
        });
    }
    if is_size(next) {
        return Ok(Answer::Revisions {
            list: revisions_at(alloc, behind(1, bytes))?,
        });
    }
    let lines = next == 0x42 || is_line_list(behind(10, items));
    lines_or_oids(alloc, lines, items)
}

/// A list.
fn list_in(alloc: Global, bytes: &[u8]) -> Result<Answer, AllocError>
    ensures { IfOk result (λ answer. answer ≡ list_in bytes.now) }
{
    if byte_in(1, bytes) == 0x74 {
        return Ok(Answer::EmptyList);
    }
    let items = items_in(bytes);
    if byte_in(0, items) == 0x43 {
        return list_by(alloc, byte_in(10, items), bytes, items);
    }
    Ok(Answer::Revisions {
        list: revisions_at(alloc, items)?,
    })
}

fn stage_in(name: &[u8]) -> Stage
    ensures { result ≡ stage_in name.now }
{
    if name == b"marked".as_slice() {
        return Stage::Marked;
    }
    if name == b"copying".as_slice() {
        return Stage::Copying;
    }
    if name == b"copied".as_slice() {
        return Stage::Copied;
    }
    Stage::Marking
}

/// A turn of a pack.
fn turn_in(name: &[u8], rest: &[u8]) -> Answer
    ensures { result ≡ turn_in name.now rest.now }
{
    if name == b"packed".as_slice() {
        return Answer::Switched {
            kept: count_in(rest),
            dropped: count_in(behind_count(rest)),
        };
    }
    Answer::Turned {
        stage: stage_in(name),
        count: count_in(rest),
    }
}

/// A revision, from its record and what stands behind it.
fn loaded_in(alloc: Global, record_bytes: &[u8], rest: &[u8]) -> Result<Answer, AllocError>
    ensures { IfOk result (λ answer. answer ≡ loaded_in record_bytes.now rest.now) }
{
    let end = behind(10, rest);
    Ok(Answer::Loaded {
        bytes: Text8::from_slice(alloc, record_bytes)?,
        serial: Tid(id_in(rest)),
        end: maybe_id_in(end),
        upto: Tid(id_in(behind_maybe_id(end))),
    })
}

/// An answer that begins with a number of a transaction.
fn tid_in(bytes: &[u8]) -> Answer
    ensures { result ≡ tid_answer bytes.now }
{
    let tid = Tid(id_in(bytes));
    if byte_in(10, bytes) == 0x74 {
        return Answer::OneTid { tid };
    }
    Answer::TidAndCount {
        tid,
        count: count_in(behind(10, bytes)),
    }
}

/// An answer that begins with None.
fn none_in(bytes: &[u8]) -> Answer
    ensures { result ≡ none_answer bytes.now }
{
    if byte_in(1, bytes) == 0x74 {
        return Answer::Done;
    }
    Answer::Nothing {
        switches: count_in(behind(1, bytes)),
    }
}

/// The value of an answer that isn't a refusal.
pub(crate) fn reply_in(alloc: Global, bytes: &[u8]) -> Result<Answer, AllocError>
    ensures { IfOk result (λ answer. answer ≡ reply_in bytes.now) }
{
    match byte_in(0, bytes) {
        0x4e => Ok(none_in(bytes)),
        0x43 => Ok(tid_in(bytes)),
        0x28 => {
            let value = behind(1, bytes);
            loaded_in(alloc, bytes_in(value), behind_bytes(value))
        }
        0x5d => list_in(alloc, bytes),
        0x58 => Ok(turn_in(name_in(bytes), behind_name(bytes))),
        _ => Ok(Answer::Packed {
            kept: count_in(bytes),
            dropped: count_in(behind_count(bytes)),
        }),
    }
}
