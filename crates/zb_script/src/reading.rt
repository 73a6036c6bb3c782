//! Reading one line.

ghost use Rattle.std.specs.Prelude.{◌≡◌};
ghost use Rattle.zb_script.specs.declared.line.Line.TheVariants as lines;
ghost use Rattle.zb_script.specs.Reading.{ReadsAs, behind_word, line_at, name_at, numbered_at, packed_at, paired_at, put_at, rollback_at, short_line_at, store_at, turn_at, undo_at, vote_at, words_at};

use crate::errors::ReadError;
use crate::keys::small_of;
use crate::line::{Line, Turn};
use crate::name::Name;
use crate::stored::{payload_of, record_of};
use crate::tree_lines::tree_line_of;
use crate::voting::{collecting_of, short_field_of, short_of, sixteen_of, tids_of};
use crate::words::{cut, cut_literal, field_of, number_of};
use std::alloc::Global;
use zb_ids::{Oid, Tid};

#[tactic(auto, unfolding(crate::specs::Reading::name_at))]
fn name_of(bytes: &[u8]) -> Result<Name, ReadError>
    ensures { ReadsAs (λ name. name) result (name_at bytes.now) }
{
    match Name::new(bytes) {
        Some(name) => Ok(name),
        None => Err(ReadError::Bad),
    }
}

#[tactic(auto, unfolding(crate::specs::Reading::numbered_at))]
fn load_of(bytes: &[u8]) -> Result<Line, ReadError>
    ensures { ReadsAs (λ line. line) result (numbered_at lines.Load bytes.now) }
{
    let oid = number_of(bytes)?;
    Ok(Line::Load { oid: Oid(oid) })
}

#[tactic(auto, unfolding(crate::specs::Reading::numbered_at))]
fn get_of(bytes: &[u8]) -> Result<Line, ReadError>
    ensures { ReadsAs (λ line. line) result (numbered_at lines.Get bytes.now) }
{
    let oid = number_of(bytes)?;
    Ok(Line::Get { oid: Oid(oid) })
}

#[tactic(auto, unfolding(crate::specs::Reading::numbered_at))]
fn history_of(bytes: &[u8]) -> Result<Line, ReadError>
    ensures { ReadsAs (λ line. line) result (numbered_at lines.History bytes.now) }
{
    let oid = number_of(bytes)?;
    Ok(Line::History { oid: Oid(oid) })
}

#[tactic(auto, unfolding(crate::specs::Reading::packed_at))]
fn pack_of(bytes: &[u8]) -> Result<Line, ReadError>
    ensures { ReadsAs (λ line. line) result (packed_at lines.Pack bytes.now) }
{
    let (tid, rest) = sixteen_of(bytes)?;
    let collect = collecting_of(rest)?;
    Ok(Line::Pack {
        tid: Tid(tid),
        collect,
    })
}

#[tactic(auto, unfolding(crate::specs::Reading::packed_at))]
fn pack_begin_of(bytes: &[u8]) -> Result<Line, ReadError>
    ensures { ReadsAs (λ line. line) result (packed_at lines.PackBegin bytes.now) }
{
    let (tid, rest) = sixteen_of(bytes)?;
    let collect = collecting_of(rest)?;
    Ok(Line::PackBegin {
        tid: Tid(tid),
        collect,
    })
}

#[tactic(auto, unfolding(crate::specs::Reading::store_at))]
fn store_of(alloc: Global, bytes: &[u8]) -> Result<Line, ReadError>
    ensures { ReadsAs (λ line. line) result (store_at bytes.now) }
{
    let (oid, rest) = field_of(bytes)?;
    let (base, rest) = field_of(rest)?;
    let bytes = payload_of(alloc, rest)?;
    Ok(Line::Store {
        oid: Oid(oid),
        base: Tid(base),
        bytes,
    })
}

#[tactic(auto, unfolding(crate::specs::Reading::put_at))]
fn put_of(alloc: Global, bytes: &[u8]) -> Result<Line, ReadError>
    ensures { ReadsAs (λ line. line) result (put_at bytes.now) }
{
    let (oid, rest) = field_of(bytes)?;
    let (class, state) = cut_literal(rest)?;
    let bytes = record_of(alloc, class, state)?;
    Ok(Line::Put {
        oid: Oid(oid),
        bytes,
    })
}

#[tactic(auto, unfolding(crate::specs::Reading::paired_at))]
fn check_of(bytes: &[u8]) -> Result<Line, ReadError>
    ensures { ReadsAs (λ line. line) result (paired_at lines.Check bytes.now) }
{
    let (oid, rest) = field_of(bytes)?;
    let serial = number_of(rest)?;
    Ok(Line::Check {
        oid: Oid(oid),
        serial: Tid(serial),
    })
}

#[tactic(auto, unfolding(crate::specs::Reading::paired_at))]
fn delete_of(bytes: &[u8]) -> Result<Line, ReadError>
    ensures { ReadsAs (λ line. line) result (paired_at lines.Delete bytes.now) }
{
    let (oid, rest) = field_of(bytes)?;
    let base = number_of(rest)?;
    Ok(Line::Delete {
        oid: Oid(oid),
        base: Tid(base),
    })
}

#[tactic(auto, unfolding(crate::specs::Reading::vote_at))]
fn vote_of(alloc: Global, bytes: &[u8]) -> Result<Line, ReadError>
    ensures { ReadsAs (λ line. line) result (vote_at bytes.now) }
{
    let (user, rest) = short_field_of(alloc, bytes)?;
    let description = short_of(alloc, rest)?;
    Ok(Line::Vote { user, description })
}

#[tactic(auto, unfolding(crate::specs::Reading::undo_at))]
fn undo_of(alloc: Global, bytes: &[u8]) -> Result<Line, ReadError>
    ensures { ReadsAs (λ line. line) result (undo_at bytes.now) }
{
    let (user, rest) = short_field_of(alloc, bytes)?;
    let (description, rest) = short_field_of(alloc, rest)?;
    let tids = tids_of(alloc, rest)?;
    Ok(Line::Undo {
        user,
        description,
        tids,
    })
}

#[tactic(auto, unfolding(crate::specs::Reading::rollback_at))]
fn rollback_of(alloc: Global, bytes: &[u8]) -> Result<Line, ReadError>
    ensures { ReadsAs (λ line. line) result (rollback_at bytes.now) }
{
    let number = small_of(alloc, bytes)?;
    Ok(Line::Rollback { number })
}

/// A line without a field, or one of a tree.
#[tactic(auto, unfolding(crate::specs::Reading::words_at))]
fn words_of(alloc: Global, bytes: &[u8]) -> Result<Line, ReadError>
    ensures { ReadsAs (λ line. line) result (words_at bytes.now) }
{
    if bytes == b"open local".as_slice() {
        Ok(Line::Open { remote: false })
    } else if bytes == b"open remote".as_slice() {
        Ok(Line::Open { remote: true })
    } else if bytes == b"begin".as_slice() {
        Ok(Line::Begin)
    } else if bytes == b"new".as_slice() {
        Ok(Line::New)
    } else if bytes == b"finish".as_slice() {
        Ok(Line::Finish)
    } else if bytes == b"abort".as_slice() {
        Ok(Line::Abort)
    } else if bytes == b"undolog".as_slice() {
        Ok(Line::UndoLog)
    } else if bytes == b"close".as_slice() {
        Ok(Line::Close)
    } else if bytes == b"savepoint".as_slice() {
        Ok(Line::Savepoint)
    } else if bytes == b"packturn".as_slice() {
        Ok(Line::PackTurn)
    } else if bytes == b"deliver".as_slice() {
        Ok(Line::Deliver)
    } else {
        tree_line_of(alloc, bytes)
    }
}

/// A line with one number, without a field, or of a tree.
#[tactic(auto, unfolding(crate::specs::Reading::short_line_at, crate::specs::Reading::behind_word))]
fn short_line_of(alloc: Global, bytes: &[u8]) -> Result<Line, ReadError>
    ensures { ReadsAs (λ line. line) result (short_line_at bytes.now) }
{
    if let Some(rest) = bytes.strip_prefix(b"load ") {
        load_of(rest)
    } else if let Some(rest) = bytes.strip_prefix(b"get ") {
        get_of(rest)
    } else if let Some(rest) = bytes.strip_prefix(b"history ") {
        history_of(rest)
    } else if let Some(rest) = bytes.strip_prefix(b"pack ") {
        pack_of(rest)
    } else if let Some(rest) = bytes.strip_prefix(b"packbegin ") {
        pack_begin_of(rest)
    } else if let Some(rest) = bytes.strip_prefix(b"rollback ") {
        rollback_of(alloc, rest)
    } else {
        words_of(alloc, bytes)
    }
}

/// The line that bytes spell.
#[tactic(auto, unfolding(crate::specs::Reading::line_at, crate::specs::Reading::behind_word))]
pub(crate) fn line_of(alloc: Global, bytes: &[u8]) -> Result<Line, ReadError>
    ensures { ReadsAs (λ line. line) result (line_at bytes.now) }
{
    if let Some(rest) = bytes.strip_prefix(b"store ") {
        store_of(alloc, rest)
    } else if let Some(rest) = bytes.strip_prefix(b"put ") {
        put_of(alloc, rest)
    } else if let Some(rest) = bytes.strip_prefix(b"check ") {
        check_of(rest)
    } else if let Some(rest) = bytes.strip_prefix(b"delete ") {
        delete_of(rest)
    } else if let Some(rest) = bytes.strip_prefix(b"vote ") {
        vote_of(alloc, rest)
    } else if let Some(rest) = bytes.strip_prefix(b"undo ") {
        undo_of(alloc, rest)
    } else {
        short_line_of(alloc, bytes)
    }
}

/// The turn that a line spells.
#[tactic(auto, unfolding(crate::specs::Reading::turn_at))]
pub(crate) fn turn_of(alloc: Global, bytes: &[u8]) -> Result<Turn, ReadError>
    ensures { ReadsAs (λ turn. turn) result (turn_at bytes.now) }
{
    let (word, rest) = cut(b' ', bytes)?;
    let client = name_of(word)?;
    let line = line_of(alloc, rest)?;
    Ok(Turn { client, line })
}
