//! A transaction as it is written when it is voted.

ghost use Rattle.std.specs.Prelude.{◌≡◌, ℕ, ◌+◌, ◌^◌, ◌<◌, ◌++◌, List, None, length, map, OnOk, IfOk, IfSome};
ghost use Rattle.std.specs.List.{last_or, AllByRecursion};
ghost use Rattle.zb_model.specs.Voting.{IsVotable, IsWellFormed, voted_of};
ghost use Rattle.fs_records.specs.Numbers.{number};
ghost use Rattle.fs_records.specs.HeaderLaws.{IsDataHeader};
ghost use Rattle.fs_records.specs.Headers.{data_header_text};
ghost use Rattle.fs_records.specs.Blocks.{Reached, Begins, record_text, records_text, block_text};
ghost use Rattle.fs_index.specs.Places.{IsRising, last_below};
ghost use Rattle.fs_records.specs.Indexed.{IsIndexOf};
ghost use Rattle.fs_records.specs.Writing.{at_or_0, written_of, block_of, record_size, text_size, IsNext, HasRoom, StatusIsSet};

use crate::header::{
    DATA_HEADER_LENGTH, DataHeader, HEADER_LENGTH, Header, VOTED, write_data_header, write_header,
};
use fs_index::{Index, Place};
use std::alloc::{AllocError, Global};
use zb_ids::{Text8, Tid};
use zb_model::{NewChange, NewContent, NewTransaction};

/// Where the last of these places is, or 0 where there is none.
#[tactic(auto, using(zb_base::specs::Lists::last_or_get))]
fn newest(places: &[Place]) -> u64
    ensures { result ≡ at_or_0 (last_or None places.now) }
{
    match places.last() {
        None => 0,
        Some(place) => place.at,
    }
}

/// Where the last of these places is whose transaction isn't later than this one, or 0 where there
/// is none.
fn earlier(places: &[Place], serial: Tid) -> u64
    requires { IsRising places.now }
    ensures { result ≡ at_or_0 (last_below (serial + 1) places.now) }
{
    let n = places.partition_point(|p| p.serial <= serial);
    if n == 0 {
        return 0;
    }
    places[n - 1].at
}

/// A number in 8 bytes, the highest first.
#[tactic(auto, unfolding(crate::specs::Numbers::number))]
fn number_bytes(value: u64) -> [u8; 8]
    ensures { result ≡ number 8 value }
{
    value.to_be_bytes()
}

/// A data record's numbers fit into their fields.
fn is_data_header(header: DataHeader)
    ensures { IsDataHeader header }
{}

/// A place fits into its field.
fn is_place(at: u64)
    ensures { at < 2 ^ 64 }
{}

/// Puts a data record at the end of a text. Where there is no memory, part of it may be put there.
fn put(text: &mut Vec<u8>, header: &DataHeader, payload: &[u8]) -> Result<(), AllocError>
    ensures { OnOk result (text.new.items ≡
        text.old.items ++ (data_header_text header.now ++ payload.now)) }
{
    text.extend_from_slice(&write_data_header(header))?;
    text.extend_from_slice(payload)?;
    Ok(())
}

/// Puts the data record of a change at the end of a text, for a transaction with this number at
/// this place. Where there is no memory, part of it may be put there.
#[tactic(auto, unfolding(crate::specs::Blocks::record_text))]
fn write_record(
    text: &mut Vec<u8>,
    change: &NewChange,
    tid: Tid,
    at: u64,
    places: &Index,
) -> Result<(), AllocError>
    ensures text { OnOk result (text.new.items ≡
        text.old.items ++ record_text at tid (written_of places.now.entries change.now)) }
    ensures room { HasRoom (written_of places.now.entries change.now) }
{
    let of_object = places.places(change.oid);
    let mut header = DataHeader {
        oid: change.oid,
        tid,
        previous: newest(of_object),
        transaction: at,
        version: 0,
        length: 0,
    };
    match &change.content {
        NewContent::Bytes(bytes) => {
            header.length = bytes.len() as u64;
            is_data_header(header);
            put(text, &header, bytes.as_slice())
        }
        NewContent::Absent => {
            is_data_header(header);
            put(text, &header, &number_bytes(0))
        }
        NewContent::AsOf(serial) => {
            let from = earlier(of_object, *serial);
            is_data_header(header);
            is_place(from);
            put(text, &header, &number_bytes(from))
        }
    }
}

/// Puts the data records of a transaction at this place at the end of a text, one behind another.
/// Where there is no memory, part of them may be put there.
#[tactic(auto, using(crate::proofs::Written::text_more, crate::proofs::Written::room_more))]
fn write_records(
    text: &mut Vec<u8>,
    new: &NewTransaction,
    at: u64,
    places: &Index,
) -> Result<(), AllocError>
    ensures text { OnOk result (text.new.items ≡ text.old.items
        ++ records_text at new.now.tid (map (written_of places.now.entries) new.now.changes)) }
    ensures room { OnOk result
        (AllByRecursion HasRoom (map (written_of places.now.entries) new.now.changes)) }
{
    for change in new.changes.as_slice() {
        write_record(text, change, new.tid, at, places)?;
    }
    Ok(())
}

/// How many bytes the data record of a change has, as it is written.
pub fn record_length(content: &NewContent) -> u64
    ensures { result ≡ record_size content.now }
{
    match content {
        NewContent::Bytes(bytes) => DATA_HEADER_LENGTH as u64 + bytes.as_slice().len() as u64,
        NewContent::Absent => DATA_HEADER_LENGTH as u64 + 8,
        NewContent::AsOf(_) => DATA_HEADER_LENGTH as u64 + 8,
    }
}

/// How many bytes the text of a transaction has, or `None` where there are more than 2^64 - 1.
fn text_length(new: &NewTransaction) -> Option<u64>
    requires { IsWellFormed new.now }
    ensures { IfSome result (λ n. n ≡ text_size new.now) }
{
    let texts = new.user.len() + new.description.len() + new.extension.len();
    let mut length = HEADER_LENGTH as u64 + 8 + texts as u64;
    'size: for change in new.changes.as_slice() {
        match length.checked_add(record_length(&change.content)) {
            Some(more) => length = more,
            None => return None,
        }
    }
    Some(length)
}

/// The whole text of a transaction that is voted and not yet finished, as it is to stand at this
/// place: its header with the status 63 in hexadecimal, its three texts, a data record for each
/// change, and its length again. The index says where the records of each object stand in front of
/// it. The data record of a change names the place of the object's newest record, and an earlier
/// content is a back pointer to the object's last record of its transaction or of one before it. The
/// one error is want of memory. The text is put together once, in memory of its own length.
///
/// With the status 20 in place of 63 the text is a transaction that may stand at the end of what
/// was read of a file, where the index is of what was read and the new transaction may be voted over
/// its list; and it is then the transaction that was voted.
#[tactic(auto, unfolding(crate::specs::Blocks::block_text))]
pub fn write_transaction(
    alloc: Global,
    new: &NewTransaction,
    at: u64,
    places: &Index,
) -> Result<Text8, AllocError>
    requires well_formed { IsWellFormed new.now }
    requires at { at < 2 ^ 63 }
    ensures text { IfOk result (λ text. text ≡ block_text at (block_of 99 places.now.entries new.now)) }
    ensures block { IfOk result (λ _. (bytes : List ℕ) (s : Reached) →
        Begins bytes s → IsIndexOf s places.now → s.end ≡ at → IsVotable s.list new.now →
        IsNext s (block_of 32 places.now.entries new.now) (voted_of s.list new.now)) }
{
    let Some(length) = text_length(new) else {
        return Err(AllocError);
    };
    let header = Header {
        tid: new.tid,
        length: length - 8,
        status: VOTED,
        user: new.user.len() as u16,
        description: new.description.len() as u16,
        extension: new.extension.len() as u16,
    };
    let mut text = Vec::with_capacity(alloc, length as usize)?;
    text.extend_from_slice(&write_header(&header))?;
    text.extend_from_slice(new.user.as_slice())?;
    text.extend_from_slice(new.description.as_slice())?;
    text.extend_from_slice(new.extension.as_slice())?;
    write_records(&mut text, new, at, places)?;
    text.extend_from_slice(&number_bytes(header.length))?;
    Ok(Text8::from_vec(text))
}

/// A law: to set the byte 16 of a transaction's text is to set its status. This is how a transaction
/// that was voted is finished. The function does nothing: its contract is the law.
#[tactic(auto, using(crate::specs::StatusLaws::status_set))]
pub fn finishing_sets_the_status()
    ensures { StatusIsSet }
{}
