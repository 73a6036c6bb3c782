//! Pieces of the file of the database.

ghost use Rattle.std.specs.Prelude.{◌≡◌, ◌+◌, ◌≤◌, ◌<◌, ◌^◌, ◌++◌, length, take, drop, IfOk, OnOk, OnErr};
ghost use Rattle.std.specs.Option.{option_to_list};
ghost use Rattle.zb_volume.specs.Disk.{main_bytes};
ghost use Rattle.fs_reading.specs.Standing.{head_at, data_head_at, back_at, user_at, description_at, HasTexts};
ghost use Rattle.zb_volume.specs.States.{OnlyReads};
ghost use Rattle.fs_reading.specs.Reads.{OnlyReadsMain};

use crate::errors::ReadError;
use byteorder::{BigEndian, ByteOrder};
use fs_records::{
    DATA_HEADER_LENGTH, DataHeader, HEADER_LENGTH, Header, read_data_header, read_header,
};
use std::alloc::{AllocError, Global};
use zb_ids::{ListOf, Text8};
use zb_volume::{Area, StoreFault, Volume};

/// The header of the transaction at a place.
pub(crate) fn header_at<V: Volume>(volume: &mut V, at: u64) -> Result<Header, StoreFault>
    requires { V.told → at + 23 ≤ length (main_bytes (V.state volume.old).log) }
    ensures value { V.told → IfOk result (λ h. h
        ≡ head_at (main_bytes (V.state volume.old).log) at) }
    ensures read { OnlyReads (V.state volume.old) (V.state volume.new) result }
{
    let mut bytes = [0; HEADER_LENGTH];
    volume.read(Area::Main, at, &mut bytes)?;
    Ok(read_header(&bytes))
}

/// The header of the data record at a place.
pub(crate) fn data_header_at<V: Volume>(volume: &mut V, at: u64) -> Result<DataHeader, StoreFault>
    requires { V.told → at + 42 ≤ length (main_bytes (V.state volume.old).log) }
    ensures value { V.told → IfOk result (λ h. h
        ≡ data_head_at (main_bytes (V.state volume.old).log) at) }
    ensures read { OnlyReads (V.state volume.old) (V.state volume.new) result }
{
    let mut bytes = [0; DATA_HEADER_LENGTH];
    volume.read(Area::Main, at, &mut bytes)?;
    Ok(read_data_header(&bytes))
}

/// The back pointer of the data record at a place.
#[tactic(auto, unfolding(fs_records::specs::Numbers::number_in))]
pub(crate) fn back_pointer_at<V: Volume>(volume: &mut V, at: u64) -> Result<u64, StoreFault>
    requires short { V.told → length (main_bytes (V.state volume.old).log) < 2 ^ 64 }
    requires within { V.told → at + 42 + 8 ≤ length (main_bytes (V.state volume.old).log) }
    ensures value { V.told → IfOk result (λ n. n
        ≡ back_at (main_bytes (V.state volume.old).log) at) }
    ensures read { OnlyReads (V.state volume.old) (V.state volume.new) result }
{
    let mut bytes = [0; 8];
    volume.read(
        Area::Main,
        at.saturating_add(DATA_HEADER_LENGTH as u64),
        &mut bytes,
    )?;
    Ok(BigEndian::read_u64(&bytes))
}

/// So many bytes from a place on. Where there are none, nothing is read.
pub(crate) fn bytes_at<V: Volume>(
    alloc: Global,
    volume: &mut V,
    at: u64,
    count: usize,
) -> Result<Text8, ReadError>
    requires { V.told → at + count ≤ length (main_bytes (V.state volume.old).log) }
    ensures value { V.told → IfOk result (λ bytes.
        bytes ≡ take count (drop at (main_bytes (V.state volume.old).log))) }
    ensures count { IfOk result (λ bytes. length bytes ≡ count) }
    ensures read { OnlyReadsMain (V.state volume.old) (V.state volume.new) result }
{
    if count == 0 {
        return Ok(Text8::new(alloc));
    }
    let mut bytes = vec![in alloc; 0u8; count]?;
    volume.read(Area::Main, at, bytes.as_mut_slice())?;
    Ok(Text8::from_vec(bytes))
}

/// The user and the description of the transaction with this header at a place.
pub(crate) fn user_and_description<V: Volume>(
    alloc: Global,
    volume: &mut V,
    at: u64,
    header: &Header,
) -> Result<(Text8, Text8), ReadError>
    requires short { V.told → length (main_bytes (V.state volume.old).log) < 2 ^ 64 }
    requires header { V.told → header.now ≡ head_at (main_bytes (V.state volume.old).log) at }
    requires texts { V.told → HasTexts (main_bytes (V.state volume.old).log) at }
    ensures user { V.told → IfOk result (λ texts.
        texts.0 ≡ user_at (main_bytes (V.state volume.old).log) at) }
    ensures description { V.told → IfOk result (λ texts.
        texts.1 ≡ description_at (main_bytes (V.state volume.old).log) at) }
    ensures counts { IfOk result (λ texts.
        (length texts.0 ≡ header.now.user) × (length texts.1 ≡ header.now.description)) }
    ensures read { OnlyReadsMain (V.state volume.old) (V.state volume.new) result }
{
    let from = at.saturating_add(HEADER_LENGTH as u64);
    let user = bytes_at(alloc, volume, from, header.user as usize)?;
    let behind = from.saturating_add(header.user as u64);
    let description = bytes_at(alloc, volume, behind, header.description as usize)?;
    Ok((user, description))
}

/// Puts an item, if there is one, at the end of a list. The one error is want of memory.
pub(crate) fn keep<T: Drop>(list: &mut ListOf<T>, item: Option<T>) -> Result<(), AllocError>
    ensures ok { OnOk result (list.new ≡ list.old ++ option_to_list item) }
    ensures err { OnErr result (list.new ≡ list.old) }
{
    match item {
        Some(item) => {
            list.push(item)?;
            Ok(())
        }
        None => Ok(()),
    }
}
