//! Headers and texts of transactions that are gone through from the last to the first, by pieces of
//! the file.

ghost use Rattle.std.specs.Prelude.{◌≡◌, ◌+◌, ◌-◌, ◌<◌, ◌≤◌, ◌^◌, true, length, take, drop, IfOk};
ghost use Rattle.zb_volume.specs.Disk.{main_bytes};
ghost use Rattle.zb_volume.specs.States.{OnlyReads};
ghost use Rattle.fs_reading.specs.Reads.{OnlyReadsMain};
ghost use Rattle.fs_reading.specs.Showing.{Covers, Shows};
ghost use Rattle.fs_reading.specs.Standing.{head_at, user_at, description_at, HasTexts};

use crate::errors::ReadError;
use crate::piece::Piece;
use crate::pieces::{bytes_at, header_at};
use fs_records::{HEADER_LENGTH, Header, read_header};
use std::alloc::Global;
use zb_ids::Text8;
use zb_volume::{StoreFault, Volume};

/// How many bytes are read at once at most, where more than one transaction stands among them.
const PIECE: u64 = 65_536;

/// A piece without a byte.
pub(crate) fn no_piece(alloc: Global) -> Piece
    ensures { length result.bytes ≡ 0 }
{
    Piece {
        at: 0,
        bytes: Text8::new(alloc),
    }
}

/// Whether the n bytes at a place are held.
fn covers(piece: &Piece, at: u64, n: usize) -> bool
    ensures { result ≡ true → Covers piece.now at n }
{
    if at < piece.at {
        return false;
    }
    let count = piece.bytes.len();
    at - piece.at <= count as u64 && n <= count - (at - piece.at) as usize
}

/// The n bytes at a place, which are held.
fn held_at(piece: &Piece, at: u64, n: usize) -> &[u8]
    requires { Covers piece.now at n }
    ensures bytes { result.now ≡ take n (drop (at - piece.now.at) piece.now.bytes) }
    ensures long { length result.now ≡ n }
{
    let from = (at - piece.at) as usize;
    &piece.bytes.as_slice()[from..from + n]
}

/// So many bytes from a place on.
fn text_at<V: Volume>(
    alloc: Global,
    volume: &mut V,
    piece: &Piece,
    at: u64,
    count: usize,
) -> Result<Text8, ReadError>
    requires within { V.told → at + count ≤ length (main_bytes (V.state volume.old).log) }
    requires shows { V.told → Shows piece.now (main_bytes (V.state volume.old).log) }
    ensures value { V.told → IfOk result (λ bytes.
        bytes ≡ take count (drop at (main_bytes (V.state volume.old).log))) }
    ensures count { IfOk result (λ bytes. length bytes ≡ count) }
    ensures read { OnlyReadsMain (V.state volume.old) (V.state volume.new) result }
{
    if covers(piece, at, count) {
        let bytes = Text8::from_slice(alloc, held_at(piece, at, count))?;
        return Ok(bytes);
    }
    bytes_at(alloc, volume, at, count)
}

/// The header of the transaction at a place.
pub(crate) fn head_of<V: Volume>(
    volume: &mut V,
    piece: &Piece,
    at: u64,
) -> Result<Header, StoreFault>
    requires within { V.told → at + 23 ≤ length (main_bytes (V.state volume.old).log) }
    requires shows { V.told → Shows piece.now (main_bytes (V.state volume.old).log) }
    ensures value { V.told → IfOk result (λ h. h
        ≡ head_at (main_bytes (V.state volume.old).log) at) }
    ensures read { OnlyReads (V.state volume.old) (V.state volume.new) result }
{
    if covers(piece, at, HEADER_LENGTH) {
        let mut bytes = [0; HEADER_LENGTH];
        bytes.copy_from_slice(held_at(piece, at, HEADER_LENGTH));
        return Ok(read_header(&bytes));
    }
    header_at(volume, at)
}

/// The user and the description of the transaction with this header at a place.
pub(crate) fn texts_of<V: Volume>(
    alloc: Global,
    volume: &mut V,
    piece: &Piece,
    at: u64,
    header: &Header,
) -> Result<(Text8, Text8), ReadError>
    requires short { V.told → length (main_bytes (V.state volume.old).log) < 2 ^ 64 }
    requires header { V.told → header.now ≡ head_at (main_bytes (V.state volume.old).log) at }
    requires texts { V.told → HasTexts (main_bytes (V.state volume.old).log) at }
    requires shows { V.told → Shows piece.now (main_bytes (V.state volume.old).log) }
    ensures user { V.told → IfOk result (λ texts.
        texts.0 ≡ user_at (main_bytes (V.state volume.old).log) at) }
    ensures description { V.told → IfOk result (λ texts.
        texts.1 ≡ description_at (main_bytes (V.state volume.old).log) at) }
    ensures read { OnlyReadsMain (V.state volume.old) (V.state volume.new) result }
{
    let from = at.saturating_add(HEADER_LENGTH as u64);
    let user = text_at(alloc, volume, piece, from, header.user as usize)?;
    let behind = from.saturating_add(header.user as u64);
    let description = text_at(alloc, volume, piece, behind, header.description as usize)?;
    Ok((user, description))
}

/// From which place on a piece is read that ends here, where a transaction stands at `at` and the one
/// before it at `before`.
fn begin_of(at: u64, before: u64, end: u64) -> u64
    requires { at ≤ end }
    ensures { result ≤ end }
{
    let from = end.saturating_sub(PIECE);
    if before < from { at } else { from }
}

/// The piece that ends behind the texts of the transaction at a place, and holds those before it, as
/// far as they stand near.
fn piece_at<V: Volume>(
    alloc: Global,
    volume: &mut V,
    at: u64,
    before: u64,
) -> Result<Piece, ReadError>
    requires short { V.told → length (main_bytes (V.state volume.old).log) < 2 ^ 64 }
    requires texts { V.told → HasTexts (main_bytes (V.state volume.old).log) at }
    ensures shows { V.told → IfOk result (λ piece.
        Shows piece (main_bytes (V.state volume.old).log)) }
    ensures read { OnlyReadsMain (V.state volume.old) (V.state volume.new) result }
{
    let header = header_at(volume, at)?;
    let end = at
        .saturating_add(HEADER_LENGTH as u64)
        .saturating_add(header.user as u64)
        .saturating_add(header.description as u64);
    let from = begin_of(at, before, end);
    let count = (end - from) as usize;
    let bytes = bytes_at(alloc, volume, from, count)?;
    Ok(Piece { at: from, bytes })
}

/// Reads the piece that ends behind the texts of the transaction at a place, unless its header is held.
pub(crate) fn go_back<V: Volume>(
    alloc: Global,
    volume: &mut V,
    piece: &mut Piece,
    at: u64,
    before: u64,
) -> Result<(), ReadError>
    requires short { V.told → length (main_bytes (V.state volume.old).log) < 2 ^ 64 }
    requires texts { V.told → HasTexts (main_bytes (V.state volume.old).log) at }
    requires shows { V.told → Shows piece.old (main_bytes (V.state volume.old).log) }
    ensures shows { V.told → Shows piece.new (main_bytes (V.state volume.new).log) }
    ensures read { OnlyReadsMain (V.state volume.old) (V.state volume.new) result }
{
    if covers(piece, at, HEADER_LENGTH) {
        return Ok(());
    }
    *piece = piece_at(alloc, volume, at, before)?;
    Ok(())
}
