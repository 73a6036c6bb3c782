//! An index file is read.

ghost use Rattle.std.specs.Prelude.{◌≡◌, ◌&&◌, ◌==◌, nat_le, ◌<◌, ◌≤◌, ◌^◌, length, IfOk};
ghost use Rattle.std.specs.Option.{ForSome};
ghost use Rattle.zb_volume.specs.declared.areas.Area.{Area};
ghost use Rattle.zb_volume.specs.Disk.{area_length, seen};
ghost use Rattle.fs_recovery.specs.Opens.{IsBounded, IsUpTo, newest_kept};
ghost use Rattle.fs_recovery.specs.Reading.{Holds, OnlyReadsToOpen};
ghost use Rattle.fs_index_file.specs.Hints.{size_by};
ghost use Rattle.fs_index_file.specs.Honest.{IsHonest};
ghost use Rattle.fs_index_file.specs.Reads.{EntriesGive, HintGives, IsReadRefusal};

use crate::counting::{none_counted, numbers_of};
use crate::entries::{HEAD_LENGTH, Head, OPEN, has_size};
use crate::pieces::Piece;
use crate::records::read_records;
use crate::starts::read_starts;
use fs_index::{Index, last_of};
use fs_recovery::{OpenError, Opened};
use std::alloc::Global;
use zb_ids::Tid;
use zb_volume::{Area, Volume};

/// How many bytes a read of Hint asks for at most.
const PIECE: usize = 65_536;

/// Whether a file with this head, of so many bytes, may be believed by its head: its gate is open, its
/// length is the one that its counts give, and its end is a place of a Main of `long` bytes.
fn may_be_believed(head: &Head, length: u64, long: u64) -> bool
    ensures { result ≡ (head.now.gate == 1 && (length == size_by head.now
        && (nat_le 4 head.now.end && nat_le head.now.end long))) }
{
    head.gate == OPEN && has_size(head, length) && 4 <= head.end && head.end <= long
}

/// The number of the last transaction that is kept, or 0.
fn newest_of(index: &Index) -> Tid
    ensures { result ≡ newest_kept index.now }
{
    match last_of(index.transactions()) {
        Some(place) => place.serial,
        None => Tid(0),
    }
}

/// What the file with this head says, or `None` where its entries are out of order.
fn read_entries<V: Volume, const N: usize>(
    alloc: Global,
    volume: &mut V,
    piece: &mut Piece<N>,
    head: &Head,
) -> Result<Option<Opened>, OpenError>
    requires small { 25 ≤ N }
    requires within { size_by head.now ≤ piece.old.length }
    requires first { 4 ≤ head.now.end }
    requires limit { head.now.end < 2 ^ 63 }
    requires length { V.told → piece.old.length ≡ area_length (V.state volume.old).log Area.Hint }
    requires shows { V.told → Holds piece.old.at piece.old.count piece.old.held
        (seen (V.state volume.old).log Area.Hint) }
    ensures value { V.told → IfOk result
        (EntriesGive (seen (V.state volume.old).log Area.Hint) head.now) }
    ensures bounds { IfOk result (λ h. ForSome h IsBounded) }
    ensures refused { IsReadRefusal result }
    ensures read { OnlyReadsToOpen (V.state volume.old) (V.state volume.new) result }
{
    let mut index = Index::new(alloc);
    let mut packed = Vec::new(alloc);
    if !read_starts(volume, piece, head, &mut index, &mut packed)? {
        return Ok(None);
    }
    let newest = newest_of(&index);
    let mut counted = none_counted(alloc, index.transactions())?;
    let sums = counted.as_mut_slice();
    if !read_records(volume, piece, head, newest, &mut index, sums)? {
        return Ok(None);
    }
    let starts = index.transactions();
    let numbers = numbers_of(alloc, starts, packed.as_slice(), sums)?;
    Ok(Some(Opened {
        index,
        numbers,
        end: head.end,
        cut: None,
    }))
}

/// Reads the index file in Hint, in one pass and in pieces of bounded size. It is `Some` exactly where
/// its gate is open, its length is the one that its counts give, its transactions and its data records
/// are in order and stand before its end, and that isn't past the end of Main. Then it is what is known
/// of Main by it, up to its end: the index, and the numbers of the transactions.
///
/// Memory is that of the index and the numbers, of 17 bytes for each transaction meanwhile, and of one
/// piece of 65,536 bytes.
pub fn read_hint<V: Volume>(alloc: Global, volume: &mut V) -> Result<Option<Opened>, OpenError>
    ensures value { V.told → IfOk result
        (HintGives (area_length (V.state volume.old).log Area.Main)
        (seen (V.state volume.old).log Area.Hint)) }
    ensures honest { V.told → IsHonest (seen (V.state volume.old).log Area.Main)
        (seen (V.state volume.old).log Area.Hint)
        → IfOk result (λ h. ForSome h (λ o. IsUpTo (seen (V.state volume.old).log Area.Main) o)) }
    ensures bounded { IfOk result (λ h. ForSome h IsBounded) }
    ensures refused { IsReadRefusal result }
    ensures read { OnlyReadsToOpen (V.state volume.old) (V.state volume.new) result }
{
    let long = volume.len(Area::Main)?;
    let length = volume.len(Area::Hint)?;
    if length < HEAD_LENGTH as u64 {
        return Ok(None);
    }
    let mut piece: Piece<PIECE> = Piece::new(length);
    let head = piece.read_head(volume)?;
    if !may_be_believed(&head, length, long) {
        return Ok(None);
    }
    read_entries(alloc, volume, &mut piece, &head)
}
