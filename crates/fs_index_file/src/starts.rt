//! The transactions that an index file names.

ghost use Rattle.std.specs.Prelude.{◌≡◌, ℕ, ◌+◌, ◌*◌, ◌<◌, ◌≤◌, [], ◌∷◌, ◌++◌, true, All, IfOk, OnOk};
ghost use Rattle.zb_volume.specs.declared.areas.Area.{Area};
ghost use Rattle.zb_volume.specs.Disk.{area_length, seen};
ghost use Rattle.fs_recovery.specs.Reading.{Holds, OnlyReadsToOpen};
ghost use Rattle.fs_index.specs.Places.{IsBefore};
ghost use Rattle.fs_index_file.specs.Hints.{is_start};
ghost use Rattle.fs_index_file.specs.Honest.{is_packed};
ghost use Rattle.fs_index_file.specs.Reads.{IsReadRefusal};
ghost use Rattle.fs_index_file.specs.Scans.{AreBehind, StandsBehind, StartsGive};

use crate::entries::{HEAD_LENGTH, Head, START_LENGTH, Start};
use crate::pieces::Piece;
use fs_index::{Index, Place};
use fs_records::{COMMITTED, PACKED};
use fs_recovery::OpenError;
use std::alloc::AllocError;
use zb_ids::Tid;
use zb_volume::Volume;

/// Whether a transaction may stand behind what was read, before the end.
fn may_stand(start: &Start, last: &Place, end: u64) -> bool
    ensures test { result ≡ is_start end last.now start.now }
    ensures stands { result ≡ true → StandsBehind end last.now start.now }
{
    last.serial < start.place.serial
        && start.place.serial.0 < u64::MAX
        && last.at <= start.place.at
        && start.place.at < end
        && (start.status == COMMITTED || start.status == PACKED)
}

/// Keeps the place of a transaction, and whether a pack has gone over it. The one error is want of
/// memory.
fn keep(index: &mut Index, packed: &mut Vec<bool>, start: &Start) -> Result<(), AllocError>
    requires { All (IsBefore start.now.place.serial start.now.place.at) index.old.transactions }
    ensures places { OnOk result
        (index.new.transactions ≡ index.old.transactions ++ start.now.place ∷ []) }
    ensures packed { OnOk result (packed.new.items ≡ packed.old.items ++ is_packed start.now ∷ []) }
    ensures entries { index.new.entries ≡ index.old.entries }
{
    index.push_transaction(start.place)?;
    packed.push(start.status == PACKED)?;
    Ok(())
}

/// Puts the transactions that an index file names into the index and beside it, up to the first that
/// may not stand there; whether all may.
pub(crate) fn read_starts<V: Volume, const N: usize>(
    volume: &mut V,
    piece: &mut Piece<N>,
    head: &Head,
    index: &mut Index,
    packed: &mut Vec<bool>,
) -> Result<bool, OpenError>
    requires small { 25 ≤ N }
    requires within { 25 + 17 * head.now.starts ≤ piece.old.length }
    requires first { 4 ≤ head.now.end }
    requires index { index.old.transactions ≡ [] }
    requires packed { packed.old.items ≡ [] }
    requires length { V.told → piece.old.length ≡ area_length (V.state volume.old).log Area.Hint }
    requires shows { V.told → Holds piece.old.at piece.old.count piece.old.held
        (seen (V.state volume.old).log Area.Hint) }
    ensures value { V.told → IfOk result (StartsGive (seen (V.state volume.old).log Area.Hint)
        head.now index.new.transactions packed.new.items) }
    ensures bounds { IfOk result (λ _. AreBehind head.now.end index.new.transactions) }
    ensures entries { index.new.entries ≡ index.old.entries }
    ensures shows { V.told → Holds piece.new.at piece.new.count piece.new.held
        (seen (V.state volume.old).log Area.Hint) }
    ensures length { piece.new.length ≡ piece.old.length }
    ensures refused { IsReadRefusal result }
    ensures read { OnlyReadsToOpen (V.state volume.old) (V.state volume.new) result }
{
    let mut last = Place {
        serial: Tid(0),
        at: 4,
    };
    let mut q = HEAD_LENGTH as u64;
    let mut k = 0;
    'each: while k < head.starts {
        let start = piece.start_at(volume, q)?;
        if !may_stand(&start, &last, head.end) {
            return Ok(false);
        }
        keep(index, packed, &start)?;
        last = Place {
            serial: start.place.serial,
            at: start.place.at + 1,
        };
        q += START_LENGTH as u64;
        k += 1;
    }
    Ok(true)
}
