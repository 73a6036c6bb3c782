//! The data records that an index file names.

ghost use Rattle.std.specs.Prelude.{◌≡◌, ℕ, ◌+◌, ◌*◌, ◌<◌, ◌≤◌, [], true, IfOk};
ghost use Rattle.zb_volume.specs.declared.areas.Area.{Area};
ghost use Rattle.zb_volume.specs.Disk.{area_length, seen};
ghost use Rattle.fs_index.specs.Places.{AreBefore};
ghost use Rattle.fs_recovery.specs.Reading.{Holds, OnlyReadsToOpen};
ghost use Rattle.fs_index_file.specs.Counts.{CountsGive, nothing_counted};
ghost use Rattle.fs_index_file.specs.Hints.{is_record};
ghost use Rattle.fs_index_file.specs.Reads.{IsReadRefusal};
ghost use Rattle.fs_index_file.specs.Scans.{RecordsGive, StandsNext};

use crate::counting::count;
use crate::entries::{HEAD_LENGTH, Head, RECORD_LENGTH, START_LENGTH};
use crate::pieces::Piece;
use fs_index::{Index, Place, Placed};
use fs_recovery::{Counted, OpenError};
use zb_ids::{Oid, Tid};
use zb_volume::Volume;

/// Whether a data record may stand behind what was read, before the end.
fn may_stand(entry: &Placed, last: &Placed, newest: Tid, end: u64) -> bool
    ensures test { result ≡ is_record newest end last.now entry.now }
    ensures stands { result ≡ true → StandsNext newest end last.now entry.now }
{
    (last.oid < entry.oid
        || (last.oid == entry.oid
            && last.place.serial <= entry.place.serial
            && last.place.at <= entry.place.at))
        && entry.place.serial <= newest
        && entry.place.at < end
}

/// Puts the data records that an index file names into the index, up to the first that may not stand
/// there, and counts for each transaction of the index what they change; whether all may.
pub(crate) fn read_records<V: Volume, const N: usize>(
    volume: &mut V,
    piece: &mut Piece<N>,
    head: &Head,
    newest: Tid,
    index: &mut Index,
    counted: &mut [Counted],
) -> Result<bool, OpenError>
    requires small { 25 ≤ N }
    requires within { 25 + 17 * head.now.starts + 24 * head.now.records ≤ piece.old.length }
    requires index { index.old.entries ≡ [] }
    requires counted { counted.old ≡ nothing_counted index.old.transactions }
    requires length { V.told → piece.old.length ≡ area_length (V.state volume.old).log Area.Hint }
    requires shows { V.told → Holds piece.old.at piece.old.count piece.old.held
        (seen (V.state volume.old).log Area.Hint) }
    ensures value { V.told → IfOk result (RecordsGive (seen (V.state volume.old).log Area.Hint)
        head.now newest index.new.entries) }
    ensures counted { V.told → IfOk result (CountsGive (seen (V.state volume.old).log Area.Hint)
        head.now index.old.transactions counted.new) }
    ensures bounds { IfOk result (λ _. AreBefore index.new.entries newest head.now.end) }
    ensures transactions { index.new.transactions ≡ index.old.transactions }
    ensures refused { IsReadRefusal result }
    ensures read { OnlyReadsToOpen (V.state volume.old) (V.state volume.new) result }
{
    let mut last = Placed {
        oid: Oid(0),
        place: Place {
            serial: Tid(0),
            at: 0,
        },
    };
    let mut q = HEAD_LENGTH as u64 + START_LENGTH as u64 * head.starts;
    let mut k = 0;
    'each: while k < head.records {
        let entry = piece.record_at(volume, q)?;
        if !may_stand(&entry, &last, newest, head.end) {
            return Ok(false);
        }
        count(counted, index.transactions(), &last, &entry);
        index.push_record(entry.oid, entry.place)?;
        last = Placed {
            oid: entry.oid,
            place: Place {
                serial: entry.place.serial,
                at: entry.place.at + 1,
            },
        };
        q += RECORD_LENGTH as u64;
        k += 1;
    }
    Ok(true)
}
