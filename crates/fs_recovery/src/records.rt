//! The data records of a transaction.

ghost use Rattle.std.specs.Prelude.{◌≡◌, ℕ, ◌+◌, ◌-◌, ◌<◌, ◌≤◌, List, All, length, drop, IfOk, OnOk};
ghost use Rattle.zb_base.specs.Bytes.{AreBytes};
ghost use Rattle.fs_records.specs.Blocks.{Known};
ghost use Rattle.fs_records.specs.Rules.{record_at, payload_size, is_astray};
ghost use Rattle.fs_index.specs.Places.{knows, places_in, AreBefore};
ghost use Rattle.fs_records.specs.Indexed.{ArePlacesOf};
ghost use Rattle.fs_recovery.specs.Reading.{OnlyReadsToOpen};
ghost use Rattle.fs_recovery.specs.Windows.{Shows};
ghost use Rattle.fs_recovery.specs.Records.{RecordGives, RecordsRead};
ghost use Rattle.zb_volume.specs.Disk.{main_bytes};
ghost use Rattle.zb_volume.specs.States.{OnlyReads};

use crate::counted::{Counted, with_record};
use crate::errors::OpenError;
use crate::held::Window;
use crate::pieces::{data_header_at, number_behind};
use fs_index::{Index, Lookup, Place};
use fs_records::{DATA_HEADER_LENGTH, DataHeader, Field};
use zb_ids::{Oid, Tid};
use zb_volume::{StoreFault, Volume};

/// How many bytes stand behind a data record's header.
fn payload_size(header: &DataHeader) -> u64
    ensures { result ≡ payload_size header.now }
{
    if header.length == 0 { 8 } else { header.length }
}

/// Whether a data record has a back pointer that leads to no record of its object that was read.
#[inline(never)]
fn is_astray<V: Volume, const N: usize>(
    volume: &mut V,
    window: &mut Window<N>,
    q: u64,
    header: &DataHeader,
    index: &Index,
) -> Result<bool, StoreFault>
    requires within { q + 42 + payload_size header.now ≤ window.old.length }
    requires shows { V.told → Shows window.old (main_bytes (V.state volume.old).log) }
    ensures value { V.told →
        IfOk result (λ b. b ≡ is_astray (knows index.now.entries) header.now
        (drop q (main_bytes (V.state volume.old).log))) }
    ensures shows { V.told → Shows window.new (main_bytes (V.state volume.old).log) }
    ensures length { window.new.length ≡ window.old.length }
    ensures read { OnlyReads (V.state volume.old) (V.state volume.new) result }
{
    if header.length != 0 {
        return Ok(false);
    }
    let back = number_behind(volume, window, q, DATA_HEADER_LENGTH as u64)?;
    if back == 0 {
        return Ok(false);
    }
    Ok(!index.stands_at(header.oid, back))
}

/// A data record at this place breaks this rule.
fn bad(at: u64, field: Field) -> Result<(Oid, u64), OpenError>
    ensures { result ≡ Err (OpenError.BadRecord at field) }
{
    Err(OpenError::BadRecord { at, field })
}

/// The object and the size of the data record at `q`, of the transaction with this number at this
/// place, whose data records end at `end`.
#[tactic(auto, unfolding(fs_records::specs::Rules::record_at))]
fn read_record<V: Volume, const N: usize>(
    volume: &mut V,
    window: &mut Window<N>,
    q: u64,
    end: u64,
    place: u64,
    tid: Tid,
    index: &Index,
) -> Result<(Oid, u64), OpenError>
    requires small { 42 ≤ N }
    requires order { q ≤ end }
    requires within { end ≤ window.old.length }
    requires shows { V.told → Shows window.old (main_bytes (V.state volume.old).log) }
    ensures size { IfOk result (λ r. (0 < r.1) × (r.1 ≤ end - q)) }
    ensures value { V.told →
        RecordGives result q (record_at (knows index.now.entries) place tid (end - q)
        (drop q (main_bytes (V.state volume.old).log))) }
    ensures shows { V.told → Shows window.new (main_bytes (V.state volume.old).log) }
    ensures length { window.new.length ≡ window.old.length }
    ensures read { OnlyReadsToOpen (V.state volume.old) (V.state volume.new) result }
{
    let room = end - q;
    if room < DATA_HEADER_LENGTH as u64 {
        return bad(q, Field::Size);
    }
    let header = data_header_at(volume, window, q)?;
    if header.tid != tid {
        return bad(q, Field::Serial);
    }
    if header.transaction != place {
        return bad(q, Field::Position);
    }
    if header.version != 0 {
        return bad(q, Field::Version);
    }
    let size = payload_size(&header);
    if room - (DATA_HEADER_LENGTH as u64) < size {
        return bad(q, Field::Size);
    }
    if is_astray(volume, window, q, &header, index)? {
        return bad(q, Field::Back);
    }
    Ok((header.oid, DATA_HEADER_LENGTH as u64 + size))
}

/// Puts the data records from `from` to `end`, of the transaction with this number at this place,
/// into the index, and counts the objects that they change.
pub fn read_records<V: Volume, const N: usize>(
    volume: &mut V,
    window: &mut Window<N>,
    place: u64,
    tid: Tid,
    from: u64,
    end: u64,
    index: &mut Index,
) -> Result<Counted, OpenError>
    requires small { 42 ≤ N }
    requires order { from ≤ end }
    requires within { end ≤ window.old.length }
    requires shows { V.told → Shows window.old (main_bytes (V.state volume.old).log) }
    requires bytes { V.told → AreBytes (main_bytes (V.state volume.old).log) }
    requires before { AreBefore index.old.entries tid from }
    requires earlier { (oid : ℕ) → All (λ p. p.serial < tid) (places_in index.old.entries oid) }
    ensures before { OnOk result (AreBefore index.new.entries tid end) }
    ensures records { V.told → (known : List Known) → ArePlacesOf known index.old.entries
        → RecordsRead (main_bytes
        (V.state volume.old).log) known place tid from end index.new.entries result }
    ensures transactions { index.new.transactions ≡ index.old.transactions }
    ensures shows { V.told → Shows window.new (main_bytes (V.state volume.old).log) }
    ensures length { window.new.length ≡ window.old.length }
    ensures read { OnlyReadsToOpen (V.state volume.old) (V.state volume.new) result }
{
    let mut q = from;
    let mut counted = Counted {
        changes: 0,
        greatest: Oid(0),
    };
    while q < end {
        let (oid, size) = read_record(volume, window, q, end, place, tid, index)?;
        counted = with_record(counted, index, oid, tid);
        index.add(oid, Place { serial: tid, at: q })?;
        q += size;
    }
    Ok(counted)
}
