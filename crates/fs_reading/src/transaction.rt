//! A transaction whole.

ghost use Rattle.std.specs.Prelude.{◌≡◌, ℕ, ◌<◌, ◌^◌, Some, length, map, slice_get, IfOk};
ghost use Rattle.zb_model.specs.declared.data.Transaction.{Transaction};
ghost use Rattle.fs_records.specs.Blocks.{Reached, Begins};
ghost use Rattle.fs_reading.specs.Known.{AreSourcesOf};
ghost use Rattle.fs_reading.specs.Main.{IsStart, IsStartOf};
ghost use Rattle.fs_reading.specs.ChangesStand.{HasTransaction, OfTransaction};
ghost use Rattle.fs_reading.specs.Formed.{AreFormed, IsFormed};
ghost use Rattle.fs_reading.specs.Outlines.{AllStandWithin, AreOutlined, StandsWithin, outlined_change};
ghost use Rattle.zb_volume.specs.Disk.{main_bytes};
ghost use Rattle.fs_reading.specs.Reads.{OnlyReadsMain};

use crate::contents::content_from;
use crate::errors::ReadError;
use crate::known::KnownSources;
use crate::outline::{Outline, OutlinedChange};
use crate::outlining::outline_at;
use fs_index::Place;
use std::alloc::Global;
use zb_ids::ListOf;
use zb_model::{Change, Transaction};
use zb_volume::Volume;

/// The change that is outlined, with the content that stands in Main. It is `ReadFault` only where a
/// read failed, and else `Memory`. The volume is as it was.
pub fn read_change<V: Volume>(
    alloc: Global,
    volume: &mut V,
    change: OutlinedChange,
) -> Result<Change, ReadError>
    requires short { V.told → length (main_bytes (V.state volume.old).log) < 2 ^ 64 }
    requires within { V.told → StandsWithin (main_bytes (V.state volume.old).log) change.source }
    ensures value { V.told → IfOk result (λ read.
        read ≡ outlined_change (main_bytes (V.state volume.old).log) change) }
    ensures read { OnlyReadsMain (V.state volume.old) (V.state volume.new) result }
{
    let content = content_from(alloc, volume, change.source)?;
    Ok(Change {
        oid: change.oid,
        content,
    })
}

/// Some changes, with the contents that stand in Main. Its errors are a read that failed, and want of
/// memory.
fn changes_from<V: Volume>(
    alloc: Global,
    volume: &mut V,
    outlined: &[OutlinedChange],
) -> Result<ListOf<Change>, ReadError>
    requires short { V.told → length (main_bytes (V.state volume.old).log) < 2 ^ 64 }
    requires within { V.told → AllStandWithin (main_bytes (V.state volume.old).log) outlined.now }
    requires outlined { AreOutlined outlined.now }
    ensures value { V.told → IfOk result (λ changes.
        changes ≡ map (outlined_change (main_bytes (V.state volume.old).log)) outlined.now) }
    ensures formed { IfOk result (λ changes. AreFormed changes) }
    ensures read { OnlyReadsMain (V.state volume.old) (V.state volume.new) result }
{
    let mut changes = ListOf::new(alloc);
    'change: for change in outlined {
        let content = content_from(alloc, volume, change.source)?;
        changes.push(Change {
            oid: change.oid,
            content,
        })?;
    }
    Ok(changes)
}

/// The transaction at a place.
fn transaction_at<V: Volume>(
    alloc: Global,
    volume: &mut V,
    known: &mut KnownSources,
    place: Place,
) -> Result<Transaction, ReadError>
    requires short { V.told → length (main_bytes (V.state volume.old).log) < 2 ^ 64 }
    requires stands { V.told → HasTransaction (main_bytes (V.state volume.old).log) place }
    requires known { V.told → AreSourcesOf (main_bytes (V.state volume.old).log) known.old }
    ensures value { V.told → OfTransaction (main_bytes (V.state volume.old).log) place
        (λ t. IfOk result (λ read. read ≡ t)) }
    ensures formed { IfOk result (λ read. IsFormed read) }
    ensures known { V.told → AreSourcesOf (main_bytes (V.state volume.new).log) known.new }
    ensures read { OnlyReadsMain (V.state volume.old) (V.state volume.new) result }
{
    let Outline {
        tid,
        packed,
        user,
        description,
        extension,
        changes,
    } = outline_at(alloc, volume, known, place)?;
    let changes = changes_from(alloc, volume, changes.as_slice())?;
    Ok(Transaction {
        tid,
        packed,
        user,
        description,
        extension,
        changes,
    })
}

/// The transaction at a place where one was read, whole: an object that it changes more than once
/// stands where it came first, with the content of its last record there. Whatever the volume gives,
/// its texts have at most 65,535 bytes each, it changes each object once, and no record is empty.
/// Memory is that of the transaction. It is `ReadFault` only where a read failed, and else `Memory`.
/// The volume is as it was.
pub(crate) fn read_transaction_at<V: Volume>(
    alloc: Global,
    volume: &mut V,
    known: &mut KnownSources,
    place: Place,
) -> Result<Transaction, ReadError>
    requires start { V.told → IsStart (main_bytes (V.state volume.old).log) place }
    requires known { V.told → AreSourcesOf (main_bytes (V.state volume.old).log) known.old }
    ensures transaction { V.told → (reached : Reached) (number : ℕ)
        → Begins (main_bytes (V.state volume.old).log) reached → IsStartOf reached number place
        → IfOk result (λ t. slice_get reached.list number ≡ Some t) }
    ensures formed { IfOk result (λ t. IsFormed t) }
    ensures known { V.told → AreSourcesOf (main_bytes (V.state volume.new).log) known.new }
    ensures read { OnlyReadsMain (V.state volume.old) (V.state volume.new) result }
{
    transaction_at(alloc, volume, known, place)
}
