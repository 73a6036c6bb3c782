//! Reads of the file that follow back pointers, with what is known of these.

ghost use Rattle.std.specs.Prelude.{◌≡◌, ℕ, ◌≤◌, true, length, take, IfOk};
ghost use Rattle.zb_model.specs.Queries.{found_below, transaction_at};
ghost use Rattle.fs_records.specs.Blocks.{Reached, Begins};
ghost use Rattle.fs_records.specs.Indexed.{places_of};
ghost use Rattle.fs_index.specs.Places.{IsRising};
ghost use Rattle.fs_reading.specs.Known.{AreSourcesOf};
ghost use Rattle.fs_reading.specs.Main.{ArePlaces, AreStarts};
ghost use Rattle.fs_reading.specs.Reads.{OnlyReadsMain};
ghost use Rattle.zb_volume.specs.Disk.{main_bytes};

use fs_index::Place;
use fs_reading::{KnownSources, ReadError, read_before, read_transaction_with};
use std::alloc::Global;
use zb_ids::Tid;
use zb_model::{Found, Transaction};
use zb_volume::Volume;

/// An object's last revision below a front, as `read_before` of fs_reading reads it. What is known of
/// the contents before `end` is used, and kept, where nothing stands behind it.
pub(crate) fn found_before<V: Volume>(
    alloc: Global,
    volume: &mut V,
    known: &mut KnownSources,
    whole: bool,
    places: &[Place],
    end: u64,
    front: Tid,
) -> Result<Found, ReadError>
    requires places { V.told → ArePlaces (main_bytes (V.state volume.old).log) places.now }
    requires rising { IsRising places.now }
    requires end { V.told → end ≤ length (main_bytes (V.state volume.old).log) }
    requires whole { V.told → whole ≡ true → length (main_bytes (V.state volume.old).log) ≡ end }
    requires known { V.told
        → AreSourcesOf (take end (main_bytes (V.state volume.old).log)) known.old }
    ensures found { V.told → (reached : Reached) (oid : ℕ)
        → Begins (main_bytes (V.state volume.old).log) reached
        → places.now ≡ places_of oid reached.known
        → IfOk result (λ found. found ≡ found_below oid front reached.list) }
    ensures known { V.told
        → AreSourcesOf (take end (main_bytes (V.state volume.new).log)) known.new }
    ensures read { OnlyReadsMain (V.state volume.old) (V.state volume.new) result }
{
    if whole {
        return read_before(alloc, volume, known, places, end, front);
    }
    let mut none = KnownSources::new(alloc);
    read_before(alloc, volume, &mut none, places, end, front)
}

/// The transaction with this tid, as `read_transaction_with` of fs_reading reads it. What is known of
/// the contents before `end` is used, and kept, where nothing stands behind it.
pub(crate) fn transaction_with<V: Volume>(
    alloc: Global,
    volume: &mut V,
    known: &mut KnownSources,
    whole: bool,
    starts: &[Place],
    end: u64,
    tid: Tid,
) -> Result<Option<Transaction>, ReadError>
    requires starts { V.told → AreStarts (main_bytes (V.state volume.old).log) starts.now }
    requires rising { IsRising starts.now }
    requires whole { V.told → whole ≡ true → length (main_bytes (V.state volume.old).log) ≡ end }
    requires known { V.told
        → AreSourcesOf (take end (main_bytes (V.state volume.old).log)) known.old }
    ensures found { V.told → (reached : Reached)
        → Begins (main_bytes (V.state volume.old).log) reached
        → starts.now ≡ reached.starts
        → IfOk result (λ found. found ≡ transaction_at tid reached.list) }
    ensures known { V.told
        → AreSourcesOf (take end (main_bytes (V.state volume.new).log)) known.new }
    ensures read { OnlyReadsMain (V.state volume.old) (V.state volume.new) result }
{
    if whole {
        return read_transaction_with(alloc, volume, known, starts, tid);
    }
    let mut none = KnownSources::new(alloc);
    read_transaction_with(alloc, volume, &mut none, starts, tid)
}
