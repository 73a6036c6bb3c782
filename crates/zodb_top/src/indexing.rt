//! The command `index`: the index file of the file in Main is written.

ghost use Rattle.std.specs.Prelude.{◌≡◌, ◌≢◌, ◌≤◌, ◌∷◌, ◌++◌, [], None, IfOk, false};
ghost use Rattle.file_store.specs.Hinting.{HasHonestHint, LeavesHonest};
ghost use Rattle.fs_recovery.specs.Opens.{IsNoList};
ghost use Rattle.zb_volume.specs.declared.areas.Area.TheVariants.{Hint, Main};
ghost use Rattle.zb_volume.specs.Disk.{IsSettled, seen};
ghost use Rattle.zb_volume.specs.States.{OthersStay};
ghost use Rattle.zodb_core.specs.HubState.{counts_of};
ghost use Rattle.zodb_core.specs.Outcomes.{AreLaterCounts};
ghost use Rattle.zodb_top.specs.Indexing.{IndexSays, IndexesStore};
ghost use Rattle.zodb_top.specs.Opened.{IsLeft};
ghost use Rattle.zodb_top.specs.Outside.{outside};
ghost use Rattle.zodb_top.specs.Texts.{indexed_line};

use crate::packing::tell;
use crate::saying::say_unopened;
use file_store::FileStore;
use itoa::Buffer;
use script_runs::{Status, cut_lines, say_behind};
use std::alloc::{AllocError, Global};
use zb_model::{Store, StoreError};
use zb_outside::{Clock, Sink};
use zb_volume::Volume;

/// The line that says up to where the index file goes.
fn indexed_text(alloc: Global, end: u64) -> Result<Vec<u8>, AllocError>
    ensures { IfOk result (λ text. text.items ≡ indexed_line end) }
{
    let mut text = Vec::from_slice(alloc, b"indexed ")?;
    let mut buffer = Buffer::new();
    text.extend_from_slice(buffer.format(end).as_bytes())?;
    text.push(b'\n')?;
    Ok(text)
}

/// Writes the index file of a store, and the line that says up to where it goes, behind the line of a tail
/// that was cut off, where one was.
#[tactic(auto, using(crate::proofs::Indexes::tells_end, crate::proofs::Indexes::tells_unread, crate::proofs::Indexes::tells_fault))]
fn write_index<V: Volume + Drop, K: Sink>(
    alloc: Global,
    store: &mut FileStore<V>,
    cut: Option<u64>,
    sink: &mut K,
) -> Status
    requires { (⟦<FileStore<V> as Store>⟧.state store.old).broken ≡ false }
    ensures says { IndexesStore result V.told cut (K.taken sink.old) (K.taken sink.new) (K.faults sink.old) (K.faults sink.new)
        (⟦<FileStore<V> as Store>⟧.state store.old) (⟦<FileStore<V> as Store>⟧.state store.new) }
    ensures list { V.told → (⟦<FileStore<V> as Store>⟧.state store.new).list ≡ (⟦<FileStore<V> as Store>⟧.state store.old).list }
    ensures stays { V.told → OthersStay Hint (⟦<FileStore<V> as Store>⟧.state store.old).log (⟦<FileStore<V> as Store>⟧.state store.new).log }
    ensures whole { ¬ (result ≡ Status.StoreFault) → (⟦<FileStore<V> as Store>⟧.state store.new).broken ≡ false }
    ensures others { ¬ (result ≡ Status.StoreFault) → (⟦<FileStore<V> as Store>⟧.state store.new).faults ≡ (⟦<FileStore<V> as Store>⟧.state store.old).faults }
    ensures later { AreLaterCounts (counts_of (⟦<FileStore<V> as Store>⟧.state store.old)) (counts_of (⟦<FileStore<V> as Store>⟧.state store.new)) }
    ensures counted { K.faults sink.old ≤ K.faults sink.new }
{
    let Ok(lines) = cut_lines(alloc, cut) else {
        return Status::NoMemory;
    };
    match store.write_hint(alloc) {
        Ok(end) => match indexed_text(alloc, end) {
            Ok(text) => tell(sink, lines.as_slice(), text.as_slice()),
            Err(_) => Status::NoMemory,
        },
        Err(StoreError::Memory) => Status::NoMemory,
        Err(StoreError::ReadFault) => tell(sink, lines.as_slice(), b"refused ReadFault\n"),
        Err(StoreError::StoreFault) => {
            say_behind(sink, lines.as_slice(), b"store fault\n", Status::StoreFault)
        }
    }
}

/// Opens the file in Main, which is made first where Main is empty, and writes its index file.
pub(crate) fn index_file<K: Sink, V: Volume + Drop, C: Clock>(
    alloc: Global,
    sink: &mut K,
    volume: V,
    clock: &mut C,
) -> (Status, V)
    requires { V.told → HasHonestHint (V.state volume).log }
    ensures outcome { IndexSays result.0 V.told
        (outside (K.taken sink.old) (K.faults sink.old) (C.stamps clock.old) (V.state volume))
        (outside (K.taken sink.new) (K.faults sink.new) (C.stamps clock.new) (V.state result.1)) }
    ensures left { V.told → IsLeft V.told
        (outside (K.taken sink.old) (K.faults sink.old) (C.stamps clock.old) (V.state volume))
        (outside (K.taken sink.new) (K.faults sink.new) (C.stamps clock.new) (V.state result.1)) }
    ensures harmed { V.told → IsNoList (seen (V.state volume).log Main) → (V.state result.1).log ≡ (V.state volume).log }
    ensures hint { V.told → IsSettled (V.state volume).log Main → LeavesHonest (V.state result.1).log }
    ensures others { ¬ (result.0 ≡ Status.StoreFault) → (V.state result.1).write_faults ≡ (V.state volume).write_faults }
    ensures sink_counted { K.faults sink.old ≤ K.faults sink.new }
    ensures read_counted { (V.state volume).read_faults ≤ (V.state result.1).read_faults }
    ensures counted { (V.state volume).write_faults ≤ (V.state result.1).write_faults }
{
    match FileStore::create_or_open(alloc, volume, clock) {
        Ok((mut store, cut)) => {
            let status = write_index(alloc, &mut store, cut, sink);
            (status, store.into_volume())
        }
        Err((error, volume)) => (say_unopened(alloc, sink, error), volume),
    }
}
