//! The command `serve`: links are accepted, and served over the file in Main.

ghost use Rattle.std.specs.Prelude.{◌≡◌, ◌≤◌, ◌⊎◌, ℕ, List, Option, None, false, IfOk};
ghost use Rattle.file_store.specs.Hinting.{HasHonestHint, LeavesHonest};
ghost use Rattle.fs_records.specs.File.{StandsFor};
ghost use Rattle.fs_recovery.specs.Opens.{IsNoList};
ghost use Rattle.zb_base.specs.Counts.{Rose};
ghost use Rattle.zb_model.specs.declared.data.Transaction.{Transaction};
ghost use Rattle.zb_volume.specs.declared.areas.Area.TheVariants.{Main};
ghost use Rattle.zb_volume.specs.Disk.{IsSettled, seen};
ghost use Rattle.zb_volume.specs.Moments.{Leaves};
ghost use Rattle.zeo_serving_links.specs.Serving.{outside_seen};
ghost use Rattle.script_runs.specs.Outcomes.{IsUnlessMemory};
ghost use Rattle.zodb_top.specs.Outside.{outside};
ghost use Rattle.zodb_top.specs.Serves.{EndSays, EndsWell, ServeSays, ServesNone, ServesOver, ServesStore, faulty_text, served_line};

use crate::packing::tell;
use crate::running::is_left;
use crate::saying::say_unopened;
use file_store::FileStore;
use itoa::Buffer;
use program_words::ServeRequest;
use script_runs::{Status, cut_lines, say_behind};
use std::alloc::{AllocError, Global};
use std::sync::Wait;
use std::thread::Threads;
use zb_ids::Text8;
use zb_links::{Doors, Spawner};
use zb_model::Store;
use zb_outside::{Clock, Sink};
use zb_resolve::{StockRefs, StockResolver};
use zb_volume::Volume;
use zeo_serving_links::{Served, ServingEnd, serve};
use zodb_core::Hub;

/// A blank and how many sessions ended for a fault or for want of memory, where some did.
fn faulty_text(alloc: Global, faulty: u64) -> Result<Vec<u8>, AllocError>
    ensures { IfOk result (λ text. text.items ≡ faulty_text faulty) }
{
    if faulty == 0 {
        return Ok(Vec::new(alloc));
    }
    let mut text = Vec::from_slice(alloc, b" ")?;
    let mut buffer = Buffer::new();
    text.extend_from_slice(buffer.format(faulty).as_bytes())?;
    Ok(text)
}

/// The line that tells that all links were served.
fn served_text(alloc: Global, count: u16, faulty: u64) -> Result<Vec<u8>, AllocError>
    ensures { IfOk result (λ text. text.items ≡ served_line count faulty) }
{
    let more = faulty_text(alloc, faulty)?;
    let mut text = Vec::from_slice(alloc, b"served ")?;
    let mut buffer = Buffer::new();
    text.extend_from_slice(buffer.format(count).as_bytes())?;
    text.extend_from_slice(more.as_slice())?;
    text.push(b'\n')?;
    Ok(text)
}

/// Writes how the serving ended, where the store hasn't failed.
fn say_served<K: Sink>(
    alloc: Global,
    sink: &mut K,
    lines: &[Text8],
    served: Served,
    count: u16,
) -> Status
    ensures says { EndSays result (K.taken sink.old) (K.taken sink.new) (K.faults sink.old)
        (K.faults sink.new) false served count lines.now }
    ensures counted { K.faults sink.old ≤ K.faults sink.new }
{
    match served.end {
        ServingEnd::Memory => Status::NoMemory,
        ServingEnd::StepsSpent => say_behind(sink, lines, b"steps spent\n", Status::StepsSpent),
        ServingEnd::NoWorkers => say_behind(sink, lines, b"no workers\n", Status::NoWorkers),
        ServingEnd::NoLink => say_behind(sink, lines, b"no link\n", Status::NoLink),
        ServingEnd::All => match served_text(alloc, count, served.faulty) {
            Ok(line) => tell(sink, lines, line.as_slice()),
            Err(_) => Status::NoMemory,
        },
    }
}

/// Writes how the serving ended.
fn say_end<K: Sink>(
    alloc: Global,
    sink: &mut K,
    lines: &[Text8],
    failed: bool,
    served: Served,
    count: u16,
) -> Status
    ensures says { EndSays result (K.taken sink.old) (K.taken sink.new) (K.faults sink.old)
        (K.faults sink.new) failed served count lines.now }
    ensures counted { K.faults sink.old ≤ K.faults sink.new }
{
    if failed {
        return say_behind(sink, lines, b"store fault\n", Status::StoreFault);
    }
    say_served(alloc, sink, lines, served, count)
}

/// Serves links over a store, and hands it back: how it ended, and whether the store failed.
fn serve_store<
    St: Store + Send + Drop,
    C: Clock + Send,
    D: Doors,
    P: Spawner,
    R: Threads + Wait + Sync,
>(
    rt: &R,
    alloc: Global,
    store: St,
    request: ServeRequest,
    clock: &mut C,
    doors: &mut D,
    spawner: &mut P,
) -> (Served, bool, St)
    requires whole { (St.state store).broken ≡ false }
    requires free { (St.state store).voted ≡ None }
    ensures serves { ServesStore St.told St.lasts St.stands request result.0 (St.state store) (St.state result.2)
        (outside_seen (D.told doors.old) (D.faults doors.old) (P.faults spawner.old))
        (outside_seen (D.told doors.new) (D.faults doors.new) (P.faults spawner.new)) }
    ensures failed { result.1 ≡ (St.state result.2).broken }
    ensures images { St.lasts → (St.state result.2).broken ≡ false →
        Leaves Main (λ bytes. St.stands bytes (St.state result.2).list) (St.state result.2).log }
    ensures doors_counted { D.faults doors.old ≤ D.faults doors.new }
    ensures spawner_counted { P.faults spawner.old ≤ P.faults spawner.new }
{
    let hub = Hub::new(alloc, store, StockResolver, StockRefs);
    let count = u32::from(request.count);
    let (hub, served) = serve(rt, alloc, hub, clock, doors, spawner, request.port, count);
    let failed = hub.has_failed();
    (served, failed, hub.into_store())
}

/// Serves links over a store, writes how that ended behind the line of a tail that was cut off, where one
/// was, and hands the store back.
fn serve_over<
    St: Store + Send + Drop,
    K: Sink,
    C: Clock + Send,
    D: Doors,
    P: Spawner,
    R: Threads + Wait + Sync,
>(
    rt: &R,
    alloc: Global,
    store: St,
    cut: Option<u64>,
    request: ServeRequest,
    sink: &mut K,
    clock: &mut C,
    doors: &mut D,
    spawner: &mut P,
) -> (Status, St)
    requires whole { (St.state store).broken ≡ false }
    requires free { (St.state store).voted ≡ None }
    ensures serves { ServesNone result.0 (K.taken sink.old) (K.taken sink.new) (St.state store) (St.state result.1)
        (C.stamps clock.old) (C.stamps clock.new)
        (outside_seen (D.told doors.old) (D.faults doors.old) (P.faults spawner.old))
        (outside_seen (D.told doors.new) (D.faults doors.new) (P.faults spawner.new))
        ⊎ ServesOver result.0 St.told St.lasts St.stands request cut (K.taken sink.old) (K.taken sink.new)
        (K.faults sink.old) (K.faults sink.new) (St.state store) (St.state result.1)
        (outside_seen (D.told doors.old) (D.faults doors.old) (P.faults spawner.old))
        (outside_seen (D.told doors.new) (D.faults doors.new) (P.faults spawner.new)) }
    ensures sink_counted { K.faults sink.old ≤ K.faults sink.new }
    ensures doors_counted { D.faults doors.old ≤ D.faults doors.new }
    ensures spawner_counted { P.faults spawner.old ≤ P.faults spawner.new }
{
    let Ok(lines) = cut_lines(alloc, cut) else {
        return (Status::NoMemory, store);
    };
    let (served, failed, store) = serve_store(rt, alloc, store, request, clock, doors, spawner);
    let status = say_end(alloc, sink, lines.as_slice(), failed, served, request.count);
    (status, store)
}

/// Opens the file in Main, which is made first where Main is empty, and serves links over its list.
pub(crate) fn serve_file<
    K: Sink,
    V: Volume + Drop + Send,
    C: Clock + Send,
    D: Doors,
    P: Spawner,
    R: Threads + Wait + Sync,
>(
    rt: &R,
    alloc: Global,
    request: ServeRequest,
    sink: &mut K,
    volume: V,
    clock: &mut C,
    doors: &mut D,
    spawner: &mut P,
) -> (Status, V)
    requires { V.told → HasHonestHint (V.state volume).log }
    ensures outcome { ServeSays result.0 request V.told
        (outside_seen (D.told doors.old) (D.faults doors.old) (P.faults spawner.old))
        (outside_seen (D.told doors.new) (D.faults doors.new) (P.faults spawner.new))
        (outside (K.taken sink.old) (K.faults sink.old) (C.stamps clock.old) (V.state volume))
        (outside (K.taken sink.new) (K.faults sink.new) (C.stamps clock.new) (V.state result.1)) }
    ensures complete { V.told → ¬ Rose (V.state volume).read_faults (V.state result.1).read_faults
        → ¬ Rose (V.state volume).write_faults (V.state result.1).write_faults
        → ¬ Rose (K.faults sink.old) (K.faults sink.new) → (list : List Transaction) (cut : Option ℕ)
        → StandsFor (seen (V.state volume).log Main) list cut → EndsWell result.0
        (outside_seen (D.told doors.old) (D.faults doors.old) (P.faults spawner.old))
        (outside_seen (D.told doors.new) (D.faults doors.new) (P.faults spawner.new)) }
    ensures damaged { V.told → ¬ Rose (V.state volume).read_faults (V.state result.1).read_faults
        → ¬ Rose (V.state volume).write_faults (V.state result.1).write_faults
        → IsNoList (seen (V.state volume).log Main) → IsUnlessMemory result.0 Status.Damaged }
    ensures harmed { V.told → IsNoList (seen (V.state volume).log Main)
        → (V.state result.1).log ≡ (V.state volume).log }
    ensures hint { V.told → IsSettled (V.state volume).log Main → LeavesHonest (V.state result.1).log }
    ensures others { ¬ (result.0 ≡ Status.StoreFault)
        → (V.state result.1).write_faults ≡ (V.state volume).write_faults }
    ensures sink_counted { K.faults sink.old ≤ K.faults sink.new }
    ensures read_counted { (V.state volume).read_faults ≤ (V.state result.1).read_faults }
    ensures counted { (V.state volume).write_faults ≤ (V.state result.1).write_faults }
    ensures doors_counted { D.faults doors.old ≤ D.faults doors.new }
    ensures spawner_counted { P.faults spawner.old ≤ P.faults spawner.new }
{
    match FileStore::create_or_open(alloc, volume, clock) {
        Ok((store, cut)) => {
            let (status, store) = serve_over(
                rt, alloc, store, cut, request, sink, clock, doors, spawner,
            );
            let volume = store.into_volume();
            is_left(&volume);
            (status, volume)
        }
        Err((error, volume)) => (say_unopened(alloc, sink, error), volume),
    }
}
