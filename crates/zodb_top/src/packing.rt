//! The command `pack`: the list of the file in Main is packed in one step of a session.

ghost use Rattle.std.specs.Prelude.{◌≡◌, ◌≤◌, [], ◌∷◌, ◌++◌, None, Option, List, ℕ, false};
ghost use Rattle.file_store.specs.Hinting.{HasHonestHint, LeavesHonest};
ghost use Rattle.fs_records.specs.File.{StandsFor};
ghost use Rattle.fs_recovery.specs.Opens.{IsNoList};
ghost use Rattle.zb_base.specs.Counts.{Rose};
ghost use Rattle.zb_model.specs.declared.data.Transaction.{Transaction};
ghost use Rattle.zb_volume.specs.declared.areas.Area.TheVariants.{Main};
ghost use Rattle.zb_volume.specs.Disk.{IsSettled, seen};
ghost use Rattle.zb_volume.specs.Moments.{Leaves, LeavesOnly};
ghost use Rattle.zodb_core.specs.HubState.{StandsForMachine};
ghost use Rattle.zodb_core.specs.Machine.{machine_over};
ghost use Rattle.zodb_top.specs.Outside.{outside};
ghost use Rattle.zodb_top.specs.PackStores.{CountsOver, CountsPack, IsStorePacked, IsToldAs, PacksStore};
ghost use Rattle.zodb_top.specs.Telling.{told_of};
ghost use Rattle.zodb_top.specs.Packs.{IsListOrPacked, PackSays, ReplySays};
ghost use Rattle.script_runs.specs.Outcomes.{IsUnlessMemory};
ghost use Rattle.script_runs.specs.Texts.{joined};

use crate::saying::say_unopened;
use file_store::FileStore;
use program_words::PackRequest;
use script_runs::{Status, cut_lines, say_behind, write_behind};
use std::alloc::Global;
use zb_answers::{Answer, answer_line};
use zb_ids::Text8;
use zb_model::{Refusal, Store};
use zb_outside::{Clock, Failed, Sink};
use zb_resolve::{StockRefs, StockResolver};
use zb_volume::Volume;
use zodb_core::{Hub, Reply, Request};

/// Packs the list of a hub's store, by its first session.
fn pack_hub<St: Store, C: Clock>(
    alloc: Global,
    hub: &mut Hub<St, StockResolver, StockRefs>,
    pack: PackRequest,
    clock: &mut C,
) -> Reply
    requires whole { hub.old.store.broken ≡ false }
    requires fresh { hub.old.sessions ≡ [] }
    ensures step { St.told → StandsForMachine hub.old (machine_over hub.old.store.list) →
        IsStorePacked pack result hub.old.store hub.new.store (C.stamps clock.old) (C.stamps clock.new) }
    ensures moments { St.lasts → St.told → StandsForMachine hub.old (machine_over hub.old.store.list) →
        Leaves Main (λ bytes. St.stands bytes hub.old.store.list) hub.old.store.log →
        LeavesOnly Main (IsListOrPacked St.stands pack hub.old.store.list) hub.old.store.log hub.new.store.log }
    ensures counts { CountsPack hub.old.store hub.new.store result }
{
    match hub.open_session() {
        Ok(session) => {
            let request = Request::Pack {
                tid: pack.tid,
                collect: pack.collect,
            };
            hub.step(alloc, session, request, clock)
        }
        Err(_) => Reply::Refused(Refusal::Memory),
    }
}

/// Packs the list of a store, and hands the store back.
fn pack_store<St: Store, C: Clock>(
    alloc: Global,
    store: St,
    pack: PackRequest,
    clock: &mut C,
) -> (Reply, St)
    requires whole { (St.state store).broken ≡ false }
    requires free { (St.state store).voted ≡ None }
    ensures step { St.told → IsStorePacked pack result.0 (St.state store) (St.state result.1) (C.stamps clock.old) (C.stamps clock.new) }
    ensures moments { St.lasts → St.told → LeavesOnly Main (IsListOrPacked St.stands pack (St.state store).list) (St.state store).log (St.state result.1).log }
    ensures images { St.lasts → (St.state result.1).broken ≡ false →
        Leaves Main (λ bytes. St.stands bytes (St.state result.1).list) (St.state result.1).log }
    ensures counts { CountsPack (St.state store) (St.state result.1) result.0 }
{
    let mut hub = Hub::new(alloc, store, StockResolver, StockRefs);
    let reply = pack_hub(alloc, &mut hub, pack, clock);
    (reply, hub.into_store())
}

/// How a reply to a pack is told.
#[derive(Drop)]
enum Told {
    /// By a line.
    Line(
        /// The answer.
        Answer,
    ),
    /// By a line that takes no memory: reading failed.
    ReadFault,
    /// By the end of the run: the store failed.
    StoreFault,
    /// Not at all: there is no memory.
    Nothing,
}

fn told_of(reply: Reply) -> Told
    ensures { result ≡ told_of reply }
{
    match reply {
        Reply::Packed { kept, dropped } => Told::Line(Answer::Packed { kept, dropped }),
        Reply::Refused(Refusal::StoreFault) => Told::StoreFault,
        Reply::Refused(Refusal::ReadFault) => Told::ReadFault,
        Reply::Refused(Refusal::Memory) => Told::Nothing,
        Reply::Refused(why) => Told::Line(Answer::Refused(why)),
        _ => Told::Nothing,
    }
}

/// Writes lines and a last one, and answers the status.
pub(crate) fn tell<K: Sink>(sink: &mut K, lines: &[Text8], last: &[u8]) -> Status
    ensures told { IsToldAs result (K.taken sink.old) (K.taken sink.new) (K.faults sink.old) (K.faults sink.new) (joined (lines.now ++ last.now ∷ [])) }
    ensures counted { K.faults sink.old ≤ K.faults sink.new }
{
    match write_behind(sink, lines, last) {
        Ok(()) => Status::Done,
        Err(Failed) => Status::SinkFault,
    }
}

/// Writes a reply to a pack behind some lines.
fn write_reply<K: Sink>(alloc: Global, sink: &mut K, lines: &[Text8], reply: Reply) -> Status
    ensures says { ReplySays result (K.taken sink.old) (K.taken sink.new) (K.faults sink.old) (K.faults sink.new) reply lines.now }
    ensures counted { K.faults sink.old ≤ K.faults sink.new }
{
    match told_of(reply) {
        Told::Line(answer) => match answer_line(alloc, &answer) {
            Ok(line) => tell(sink, lines, line.as_slice()),
            Err(_) => Status::NoMemory,
        },
        Told::ReadFault => tell(sink, lines, b"refused ReadFault\n"),
        Told::StoreFault => say_behind(sink, lines, b"store fault\n", Status::StoreFault),
        Told::Nothing => Status::NoMemory,
    }
}

/// Packs the list of a store, writes the reply behind the line of a tail that was cut off, where one was,
/// and hands the store back.
fn pack_over<St: Store, K: Sink, C: Clock>(
    alloc: Global,
    store: St,
    cut: Option<u64>,
    pack: PackRequest,
    sink: &mut K,
    clock: &mut C,
) -> (Status, St)
    requires whole { (St.state store).broken ≡ false }
    requires free { (St.state store).voted ≡ None }
    ensures packs { PacksStore result.0 St.told St.lasts St.stands pack cut (K.taken sink.old) (K.taken sink.new) (K.faults sink.old) (K.faults sink.new)
        (St.state store) (St.state result.1) (C.stamps clock.old) (C.stamps clock.new) }
    ensures complete { ¬ Rose (St.state store).faults (St.state result.1).faults → ¬ Rose (K.faults sink.old) (K.faults sink.new) → IsUnlessMemory result.0 Status.Done }
    ensures counts { CountsOver result.0 (K.faults sink.old) (K.faults sink.new)
        (St.state store) (St.state result.1) }
{
    let Ok(lines) = cut_lines(alloc, cut) else {
        return (Status::NoMemory, store);
    };
    let (reply, store) = pack_store(alloc, store, pack, clock);
    let status = write_reply(alloc, sink, lines.as_slice(), reply);
    (status, store)
}

/// Opens the file in Main, which is made first where Main is empty, and packs its list.
pub(crate) fn pack_file<K: Sink, V: Volume + Drop, C: Clock>(
    alloc: Global,
    pack: PackRequest,
    sink: &mut K,
    volume: V,
    clock: &mut C,
) -> (Status, V)
    requires { V.told → HasHonestHint (V.state volume).log }
    ensures outcome { PackSays result.0 pack V.told
        (outside (K.taken sink.old) (K.faults sink.old) (C.stamps clock.old) (V.state volume))
        (outside (K.taken sink.new) (K.faults sink.new) (C.stamps clock.new) (V.state result.1)) }
    ensures complete { V.told → ¬ Rose (V.state volume).read_faults (V.state result.1).read_faults → ¬ Rose (V.state volume).write_faults (V.state result.1).write_faults → ¬ Rose (K.faults sink.old) (K.faults sink.new)
        → (list : List Transaction) (cut : Option ℕ) → StandsFor (seen (V.state volume).log Main) list cut → IsUnlessMemory result.0 Status.Done }
    ensures damaged { V.told → ¬ Rose (V.state volume).read_faults (V.state result.1).read_faults → ¬ Rose (V.state volume).write_faults (V.state result.1).write_faults
        → IsNoList (seen (V.state volume).log Main) → IsUnlessMemory result.0 Status.Damaged }
    ensures harmed { V.told → IsNoList (seen (V.state volume).log Main) → (V.state result.1).log ≡ (V.state volume).log }
    ensures hint { V.told → IsSettled (V.state volume).log Main → LeavesHonest (V.state result.1).log }
    ensures others { ¬ (result.0 ≡ Status.StoreFault) → (V.state result.1).write_faults ≡ (V.state volume).write_faults }
    ensures sink_counted { K.faults sink.old ≤ K.faults sink.new }
    ensures read_counted { (V.state volume).read_faults ≤ (V.state result.1).read_faults }
    ensures counted { (V.state volume).write_faults ≤ (V.state result.1).write_faults }
{
    match FileStore::create_or_open(alloc, volume, clock) {
        Ok((store, cut)) => {
            let (status, store) = pack_over(alloc, store, cut, pack, sink, clock);
            (status, store.into_volume())
        }
        Err((error, volume)) => (say_unopened(alloc, sink, error), volume),
    }
}
