//! The turns of a script that is made from a number, over a store, and the line that sums them up.

ghost use Rattle.std.specs.Prelude.{◌≡◌, ◌<◌, ◌≤◌, ◌++◌, [], None, false, IfErr, IfOk, IsErrOf, OnErr, OnOk, decimal};
ghost use Rattle.zb_base.specs.Counts.{Rose};
ghost use Rattle.zb_model.specs.Stores.{ReadKeepsRest};
ghost use Rattle.zb_volume.specs.declared.areas.Area.TheVariants.{Main, Side};
ghost use Rattle.zb_volume.specs.Moments.{Leaves, StaysAs};
ghost use Rattle.client_turns.specs.declared.errors.TurnError.TheVariants.{StoreFault};
ghost use Rattle.client_turns.specs.Clients.{Moment};
ghost use Rattle.client_turns.specs.Standing.{StandsForMoment};
ghost use Rattle.gen_script.specs.Script.{gen_lines};
ghost use Rattle.script_runs.specs.Came.{began};
ghost use Rattle.script_runs.specs.Made.{MadeSays, MadeSoFar, MadeUntil, SaysLast, WritesLast};
ghost use Rattle.script_runs.specs.Outcomes.{IsUnlessMemory};
ghost use Rattle.script_runs.specs.Summary.{numbers_line};

use crate::counting::{Totals, count_list};
use crate::replying::RunError;
use crate::running::say_stopped;
use crate::saying::{cut_lines, write_lines};
use crate::status::Status;
use crate::tally::{Tally, no_replies, tally_more};
use client_turns::{Clients, TurnError};
use gen_script::GenTurns;
use itoa::Buffer;
use std::alloc::{AllocError, Global};
use zb_ids::Text8;
use zb_model::{Store, StoreError};
use zb_outside::{Clock, Failed, Sink, write_all};
use zb_resolve::{StockRefs, StockResolver};

/// Lets a value go.
fn let_go<T: Drop>(_value: T) {}

/// Takes the turns of the script of so many rounds in their order, each when it is made, and counts
/// the replies.
fn take_made<St: Store, C: Clock>(
    alloc: Global,
    clients: &mut Clients<St, StockResolver, StockRefs>,
    rounds: u64,
    clock: &mut C,
) -> Result<Tally, TurnError>
    requires rounds { rounds ≤ 8000 }
    requires lasting { St.lasts → Leaves Main (λ bytes. St.stands bytes clients.old.hub.store.list) clients.old.hub.store.log }
    ensures ok { St.told → (m : Moment) → StandsForMoment clients.old (C.stamps clock.old) m → m.machine.failed ≡ false → IfOk result (λ tally.
        MadeSoFar St.lasts St.stands m (gen_lines rounds) [] tally clients.old.hub.store.log clients.new (C.stamps clock.new)) }
    ensures err { St.told → (m : Moment) → StandsForMoment clients.old (C.stamps clock.old) m → m.machine.failed ≡ false → IfErr result (λ why.
        MadeUntil St.lasts St.stands why m (gen_lines rounds) clients.old.hub.store.log clients.new (C.stamps clock.new)) }
    ensures whole { clients.old.hub.store.broken ≡ false → OnOk result (clients.new.hub.store.broken ≡ false) }
    ensures side { St.lasts → rounds < 100 → StaysAs Side clients.old.hub.store.log clients.new.hub.store.log }
    ensures store_failed { IsErrOf result StoreFault → Rose clients.old.hub.store.faults clients.new.hub.store.faults }
    ensures others { ¬ IsErrOf result StoreFault → clients.new.hub.store.faults ≡ clients.old.hub.store.faults }
    ensures read_counted { clients.old.hub.store.read_faults ≤ clients.new.hub.store.read_faults }
    ensures counted { clients.old.hub.store.faults ≤ clients.new.hub.store.faults }
{
    let Ok(mut turns) = GenTurns::new(alloc, rounds) else {
        return Err(TurnError::Memory);
    };
    let mut tally = no_replies();
    'taking: loop {
        let turn = match turns.next() {
            Ok(Some(turn)) => turn,
            Ok(None) => return Ok(tally),
            Err(AllocError) => return Err(TurnError::Memory),
        };
        let answer = clients.take_turn(alloc, &turn.turn, turn.is_last, clock);
        let_go(turn);
        match answer {
            Ok(answer) => {
                tally = tally_more(tally, &answer);
                let_go(answer);
            }
            Err(why) => return Err(why),
        }
    }
}

/// Puts a word and a number behind a text.
fn push_number(text: &mut Vec<u8>, word: &[u8], number: u64) -> Result<(), AllocError>
    ensures { OnOk result (text.new.items ≡ text.old.items ++ (word.now ++ decimal number)) }
{
    text.extend_from_slice(word)?;
    let mut buffer = Buffer::new();
    text.extend_from_slice(buffer.format(number).as_bytes())?;
    Ok(())
}

/// The line that sums a script up.
fn summary_text(
    alloc: Global,
    rounds: u64,
    tally: Tally,
    totals: Totals,
) -> Result<Text8, AllocError>
    ensures { IfOk result (λ text. text ≡ numbers_line rounds tally.committed tally.conflicts tally.refused totals.transactions totals.objects) }
{
    let mut text = Vec::new(alloc);
    push_number(&mut text, b"gen ", rounds)?;
    push_number(&mut text, b" committed ", tally.committed)?;
    push_number(&mut text, b" conflicts ", tally.conflicts)?;
    push_number(&mut text, b" refused ", tally.refused)?;
    push_number(&mut text, b" transactions ", totals.transactions)?;
    push_number(&mut text, b" objects ", totals.objects)?;
    text.push(b'\n')?;
    Ok(Text8::from_vec(text))
}

/// Writes the last line.
fn write_last<K: Sink>(sink: &mut K, text: &[u8]) -> Status
    ensures says { WritesLast result (K.taken sink.old) (K.taken sink.new) (K.faults sink.old) (K.faults sink.new) text.now }
    ensures counted { K.faults sink.old ≤ K.faults sink.new }
{
    match write_all(sink, text) {
        Ok(()) => Status::Done,
        Err(Failed) => Status::SinkFault,
    }
}

/// Sums up a script whose turns were all answered: the summary is written, or that the list
/// couldn't be read, for which no memory is needed. It only reads the store.
fn say_last<St: Store, K: Sink>(
    alloc: Global,
    store: &mut St,
    rounds: u64,
    tally: Tally,
    sink: &mut K,
) -> Status
    requires whole { (St.state store.old).broken ≡ false }
    ensures says { SaysLast result St.told rounds tally (St.state store.old) (St.state store.new) (K.taken sink.old) (K.taken sink.new) (K.faults sink.old) (K.faults sink.new) }
    ensures same { ReadKeepsRest (St.state store.old) (St.state store.new) }
    ensures later { (St.state store.old).read_faults ≤ (St.state store.new).read_faults }
    ensures counted { K.faults sink.old ≤ K.faults sink.new }
{
    match count_list(alloc, store) {
        Ok(totals) => {
            let Ok(text) = summary_text(alloc, rounds, tally, totals) else {
                return Status::NoMemory;
            };
            write_last(sink, text.as_slice())
        }
        Err(StoreError::ReadFault) => write_last(sink, b"refused ReadFault\n"),
        Err(StoreError::StoreFault) => unreachable!(),
        Err(StoreError::Memory) => Status::NoMemory,
    }
}

/// Runs the script that is made of so many rounds over any store, as `gen` does over that of a
/// file: writes the line of the tail that was cut off at the place `cut`, where one was, takes the
/// turns one at a time, as `run_over_store` takes those of a script, but without writing a reply,
/// and then writes one line: how many of the replies tell of a commit, are refused for a conflict
/// and are refused, and how many transactions the list has and how many objects it holds. The store
/// is handed back.
///
/// Where a read fails once all turns were answered, that is told in place of the summary. The
/// status is `Done` where all was written; `StoreFault` where the store failed in a turn, with a
/// line that says so; `SinkFault` or `NoMemory` where the run ended early for that.
#[tactic(auto, using(zb_model::specs::StayLaws::stays_same, crate::proofs::Sides::ran_over))]
pub fn gen_over_store<St: Store, K: Sink, C: Clock>(
    alloc: Global,
    store: St,
    cut: Option<u64>,
    rounds: u64,
    sink: &mut K,
    clock: &mut C,
) -> (Status, St)
    requires whole { (St.state store).broken ≡ false }
    requires free { (St.state store).voted ≡ None }
    requires rounds { rounds ≤ 8000 }
    ensures outcome { MadeSays result.0 St.told St.lasts St.stands
        (began (St.state store).list (C.stamps clock.old) (St.state store).read_faults (St.state store).faults) cut rounds
        (K.taken sink.old) (K.taken sink.new) (K.faults sink.old) (K.faults sink.new) (St.state store) (St.state result.1) (C.stamps clock.new) }
    ensures complete { ¬ Rose (St.state store).faults (St.state result.1).faults → ¬ Rose (K.faults sink.old) (K.faults sink.new) → IsUnlessMemory result.0 Status.Done }
    ensures others { ¬ (result.0 ≡ Status.StoreFault) → (St.state result.1).faults ≡ (St.state store).faults }
    ensures side { St.lasts → rounds < 100 → StaysAs Side (St.state store).log (St.state result.1).log }
    ensures sink_counted { K.faults sink.old ≤ K.faults sink.new }
    ensures read_counted { (St.state store).read_faults ≤ (St.state result.1).read_faults }
    ensures counted { (St.state store).faults ≤ (St.state result.1).faults }
{
    let Ok(lines) = cut_lines(alloc, cut) else {
        return (Status::NoMemory, store);
    };
    match write_lines(sink, lines.as_slice()) {
        Ok(()) => {}
        Err(Failed) => return (Status::SinkFault, store),
    }
    let mut clients = Clients::new(alloc, store, StockResolver, StockRefs);
    let taken = take_made(alloc, &mut clients, rounds, clock);
    let mut store = clients.into_store();
    match taken {
        Ok(tally) => {
            let status = say_last(alloc, &mut store, rounds, tally, sink);
            (status, store)
        }
        Err(why) => (say_stopped(sink, RunError::Turn(why)), store),
    }
}
