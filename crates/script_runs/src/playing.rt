//! The lines of clients side by side, over a store.

ghost use Rattle.std.specs.Prelude.{◌≡◌, ◌≤◌, ◌++◌, IfOk, IfSome, OnOk, None, false, map, length};
ghost use Rattle.std.specs.List.{AllByRecursion};
ghost use Rattle.zb_base.specs.Counts.{Rose};
ghost use Rattle.zb_volume.specs.declared.areas.Area.TheVariants.{Main, Side};
ghost use Rattle.zb_volume.specs.Moments.{Leaves, StaysAs};
ghost use Rattle.zb_script.specs.Shape.{openers};
ghost use Rattle.client_turns.specs.Refusing.{IsFittingLine};
ghost use Rattle.side_by_side.specs.Orders.{lines_of_each};
ghost use Rattle.script_runs.specs.Came.{began};
ghost use Rattle.script_runs.specs.Played.{order_line, played_lines, replies_to};
ghost use Rattle.script_runs.specs.Outcomes.{IsUnlessMemory, has_pack};
ghost use Rattle.script_runs.specs.Running.{PlaySays, SaysEnded, WritesPlayed};
ghost use Rattle.script_runs.specs.Texts.{cut_lines, joined};

use crate::saying::{cut_lines, say_behind, write_both};
use crate::status::Status;
use client_turns::TurnError;
use itoa::Buffer;
use side_by_side::{ClientLines, Played, PlayedTurn, client_lines, play};
use std::alloc::{AllocError, Global};
use std::sync::Wait;
use std::thread::Threads;
use zb_answers::answer_lines;
use zb_ids::{ListOf, Text8};
use zb_model::Store;
use zb_outside::{Clock, Failed, Sink};
use zb_script::{Name, Turn};
use zeo_server::{Gate, Workers};

/// How many clients can be side by side. A script has no more.
const MOST_CLIENTS: usize = 64;

/// No gate: each turn is taken as soon as it can be.
#[derive(Drop)]
pub struct NoGate;

impl Gate for NoGate {
    fn before(&self, _client: u32, _turn: u64) {}
}

/// The line of the order in which turns were taken.
#[tactic(auto, using(crate::proofs::Lining::number_more, crate::proofs::Lining::numbers_all))]
fn order_text(alloc: Global, taken: &[PlayedTurn]) -> Result<Text8, AllocError>
    ensures { IfOk result (λ text. text ≡ order_line (map (λ p. p.number) taken.now)) }
{
    let mut text = Vec::from_slice(alloc, b"order")?;
    let mut buffer = Buffer::new();
    for turn in taken {
        text.push(b' ')?;
        text.extend_from_slice(buffer.format(turn.number).as_bytes())?;
    }
    text.push(b'\n')?;
    Ok(Text8::from_vec(text))
}

/// Puts lines behind others.
fn push_lines(lines: &mut ListOf<Text8>, more: ListOf<Text8>) -> Result<(), AllocError>
    ensures { OnOk result (lines.new ≡ lines.old ++ more) }
{
    for line in more.into_vec() {
        lines.push(line)?;
    }
    Ok(())
}

/// Puts the replies to a client behind other lines.
#[tactic(auto, using(crate::proofs::Lining::reply_more, crate::proofs::Lining::reply_passed, crate::proofs::Lining::replies_all))]
fn push_replies(
    lines: &mut ListOf<Text8>,
    alloc: Global,
    name: &Name,
    taken: &[PlayedTurn],
) -> Result<(), AllocError>
    ensures { OnOk result (lines.new ≡ lines.old ++ replies_to name.now taken.now) }
{
    for turn in taken {
        if turn.client.as_bytes() == name.as_bytes() {
            push_lines(lines, answer_lines(alloc, &turn.client, &turn.answer)?)?;
        }
    }
    Ok(())
}

/// The names of clients.
fn names_of(alloc: Global, clients: &[ClientLines]) -> Result<Vec<Name>, AllocError>
    ensures { IfOk result (λ names. names.items ≡ map (λ c. c.name) clients.now) }
{
    let mut names = Vec::new(alloc);
    for client in clients {
        names.push(client.name())?;
    }
    Ok(names)
}

/// All that is written of turns that were taken: the order, and then the replies to each client.
#[tactic(auto, using(crate::proofs::Lining::client_more, crate::proofs::Lining::clients_all))]
fn played_lines(
    alloc: Global,
    names: &[Name],
    taken: &[PlayedTurn],
) -> Result<ListOf<Text8>, AllocError>
    ensures { IfOk result (λ lines. lines ≡ played_lines names.now taken.now) }
{
    let mut lines = ListOf::new(alloc);
    lines.push(order_text(alloc, taken)?)?;
    for name in names {
        push_replies(&mut lines, alloc, name, taken)?;
    }
    Ok(lines)
}

/// Writes the lines of a tail that was cut off, and then those of the turns. Nothing is written where there is no
/// memory for them.
fn write_played<K: Sink>(
    alloc: Global,
    sink: &mut K,
    first: &[Text8],
    names: &[Name],
    taken: &[PlayedTurn],
) -> Status
    ensures said { WritesPlayed result (K.taken sink.old) (K.taken sink.new) (K.faults sink.old) (K.faults sink.new)
        (joined (first.now ++ played_lines names.now taken.now)) }
    ensures counted { K.faults sink.old ≤ K.faults sink.new }
{
    let Ok(lines) = played_lines(alloc, names, taken) else {
        return Status::NoMemory;
    };
    match write_both(sink, first, lines.as_slice()) {
        Ok(()) => Status::Done,
        Err(Failed) => Status::SinkFault,
    }
}

/// Writes what is to be written of clients that were taken to their end, behind these lines.
fn write_ended<K: Sink>(
    alloc: Global,
    sink: &mut K,
    first: &[Text8],
    names: &[Name],
    taken: &[PlayedTurn],
    ended: Option<TurnError>,
) -> Status
    ensures said { SaysEnded ended result (K.taken sink.old) (K.taken sink.new) (K.faults sink.old) (K.faults sink.new)
        first.now names.now taken.now }
    ensures counted { K.faults sink.old ≤ K.faults sink.new }
{
    match ended {
        None => write_played(alloc, sink, first, names, taken),
        Some(TurnError::StoreFault) => {
            say_behind(sink, first, b"store fault\n", Status::StoreFault)
        }
        Some(TurnError::Memory) => Status::NoMemory,
    }
}

/// The law that until a store fails each crash leaves its list as it is, where that lies on a disk.
fn lasting<St: Store>(store: &St)
    ensures lasting { St.lasts → (St.state store.now).broken ≡ false →
        Leaves Main (λ bytes. St.stands bytes (St.state store.now).list) (St.state store.now).log }
{}

/// What is made before the first turn is taken.
struct Prepared<'t> {
    /// The line of a tail that was cut off, where one was.
    first: ListOf<Text8>,
    /// The clients with their lines.
    clients: Vec<ClientLines<'t>>,
    /// Their names.
    names: Vec<Name>,
}

/// Makes what is needed before the first turn, unless there is no memory for it, or there are more clients than can
/// be side by side.
#[tactic(auto, using(crate::proofs::Lining::names_each))]
fn prepare<'t>(alloc: Global, cut: Option<u64>, turns: &'t [Turn]) -> Option<Prepared<'t>>
    requires fitting { AllByRecursion (λ t. IsFittingLine t.line) turns.now }
    ensures first { IfSome result (λ p. p.first ≡ cut_lines cut) }
    ensures clients { IfSome result (λ p. p.clients.items ≡ lines_of_each turns.now) }
    ensures names { IfSome result (λ p. p.names.items ≡ openers turns.now) }
    ensures few { IfSome result (λ p. length p.clients.items ≤ 64) }
{
    let Ok(first) = cut_lines(alloc, cut) else {
        return None;
    };
    let Ok(clients) = client_lines(alloc, turns) else {
        return None;
    };
    let Ok(names) = names_of(alloc, clients.as_slice()) else {
        return None;
    };
    if clients.len() > MOST_CLIENTS {
        return None;
    }
    Some(Prepared {
        first,
        clients,
        names,
    })
}

/// Takes the turns of a script over any store, as `play` does over that of a file: each client's lines in a
/// task of its own, with the workers' gate before each turn. Behind the last turn the order in which they were taken
/// is written, and the replies to each client, in the order of the clients; and ahead of that the line of the tail
/// that was cut off at the place `cut`, where one was. The store is handed back.
///
/// A vote and an undo wait while another session holds the vote. The status is `Done` where all turns were answered
/// and all was written; `StoreFault` where the store failed in a turn: then a line that says so is written in
/// place of the order and the replies; `NoMemory`, where nothing is written; or `SinkFault`.
#[tactic(auto, using(zb_model::specs::StayLaws::stays_same))]
pub fn play_over_store<
    G: Gate + Sync,
    St: Store + Send,
    K: Sink,
    C: Clock + Send,
    R: Threads + Wait + Sync,
>(
    rt: &R,
    alloc: Global,
    workers: &Workers<G>,
    store: St,
    cut: Option<u64>,
    turns: &[Turn],
    sink: &mut K,
    clock: &mut C,
) -> (Status, St)
    requires whole { (St.state store).broken ≡ false }
    requires free { (St.state store).voted ≡ None }
    requires fitting { AllByRecursion (λ t. IsFittingLine t.line) turns.now }
    ensures outcome { PlaySays result.0 St.told St.lasts St.stands
        (began (St.state store).list (C.stamps clock.old) (St.state store).read_faults (St.state store).faults) cut turns.now
        (K.taken sink.old) (K.taken sink.new) (K.faults sink.old) (K.faults sink.new) (St.state store) (St.state result.1) (C.stamps clock.new) }
    ensures complete { ¬ Rose (St.state store).faults (St.state result.1).faults → ¬ Rose (K.faults sink.old) (K.faults sink.new) → IsUnlessMemory result.0 Status.Done }
    ensures others { ¬ (result.0 ≡ Status.StoreFault) → (St.state result.1).faults ≡ (St.state store).faults }
    ensures side { St.lasts → has_pack turns.now ≡ false → StaysAs Side (St.state store).log (St.state result.1).log }
    ensures sink_counted { K.faults sink.old ≤ K.faults sink.new }
    ensures read_counted { (St.state store).read_faults ≤ (St.state result.1).read_faults }
    ensures counted { (St.state store).faults ≤ (St.state result.1).faults }
{
    lasting(&store);
    let Some(prepared) = prepare(alloc, cut, turns) else {
        return (Status::NoMemory, store);
    };
    let Prepared {
        first,
        clients,
        names,
    } = prepared;
    let Played {
        store,
        taken,
        ended,
    } = play(rt, alloc, workers, store, clients, clock);
    lasting(&store);
    let status = write_ended(
        alloc,
        sink,
        first.as_slice(),
        names.as_slice(),
        taken.as_slice(),
        ended,
    );
    (status, store)
}
