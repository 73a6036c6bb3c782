//! What is asked of the file, beside running a script: one session of a hub answers it.

ghost use Rattle.std.specs.Prelude.{◌≡◌, ◌∷◌, [], None, Some, false, true, map, IfOk, IsErrOf};
ghost use Rattle.zb_base.specs.Counts.{Rose};
ghost use Rattle.zb_answers.specs.Lists.{log_text, revision_text};
ghost use Rattle.zodb_core.specs.HubState.{IsFitting, StandsForMachine, counts_of};
ghost use Rattle.zodb_core.specs.Machine.{Machine, front_of};
ghost use Rattle.zodb_top.specs.Asked.{lines_of};
ghost use Rattle.zodb_top.specs.Asking.{AsksOnly, IsLast, IsStepped, LeavesStore, ask_refusal};
ghost use Rattle.zodb_top.specs.Asking.{digested_reply, is_check, only_reads, replied_lines, shown_reply};
ghost use Rattle.zodb_top.specs.Texts.{digest_line};

use crate::checking::check;
use program_words::Asked;
use sha2::{Digest, Sha256};
use std::alloc::{AllocError, Global};
use zb_answers::{log_line, revision_line, shown_line};
use zb_ids::{ListOf, Oid, Text8, Tid, hex, hex_pair};
use zb_model::{LogLine, Refusal, Revision, Store};
use zb_outside::Clock;
use zb_resolve::{StockRefs, StockResolver};
use zodb_core::{Hub, Reply, Request};

/// Why something asked isn't answered.
#[derive(Clone, Copy, Debug, PartialEq, Eq)]
pub(crate) enum AskError {
    /// There is no memory.
    Memory,
    /// Reading failed.
    ReadFault,
}

impl From<AllocError> for AskError {
    ghost use Rattle.std.specs.Prelude.{◌≡◌};
    ghost use Rattle.zodb_top.specs.declared.asking.AskError.TheVariants.{Memory};

    ghost from_gives = { λ _ error. error ≡ Memory };

    fn from(_error: AllocError) -> AskError {
        AskError::Memory
    }
}

/// How a refusal ends what was asked, where the reply is one.
fn refusal_in(reply: &Reply) -> Option<AskError>
    ensures { result ≡ ask_refusal reply.now }
{
    match reply {
        Reply::Refused(Refusal::ReadFault) => Some(AskError::ReadFault),
        Reply::Refused(_) => Some(AskError::Memory),
        _ => None,
    }
}

/// A step of a session that only reads.
pub(crate) fn ask<St: Store, C: Clock>(
    alloc: Global,
    hub: &mut Hub<St, StockResolver, StockRefs>,
    session: u32,
    request: Request,
    clock: &mut C,
) -> Result<Reply, AskError>
    requires reads { only_reads request ≡ true }
    requires fitting { IsFitting request }
    ensures reply { St.told → (m : Machine) → StandsForMachine hub.old m → IfOk result (λ r. IsStepped m session request r) }
    ensures asks { AsksOnly St.told hub.old hub.new
        (C.stamps clock.old) (C.stamps clock.new) result }
{
    let reply = hub.step(alloc, session, request, clock);
    match refusal_in(&reply) {
        Some(error) => Err(error),
        None => Ok(reply),
    }
}

fn log_lines(alloc: Global, list: &[LogLine]) -> Result<ListOf<Text8>, AllocError>
    ensures { IfOk result (λ lines. lines ≡ map log_text list.now) }
{
    let mut lines = ListOf::new(alloc);
    for line in list {
        lines.push(log_line(alloc, line)?)?;
    }
    Ok(lines)
}

fn revision_lines(alloc: Global, list: &[Revision]) -> Result<ListOf<Text8>, AllocError>
    ensures { IfOk result (λ lines. lines ≡ map revision_text list.now) }
{
    let mut lines = ListOf::new(alloc);
    for line in list {
        lines.push(revision_line(alloc, line)?)?;
    }
    Ok(lines)
}

/// One line.
pub(crate) fn only_line(alloc: Global, line: Text8) -> Result<ListOf<Text8>, AllocError>
    ensures { IfOk result (λ lines. lines ≡ line ∷ []) }
{
    let mut lines = ListOf::new(alloc);
    lines.push(line)?;
    Ok(lines)
}

/// The serial of a revision, and the digest of its record.
fn digest_text(alloc: Global, serial: Tid, bytes: &[u8]) -> Result<Text8, AllocError>
    ensures { IfOk result (λ text. text ≡ digest_line serial bytes.now) }
{
    let digest = Sha256::digest(bytes);
    let mut text = Vec::from_slice(alloc, &hex(serial.0))?;
    text.push(b' ')?;
    for byte in &digest {
        text.extend_from_slice(&hex_pair(*byte))?;
    }
    text.push(b'\n')?;
    Ok(Text8::from_vec(text))
}

/// What a load is answered, as `show` writes it.
fn show_line(alloc: Global, reply: &Reply) -> Result<Text8, AllocError>
    ensures { IfOk result (λ text. text ≡ shown_reply reply.now) }
{
    match reply {
        Reply::Loaded { serial, bytes, .. } => shown_line(alloc, *serial, bytes.as_slice()),
        _ => Text8::from_slice(alloc, b"missing\n"),
    }
}

/// What a load is answered, as `digest` writes it.
fn digested_line(alloc: Global, reply: &Reply) -> Result<Text8, AllocError>
    ensures { IfOk result (λ text. text ≡ digested_reply reply.now) }
{
    match reply {
        Reply::Loaded { serial, bytes, .. } => digest_text(alloc, *serial, bytes.as_slice()),
        _ => Text8::from_slice(alloc, b"missing\n"),
    }
}

/// The tid after the newest.
pub(crate) fn front<St: Store, C: Clock>(
    alloc: Global,
    hub: &mut Hub<St, StockResolver, StockRefs>,
    session: u32,
    clock: &mut C,
) -> Result<Tid, AskError>
    ensures front { St.told → (m : Machine) → StandsForMachine hub.old m → IfOk result (λ f. f ≡ front_of m.list) }
    ensures asks { AsksOnly St.told hub.old hub.new
        (C.stamps clock.old) (C.stamps clock.new) result }
{
    match ask(alloc, hub, session, Request::Front, clock)? {
        Reply::Front { front, .. } => Ok(front),
        _ => Err(AskError::Memory),
    }
}

/// The reply to a load of an object's last record.
fn load_last<St: Store, C: Clock>(
    alloc: Global,
    hub: &mut Hub<St, StockResolver, StockRefs>,
    session: u32,
    oid: Oid,
    clock: &mut C,
) -> Result<Reply, AskError>
    ensures last { St.told → (m : Machine) → StandsForMachine hub.old m → hub.old.store.broken ≡ false → IfOk result (IsLast oid m.list) }
    ensures asks { AsksOnly St.told hub.old hub.new
        (C.stamps clock.old) (C.stamps clock.new) result }
{
    let front = front(alloc, hub, session, clock)?;
    ask(
        alloc,
        hub,
        session,
        Request::LoadBefore { oid, front },
        clock,
    )
}

/// The lines that a reply gives to what is asked. The one error is want of memory.
fn lines_in(alloc: Global, asked: Asked, reply: &Reply) -> Result<ListOf<Text8>, AllocError>
    ensures { IfOk result (λ lines. replied_lines asked reply.now ≡ Some lines) }
{
    match asked {
        Asked::UndoLog => match reply {
            Reply::UndoLog { list } => log_lines(alloc, list.as_slice()),
            _ => Err(AllocError),
        },
        Asked::History { .. } => match reply {
            Reply::History { list } => revision_lines(alloc, list.as_slice()),
            _ => Err(AllocError),
        },
        Asked::Show { .. } => only_line(alloc, show_line(alloc, reply)?),
        Asked::Digest { .. } => only_line(alloc, digested_line(alloc, reply)?),
        Asked::Check { .. } => Err(AllocError),
    }
}

/// The reply of a session to what is asked, which is no check: that takes as many as the tree has objects.
fn reply_to<St: Store, C: Clock>(
    alloc: Global,
    hub: &mut Hub<St, StockResolver, StockRefs>,
    session: u32,
    asked: Asked,
    clock: &mut C,
) -> Result<Reply, AskError>
    requires one { is_check asked ≡ false }
    ensures reply { St.told → (m : Machine) → StandsForMachine hub.old m → hub.old.store.broken ≡ false
        → IfOk result (λ r. replied_lines asked r ≡ Some (lines_of asked m.list)) }
    ensures asks { AsksOnly St.told hub.old hub.new
        (C.stamps clock.old) (C.stamps clock.new) result }
{
    match asked {
        Asked::UndoLog => ask(alloc, hub, session, Request::UndoLog, clock),
        Asked::History { oid } => ask(alloc, hub, session, Request::History { oid }, clock),
        Asked::Show { oid } => load_last(alloc, hub, session, oid, clock),
        Asked::Digest { oid } => load_last(alloc, hub, session, oid, clock),
        Asked::Check { .. } => unreachable!(),
    }
}

/// The lines that answer what is asked, from a session, where one reply does.
fn replied_lines<St: Store, C: Clock>(
    alloc: Global,
    hub: &mut Hub<St, StockResolver, StockRefs>,
    session: u32,
    asked: Asked,
    clock: &mut C,
) -> Result<ListOf<Text8>, AskError>
    requires one { is_check asked ≡ false }
    ensures lines { St.told → (m : Machine) → StandsForMachine hub.old m → hub.old.store.broken ≡ false → IfOk result (λ lines. lines ≡ lines_of asked m.list) }
    ensures asks { AsksOnly St.told hub.old hub.new
        (C.stamps clock.old) (C.stamps clock.new) result }
{
    let reply = reply_to(alloc, hub, session, asked, clock)?;
    Ok(lines_in(alloc, asked, &reply)?)
}

/// The lines that answer what is asked, from a session.
fn session_lines<St: Store, C: Clock>(
    alloc: Global,
    hub: &mut Hub<St, StockResolver, StockRefs>,
    session: u32,
    asked: Asked,
    clock: &mut C,
) -> Result<ListOf<Text8>, AskError>
    ensures lines { St.told → (m : Machine) → StandsForMachine hub.old m → hub.old.store.broken ≡ false → IfOk result (λ lines. lines ≡ lines_of asked m.list) }
    ensures asks { AsksOnly St.told hub.old hub.new
        (C.stamps clock.old) (C.stamps clock.new) result }
{
    match asked {
        Asked::Check { oid } => check(alloc, hub, session, oid, clock),
        _ => replied_lines(alloc, hub, session, asked, clock),
    }
}

/// The lines that answer what is asked, from the first session of a hub.
fn hub_lines<St: Store, C: Clock>(
    alloc: Global,
    hub: &mut Hub<St, StockResolver, StockRefs>,
    asked: Asked,
    clock: &mut C,
) -> Result<ListOf<Text8>, AskError>
    ensures lines { St.told → (m : Machine) → StandsForMachine hub.old m → hub.old.store.broken ≡ false → IfOk result (λ lines. lines ≡ lines_of asked m.list) }
    ensures asks { AsksOnly St.told hub.old hub.new
        (C.stamps clock.old) (C.stamps clock.new) result }
{
    match hub.open_session() {
        Ok(session) => session_lines(alloc, hub, session, asked, clock),
        Err(_) => Err(AskError::Memory),
    }
}

/// The lines that answer what is asked, from a store, which is handed back.
pub(crate) fn store_lines<St: Store, C: Clock>(
    alloc: Global,
    store: St,
    asked: Asked,
    clock: &mut C,
) -> (Result<ListOf<Text8>, AskError>, St)
    requires whole { (St.state store).broken ≡ false }
    requires free { (St.state store).voted ≡ None }
    ensures lines { St.told → IfOk result.0 (λ lines. lines ≡ lines_of asked (St.state store).list) }
    ensures leaves { LeavesStore St.told St.lasts St.stands (St.state store) (St.state result.1)
        (C.stamps clock.old) (C.stamps clock.new) }
    ensures failed { IsErrOf result.0 AskError.ReadFault → Rose (St.state store).read_faults (St.state result.1).read_faults }
    ensures calm { ¬ IsErrOf result.0 AskError.ReadFault → counts_of (St.state result.1) ≡ counts_of (St.state store) }
{
    let mut hub = Hub::new(alloc, store, StockResolver, StockRefs);
    let lines = hub_lines(alloc, &mut hub, asked, clock);
    (lines, hub.into_store())
}
