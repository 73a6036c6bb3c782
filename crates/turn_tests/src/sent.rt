//! How many bytes a client sends over its link.

ghost use Rattle.std.specs.Prelude.{◌≡◌, None, false};
ghost use Rattle.client_turns.specs.Refusing.{IsFittingLine};

use client_turns::Clients;
use mapping_store::MappingStore;
use std::alloc::Global;
use std::test::Fail;
use zb_answers::Answer;
use zb_ids::{Oid, Stamp};
use zb_model::{NoRefs, NoRules, Refs, Resolver, Store, first_transaction};
use zb_outside::{Clock, ListClock};
use zb_script::{Line, Name, Turn};

/// How many bytes a client has sent for its turns. A count is `None` where the turn was refused.
#[derive(Clone, Copy)]
struct Sent {
    /// For the opening of its session.
    opened: Option<u64>,
    /// For the begin of its first transaction, and for two loads of the root in it.
    first: [Option<u64>; 3],
    /// For those of the next transaction.
    next: [Option<u64>; 3],
    /// For all of them.
    in_all: Option<u64>,
}

/// Lets a value go.
fn let_go<T: Drop>(_value: T) {}

/// Whether a turn is answered, and not with a refusal.
fn is_given<St: Store, R: Resolver, F: Refs, C: Clock>(
    alloc: Global,
    clients: &mut Clients<St, R, F>,
    clock: &mut C,
    turn: &Turn,
) -> bool
    requires { IsFittingLine turn.now.line }
{
    match clients.take_turn(alloc, turn, false, clock) {
        Ok(Answer::Refused(_)) => false,
        Ok(_) => true,
        Err(_) => false,
    }
}

/// Takes a turn, and gives how many bytes its client has sent for it, or `None` where it was refused.
fn sent_for<St: Store, R: Resolver, F: Refs, C: Clock>(
    alloc: Global,
    clients: &mut Clients<St, R, F>,
    clock: &mut C,
    client: Name,
    line: Line,
) -> Option<u64>
    requires { IsFittingLine line }
{
    let before = clients.bytes_sent(&client).unwrap_or(0);
    let turn = Turn { client, line };
    let given = is_given(alloc, clients, clock, &turn);
    let_go(turn);
    if !given {
        return None;
    }
    clients.bytes_sent(&client)?.checked_sub(before)
}

/// Begins a transaction and loads the root twice, and gives what was sent for each of the three turns.
fn begin_and_load<St: Store, R: Resolver, F: Refs, C: Clock>(
    alloc: Global,
    clients: &mut Clients<St, R, F>,
    clock: &mut C,
    client: Name,
) -> [Option<u64>; 3] {
    let root = Oid(0);
    [
        sent_for(alloc, clients, clock, client, Line::Begin),
        sent_for(alloc, clients, clock, client, Line::Load { oid: root }),
        sent_for(alloc, clients, clock, client, Line::Load { oid: root }),
    ]
}

/// Opens a client's session, over a link or without one, and goes through two transactions.
fn two_transactions<St: Store, R: Resolver, F: Refs, C: Clock>(
    alloc: Global,
    clients: &mut Clients<St, R, F>,
    clock: &mut C,
    client: Name,
    remote: bool,
) -> Sent {
    let opened = sent_for(alloc, clients, clock, client, Line::Open { remote });
    let first = begin_and_load(alloc, clients, clock, client);
    sent_for(alloc, clients, clock, client, Line::Abort);
    let next = begin_and_load(alloc, clients, clock, client);
    Sent {
        opened,
        first,
        next,
        in_all: clients.bytes_sent(&client),
    }
}

/// The same, for the one client of a hub over a store.
fn sent_over<St: Store + Drop, C: Clock>(
    alloc: Global,
    store: St,
    clock: &mut C,
    client: Name,
    remote: bool,
) -> Sent
    requires whole { (St.state store).broken ≡ false }
    requires free { (St.state store).voted ≡ None }
{
    let mut clients = Clients::new(alloc, store, NoRules, NoRefs);
    let sent = two_transactions(alloc, &mut clients, clock, client, remote);
    let_go(clients.into_store());
    sent
}

/// The date of the first transaction, and of a clock that stands still.
fn date() -> Result<Stamp, Fail> {
    Ok(Stamp::new(2024, 1, 1, 0, 0, 0)?)
}

/// The name of the client.
fn name() -> Result<Name, Fail> {
    match Name::new(b"a") {
        Some(name) => Ok(name),
        None => Err(Fail::new("no name")),
    }
}

/// The same, over a new database in memory.
fn sent_by(alloc: Global, remote: bool) -> Result<Sent, Fail> {
    let client = name()?;
    let mut clock = ListClock::new(date()?, Vec::new(alloc));
    let first = first_transaction(alloc, date()?)?;
    let store = MappingStore::new(alloc, first)?;
    Ok(sent_over(alloc, store, &mut clock, client, remote))
}

/// The count of a turn that was not refused.
fn given(count: Option<u64>) -> Result<u64, Fail> {
    match count {
        Some(bytes) => Ok(bytes),
        None => Err(Fail::new("a turn was refused")),
    }
}

/// The counts of three of them.
fn all_given(counts: [Option<u64>; 3]) -> Result<[u64; 3], Fail> {
    let [begun, first, second] = counts;
    Ok([given(begun)?, given(first)?, given(second)?])
}

#[test]
fn first_load_over_a_link_sends_49_bytes_and_the_next_none(rt: HostRuntime) -> Result<(), Fail> {
    let sent = sent_by(rt.alloc(), true)?;
    assert!(rt; given(sent.opened)? > 0);
    assert_eq!(rt; all_given(sent.first)?, [0, 49, 0]);
    assert_eq!(rt; all_given(sent.next)?, [0, 0, 0]);
    Ok(())
}

#[test]
fn client_without_a_link_sends_nothing(rt: HostRuntime) -> Result<(), Fail> {
    let sent = sent_by(rt.alloc(), false)?;
    assert_eq!(rt; all_given(sent.first)?, [0, 0, 0]);
    assert_eq!(rt; all_given(sent.next)?, [0, 0, 0]);
    assert_eq!(rt; given(sent.in_all)?, 0);
    Ok(())
}
