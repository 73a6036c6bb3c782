//! Links that sessions serve.

ghost use Rattle.std.specs.Prelude.{◌≡◌, []};
ghost use Rattle.zodb_core.specs.HubState.{StandsForMachine, counts_of, rules_of};
ghost use Rattle.zodb_core.specs.Machine.{machine_over};

use crate::made::{new_hub, vote_on};
use crate::messages::{ANSWERS, NEW_OIDS, REGISTER, REGISTERED, VOTE, VOTED};
use hub_clock::OpenedClock;
use hub_shared::{HistoryEntry, Origin, Shared};
use std::alloc::Global;
use std::marker::Brand;
use std::sync::Wait;
use std::test::Fail;
use zb_ids::{Oid, Stamp};
use zb_model::{Refs, Resolver, Store};
use zb_outside::{Clock, ListClock, MemorySink, MemorySource};
use zeo_session::{SessionEnd, serve_session};
use zodb_core::{Hub, Reply};

/// A payload that is no message of a client, in its frame.
const BAD: [u8; 8] = [0, 0, 0, 4, 0x80, 0x03, 0x4e, 0x2e];

/// The head of a frame that is longer than the limit.
const LONG: [u8; 4] = [1, 0x80, 0, 1];

/// A link that a session serves.
struct LinkRow {
    /// What its client sends.
    messages: &'static [&'static [u8]],
    /// The number of the write that fails, 0 for none.
    failing_write: u64,
    /// Why the session is over.
    end: SessionEnd,
    /// What the client is answered.
    answers: &'static [u8],
}

/// Links that are served to their end, one with a vote, one with a vote whose answer isn't taken, and
/// two that a bad message and a long frame end. Behind each of them another session can vote.
const LINKS: &[LinkRow] = &[
    LinkRow {
        messages: &[&REGISTER, &NEW_OIDS],
        failing_write: 0,
        end: SessionEnd::Ended,
        answers: &ANSWERS,
    },
    LinkRow {
        messages: &[&REGISTER, &VOTE],
        failing_write: 0,
        end: SessionEnd::Ended,
        answers: &VOTED,
    },
    LinkRow {
        messages: &[&REGISTER, &VOTE, &NEW_OIDS],
        failing_write: 2,
        end: SessionEnd::LinkFault,
        answers: &REGISTERED,
    },
    LinkRow {
        messages: &[&REGISTER, &BAD, &NEW_OIDS],
        failing_write: 0,
        end: SessionEnd::BadMessage,
        answers: &REGISTERED,
    },
    LinkRow {
        messages: &[&REGISTER, &NEW_OIDS, &LONG],
        failing_write: 0,
        end: SessionEnd::FrameTooLong,
        answers: &ANSWERS,
    },
];

/// What a session came to that served a link of these messages, some of whose writes fail, and
/// whether another session could vote behind it.
#[derive(Drop)]
struct Served {
    end: SessionEnd,
    link_out: MemorySink,
    can_vote: bool,
}

/// Serves a link by the first of two sessions.
fn serve_from<
    St: Store + Drop,
    R: Resolver + Drop,
    F: Refs + Drop,
    C: Clock + Drop,
    J: Origin,
    W: Wait,
>(
    rt: &W,
    alloc: Global,
    opened: OpenedClock<HistoryEntry>,
    hub: Hub<St, R, F>,
    clock: C,
    mut link_in: MemorySource,
    mut link_out: MemorySink,
) -> Option<Served>
    requires word { opened ≡ J.table }
    requires empty { hub.sessions ≡ [] }
    requires rules { rules_of R.rules F.named hub ≡ J.rules }
    requires counts { counts_of hub.store ≡ J.counts }
    requires log { hub.store.log ≡ J.log }
    requires broken { hub.store.broken ≡ J.broken }
    requires stands { St.told → StandsForMachine hub (machine_over J.list) }
{
    let (word, seat) = opened.into_named::<J>();
    let (shared, seen) = Shared::new(word, seat, hub, clock);
    let (seen, first) = shared.enter(rt, seen);
    let (_seen, second) = shared.enter(rt, seen);
    let first = first.ok()?;
    let second = second.ok()?;
    let (_first, end) = serve_session(rt, alloc, &shared, first, &mut link_in, &mut link_out);
    let vote = vote_on(alloc, Oid(2)).ok()?;
    let (_second, reply) = shared.call(rt, alloc, second, vote);
    Some(Served {
        end,
        link_out,
        can_vote: matches!(reply, Reply::Voted),
    })
}

/// The same over a hub without sessions.
fn serve_all<St: Store + Drop, R: Resolver + Drop, F: Refs + Drop, C: Clock + Drop, W: Wait>(
    rt: &W,
    alloc: Global,
    opened: OpenedClock<HistoryEntry>,
    hub: Hub<St, R, F>,
    clock: C,
    link_in: MemorySource,
    link_out: MemorySink,
) -> Option<Served>
    requires empty { hub.sessions ≡ [] }
    requires stands { St.told → StandsForMachine hub (machine_over hub.store.list) }
{
    serve_from::<St, R, F, C, Brand, W>(rt, alloc, opened, hub, clock, link_in, link_out)
}

/// The same over a new database of 2024.
fn serve<W: Wait>(rt: &W, alloc: Global, row: &LinkRow) -> Result<Option<Served>, Fail> {
    let mut bytes = Vec::new(alloc);
    for message in row.messages {
        bytes.extend_from_slice(message)?;
    }
    let stamp = Stamp::new(2024, 1, 1, 0, 0, 0)?;
    let hub = new_hub(alloc, stamp)?;
    let clock = ListClock::new(stamp, Vec::new(alloc));
    let link_in = MemorySource::new(bytes, Vec::new(alloc));
    let link_out = MemorySink::new(alloc, vec![in alloc; row.failing_write]?);
    let opened = OpenedClock::new(alloc)?;
    Ok(serve_all(rt, alloc, opened, hub, clock, link_in, link_out))
}

#[test]
fn sessions_serve_links(rt: HostRuntime) -> Result<(), Fail> {
    for (number, row) in LINKS.iter().enumerate() {
        let Some(served) = serve(&rt, rt.alloc(), row)? else {
            return Err(Fail::new("there is no session"));
        };
        assert_eq!(rt; served.end, row.end, "row {number}");
        assert_eq!(rt; served.link_out.bytes(), row.answers, "row {number}");
        assert!(rt; served.can_vote, "row {number}");
    }
    Ok(())
}
