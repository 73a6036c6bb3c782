//! Links are served.

ghost use Rattle.std.specs.Prelude.{◌≡◌, [], ◌≤◌};
ghost use Rattle.zeo_serving_links.specs.Feeding.{end_of};
ghost use Rattle.zeo_serving_links.specs.Serving.{HasServedLinks, ServesIn, ServesLinks, outside_seen};
ghost use Rattle.zodb_core.specs.HubState.{StandsForMachine, counts_of, rules_of};
ghost use Rattle.zodb_core.specs.Machine.{machine_over};

use crate::ending::{Served, ServingEnd};
use crate::feeding::{LinkFeeder, LinkNews};
use crate::lent::LentClock;
use hub_clock::OpenedClock;
use hub_shared::{HistoryEntry, Origin, Seen, Shared};
use std::alloc::Global;
use std::collections::VecDeque;
use std::marker::Brand;
use std::sync::Wait;
use std::thread::Threads;
use zb_links::{Doors, Spawner};
use zb_model::{Refs, Resolver, Store};
use zb_outside::Clock;
use zodb_core::Hub;

/// Why no further link was accepted, by why the feeder gave none and whether each worker was started.
fn end_of(stop: Option<ServingEnd>, started: bool) -> ServingEnd
    ensures { result ≡ end_of stop started }
{
    let Some(end) = stop else {
        return ServingEnd::NoWorkers;
    };
    match end {
        ServingEnd::Memory => ServingEnd::Memory,
        ServingEnd::StepsSpent => ServingEnd::StepsSpent,
        ServingEnd::NoWorkers => ServingEnd::NoWorkers,
        ServingEnd::All => {
            if started {
                ServingEnd::All
            } else {
                ServingEnd::NoWorkers
            }
        }
        ServingEnd::NoLink => {
            if started {
                ServingEnd::NoLink
            } else {
                ServingEnd::NoWorkers
            }
        }
    }
}

/// Serves links over a hub that is shared, and hands back what was seen of the history.
fn run_links<
    'a,
    St: Store + Send + Drop,
    R: Resolver + Send + Drop,
    F: Refs + Send + Drop,
    C: Clock + Send + Drop,
    J: Origin + Send + Sync,
    D: Doors,
    P: Spawner,
    W: Threads + Wait + Sync,
>(
    rt: &'a W,
    alloc: Global,
    shared: &'a Shared<St, R, F, C, J>,
    seen: Seen<J>,
    doors: &mut D,
    spawner: &mut P,
    count: u32,
) -> (Seen<J>, Served)
    ensures served { HasServedLinks St.told J.rules J.list J.counts count result.0 result.1
        (outside_seen (D.told doors.old) (D.faults doors.old) (P.faults spawner.old))
        (outside_seen (D.told doors.new) (D.faults doors.new) (P.faults spawner.new)) }
    ensures doors_counted { D.faults doors.old ≤ D.faults doors.new }
    ensures spawner_counted { P.faults spawner.old ≤ P.faults spawner.new }
{
    let news: Option<LinkNews<'a, J, D::Out, W>> = None;
    let feeder = LinkFeeder {
        rt,
        alloc,
        shared,
        doors,
        count,
        seen: Some(seen),
        opened: 0,
        faulty: 0,
        stop: None,
        news,
        given: VecDeque::new(alloc),
    };
    let (feeder, ran) = spawner.run(rt, alloc, feeder);
    let LinkFeeder {
        rt: _,
        alloc: _,
        shared: _,
        doors: back,
        count: _,
        seen,
        opened: _,
        faulty,
        stop,
        news: rest,
        given,
    } = feeder;
    let _ = back;
    drop(rest);
    drop(given);
    let end = end_of(stop, ran.is_ok());
    let Some(seen) = seen else { unreachable!() };
    (seen, Served { end, faulty })
}

/// Serves links over a hub whose history begins as it is named.
fn serve_named<
    St: Store + Send + Drop,
    R: Resolver + Send + Drop,
    F: Refs + Send + Drop,
    C: Clock + Send + Drop,
    J: Origin + Send + Sync,
    D: Doors,
    P: Spawner,
    W: Threads + Wait + Sync,
>(
    rt: &W,
    alloc: Global,
    opened: OpenedClock<HistoryEntry>,
    hub: Hub<St, R, F>,
    clock: C,
    doors: &mut D,
    spawner: &mut P,
    count: u32,
) -> (Hub<St, R, F>, C, Served)
    requires word { opened ≡ J.table }
    requires empty { hub.sessions ≡ [] }
    requires rules { rules_of R.rules F.named hub ≡ J.rules }
    requires list { hub.store.list ≡ J.list }
    requires counts { counts_of hub.store ≡ J.counts }
    requires log { hub.store.log ≡ J.log }
    requires broken { hub.store.broken ≡ J.broken }
    requires stands { St.told → StandsForMachine hub (machine_over J.list) }
    ensures served { ServesIn St.lasts St.told St.stands J.rules count hub result.0 result.2
        (outside_seen (D.told doors.old) (D.faults doors.old) (P.faults spawner.old))
        (outside_seen (D.told doors.new) (D.faults doors.new) (P.faults spawner.new)) }
    ensures doors_counted { D.faults doors.old ≤ D.faults doors.new }
    ensures spawner_counted { P.faults spawner.old ≤ P.faults spawner.new }
{
    let (word, seat) = opened.into_named::<J>();
    let (shared, seen) = Shared::new(word, seat, hub, clock);
    let (seen, served) = run_links(rt, alloc, &shared, seen, doors, spawner, count);
    let (hub, clock) = shared.into_hub(seen);
    (hub, clock, served)
}

/// Serves links over a hub without sessions, for which it may wait: opens the doors at a port, accepts
/// as many links as are to be, and serves a session on each, side by side where the spawner has threads.
/// Each link has two workers: one makes the steps that the client's messages name and sends their
/// answers, the other sends the news of the session as it comes. The hub is handed back once all links
/// have ended.
///
/// No further link is accepted where the doors fail, a worker isn't started, the history is full, or
/// memory is wanting for a link; those before are served to their end. After a store fault every session
/// is closed, and the links are answered that they are. A link that ends, is cut or breaks the protocol
/// ends its own session alone, whose vote and pack are dropped.
pub fn serve<
    St: Store + Send + Drop,
    R: Resolver + Send + Drop,
    F: Refs + Send + Drop,
    C: Clock + Send,
    D: Doors,
    P: Spawner,
    W: Threads + Wait + Sync,
>(
    rt: &W,
    alloc: Global,
    hub: Hub<St, R, F>,
    clock: &mut C,
    doors: &mut D,
    spawner: &mut P,
    port: u16,
    count: u32,
) -> (Hub<St, R, F>, Served)
    requires empty { hub.sessions ≡ [] }
    requires stands { St.told → StandsForMachine hub (machine_over hub.store.list) }
    ensures served { ServesLinks St.lasts St.told St.stands (rules_of R.rules F.named hub)
        port count hub result.0 result.1
        (outside_seen (D.told doors.old) (D.faults doors.old) (P.faults spawner.old))
        (outside_seen (D.told doors.new) (D.faults doors.new) (P.faults spawner.new)) }
    ensures doors_counted { D.faults doors.old ≤ D.faults doors.new }
    ensures spawner_counted { P.faults spawner.old ≤ P.faults spawner.new }
{
    hub.lasting();
    if doors.bind(port).is_err() {
        let served = Served {
            end: ServingEnd::NoLink,
            faulty: 0,
        };
        return (hub, served);
    }
    let Ok(opened) = OpenedClock::new(alloc) else {
        let served = Served {
            end: ServingEnd::Memory,
            faulty: 0,
        };
        return (hub, served);
    };
    let clock = LentClock { clock };
    let (hub, _, served) = serve_named::<St, R, F, LentClock<'_, C>, Brand, D, P, W>(
        rt, alloc, opened, hub, clock, doors, spawner, count,
    );
    (hub, served)
}
