//! Votes of many threads at a time.

ghost use Rattle.std.specs.Prelude.{◌≡◌, []};
ghost use Rattle.zodb_core.specs.HubState.{IsFitting, StandsForMachine, counts_of, rules_of};
ghost use Rattle.zodb_core.specs.Machine.{machine_over};

use crate::made::{new_hub, vote_on};
use hub_clock::OpenedClock;
use hub_shared::{HistoryEntry, Origin, Pass, Shared};
use std::alloc::{AllocError, Global};
use std::marker::Brand;
use std::sync::Wait;
use std::test::Fail;
use std::thread;
use std::thread::Threads;
use zb_ids::{Oid, Stamp, Tid};
use zb_model::{Refs, Resolver, Store};
use zb_outside::{Clock, ListClock};
use zodb_core::{Hub, Reply, Request};

/// How many threads vote, each for a session of its own.
const THREADS: usize = 8;

/// How many objects each of them commits, one at a time, by four calls each.
const ROUNDS: u64 = 250;

/// A thread's session, how many calls it made, and how many commits it was answered.
#[derive(Drop)]
struct Worker<J: Origin> {
    pass: Option<Pass<J>>,
    calls: u64,
    commits: u64,
}

/// What all threads did, and what the hub then has.
#[derive(Clone, Copy, Debug, PartialEq, Eq)]
struct Totals {
    /// How many calls were made.
    calls: u64,
    /// How many commits were answered.
    commits: u64,
    /// How many entries the history has.
    length: u64,
    /// How many entries the journal has.
    journal: u64,
}

/// Makes a call of a worker's session.
fn ask<St: Store + Drop, R: Resolver + Drop, F: Refs + Drop, C: Clock + Drop, J: Origin, W: Wait>(
    rt: &W,
    alloc: Global,
    shared: &Shared<St, R, F, C, J>,
    worker: &mut Worker<J>,
    request: Request,
)
    requires { IsFitting request }
{
    let Some(pass) = worker.pass.take() else {
        return;
    };
    let (pass, reply) = shared.call_waiting(rt, alloc, pass, request);
    worker.pass = Some(pass);
    worker.calls = worker.calls.saturating_add(1);
    if let Reply::Committed { tid: _ } = reply {
        worker.commits = worker.commits.saturating_add(1);
    }
}

/// Commits a worker's objects.
fn work<St: Store + Drop, R: Resolver + Drop, F: Refs + Drop, C: Clock + Drop, J: Origin, W: Wait>(
    rt: &W,
    alloc: Global,
    shared: &Shared<St, R, F, C, J>,
    worker: &mut Worker<J>,
    first: u64,
) {
    for round in 0..ROUNDS {
        let oid = Oid(first.wrapping_add(round));
        let Ok(vote) = vote_on(alloc, oid) else {
            return;
        };
        ask(rt, alloc, shared, worker, Request::Front);
        ask(rt, alloc, shared, worker, vote);
        ask(rt, alloc, shared, worker, Request::Finish);
        let front = Tid(u64::MAX - 1);
        ask(
            rt,
            alloc,
            shared,
            worker,
            Request::LoadBefore { oid, front },
        );
    }
}

/// Lets the workers commit in threads, and tells what came of it.
fn vote_from<
    St: Store + Drop + Send,
    R: Resolver + Drop + Send,
    F: Refs + Drop + Send,
    C: Clock + Drop + Send,
    J: Origin + Send + Sync,
    W: Threads + Wait + Sync,
>(
    rt: &W,
    alloc: Global,
    opened: OpenedClock<HistoryEntry>,
    hub: Hub<St, R, F>,
    clock: C,
) -> Result<Totals, AllocError>
    requires word { opened ≡ J.table }
    requires empty { hub.sessions ≡ [] }
    requires rules { rules_of R.rules F.named hub ≡ J.rules }
    requires counts { counts_of hub.store ≡ J.counts }
    requires log { hub.store.log ≡ J.log }
    requires broken { hub.store.broken ≡ J.broken }
    requires stands { St.told → StandsForMachine hub (machine_over J.list) }
{
    let (word, seat) = opened.into_named::<J>();
    let (shared, mut seen) = Shared::new(word, seat, hub, clock);
    let mut workers = Vec::new(alloc);
    for _ in 0..THREADS {
        let (now, entered) = shared.enter(rt, seen);
        seen = now;
        workers.push(Worker {
            pass: entered.ok(),
            calls: 0,
            commits: 0,
        })?;
    }
    let lent = &shared;
    thread::for_each_mut(
        rt,
        workers.as_mut_slice(),
        THREADS,
        &|place: usize, worker: &mut Worker<J>| {
            let first = (place as u64).wrapping_mul(ROUNDS).wrapping_add(1);
            work(rt, alloc, lent, worker, first)
        },
    );
    let mut totals = Totals {
        calls: 0,
        commits: 0,
        length: 0,
        journal: 0,
    };
    for worker in workers {
        totals.calls = totals.calls.saturating_add(worker.calls);
        totals.commits = totals.commits.saturating_add(worker.commits);
        if let Some(pass) = worker.pass {
            let (pass, length) = shared.watch(pass);
            totals.length = length;
            seen = shared.leave(rt, pass, seen);
        }
    }
    totals.journal = shared.into_hub(seen).0.entries();
    Ok(totals)
}

/// The same over a hub without sessions.
fn vote_all<
    St: Store + Drop + Send,
    R: Resolver + Drop + Send,
    F: Refs + Drop + Send,
    C: Clock + Drop + Send,
    W: Threads + Wait + Sync,
>(
    rt: &W,
    alloc: Global,
    opened: OpenedClock<HistoryEntry>,
    hub: Hub<St, R, F>,
    clock: C,
) -> Result<Totals, AllocError>
    requires empty { hub.sessions ≡ [] }
    requires stands { St.told → StandsForMachine hub (machine_over hub.store.list) }
{
    vote_from::<St, R, F, C, Brand, W>(rt, alloc, opened, hub, clock)
}

#[test]
fn eight_threads_commit(rt: HostRuntime) -> Result<(), Fail> {
    let stamp = Stamp::new(2026, 1, 2, 3, 4, 0)?;
    let hub = new_hub(rt.alloc(), stamp)?;
    let clock = ListClock::new(stamp, Vec::new(rt.alloc()));
    let opened = OpenedClock::new(rt.alloc())?;
    let totals = vote_all(&rt, rt.alloc(), opened, hub, clock)?;
    let want = Totals {
        calls: 8_000,
        commits: 2_000,
        length: 8_008,
        journal: 2_000,
    };
    assert_eq!(rt; totals, want);
    Ok(())
}
