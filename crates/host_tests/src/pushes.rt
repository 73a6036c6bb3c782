//! The news of one session's commit is sent to the link of another.

ghost use Rattle.std.specs.Prelude.{◌≡◌, []};
ghost use Rattle.zodb_core.specs.HubState.{StandsForMachine, counts_of, rules_of};
ghost use Rattle.zodb_core.specs.Machine.{machine_over};

use crate::made::{new_hub, vote_on};
use hub_clock::OpenedClock;
use hub_shared::{Ear, HistoryEntry, Origin, Pass, Shared};
use std::alloc::Global;
use std::marker::Brand;
use std::sync::Wait;
use std::test::Fail;
use zb_ids::{Oid, Stamp};
use zb_model::{Refs, Resolver, Store};
use zb_outside::{Clock, Failed, ListClock, MemorySink, Sink};
use zeo_server::{PushEnd, push_news};
use zodb_core::{Hub, Request};

/// Takes what is written, and closes a session behind the first write.
#[derive(Drop)]
struct ClosesBehind<
    'a,
    St: Store + Drop,
    R: Resolver + Drop,
    F: Refs + Drop,
    C: Clock + Drop,
    J: Origin,
    W: Wait,
> {
    rt: &'a W,
    alloc: Global,
    shared: &'a Shared<St, R, F, C, J>,
    pass: Option<Pass<J>>,
    inner: MemorySink,
}

impl<
    'a,
    St: Store + Drop,
    R: Resolver + Drop,
    F: Refs + Drop,
    C: Clock + Drop,
    J: Origin,
    W: Wait,
> Sink for ClosesBehind<'a, St, R, F, C, J, W> {
    ghost use Rattle.std.specs.Prelude.{None};

    ghost taken = { λ _. None };

    ghost faults = { λ sink. sink.inner.faults };

    fn write(&mut self, bytes: &[u8]) -> Result<usize, Failed> {
        let count = self.inner.write(bytes);
        if let Some(pass) = self.pass.take() {
            let _ = self.shared.call(self.rt, self.alloc, pass, Request::Close);
        }
        count
    }
}

/// Commits an object for a session.
fn commit<
    St: Store + Drop,
    R: Resolver + Drop,
    F: Refs + Drop,
    C: Clock + Drop,
    J: Origin,
    W: Wait,
>(rt: &W, alloc: Global, shared: &Shared<St, R, F, C, J>, pass: Pass<J>, oid: Oid) {
    let Ok(vote) = vote_on(alloc, oid) else {
        return;
    };
    let (pass, _) = shared.call_waiting(rt, alloc, pass, vote);
    let _ = shared.call(rt, alloc, pass, Request::Finish);
}

/// Sends the news of an ear to a link, and closes the session of a pass behind the first write.
fn push_to_link<
    'a,
    St: Store + Drop,
    R: Resolver + Drop,
    F: Refs + Drop,
    C: Clock + Drop,
    J: Origin,
    W: Wait,
>(
    rt: &'a W,
    alloc: Global,
    shared: &'a Shared<St, R, F, C, J>,
    pass: Pass<J>,
    ear: Ear<J>,
) -> (MemorySink, PushEnd) {
    let mut link_out = ClosesBehind {
        rt,
        alloc,
        shared,
        pass: Some(pass),
        inner: MemorySink::new(alloc, Vec::new(alloc)),
    };
    let (_ear, end) = push_news(rt, alloc, shared, ear, &mut link_out);
    let ClosesBehind { inner, .. } = link_out;
    (inner, end)
}

/// What the link of the second session was sent of the first one's commit, and why no more.
fn push_from<
    St: Store + Drop,
    R: Resolver + Drop,
    F: Refs + Drop,
    C: Clock + Drop,
    J: Origin,
    W: Wait,
>(
    rt: &W,
    alloc: Global,
    opened: OpenedClock<HistoryEntry>,
    hub: Hub<St, R, F>,
    clock: C,
) -> Option<(MemorySink, PushEnd)>
    requires word { opened ≡ J.table }
    requires empty { hub.sessions ≡ [] }
    requires rules { rules_of R.rules F.named hub ≡ J.rules }
    requires counts { counts_of hub.store ≡ J.counts }
    requires log { hub.store.log ≡ J.log }
    requires broken { hub.store.broken ≡ J.broken }
    requires stands { St.told → StandsForMachine hub (machine_over J.list) }
{
    let (word, seat) = opened.into_named::<J>();
    let (shared, seen) = Shared::new(word, seat, hub, clock);
    let (seen, first) = shared.enter(rt, seen);
    let (_seen, second) = shared.enter(rt, seen);
    let first = first.ok()?;
    let second = second.ok()?;
    let (second, ear) = shared.listen(rt, second);
    commit(rt, alloc, &shared, first, Oid(1));
    let sent = push_to_link(rt, alloc, &shared, second, ear);
    Some(sent)
}

/// The same over a hub without sessions.
fn push_all<St: Store + Drop, R: Resolver + Drop, F: Refs + Drop, C: Clock + Drop, W: Wait>(
    rt: &W,
    alloc: Global,
    opened: OpenedClock<HistoryEntry>,
    hub: Hub<St, R, F>,
    clock: C,
) -> Option<(MemorySink, PushEnd)>
    requires empty { hub.sessions ≡ [] }
    requires stands { St.told → StandsForMachine hub (machine_over hub.store.list) }
{
    push_from::<St, R, F, C, Brand, W>(rt, alloc, opened, hub, clock)
}

#[test]
fn a_commit_is_sent_in_one_frame(rt: HostRuntime) -> Result<(), Fail> {
    let stamp = Stamp::new(2024, 1, 1, 0, 0, 0)?;
    let hub = new_hub(rt.alloc(), stamp)?;
    let clock = ListClock::new(stamp, Vec::new(rt.alloc()));
    let opened = OpenedClock::new(rt.alloc())?;
    let Some((link_out, end)) = push_all(&rt, rt.alloc(), opened, hub, clock) else {
        assert!(rt; false);
        return Ok(());
    };
    assert_eq!(rt; end, PushEnd::Over);
    let sent = link_out.bytes();
    assert_eq!(rt; sent.len(), 62);
    let (head, rest) = sent.split_at(16);
    assert_eq!(rt;
        head,
        [
            0, 0, 0, 0x3a, 0x80, 3, 0x28, 0x4b, 0, 0x4b, 1, 0x58, 0x15, 0, 0, 0
        ]
        .as_slice()
    );
    let (method, arguments) = rest.split_at(21);
    assert_eq!(rt; method, b"invalidateTransaction".as_slice());
    assert_eq!(rt;
        arguments,
        [
            0x43, 8, 3, 0xf5, 0x8e, 0, 0, 0, 0, 1, 0x5d, 0x43, 8, 0, 0, 0, 0, 0, 0, 0, 1, 0x61,
            0x86, 0x74, 0x2e,
        ]
        .as_slice()
    );
    Ok(())
}
