//! How many sessions a shared hub opens.

ghost use Rattle.std.specs.Prelude.{◌≡◌, []};
ghost use Rattle.zodb_core.specs.HubState.{StandsForMachine, counts_of, rules_of};
ghost use Rattle.zodb_core.specs.Machine.{machine_over};

use crate::made::new_hub;
use hub_clock::OpenedClock;
use hub_shared::{HistoryEntry, Origin, Shared};
use std::alloc::Global;
use std::marker::Brand;
use std::sync::Wait;
use std::test::Fail;
use zb_ids::Stamp;
use zb_model::{Refs, Resolver, Store};
use zb_outside::{Clock, ListClock};
use zodb_core::{Hub, SessionRefusal};

/// Opens sessions until none is opened, at most 100: how many had the number that comes next, and
/// why the one behind them wasn't.
fn open_from<
    St: Store + Drop,
    R: Resolver + Drop,
    F: Refs + Drop,
    C: Clock + Drop,
    J: Origin,
    W: Wait,
>(
    rt: &W,
    opened: OpenedClock<HistoryEntry>,
    hub: Hub<St, R, F>,
    clock: C,
) -> (u32, Option<SessionRefusal>)
    requires word { opened ≡ J.table }
    requires empty { hub.sessions ≡ [] }
    requires rules { rules_of R.rules F.named hub ≡ J.rules }
    requires counts { counts_of hub.store ≡ J.counts }
    requires log { hub.store.log ≡ J.log }
    requires broken { hub.store.broken ≡ J.broken }
    requires stands { St.told → StandsForMachine hub (machine_over J.list) }
{
    let (word, seat) = opened.into_named::<J>();
    let (shared, mut seen) = Shared::new(word, seat, hub, clock);
    for number in 0..100u32 {
        let (now, entered) = shared.enter(rt, seen);
        seen = now;
        match entered {
            Ok(pass) => {
                if pass.session() != number {
                    return (number, None);
                }
            }
            Err(refusal) => return (number, Some(refusal)),
        }
    }
    (100, None)
}

/// The same of a hub without sessions.
fn open_all<St: Store + Drop, R: Resolver + Drop, F: Refs + Drop, C: Clock + Drop, W: Wait>(
    rt: &W,
    opened: OpenedClock<HistoryEntry>,
    hub: Hub<St, R, F>,
    clock: C,
) -> (u32, Option<SessionRefusal>)
    requires empty { hub.sessions ≡ [] }
    requires stands { St.told → StandsForMachine hub (machine_over hub.store.list) }
{
    open_from::<St, R, F, C, Brand, W>(rt, opened, hub, clock)
}

#[test]
fn a_65th_session_is_refused(rt: HostRuntime) -> Result<(), Fail> {
    let stamp = Stamp::new(2026, 1, 2, 3, 4, 0)?;
    let hub = new_hub(rt.alloc(), stamp)?;
    let clock = ListClock::new(stamp, Vec::new(rt.alloc()));
    let opened = OpenedClock::new(rt.alloc())?;
    let all = open_all(&rt, opened, hub, clock);
    assert_eq!(rt;
        all,
        (64, Some(SessionRefusal::TooManySessions { count: 64 }))
    );
    Ok(())
}
