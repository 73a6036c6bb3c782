//! Links that are accepted and served, all in one history.

use crate::made::new_hub;
use crate::messages::REGISTER;
use std::alloc::{AllocError, Global};
use std::sync::Wait;
use std::test::Fail;
use std::thread::Threads;
use zb_ids::Stamp;
use zb_links::{CountedSpawner, Doors, MemoryDoors, Spawner};
use zb_outside::{ListClock, MemorySink, MemorySource};
use zeo_serving_links::{Served, ServingEnd, serve};

/// Links in memory that are served one after another.
struct ServingRow {
    /// How many links there are.
    links: usize,
    /// The numbers of the calls that fail, 0 for none: a read of the first link, a call of the doors,
    /// and a start of a worker.
    failing: [u64; 3],
    /// How many links are to be served.
    count: u32,
    /// What comes of it.
    served: Served,
}

const ROWS: &[ServingRow] = &[
    ServingRow {
        links: 2,
        failing: [2, 0, 0],
        count: 2,
        served: Served {
            end: ServingEnd::All,
            faulty: 1,
        },
    },
    ServingRow {
        links: 1,
        failing: [0, 0, 0],
        count: 2,
        served: Served {
            end: ServingEnd::NoLink,
            faulty: 0,
        },
    },
    ServingRow {
        links: 1,
        failing: [0, 1, 0],
        count: 1,
        served: Served {
            end: ServingEnd::NoLink,
            faulty: 0,
        },
    },
    ServingRow {
        links: 2,
        failing: [0, 0, 3],
        count: 2,
        served: Served {
            end: ServingEnd::NoWorkers,
            faulty: 0,
        },
    },
];

/// Serves links over a new database of 2024.
pub(crate) fn serve_links<D: Doors, P: Spawner, W: Threads + Wait + Sync>(
    rt: &W,
    alloc: Global,
    doors: &mut D,
    spawner: &mut P,
    port: u16,
    count: u32,
) -> Result<Served, Fail> {
    let stamp = Stamp::new(2024, 1, 1, 0, 0, 0)?;
    let hub = new_hub(alloc, stamp)?;
    let mut clock = ListClock::new(stamp, Vec::new(alloc));
    let (_hub, served) = serve(rt, alloc, hub, &mut clock, doors, spawner, port, count);
    Ok(served)
}

/// Links in memory, whose clients send `register`; the first one's reads fail as told.
fn memory_links(
    alloc: Global,
    count: usize,
    failing: u64,
) -> Result<Vec<(MemorySource, MemorySink)>, AllocError> {
    let mut links = Vec::new(alloc);
    for number in 0..count {
        let fails = if number == 0 { failing } else { 0 };
        let source = MemorySource::new(REGISTER.to_vec(alloc)?, vec![in alloc; fails]?);
        links.push((source, MemorySink::new(alloc, Vec::new(alloc))))?;
    }
    Ok(links)
}

#[test]
fn links_are_served_until_something_fails(rt: HostRuntime) -> Result<(), Fail> {
    let alloc = rt.alloc();
    for (number, row) in ROWS.iter().enumerate() {
        let [read, call, start] = row.failing;
        let links = memory_links(alloc, row.links, read)?;
        let mut doors = MemoryDoors::new(links, vec![in alloc; call]?);
        let mut spawner = CountedSpawner::new(vec![in alloc; start]?);
        let served = serve_links(&rt, alloc, &mut doors, &mut spawner, 7, row.count)?;
        assert_eq!(rt; served, row.served, "row {number}");
    }
    Ok(())
}
