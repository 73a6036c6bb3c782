//! Clients side by side over a list in memory: two of them whose first turns wait until the other's
//! was reached, and two writers of one object, each of whose answers is one that the order of their
//! turns allows.

use mapping_store::MappingStore;
use script_runs::{Status, play_over_store};
use std::alloc::Global;
use std::sync::Wait;
use std::sync::atomic::{AtomicU64, Ordering};
use std::test::Fail;
use std::thread::Threads;
use zb_ids::Stamp;
use zb_model::first_transaction;
use zb_outside::{Clock, ListClock, MemorySink};
use zeo_server::{Gate, Workers};
use zodb_top::turns_of;

/// Takes a script's turns over the list of a new database, and gives what is written.
fn play<G: Gate + Sync + Drop, R: Threads + Wait + Sync>(
    rt: &R,
    alloc: Global,
    gate: G,
    stamp: Stamp,
    script: &[u8],
) -> Result<(Status, MemorySink), Fail> {
    let mut sink = MemorySink::new(alloc, Vec::new(alloc));
    let mut clock = ListClock::new(stamp, Vec::new(alloc));
    let first = first_transaction(alloc, clock.stamp())?;
    let store = MappingStore::new(alloc, first)?;
    let Ok(turns) = turns_of(alloc, script, &mut sink) else {
        return Err(Fail::new("the script was not read"));
    };
    let workers = Workers::new(gate);
    let (status, _) = play_over_store(
        rt,
        alloc,
        &workers,
        store,
        None,
        turns.as_slice(),
        &mut sink,
        &mut clock,
    );
    Ok((status, sink))
}

/// How often a client looks whether the other one has come.
const TRIES: u64 = 100_000_000;

/// Holds the first turn of each of two clients until the other's first turn was reached.
#[derive(Drop)]
struct Meeting<'a> {
    reached: &'a AtomicU64,
    met: &'a AtomicU64,
}

impl<'a> Gate for Meeting<'a> {
    fn before(&self, _client: u32, turn: u64) {
        if turn > 0 {
            return;
        }
        self.reached.fetch_add(1, Ordering::SeqCst);
        for _ in 0..TRIES {
            if self.reached.load(Ordering::SeqCst) >= 2 {
                self.met.fetch_add(1, Ordering::SeqCst);
                return;
            }
        }
    }
}

const MEETING: &[u8] = b"a open local
b open local
a begin
b begin
a store 0000000000000001 0000000000000000 616263
b store 0000000000000002 0000000000000000 646566
a vote \"\" \"\"
b vote \"\" \"\"
a finish
b finish
";

#[test]
fn two_clients_run_at_the_same_time(rt: HostRuntime) -> Result<(), Fail> {
    let reached = AtomicU64::new(0);
    let met = AtomicU64::new(0);
    let gate = Meeting {
        reached: &reached,
        met: &met,
    };
    let stamp = Stamp::new(2026, 1, 2, 3, 4, 0)?;
    let (status, _) = play(&rt, rt.alloc(), gate, stamp, MEETING)?;
    assert_eq!(rt; status, Status::Done);
    assert_eq!(rt; met.load(Ordering::SeqCst), 2);
    Ok(())
}

/// Holds no turn.
#[derive(Drop)]
struct Open;

impl Gate for Open {
    fn before(&self, _client: u32, _turn: u64) {}
}

const WRITERS: &[u8] = b"a open local
b open local
a begin
b begin
a store 0000000000000001 0000000000000000 616263
a vote \"\" \"\"
a finish
b store 0000000000000001 0000000000000000 646566
b vote \"\" \"\"
b abort
b begin
b load 0000000000000001
";

/// Whether a text has this line.
fn has_line(text: &[u8], line: &[u8]) -> bool {
    text.split(|byte| *byte == b'\n').any(|it| it == line)
}

#[test]
fn two_writers_are_answered_as_their_order_says(rt: HostRuntime) -> Result<(), Fail> {
    let stamp = Stamp::new(2024, 1, 1, 0, 0, 0)?;
    let (status, sink) = play(&rt, rt.alloc(), Open, stamp, WRITERS)?;
    assert_eq!(rt; status, Status::Done);
    let text = sink.bytes();
    assert!(rt; has_line(text, b"a committed 03f58e0000000001"));
    let conflicts = has_line(
        text,
        b"b refused Conflict 0000000000000001 0000000000000000 03f58e0000000001 NoRule",
    );
    let votes_first = has_line(text, b"b voted") && has_line(text, b"b begun 03f58e0000000001");
    assert!(rt; conflicts || votes_first);
    assert!(rt; !(conflicts && has_line(text, b"b voted")));
    Ok(())
}
