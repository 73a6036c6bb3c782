//! Two handles of one sink, in two threads.

ghost use Rattle.std.specs.Prelude.{◌≤◌, ◌<◌, length, IfOk};

use std::sync::{Mutex, Wait};
use std::test::Fail;
use std::thread;
use zb_links::SharedSink;
use zb_outside::{Failed, Sink};

/// Takes one byte a call, where others can see it, and fails at a `!`.
#[derive(Drop)]
struct TakesOne<'a, R: Wait> {
    rt: &'a R,
    taken: &'a Mutex<Vec<u8>>,
    faults: u64,
}

impl<'a, R: Wait> Sink for TakesOne<'a, R> {
    ghost use Rattle.std.specs.Prelude.{None};

    ghost taken = { λ _. None };

    ghost faults = { λ sink. sink.faults };

    fn write(&mut self, bytes: &[u8]) -> Result<usize, Failed> {
        let Some(first) = bytes.first() else {
            return Ok(0);
        };
        thread::yield_now();
        if *first == b'!' || self.taken.lock(self.rt).push(*first).is_err() {
            self.faults = self.faults.saturating_add(1);
            return Err(Failed);
        }
        Ok(1)
    }
}

/// Writes a piece many times, and says whether each was taken.
fn write_often<S: Sink>(sink: &mut S, piece: &[u8]) -> bool {
    let mut all = true;
    for _ in 0..200 {
        all = all && sink.write(piece).is_ok();
    }
    all
}

#[test]
fn pieces_of_two_threads_stay_whole(rt: HostRuntime) -> Result<(), Fail> {
    let taken = Mutex::new(Vec::new(rt.alloc()));
    let out = TakesOne {
        rt: &rt,
        taken: &taken,
        faults: 0,
    };
    let (mut one, mut other) = SharedSink::pair(&rt, rt.alloc(), out)?;
    let both = thread::join(
        &rt,
        || write_often(&mut one, b"abc"),
        || write_often(&mut other, b"xyz"),
    );
    assert_eq!(rt; both, (true, true));
    let pieces = taken.lock(&rt);
    assert_eq!(rt; pieces.len(), 1200);
    for piece in pieces.chunks(3) {
        assert!(rt; piece == b"abc".as_slice() || piece == b"xyz".as_slice());
    }
    Ok(())
}

#[test]
fn shared_sink_fails_from_the_first_failure_on(rt: HostRuntime) -> Result<(), Fail> {
    let taken = Mutex::new(Vec::new(rt.alloc()));
    let out = TakesOne {
        rt: &rt,
        taken: &taken,
        faults: 0,
    };
    let (mut one, mut other) = SharedSink::pair(&rt, rt.alloc(), out)?;
    assert_eq!(rt; one.write(b"ab"), Ok(2));
    assert_eq!(rt; other.write(b"c!d"), Err(Failed));
    assert_eq!(rt; one.write(b"ef"), Err(Failed));
    assert_eq!(rt; one.write(b"gh"), Err(Failed));
    assert_eq!(rt; (one.faults(), other.faults()), (2, 1));
    assert_eq!(rt; taken.lock(&rt).as_slice(), b"abc".as_slice());
    Ok(())
}
