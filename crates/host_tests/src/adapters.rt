//! The adapters of the host's streams.

use crate::streams::{FailsOnce, Interrupted, TakesFew, read_four};
use std::fs;
use std::test::Fail;
use zb_ids::Stamp;
use zb_outside::{
    Clock, Failed, HostClock, ReadSource, Sink, Source, WriteSink, read_all, write_all,
};

#[test]
fn read_source_counts_errors(rt: HostRuntime) {
    let mut source = ReadSource::new(FailsOnce {
        bytes: b"ab",
        before: Some(1),
    });
    assert_eq!(rt; read_four(&mut source), (Ok(1), *b"a..."));
    assert_eq!(rt; source.faults(), 0);
    assert_eq!(rt; read_four(&mut source), (Err(Failed), *b"...."));
    assert_eq!(rt; source.faults(), 1);
    assert_eq!(rt; read_four(&mut source), (Ok(1), *b"b..."));
    assert_eq!(rt; read_four(&mut source), (Ok(0), *b"...."));
    assert_eq!(rt; source.faults(), 1);
}

#[test]
fn interrupted_calls_are_made_again(rt: HostRuntime) -> Result<(), Fail> {
    let mut reader = Interrupted::new(b"cba".to_vec(rt.alloc())?);
    let mut source = ReadSource::new(&mut reader);
    let all = read_all(rt.alloc(), &mut source, 3)?;
    assert_eq!(rt; all.as_slice(), b"abc".as_slice());
    assert_eq!(rt; source.faults(), 0);
    assert_eq!(rt; reader.interrupts, 4);
    let mut writer = Interrupted::new(Vec::new(rt.alloc()));
    let mut sink = WriteSink::new(&mut writer);
    assert_eq!(rt; write_all(&mut sink, b"abc"), Ok(()));
    assert_eq!(rt; sink.faults(), 0);
    assert_eq!(rt; writer.interrupts, 3);
    assert_eq!(rt; writer.bytes.as_slice(), b"abc".as_slice());
    Ok(())
}

#[test]
fn adapters_ask_the_host(rt: HostRuntime) -> Result<(), Fail> {
    let mut source = ReadSource::new(fs::open(&rt, "/dev/zero")?);
    assert_eq!(rt; read_four(&mut source), (Ok(4), [0; 4]));
    assert_eq!(rt; source.faults(), 0);
    let mut sink = WriteSink::new(fs::create(&rt, "/dev/null")?);
    assert_eq!(rt; sink.write(b"abc"), Ok(3));
    assert_eq!(rt; sink.faults(), 0);
    let mut clock = HostClock::new(&rt);
    let first = clock.stamp();
    assert!(rt; first > Stamp::new(2024, 1, 1, 0, 0, 0)?);
    assert!(rt; clock.stamp() >= first);
    Ok(())
}

#[test]
fn write_all_goes_on_after_a_short_write(rt: HostRuntime) -> Result<(), Fail> {
    let mut writer = TakesFew {
        bytes: Vec::new(rt.alloc()),
        most: 2,
    };
    let mut sink = WriteSink::new(&mut writer);
    assert_eq!(rt; write_all(&mut sink, b"abcde"), Ok(()));
    assert_eq!(rt; sink.faults(), 0);
    assert_eq!(rt; writer.bytes.as_slice(), b"abcde".as_slice());
    Ok(())
}

#[test]
fn write_that_takes_nothing_is_a_fault(rt: HostRuntime) {
    let mut sink = WriteSink::new(TakesFew {
        bytes: Vec::new(rt.alloc()),
        most: 0,
    });
    assert_eq!(rt; sink.write(b""), Ok(0));
    assert_eq!(rt; sink.faults(), 0);
    assert_eq!(rt; sink.write(b"a"), Err(Failed));
    assert_eq!(rt; write_all(&mut sink, b"a"), Err(Failed));
    assert_eq!(rt; sink.faults(), 2);
}

#[test]
fn read_all_puts_short_reads_together(rt: HostRuntime) -> Result<(), Fail> {
    let mut source = ReadSource::new(FailsOnce {
        bytes: b"abcdefgh",
        before: None,
    });
    assert_eq!(rt;
        read_all(rt.alloc(), &mut source, 8)?.as_slice(),
        b"abcdefgh".as_slice()
    );
    Ok(())
}
