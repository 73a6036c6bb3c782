//! Doors at a port of this machine, and doors in memory.

use std::alloc::{AllocError, Global};
use std::io::{Read, Write};
use std::net::{Ipv4Addr, Shutdown, TcpStream};
use std::test::Fail;
use zb_links::{Doors, MemoryDoors, TcpDoors};
use zb_outside::{Failed, MemorySink, MemorySource, Sink, read_all};

#[test]
fn tcp_doors_serve_a_link_to_this_machine(rt: HostRuntime) -> Result<(), Fail> {
    let mut doors = TcpDoors::new(&rt);
    assert!(rt; doors.accept().is_err());
    assert_eq!(rt; doors.bind(0), Ok(()));
    let port = doors.port().unwrap_or(0);
    let mut client = TcpStream::connect(&rt, (Ipv4Addr::LOCALHOST, port))?;
    let (mut source, mut sink) = doors.accept()?;
    client.write_all(b"asked")?;
    client.shutdown(Shutdown::Write)?;
    let asked = read_all(rt.alloc(), &mut source, 8)?;
    assert_eq!(rt; asked.as_slice(), b"asked".as_slice());
    assert_eq!(rt; sink.write(b"told"), Ok(4));
    let mut told = [0; 4];
    client.read_exact(&mut told)?;
    assert_eq!(rt; told, *b"told");
    assert_eq!(rt; doors.faults(), 1);
    assert_eq!(rt; doors.bind(port), Err(Failed));
    assert_eq!(rt; doors.faults(), 2);
    Ok(())
}

/// A link whose client sends these bytes.
fn link(alloc: Global, bytes: &[u8]) -> Result<(MemorySource, MemorySink), AllocError> {
    Ok((
        MemorySource::new(bytes.to_vec(alloc)?, Vec::new(alloc)),
        MemorySink::new(alloc, Vec::new(alloc)),
    ))
}

#[test]
fn memory_doors_give_links_in_order(rt: HostRuntime) -> Result<(), Fail> {
    let alloc = rt.alloc();
    let links = vec![in alloc; link(alloc, b"first")?, link(alloc, b"second")?]?;
    let mut doors = MemoryDoors::new(links, vec![in alloc; 3]?);
    assert_eq!(rt; doors.bind(7), Ok(()));
    let (source, _) = doors.accept()?;
    assert_eq!(rt; source.left(), b"first".as_slice());
    assert!(rt; doors.accept().is_err());
    let (source, _) = doors.accept()?;
    assert_eq!(rt; source.left(), b"second".as_slice());
    assert!(rt; doors.accept().is_err());
    assert_eq!(rt; doors.faults(), 2);
    Ok(())
}
