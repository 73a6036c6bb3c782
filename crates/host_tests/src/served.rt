//! Links that a server at a port of this machine serves, all in one history.

use crate::links::serve_links;
use crate::messages::{ANSWERS, FINISH, NEW_OIDS, REGISTER, TOLD, VOTE};
use connection_view::{Loaded, Loads};
use remote_loads::{Carrier, LinkCarrier, Remote};
use std::alloc::Global;
use std::io::{Read, Write};
use std::net::{Ipv4Addr, Net, Shutdown, TcpListener, TcpStream};
use std::sync::Wait;
use std::test::Fail;
use std::thread;
use std::thread::Threads;
use zb_ids::Oid;
use zb_links::{Doors, TcpDoors, ThreadSpawner};
use zb_outside::{ReadSource, WriteSink};
use zeo_client::ZeoClient;
use zeo_serving_links::{Served, ServingEnd};

/// A port of this machine that is free.
fn free_port<N: Net<Listener = TcpListener, Stream = TcpStream> + Drop>(net: N) -> u16 {
    let mut doors = TcpDoors::new(net);
    if doors.bind(0).is_err() {
        return 0;
    }
    doors.port().unwrap_or(0)
}

/// Serves so many links at a port of this machine.
fn serve_at<N: Net<Listener = TcpListener, Stream = TcpStream> + Drop, R: Threads + Wait + Sync>(
    net: N,
    rt: &R,
    alloc: Global,
    port: u16,
    count: u32,
) -> Result<Served, Fail> {
    let mut doors = TcpDoors::new(net);
    let mut spawner = ThreadSpawner::new();
    serve_links(rt, alloc, &mut doors, &mut spawner, port, count)
}

/// A link to a server at a port of this machine, once it is there.
fn link_to<N: Net<Listener = TcpListener, Stream = TcpStream>>(
    net: &N,
    port: u16,
) -> Option<TcpStream> {
    for _ in 0..1_000_000u32 {
        if let Ok(stream) = TcpStream::connect(net, (Ipv4Addr::LOCALHOST, port)) {
            return Some(stream);
        }
        thread::yield_now();
    }
    None
}

/// A link at whose other end everything was answered.
pub(crate) const ALL: Served = Served {
    end: ServingEnd::All,
    faulty: 0,
};

/// What a client is answered that registers and asks for a number.
fn ask_at<N: Net<Listener = TcpListener, Stream = TcpStream>>(
    net: &N,
    port: u16,
) -> Option<[u8; 70]> {
    let mut told = [0; 70];
    let mut stream = link_to(net, port)?;
    stream.write_all(&REGISTER).ok()?;
    stream.write_all(&NEW_OIDS).ok()?;
    stream.shutdown(Shutdown::Write).ok()?;
    stream.read_exact(&mut told).ok()?;
    Some(told)
}

#[test]
fn one_link_is_served(rt: HostRuntime) -> Result<(), Fail> {
    let alloc = rt.alloc();
    let port = free_port(&rt);
    let (served, told) = thread::join(
        &rt,
        || serve_at(&rt, &rt, alloc, port, 1),
        || ask_at(&rt, port),
    );
    assert_eq!(rt; served?, ALL);
    assert!(rt; told.is_some_and(|told| told[..] == ANSWERS[..]));
    Ok(())
}

/// What a client is told that registers, while another one commits.
fn hear_at<N: Net<Listener = TcpListener, Stream = TcpStream>>(
    net: &N,
    port: u16,
) -> Option<[u8; 96]> {
    let mut told = [0; 96];
    let mut other = link_to(net, port)?;
    other.write_all(&REGISTER).ok()?;
    other.read_exact(&mut told[..34]).ok()?;
    let mut one = link_to(net, port)?;
    one.write_all(&REGISTER).ok()?;
    one.write_all(&VOTE).ok()?;
    one.write_all(&FINISH).ok()?;
    other.read_exact(&mut told[34..]).ok()?;
    Some(told)
}

#[test]
fn a_commit_is_told_to_the_other_link(rt: HostRuntime) -> Result<(), Fail> {
    let alloc = rt.alloc();
    let port = free_port(&rt);
    let (served, told) = thread::join(
        &rt,
        || serve_at(&rt, &rt, alloc, port, 2),
        || hear_at(&rt, port),
    );
    assert_eq!(rt; served?.end, ServingEnd::All);
    assert!(rt; told.is_some_and(|told| told[..] == TOLD[..]));
    Ok(())
}

/// The serial of what is loaded, 0 for nothing.
fn serial_of(loaded: &Loaded) -> u64 {
    match loaded {
        Loaded::Held { serial, .. } => serial.0,
        Loaded::Nothing { .. } => 0,
    }
}

/// The serial of the root as a client loads it behind its registration, and a number that it draws.
pub(crate) fn load_over<W: Carrier>(remote: &mut Remote<'_, W>) -> Option<(u64, u64)> {
    if remote.register().is_err() {
        return None;
    }
    let front = remote.client.known();
    let serial = match remote.load(Oid(0), front) {
        Ok(loaded) => serial_of(&loaded),
        Err(_) => return None,
    };
    match remote.new_oid() {
        Ok(oid) => Some((serial, oid.0)),
        Err(_) => None,
    }
}

/// The same over a link to a server at a port of this machine.
fn load_at<N: Net<Listener = TcpListener, Stream = TcpStream>>(
    net: &N,
    alloc: Global,
    port: u16,
) -> Option<(u64, u64)> {
    let stream = link_to(net, port)?;
    let other = stream.try_clone().ok()?;
    let carrier = LinkCarrier::new(ReadSource::new(stream), WriteSink::new(other));
    let mut client = ZeoClient::new(alloc).ok()?;
    let mut remote = Remote::new(alloc, &mut client, carrier);
    load_over(&mut remote)
}

#[test]
fn a_client_loads_over_a_link(rt: HostRuntime) -> Result<(), Fail> {
    let alloc = rt.alloc();
    let port = free_port(&rt);
    let (served, loaded) = thread::join(
        &rt,
        || serve_at(&rt, &rt, alloc, port, 1),
        || load_at(&rt, alloc, port),
    );
    assert_eq!(rt; served?.end, ServingEnd::All);
    assert_eq!(rt; loaded, Some((0x03f5_8e00_0000_0000, 1)));
    Ok(())
}
