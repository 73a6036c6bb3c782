//! What a client sends over a link, and how a link ends.

use connection_view::{Connection, Loaded, Loads};
use remote_loads::{Carrier, LinkCarrier, Remote};
use std::test::Fail;
use zb_ids::{Oid, Tid};
use zb_outside::{MemorySink, MemorySource};
use zeo_client::{ClientError, ZeoClient};

/// A server tells a front: the second tid.
const FORGET: [u8; 35] =
    *b"\x00\x00\x00\x1f\x80\x03(K\x00K\x01X\x06\x00\x00\x00forgetC\x08\x00\x00\x00\x00\x00\x00\x00\x02\x85t.";

/// A server answers the first call with a revision that is the object's last one: the first tid, a byte, no
/// end, and the front below which it holds.
const LOADED: [u8; 50] =
    *b"\x00\x00\x00\x2e\x80\x03(K\x01K\x00X\x06\x00\x00\x00.reply(C\x01aC\x08\x00\x00\x00\x00\x00\x00\x00\x01NC\x08\x00\x00\x00\x00\x00\x00\x00\x02tt.";

/// The frame of a `loadBefore` of object 1 below front 2, the first call of a client: 45 bytes of payload.
const ASKED: [u8; 49] =
    *b"\x00\x00\x00\x2d\x80\x03(K\x01K\x00X\x0a\x00\x00\x00loadBeforeC\x08\x00\x00\x00\x00\x00\x00\x00\x01C\x08\x00\x00\x00\x00\x00\x00\x00\x02\x86t.";

/// Whether what is loaded is that revision.
fn is_it(loaded: &Loaded) -> bool {
    match loaded {
        Loaded::Held { serial, bytes } => serial.0 == 1 && bytes.as_slice() == b"a".as_slice(),
        Loaded::Nothing { .. } => false,
    }
}

/// Whether a load of object 1 gives that revision.
fn loads_it<W: Carrier>(remote: &mut Remote<'_, W>) -> bool {
    match remote.load(Oid(1), Tid(2)) {
        Ok(loaded) => is_it(&loaded),
        Err(_) => false,
    }
}

#[test]
fn cached_load_sends_nothing(rt: HostRuntime) -> Result<(), Fail> {
    let alloc = rt.alloc();
    let mut client = ZeoClient::new(alloc)?;
    assert!(rt; client.feed(&FORGET).is_ok());
    let source = MemorySource::new(LOADED.to_vec(alloc)?, Vec::new(alloc));
    let carrier = LinkCarrier::new(source, MemorySink::new(alloc, Vec::new(alloc)));
    let mut remote = Remote::new(alloc, &mut client, carrier);
    assert!(rt; loads_it(&mut remote));
    assert!(rt; loads_it(&mut remote));
    let Remote {
        alloc: _,
        client: _,
        carrier,
    } = remote;
    let (_, sink) = carrier.into_parts();
    assert!(rt; sink.bytes() == ASKED.as_slice());
    Ok(())
}

/// Whether a transaction begins that loads object 1 twice.
fn loads_twice<W: Carrier>(connection: &mut Connection, remote: &mut Remote<'_, W>) -> bool {
    connection.begin(remote).is_ok()
        && connection.load(remote, Oid(1)).is_ok()
        && connection.load(remote, Oid(1)).is_ok()
}

#[test]
fn next_transaction_sends_nothing(rt: HostRuntime) -> Result<(), Fail> {
    let alloc = rt.alloc();
    let mut client = ZeoClient::new(alloc)?;
    assert!(rt; client.feed(&FORGET).is_ok());
    let source = MemorySource::new(LOADED.to_vec(alloc)?, Vec::new(alloc));
    let carrier = LinkCarrier::new(source, MemorySink::new(alloc, Vec::new(alloc)));
    let mut remote = Remote::new(alloc, &mut client, carrier);
    let mut first = Connection::new(alloc)?;
    assert!(rt; loads_twice(&mut first, &mut remote));
    let mut next = Connection::new(alloc)?;
    assert!(rt; loads_twice(&mut next, &mut remote));
    let Remote {
        alloc: _,
        client: _,
        carrier,
    } = remote;
    let (_, sink) = carrier.into_parts();
    assert!(rt; sink.bytes() == ASKED.as_slice());
    Ok(())
}

/// The error of a piece that is carried, if there is one.
fn error_of<W: Carrier>(
    carrier: &mut W,
    alloc: std::alloc::Global,
    bytes: &[u8],
) -> Option<ClientError> {
    carrier.carry(alloc, bytes).err()
}

#[test]
fn link_ends_and_fails(rt: HostRuntime) -> Result<(), Fail> {
    let alloc = rt.alloc();
    let source = MemorySource::new(b"ab".to_vec(alloc)?, Vec::from_slice(alloc, &[3])?);
    let sink = MemorySink::new(alloc, Vec::from_slice(alloc, &[3])?);
    let mut carrier = LinkCarrier::new(source, sink);
    let Ok(given) = carrier.carry(alloc, b"x") else {
        return Err(Fail::new("nothing came"));
    };
    assert!(rt; given.as_slice() == b"ab".as_slice());
    assert_eq!(rt;
        error_of(&mut carrier, alloc, b"y"),
        Some(ClientError::Closed)
    );
    assert_eq!(rt;
        error_of(&mut carrier, alloc, b""),
        Some(ClientError::LinkFault)
    );
    assert_eq!(rt;
        error_of(&mut carrier, alloc, b"z"),
        Some(ClientError::LinkFault)
    );
    let (_, sink) = carrier.into_parts();
    assert!(rt; sink.bytes() == b"xy".as_slice());
    Ok(())
}
