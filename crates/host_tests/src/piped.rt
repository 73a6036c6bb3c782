//! A client at one end of two pipes of the host, and its session at the other.

ghost use Rattle.std.specs.Prelude.{None};

use crate::links::serve_links;
use crate::served::{ALL, load_over};
use remote_loads::{Carrier, LinkCarrier, Remote};
use std::alloc::Global;
use std::io::{PipeReader, PipeWriter, pipe};
use std::test::Fail;
use std::thread;
use zb_links::{Doors, ThreadSpawner};
use zb_outside::{Failed, ReadSource, WriteSink};
use zeo_client::ZeoClient;

/// Doors for one link, which is there.
#[derive(Drop)]
struct PipedDoors {
    link: Option<(ReadSource<PipeReader>, WriteSink<PipeWriter>)>,
    faults: u64,
}

impl Doors for PipedDoors {
    type In = ReadSource<PipeReader>;

    type Out = WriteSink<PipeWriter>;

    ghost told = { λ _. None };

    ghost faults = { λ doors. doors.faults };

    fn bind(&mut self, _port: u16) -> Result<(), Failed> {
        Ok(())
    }

    fn accept(&mut self) -> Result<(ReadSource<PipeReader>, WriteSink<PipeWriter>), Failed> {
        match self.link.take() {
            Some(link) => Ok(link),
            None => {
                self.faults = self.faults.saturating_add(1);
                Err(Failed)
            }
        }
    }
}

/// What a client loads and draws over a carrier.
fn load_with<W: Carrier + Drop>(alloc: Global, carrier: W) -> Option<(u64, u64)> {
    let mut client = ZeoClient::new(alloc).ok()?;
    let mut remote = Remote::new(alloc, &mut client, carrier);
    load_over(&mut remote)
}

#[test]
fn a_client_loads_over_two_pipes(rt: HostRuntime) -> Result<(), Fail> {
    let alloc = rt.alloc();
    let (asked, asks) = pipe(&rt)?;
    let (heard, tells) = pipe(&rt)?;
    let mut doors = PipedDoors {
        link: Some((ReadSource::new(asked), WriteSink::new(tells))),
        faults: 0,
    };
    let mut spawner = ThreadSpawner::new();
    let carrier = LinkCarrier::new(ReadSource::new(heard), WriteSink::new(asks));
    let (served, loaded) = thread::join(
        &rt,
        || serve_links(&rt, alloc, &mut doors, &mut spawner, 0, 1),
        || load_with(alloc, carrier),
    );
    assert_eq!(rt; served?, ALL);
    assert_eq!(rt; loaded, Some((0x03f5_8e00_0000_0000, 1)));
    Ok(())
}
