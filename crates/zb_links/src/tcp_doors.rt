//! Doors over the host's sockets.

ghost use Rattle.std.specs.Prelude.{◌≡◌, None};

use crate::doors::Doors;
use std::io;
use std::net::{Ipv4Addr, Net, TcpListener, TcpStream};
use zb_outside::{Failed, ReadSource, WriteSink};

/// Doors at a port of this machine, which programs on the machine alone can come to: they are bound
/// to 127.0.0.1. They tell nothing. A port that is taken, by these doors too, a call of `accept`
/// before the first `bind`, and each other error of the host is counted as a fault. At port 0 the
/// host picks a port.
#[derive(Drop)]
pub struct TcpDoors<R: Net<Listener = TcpListener, Stream = TcpStream> + Drop> {
    net: R,
    listener: Option<TcpListener>,
    faults: u64,
}

impl<R: Net<Listener = TcpListener, Stream = TcpStream> + Drop> TcpDoors<R> {
    /// Doors that aren't bound, by a runtime or a reference to one. No call failed yet.
    pub fn new(net: R) -> TcpDoors<R>
        ensures told { ⟦<TcpDoors<R> as Doors>⟧.told result ≡ None }
        ensures faults { ⟦<TcpDoors<R> as Doors>⟧.faults result ≡ 0 }
    {
        TcpDoors {
            net,
            listener: None,
            faults: 0,
        }
    }

    /// How many calls failed.
    pub fn faults(&self) -> u64
        ensures { result ≡ ⟦<TcpDoors<R> as Doors>⟧.faults self.now }
    {
        self.faults
    }

    /// The port at which the doors are open, if they are bound and the host tells it.
    pub fn port(&self) -> Option<u16> {
        Some(self.listener.as_ref()?.local_addr().ok()?.port())
    }
}

/// The next link at the listener. What is written to it goes out at once (`TCP_NODELAY`), where the
/// host can do that.
fn next_link(
    listener: Option<&TcpListener>,
) -> io::Result<(ReadSource<TcpStream>, WriteSink<TcpStream>)> {
    let Some(listener) = listener else {
        return Err(io::ErrorKind::NotConnected.into());
    };
    let (stream, _) = listener.accept()?;
    let _ = stream.set_nodelay(true);
    let other = stream.try_clone()?;
    Ok((ReadSource::new(stream), WriteSink::new(other)))
}

impl<R: Net<Listener = TcpListener, Stream = TcpStream> + Drop> Doors for TcpDoors<R> {
    type In = ReadSource<TcpStream>;

    type Out = WriteSink<TcpStream>;

    ghost told = { λ _. None };

    ghost faults = { λ doors. doors.faults };

    fn bind(&mut self, port: u16) -> Result<(), Failed> {
        match TcpListener::bind(&self.net, (Ipv4Addr::LOCALHOST, port)) {
            Ok(listener) => {
                self.listener = Some(listener);
                Ok(())
            }
            Err(_) => {
                self.faults = self.faults.saturating_add(1);
                Err(Failed)
            }
        }
    }

    fn accept(&mut self) -> Result<(ReadSource<TcpStream>, WriteSink<TcpStream>), Failed> {
        match next_link(self.listener.as_ref()) {
            Ok(link) => Ok(link),
            Err(_) => {
                self.faults = self.faults.saturating_add(1);
                Err(Failed)
            }
        }
    }
}
