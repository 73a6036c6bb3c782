//! A local client.

use connection_view::Connection;
use local_loads::Told;
use zb_script::Name;

/// A client that has opened a session of its own program.
#[derive(Drop)]
pub struct Client {
    /// Its name.
    pub name: Name,
    /// The number of its session.
    pub session: u32,
    /// What its last front told it, if it had one.
    pub told: Option<Told>,
    /// Its connection, with its open transaction and the objects that it read last.
    pub connection: Connection,
}
