//! A client with a link to its session, in the same program.

use connection_view::Connection;
use zb_script::Name;
use zeo_client::ZeoClient;
use zeo_desk::Desk;

/// A client that has opened a session over a link whose other end is in the same program.
#[derive(Drop)]
pub struct LinkedClient {
    /// Its name.
    pub name: Name,
    /// The number of its session.
    pub session: u32,
    /// Its connection, with its open transaction and the objects that it read last.
    pub connection: Connection,
    /// Its end of the link: what it was told, and its cache.
    pub client: ZeoClient,
    /// The desk of its session, at the other end.
    pub desk: Desk,
}
