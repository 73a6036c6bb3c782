//! The clients of a hub, as they are kept.

ghost use Rattle.std.specs.Prelude.{◌≡◌, ◌<◌, ◌∷◌, ◌++◌, [], IfSome, Some, bytes_eq, length, slice_get, vec_capacity};
ghost use Rattle.std.specs.List.{position};
ghost use Rattle.client_turns.specs.declared.member.Member.{Member};
ghost use Rattle.client_turns.specs.Members;
ghost use Rattle.client_turns.specs.Members.{connection_of, name_of, session_of};

use crate::client::Client;
use crate::linked::LinkedClient;
use connection_view::Connection;
use zb_script::Name;

/// A client with a link to its session.
#[derive(Drop)]
pub struct FarClient {
    /// The client.
    pub client: LinkedClient,
    /// Whether its session was closed, or a line of it wasn't answered, so that the run has ended: what is at its link isn't
    /// known any more.
    pub is_lost: bool,
}

/// A client that has opened a session.
#[derive(Drop)]
pub enum Member {
    /// A local one.
    Near(Client),
    /// One with a link to its session.
    Far(FarClient),
}

/// The name of a client.
fn name_of(member: &Member) -> &Name
    ensures { result.now ≡ name_of member.now }
{
    match member {
        Member::Near(client) => &client.name,
        Member::Far(far) => &far.client.name,
    }
}

/// The number of the session of a client.
fn session_of(member: &Member) -> u32
    ensures { result ≡ session_of member.now }
{
    match member {
        Member::Near(client) => client.session,
        Member::Far(far) => far.client.session,
    }
}

/// The connection of a client.
fn connection_of(member: &Member) -> &Connection
    ensures { result.now ≡ connection_of member.now }
{
    match member {
        Member::Near(client) => &client.connection,
        Member::Far(far) => &far.client.connection,
    }
}

/// Whether a client has a link to its session.
fn is_linked(member: &Member) -> bool
    ensures { result ≡ Members.is_linked member.now }
{
    match member {
        Member::Near(_) => false,
        Member::Far(_) => true,
    }
}

/// The number of the session of the client at a place.
pub(crate) fn session_at(clients: &[Member], at: usize) -> u32
    requires place { at < length clients.now }
    ensures session { (x : Member) → slice_get clients.now at ≡ Some x → result ≡ session_of x }
{
    session_of(&clients[at])
}

/// The connection of the client at a place.
pub(crate) fn connection_at(clients: &[Member], at: usize) -> &Connection
    requires place { at < length clients.now }
    ensures connection { (x : Member) → slice_get clients.now at ≡ Some x → result.now ≡ connection_of x }
{
    connection_of(&clients[at])
}

/// Whether the client at a place has a link to its session.
pub(crate) fn is_linked_at(clients: &[Member], at: usize) -> bool
    requires place { at < length clients.now }
    ensures linked { (x : Member) → slice_get clients.now at ≡ Some x → result ≡ Members.is_linked x }
{
    is_linked(&clients[at])
}

/// Whether what is at the link of a client, if it has one, isn't known any more.
fn is_lost(member: &Member) -> bool
    ensures { result ≡ Members.is_lost member.now }
{
    match member {
        Member::Near(_) => false,
        Member::Far(far) => far.is_lost,
    }
}

/// And so of the client at a place.
pub(crate) fn is_lost_at(clients: &[Member], at: usize) -> bool
    requires place { at < length clients.now }
    ensures lost { (x : Member) → slice_get clients.now at ≡ Some x → result ≡ Members.is_lost x }
{
    is_lost(&clients[at])
}

/// How many bytes a client's messages to its desk had, with the frames around them: none without a link.
pub(crate) fn bytes_sent(member: &Member) -> u64 {
    match member {
        Member::Near(_) => 0,
        Member::Far(far) => far.client.desk.bytes_taken(),
    }
}

/// Whether a client has this name.
fn has_name(member: &Member, name: &Name) -> bool
    ensures { result ≡ bytes_eq (name_of member.now) name.now }
{
    name_of(member).as_bytes() == name.as_bytes()
}

/// The place of the first client of this name.
pub(crate) fn place_of(clients: &[Member], name: &Name) -> Option<usize>
    ensures place { result ≡ position (λ x. bytes_eq (name_of x) name.now) clients.now }
    ensures bound { IfSome result (λ at. at < length clients.now) }
{
    clients.iter().position(|client| has_name(client, name))
}

/// Puts a client behind the others, for whom there is room.
pub(crate) fn push_client(clients: &mut Vec<Member>, client: Member)
    requires room { length clients.old.items < vec_capacity clients.old }
    ensures { clients.new.items ≡ clients.old.items ++ client ∷ [] }
{
    let _ = clients.push(client);
}
