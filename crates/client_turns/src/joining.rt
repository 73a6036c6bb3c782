//! How a client opens its session over a link.

ghost use Rattle.std.specs.Prelude.{◌≡◌, ◌<◌, Some, false, length, true, vec_capacity};
ghost use Rattle.zodb_core.specs.declared.vote.HubVote.{HubVote};
ghost use Rattle.zodb_core.specs.HubState.{rules_of};
ghost use Rattle.client_turns.specs.Clients.{Moment};
ghost use Rattle.client_turns.specs.Joining;
ghost use Rattle.client_turns.specs.Joining.{IsJoined, IsJoining};
ghost use Rattle.client_turns.specs.Lines.{outcome_of_answer};
ghost use Rattle.client_turns.specs.Standing.{KeepsHub, LeadsTo, MayStandFor, OrCut, OrStarved, StandsForMoment};
ghost use Rattle.client_turns.specs.Turns.{IsCutOpening, IsLinkOpening};

use crate::clients::Clients;
use crate::linked::LinkedClient;
use crate::member::{FarClient, Member, push_client};
use connection_view::Connection;
use hub_carrier::{HubCarrier, Trouble};
use remote_loads::Remote;
use std::alloc::Global;
use zb_answers::Answer;
use zb_ids::Tid;
use zb_model::{Refs, Refusal, Resolver, Store};
use zb_outside::Clock;
use zb_script::Name;
use zeo_client::ZeoClient;
use zeo_desk::Desk;
use zodb_core::{Hub, SessionRefusal};

/// What went wrong in the steps of a registering, or whether it was answered: it isn't for want of memory alone.
fn joined_as(registered: Result<Tid, Refusal>, trouble: Trouble) -> Result<(), Refusal>
    ensures { result ≡ Joining.joined_as registered trouble }
{
    match trouble {
        Trouble::StoreFault => Err(Refusal::StoreFault),
        Trouble::ReadFault => Err(Refusal::ReadFault),
        Trouble::NoFault => match registered {
            Ok(_) => Ok(()),
            Err(_) => Err(Refusal::Memory),
        },
    }
}

/// Registers a client at the desk of its session, and asks for the news.
fn register<St: Store, R: Resolver, F: Refs, C: Clock>(
    alloc: Global,
    hub: &mut Hub<St, R, F>,
    session: u32,
    desk: &mut Desk,
    client: &mut ZeoClient,
    clock: &mut C,
) -> Result<(), Refusal>
    ensures joined { IsJoined St.told St.lasts St.stands R.rules F.named session hub.old hub.new
        (C.stamps clock.old) (C.stamps clock.new) desk.old client.old desk.new client.new result }
{
    let carrier = HubCarrier::new(hub, session, desk, clock, false);
    let mut remote = Remote::new(alloc, client, carrier);
    let registered = remote.register();
    let trouble = &remote.carrier.trouble;
    joined_as(registered, *trouble)
}

/// Whether a session holds no vote, as far as can be seen: another one holds it, or none does.
fn holds_none<St: Store, R: Resolver, F: Refs>(hub: &Hub<St, R, F>, session: u32) -> bool
    ensures { result ≡ true → (v : HubVote) → hub.now.vote ≡ Some v → v.session ≡ session → ⊥ }
{
    hub.is_held(session) || !hub.is_held(session.wrapping_add(1))
}

/// What a client is answered for whom no session was opened.
fn unopened(why: SessionRefusal) -> Answer
    ensures { result ≡ Joining.unopened why }
{
    match why {
        SessionRefusal::TooManySessions { count } => {
            Answer::Refused(Refusal::TooManySessions { count })
        }
        SessionRefusal::StepsSpent | SessionRefusal::Memory => Answer::Refused(Refusal::Memory),
    }
}

/// A client joins the session that was just opened for it, behind the others, for whom there is room.
fn join<St: Store, R: Resolver, F: Refs, C: Clock>(
    alloc: Global,
    hub: &mut Hub<St, R, F>,
    clients: &mut Vec<Member>,
    client: LinkedClient,
    clock: &mut C,
) -> Answer
    requires room { length clients.old.items < vec_capacity clients.old }
    ensures joining { IsJoining St.told St.lasts St.stands R.rules F.named client
        (record { hub = hub.old; clients = clients.old.items }) (record { hub = hub.new; clients = clients.new.items })
        (C.stamps clock.old) (C.stamps clock.new) result }
{
    let LinkedClient {
        name,
        session,
        connection,
        client: mut zeo,
        mut desk,
    } = client;
    let joined = register(alloc, hub, session, &mut desk, &mut zeo, clock);
    match joined {
        Ok(()) => {
            let client = LinkedClient {
                name,
                session,
                connection,
                client: zeo,
                desk,
            };
            let far = FarClient {
                client,
                is_lost: false,
            };
            push_client(clients, Member::Far(far));
            Answer::Opened { session }
        }
        Err(why) => Answer::Refused(why),
    }
}

impl<St: Store, R: Resolver, F: Refs> Clients<St, R, F> {
    /// A client opens its session over a link, with the next number.
    pub(crate) fn open_far<C: Clock>(&mut self, alloc: Global, name: Name, clock: &mut C) -> Answer
        ensures opening { St.told → (m : Moment) → StandsForMoment self.old (C.stamps clock.old) m →
            LeadsTo (OrCut (OrStarved (IsLinkOpening (rules_of R.rules F.named self.old.hub) m name) m)
            (IsCutOpening (rules_of R.rules F.named self.old.hub) m) result) self.new (C.stamps clock.new) }
        ensures hub { KeepsHub (St.told × MayStandFor self.old (C.stamps clock.old)) St.lasts St.stands false
            (λ machine bytes. St.stands bytes machine.list) (outcome_of_answer result) self.old.hub self.new.hub }
    {
        let Ok(connection) = Connection::new(alloc) else {
            return Answer::Refused(Refusal::Memory);
        };
        let Ok(zeo) = ZeoClient::new(alloc) else {
            return Answer::Refused(Refusal::Memory);
        };
        if self.clients.reserve(1).is_err() {
            return Answer::Refused(Refusal::Memory);
        }
        match self.hub.open_session() {
            Ok(session) => {
                if !self.hub.is_open(session) {
                    return Answer::Refused(Refusal::Memory);
                }
                if !holds_none(&self.hub, session) {
                    return Answer::Refused(Refusal::Memory);
                }
                let client = LinkedClient {
                    name,
                    session,
                    connection,
                    client: zeo,
                    desk: Desk::new(alloc),
                };
                join(alloc, &mut self.hub, &mut self.clients, client, clock)
            }
            Err(why) => unopened(why),
        }
    }
}
