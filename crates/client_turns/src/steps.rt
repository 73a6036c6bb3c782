//! Lines that are one step of the hub.

ghost use Rattle.std.specs.Prelude.{◌≡◌, ◌<◌, Some, length, slice_get, slice_set, true};
ghost use Rattle.zodb_core.specs.HubState.{IsFitting, rules_of};
ghost use Rattle.zodb_core.specs.Outcomes.{is_pack};
ghost use Rattle.zodb_core.specs.declared.request.Request.TheVariants.{Close};
ghost use Rattle.client_turns.specs.declared.member.Member.{Member};
ghost use Rattle.client_turns.specs.Asking.{IsLeftBy, IsMemberLeft, IsPlain};
ghost use Rattle.client_turns.specs.Clients.{Moment};
ghost use Rattle.client_turns.specs.Lines.{outcome_of_answer};
ghost use Rattle.client_turns.specs.Members.{is_linked, without_link};
ghost use Rattle.client_turns.specs.Standing.{IsStepListOf, IsStepOf, KeepsHub, LeadsTo, StandsForMoment};

use crate::client::Client;
use crate::clients::Clients;
use crate::member::{FarClient, Member};
use crate::requests::answer_of;
use std::alloc::Global;
use zb_answers::Answer;
use zb_model::{Refs, Resolver, Store};
use zb_outside::Clock;
use zodb_core::{Reply, Request};

/// A local client whose session was closed has no transaction any more.
fn leave_near(client: &mut Client, reply: &Reply)
    ensures { IsLeftBy client.old client.new reply.now }
{
    if let Reply::Closed = reply {
        client.connection.clear();
    }
}

/// And one with a link, whose connection is closed with it: nothing is asked of it behind that.
fn leave_far(far: &mut FarClient, reply: &Reply)
    ensures name { far.new.client.name ≡ far.old.client.name }
    ensures session { far.new.client.session ≡ far.old.client.session }
    ensures lost { far.new.is_lost ≡ far.old.is_lost }
{
    if let Reply::Closed = reply {
        far.client.connection.close();
    }
}

/// And so either.
fn leave(member: &mut Member, reply: &Reply)
    ensures { IsMemberLeft member.old member.new reply.now }
{
    match member {
        Member::Near(client) => leave_near(client, reply),
        Member::Far(far) => leave_far(far, reply),
    }
}

/// And so the client at a place.
fn leave_at(clients: &mut Vec<Member>, at: usize, reply: &Reply)
    requires place { at < length clients.old.items }
    ensures left { (x : Member) → slice_get clients.old.items at ≡ Some x → (y : Member)
        × (clients.new.items ≡ slice_set clients.old.items at y) × IsMemberLeft x y reply.now }
    ensures kept { length clients.new.items ≡ length clients.old.items }
{
    leave(&mut clients[at], reply);
}

/// What is at the link of a client, if it has one, isn't known any more.
fn lose(member: &mut Member)
    ensures { member.new ≡ without_link member.old }
{
    match member {
        Member::Near(_) => {}
        Member::Far(far) => far.is_lost = true,
    }
}

/// And so of the client at a place.
pub(crate) fn lose_at(clients: &mut Vec<Member>, at: usize)
    requires place { at < length clients.old.items }
    ensures lost { (x : Member) → slice_get clients.old.items at ≡ Some x →
        clients.new.items ≡ slice_set clients.old.items at (without_link x) }
    ensures kept { length clients.new.items ≡ length clients.old.items }
{
    lose(&mut clients[at]);
}

impl<St: Store, R: Resolver, F: Refs> Clients<St, R, F> {
    /// A line of the client at a place that is one step, and asks nothing of its connection. With a link that is only the closing
    /// of its session, which takes no message.
    pub(crate) fn take_step<C: Clock>(
        &mut self,
        alloc: Global,
        at: usize,
        request: Request,
        clock: &mut C,
    ) -> Answer
        requires place { at < length self.old.clients }
        requires fitting { IsFitting request }
        requires plain { IsPlain request }
        requires closes { (x : Member) → slice_get self.old.clients at ≡ Some x → is_linked x ≡ true → request ≡ Close }
        ensures line { St.told → (m : Moment) → StandsForMoment self.old (C.stamps clock.old) m →
            LeadsTo (IsStepOf (rules_of R.rules F.named self.old.hub) m at request result)
            self.new (C.stamps clock.new) }
        ensures hub { KeepsHub St.told St.lasts St.stands (is_pack request)
            (IsStepListOf St.stands (rules_of R.rules F.named self.old.hub) (slice_get self.old.clients at) request)
            (outcome_of_answer result) self.old.hub self.new.hub }
        ensures kept { length self.new.clients ≡ length self.old.clients }
    {
        lose_at(&mut self.clients, at);
        let reply = self.step(alloc, at, request, clock);
        leave_at(&mut self.clients, at, &reply);
        answer_of(reply)
    }
}
