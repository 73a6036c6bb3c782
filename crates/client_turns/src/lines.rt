//! Lines that a client asks by itself.

ghost use Rattle.std.specs.Prelude.{◌≡◌, ◌<◌, Some, is_some, length, slice_get, slice_set, true};
ghost use Rattle.zodb_core.specs.HubState.{rules_of};
ghost use Rattle.client_turns.specs.declared.member.Member.{Member};
ghost use Rattle.client_turns.specs.declared.member.Member.TheVariants.{Far};
ghost use Rattle.client_turns.specs.Asking.{asks_by};
ghost use Rattle.client_turns.specs.Clients.{Moment};
ghost use Rattle.client_turns.specs.Lines.{outcome_of_answer, outcome_of_result};
ghost use Rattle.client_turns.specs.Linked.{MayStand, TakesLinked, end_of_result};
ghost use Rattle.client_turns.specs.Members.{far, is_linked};
ghost use Rattle.client_turns.specs.OverQuestions.{ReadsLinked};
ghost use Rattle.client_turns.specs.Refusing.{IsFittingLine};
ghost use Rattle.client_turns.specs.Standing.{IsCutOf, IsGotOf, IsOpenLineOf, LeadsTo, LeavesHub, MayAskAt, MayBeThere, MayReadAt, MayReadFor, MayStandFor, OrCut, StandsForMoment, TakesMember, TakesMemberRead};

use crate::asking::{connection_line, get_of};
use crate::clients::Clients;
use crate::linked::LinkedClient;
use crate::linked_asking::{linked_asking, linked_get};
use crate::linking::linked_line;
use crate::member::{FarClient, Member};
use crate::requests::{end_of, is_of_connection};
use std::alloc::Global;
use zb_answers::Answer;
use zb_ids::{Oid, Text8, Tid};
use zb_model::{Refs, Refusal, Resolver, Store};
use zb_outside::Clock;
use zb_script::Line;
use zodb_core::Hub;

/// A line of a client with a link that it asks by itself.
fn link_line<St: Store, R: Resolver, F: Refs, C: Clock>(
    alloc: Global,
    hub: &mut Hub<St, R, F>,
    client: &mut LinkedClient,
    line: &Line,
    clock: &mut C,
) -> Answer
    requires fitting { IsFittingLine line.now }
    requires asked { asks_by true line.now ≡ true }
    ensures line { TakesLinked St.told (rules_of R.rules F.named hub.old) line.now result hub.old hub.new client.old
        client.new (C.stamps clock.old) (C.stamps clock.new) }
    ensures hub { LeavesHub (St.told × MayStand hub.old client.old) St.lasts St.stands (rules_of R.rules F.named hub.old)
        (Some (far client.old)) line.now (outcome_of_answer result) hub.old hub.new }
    ensures name { client.new.name ≡ client.old.name }
    ensures session { client.new.session ≡ client.old.session }
{
    if is_of_connection(line) {
        return linked_line(alloc, hub, client, line, clock);
    }
    linked_asking(alloc, hub, client, line, clock)
}

/// A line of a client with a link. Behind one that isn't answered, what is at its link isn't known any more.
fn far_line<St: Store, R: Resolver, F: Refs, C: Clock>(
    alloc: Global,
    hub: &mut Hub<St, R, F>,
    far: &mut FarClient,
    line: &Line,
    clock: &mut C,
) -> Answer
    requires fitting { IsFittingLine line.now }
    requires asked { asks_by true line.now ≡ true }
    ensures line { TakesMember St.told (rules_of R.rules F.named hub.old) line.now result hub.old hub.new (Far far.old)
        (Far far.new) (C.stamps clock.old) (C.stamps clock.new) }
    ensures hub { LeavesHub (St.told × MayBeThere hub.old (Far far.old)) St.lasts St.stands (rules_of R.rules F.named hub.old)
        (Some (Far far.old)) line.now (outcome_of_answer result) hub.old hub.new }
{
    if far.is_lost {
        return Answer::Refused(Refusal::Memory);
    }
    let answer = link_line(alloc, hub, &mut far.client, line, clock);
    far.is_lost = end_of(&answer).is_some();
    answer
}

/// A line of a client that it asks by itself.
fn member_line<St: Store, R: Resolver, F: Refs, C: Clock>(
    alloc: Global,
    hub: &mut Hub<St, R, F>,
    member: &mut Member,
    line: &Line,
    clock: &mut C,
) -> Answer
    requires fitting { IsFittingLine line.now }
    requires asked { asks_by (is_linked member.old) line.now ≡ true }
    ensures line { TakesMember St.told (rules_of R.rules F.named hub.old) line.now result hub.old hub.new member.old
        member.new (C.stamps clock.old) (C.stamps clock.new) }
    ensures hub { LeavesHub (St.told × MayBeThere hub.old member.old) St.lasts St.stands (rules_of R.rules F.named hub.old)
        (Some member.old) line.now (outcome_of_answer result) hub.old hub.new }
{
    match member {
        Member::Near(client) => connection_line(alloc, hub, client, line, clock),
        Member::Far(far) => far_line(alloc, hub, far, line, clock),
    }
}

/// A line of the client at a place that it asks by itself.
fn ask_at<St: Store, R: Resolver, F: Refs, C: Clock>(
    alloc: Global,
    hub: &mut Hub<St, R, F>,
    clients: &mut Vec<Member>,
    at: usize,
    line: &Line,
    clock: &mut C,
) -> Answer
    requires place { at < length clients.old.items }
    requires fitting { IsFittingLine line.now }
    requires asked { (x : Member) → slice_get clients.old.items at ≡ Some x → asks_by (is_linked x) line.now ≡ true }
    ensures line { (x : Member) → slice_get clients.old.items at ≡ Some x → (y : Member)
        × (clients.new.items ≡ slice_set clients.old.items at y)
        × TakesMember St.told (rules_of R.rules F.named hub.old) line.now result hub.old hub.new x y
        (C.stamps clock.old) (C.stamps clock.new) }
    ensures hub { (x : Member) → slice_get clients.old.items at ≡ Some x →
        LeavesHub (St.told × MayBeThere hub.old x) St.lasts St.stands (rules_of R.rules F.named hub.old)
        (Some x) line.now (outcome_of_answer result) hub.old hub.new }
    ensures kept { length clients.new.items ≡ length clients.old.items }
{
    member_line(alloc, hub, &mut clients[at], line, clock)
}

/// Whether the run ends with a read, so that what is at the link isn't known any more.
fn ends_run(read: &Result<(Tid, Text8), Refusal>) -> bool
    ensures { result ≡ is_some (end_of_result read.now) }
{
    match read {
        Err(Refusal::StoreFault | Refusal::Memory) => true,
        _ => false,
    }
}

/// What the transaction of a client with a link has of an object.
fn far_get<St: Store, R: Resolver, F: Refs, C: Clock>(
    alloc: Global,
    hub: &mut Hub<St, R, F>,
    far: &mut FarClient,
    oid: Oid,
    clock: &mut C,
) -> Result<(Tid, Text8), Refusal>
    ensures read { TakesMemberRead St.told oid result hub.old hub.new (Far far.old) (Far far.new)
        (C.stamps clock.old) (C.stamps clock.new) }
    ensures hub { ReadsLinked (St.told × MayBeThere hub.old (Far far.old)) St.lasts St.stands (outcome_of_result result)
        hub.old hub.new }
{
    if far.is_lost {
        return Err(Refusal::Memory);
    }
    let read = linked_get(alloc, hub, &mut far.client, oid, clock);
    far.is_lost = ends_run(&read);
    read
}

/// What the transaction of a client has of an object.
fn member_get<St: Store, R: Resolver, F: Refs, C: Clock>(
    alloc: Global,
    hub: &mut Hub<St, R, F>,
    member: &mut Member,
    oid: Oid,
    clock: &mut C,
) -> Result<(Tid, Text8), Refusal>
    ensures read { TakesMemberRead St.told oid result hub.old hub.new member.old member.new (C.stamps clock.old)
        (C.stamps clock.new) }
    ensures hub { ReadsLinked (St.told × MayBeThere hub.old member.old) St.lasts St.stands (outcome_of_result result)
        hub.old hub.new }
{
    match member {
        Member::Near(client) => get_of(alloc, hub, client, oid, clock),
        Member::Far(far) => far_get(alloc, hub, far, oid, clock),
    }
}

/// What the transaction of the client at a place has of an object.
fn get_at<St: Store, R: Resolver, F: Refs, C: Clock>(
    alloc: Global,
    hub: &mut Hub<St, R, F>,
    clients: &mut Vec<Member>,
    at: usize,
    oid: Oid,
    clock: &mut C,
) -> Result<(Tid, Text8), Refusal>
    requires place { at < length clients.old.items }
    ensures read { (x : Member) → slice_get clients.old.items at ≡ Some x → (y : Member)
        × (clients.new.items ≡ slice_set clients.old.items at y)
        × TakesMemberRead St.told oid result hub.old hub.new x y (C.stamps clock.old) (C.stamps clock.new) }
    ensures hub { (x : Member) → slice_get clients.old.items at ≡ Some x →
        ReadsLinked (St.told × MayBeThere hub.old x) St.lasts St.stands (outcome_of_result result) hub.old hub.new }
    ensures kept { length clients.new.items ≡ length clients.old.items }
{
    member_get(alloc, hub, &mut clients[at], oid, clock)
}

impl<St: Store, R: Resolver, F: Refs> Clients<St, R, F> {
    /// A line of the client at a place, whose session is open, that it asks by itself.
    pub(crate) fn ask<C: Clock>(
        &mut self,
        alloc: Global,
        at: usize,
        line: &Line,
        clock: &mut C,
    ) -> Answer
        requires place { at < length self.old.clients }
        requires fitting { IsFittingLine line.now }
        requires asked { (x : Member) → slice_get self.old.clients at ≡ Some x → asks_by (is_linked x) line.now ≡ true }
        ensures line { St.told → (m : Moment) → StandsForMoment self.old (C.stamps clock.old) m → MayAskAt m at →
            LeadsTo (OrCut (IsOpenLineOf (rules_of R.rules F.named self.old.hub) m at line.now)
            (IsCutOf (rules_of R.rules F.named self.old.hub) m at line.now) result) self.new (C.stamps clock.new) }
        ensures hub { LeavesHub (St.told × MayStandFor self.old (C.stamps clock.old)) St.lasts St.stands
            (rules_of R.rules F.named self.old.hub) (slice_get self.old.clients at) line.now (outcome_of_answer result)
            self.old.hub self.new.hub }
    {
        ask_at(alloc, &mut self.hub, &mut self.clients, at, line, clock)
    }

    /// What the transaction of the client at a place, whose session is open, has of an object: what waits for it, or
    /// else what a read answers.
    pub(crate) fn get<C: Clock>(
        &mut self,
        alloc: Global,
        at: usize,
        oid: Oid,
        clock: &mut C,
    ) -> Result<(Tid, Text8), Refusal>
        requires place { at < length self.old.clients }
        ensures read { St.told → (m : Moment) → StandsForMoment self.old (C.stamps clock.old) m → MayReadAt m at →
            LeadsTo (IsGotOf m at oid result) self.new (C.stamps clock.new) }
        ensures hub { ReadsLinked (St.told × MayReadFor self.old (C.stamps clock.old) at) St.lasts St.stands
            (outcome_of_result result) self.old.hub self.new.hub }
        ensures kept { length self.new.clients ≡ length self.old.clients }
    {
        get_at(alloc, &mut self.hub, &mut self.clients, at, oid, clock)
    }
}
