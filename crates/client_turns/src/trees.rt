//! Lines of trees.

ghost use Rattle.std.specs.Prelude.{◌≡◌, ◌<◌, ◌≤◌, ℕ, List, [], All, IfOk, IfSome, Option, Some, None, true, is_some, length, slice_get, slice_set};
ghost use Rattle.zb_model.specs.Database.{IsRecord};
ghost use Rattle.zodb_core.specs.HubState.{rules_of};
ghost use Rattle.zodb_core.specs.Outcomes.{Answered};
ghost use Rattle.tree_attempts.specs.Calls.{HasRead, IsAttempt, IsWanted};
ghost use Rattle.tree_attempts.specs.declared.known.Seen.{Seen};
ghost use Rattle.tree_attempts.specs.Known.{Agrees, known_at};
ghost use Rattle.tree_attempts.specs.declared.operation.TreeOperation.{TreeOperation};
ghost use Rattle.connection_view.specs.declared.connection.Connection.{Connection as Open};
ghost use Rattle.connection_view.specs.Connections.{work_of};
ghost use Rattle.client_turns.specs.declared.member.Member.{Member};
ghost use Rattle.client_turns.specs.declared.member.Member.TheVariants.{Far};
ghost use Rattle.client_turns.specs.Members.{connection_of, is_linked};
ghost use Rattle.client_turns.specs.Asking.{IsCalm, IsFarPut, IsMemberPut, IsPutAll};
ghost use Rattle.client_turns.specs.Clients.{Moment};
ghost use Rattle.client_turns.specs.Gathering;
ghost use Rattle.client_turns.specs.Gathering.{AdvancesTo, Gathers, IsAskedOf, IsCallOf, IsDrawOf, IsFilled, IsSightOf, MayGather, MayGo, MayLearn, MayLearnAll, StandsGathering, TakesMemberDraw, gathered, objects_over, outcome_of_advance};
ghost use Rattle.client_turns.specs.Lines.{outcome_of_answer, outcome_of_result};
ghost use Rattle.client_turns.specs.Linked.{end_of_result};
ghost use Rattle.client_turns.specs.OverQuestions.{ReadsLinked};
ghost use Rattle.client_turns.specs.Standing.{IsOpenLineOf, IsOwnOf, LeadsTo, LeavesHub, MayAskAt, MayAskFor, MayBeThere, MayReadAt, MayReadFor, OrStarved, StandsForMoment};
ghost use Rattle.client_turns.specs.Trees.{NeedsMore, Sees, answer_told, operation_of, stores_put};

use crate::answers::answered;
use crate::client::Client;
use crate::clients::Clients;
use crate::linked_asking::linked_number;
use crate::member::{FarClient, Member, connection_at, is_linked_at, is_lost_at};
use connection_view::Connection;
use std::alloc::{AllocError, Global};
use std::marker::Brand;
use tree_attempts::{
    Attempt, Known, Made, NodeCache, Seen, TreeAnswer, TreeOperation, TreePut, call_tree,
    objects_ahead,
};
use zb_answers::Answer;
use zb_ids::{ListOf, Oid, Text8, Tid};
use zb_model::{Content, PendingStore, Refs, Refusal, Resolver, Store};
use zb_outside::Clock;
use zb_script::{Line, TreeCall};
use zodb_core::{Hub, Reply, Request};

/// The operation that a line asks for.
fn operation_of(call: &TreeCall) -> Result<TreeOperation, AllocError>
    ensures { IfOk result (λ operation. operation ≡ operation_of call.now) }
{
    match call {
        TreeCall::Set { key, value } => Ok(TreeOperation::Set {
            key: key.clone()?,
            value: Some(value.clone()?),
        }),
        TreeCall::Insert { key } => Ok(TreeOperation::Set {
            key: key.clone()?,
            value: None,
        }),
        TreeCall::Del { key } => Ok(TreeOperation::Remove { key: key.clone()? }),
        TreeCall::Find { key } => Ok(TreeOperation::Get { key: key.clone()? }),
        TreeCall::Items => Ok(TreeOperation::Items),
        TreeCall::Range { from, to } => Ok(TreeOperation::Range {
            from: from.clone()?,
            to: to.clone()?,
        }),
    }
}

/// What a line is answered.
fn answer_told(answer: TreeAnswer) -> Answer
    ensures told { result ≡ answer_told answer }
    ensures quiet { outcome_of_answer result ≡ Answered }
{
    match answer {
        TreeAnswer::Value(None) => Answer::Absent,
        TreeAnswer::Value(Some(value)) => Answer::Found { value },
        TreeAnswer::Set => Answer::Done,
        TreeAnswer::Removed { was: true } => Answer::Done,
        TreeAnswer::Removed { was: false } => Answer::Absent,
        TreeAnswer::Items { list, is_set } => Answer::Items { list, is_set },
    }
}

/// What a read gives of an object: nothing, where it is missing.
fn seen_read(read: Result<(Tid, Text8), Refusal>) -> Result<Option<Seen>, Refusal>
    ensures { result ≡ Gathering.seen_read read }
{
    match read {
        Ok((serial, bytes)) => Ok(Some(Seen { serial, bytes })),
        Err(Refusal::Missing { oid: _, packed: _ }) => Ok(None),
        Err(why) => Err(why),
    }
}

/// The number that a reply gives.
fn number_in(reply: Reply) -> Result<Oid, Refusal>
    ensures { result ≡ Gathering.number_in reply }
{
    match reply {
        Reply::Oids { first, count: _ } => Ok(first),
        Reply::Refused(why) => Err(why),
        _ => Err(Refusal::NotOpen),
    }
}

/// Whether an object is known to be missing.
fn is_missing(known: &Known, oid: Oid) -> bool
    ensures missing { result ≡ true → known_at known.now oid ≡ Some None }
    ensures all { known_at known.now oid ≡ Some None → result ≡ true }
{
    match known.find(oid) {
        Some(None) => true,
        _ => false,
    }
}

/// What a call on a tree puts, as it waits for the vote.
fn stores_put(alloc: Global, puts: ListOf<TreePut>) -> Result<ListOf<PendingStore>, AllocError>
    requires filled { All (λ p. 0 < length p.bytes) puts }
    ensures stores { IfOk result (λ stores. stores ≡ stores_put puts) }
    ensures records { IfOk result (λ stores. All (λ p. IsRecord p.content) stores) }
{
    let mut stores = ListOf::new(alloc);
    for put in puts.into_vec() {
        let TreePut { oid, base, bytes } = put;
        stores.push(PendingStore {
            oid,
            base,
            content: Content::Held(bytes),
        })?;
    }
    Ok(stores)
}

/// What a call on a tree puts waits for the vote, all of it or nothing.
fn put_all(client: &mut Client, answer: Answer, puts: ListOf<PendingStore>) -> Answer
    requires records { All (λ p. IsRecord p.content) puts }
    requires answered { outcome_of_answer answer ≡ Answered }
    ensures put { IsPutAll client.old client.new answer puts result }
    ensures calm { IsCalm (outcome_of_answer result) }
{
    if puts.is_empty() {
        return answer;
    }
    answered(client.connection.store_all(puts), answer)
}

/// And so of a client with a link.
fn put_far(far: &mut FarClient, answer: Answer, puts: ListOf<PendingStore>) -> Answer
    requires records { All (λ p. IsRecord p.content) puts }
    requires answered { outcome_of_answer answer ≡ Answered }
    ensures put { IsFarPut far.old.is_lost far.old far.new answer puts result }
    ensures calm { IsCalm (outcome_of_answer result) }
{
    if far.is_lost {
        return Answer::Refused(Refusal::Memory);
    }
    if puts.is_empty() {
        return answer;
    }
    answered(far.client.connection.store_all(puts), answer)
}

/// And so of either.
fn put_all_of(member: &mut Member, answer: Answer, puts: ListOf<PendingStore>) -> Answer
    requires records { All (λ p. IsRecord p.content) puts }
    requires answered { outcome_of_answer answer ≡ Answered }
    ensures put { IsMemberPut member.old member.new answer puts result }
    ensures calm { IsCalm (outcome_of_answer result) }
{
    match member {
        Member::Near(client) => put_all(client, answer, puts),
        Member::Far(far) => put_far(far, answer, puts),
    }
}

/// What a call on a tree puts waits for the vote of the client at a place.
fn put_all_at(
    clients: &mut Vec<Member>,
    at: usize,
    answer: Answer,
    puts: ListOf<PendingStore>,
) -> Answer
    requires place { at < length clients.old.items }
    requires records { All (λ p. IsRecord p.content) puts }
    requires answered { outcome_of_answer answer ≡ Answered }
    ensures put { (x : Member) → slice_get clients.old.items at ≡ Some x → (y : Member)
        × (clients.new.items ≡ slice_set clients.old.items at y) × IsMemberPut x y answer puts result }
    ensures calm { IsCalm (outcome_of_answer result) }
    ensures kept { length clients.new.items ≡ length clients.old.items }
{
    put_all_of(&mut clients[at], answer, puts)
}

/// Attempts a call over what is known, and over what else the transaction has.
#[tactic(auto, using(crate::proofs::Gathering::over_agrees))]
fn attempt<St: Store, R: Resolver, F: Refs>(
    alloc: Global,
    hub: &Hub<St, R, F>,
    connection: &Connection,
    known: &Known,
    cache: &mut NodeCache,
    numbers: &[Oid],
    root: Oid,
    operation: &TreeOperation,
) -> Result<Attempt, AllocError>
    ensures attempt { IfOk result (IsAttempt (objects_over known.now hub.now.store.list (work_of connection.now))
        root operation.now numbers.now) }
    ensures wants { IfOk result (IsWanted known.now) }
    ensures reads { IfOk result (HasRead known.now (objects_over known.now hub.now.store.list (work_of connection.now))
        root operation.now numbers.now) }
{
    call_tree::<Brand, Hub<St, R, F>, Connection>(
        alloc, hub, connection, known, cache, numbers, root, operation,
    )
}

/// Whether the run ends with a draw, so that what is at the link isn't known any more.
fn ends_run(number: &Result<Oid, Refusal>) -> bool
    ensures { result ≡ is_some (end_of_result number.now) }
{
    match number {
        Err(Refusal::StoreFault | Refusal::Memory) => true,
        _ => false,
    }
}

/// A number for a new object, which the session of a client with a link draws.
fn draw_far<St: Store, R: Resolver, F: Refs, C: Clock>(
    alloc: Global,
    hub: &mut Hub<St, R, F>,
    far: &mut FarClient,
    clock: &mut C,
) -> Result<Oid, Refusal>
    ensures draw { TakesMemberDraw St.told result hub.old hub.new (Far far.old) (Far far.new) (C.stamps clock.old)
        (C.stamps clock.new) }
    ensures hub { ReadsLinked (St.told × MayBeThere hub.old (Far far.old)) St.lasts St.stands (outcome_of_result result)
        hub.old hub.new }
{
    if far.is_lost {
        return Err(Refusal::Memory);
    }
    let number = linked_number(alloc, hub, &mut far.client, clock);
    far.is_lost = ends_run(&number);
    number
}

/// And so that of a client that has one.
fn draw_of<St: Store, R: Resolver, F: Refs, C: Clock>(
    alloc: Global,
    hub: &mut Hub<St, R, F>,
    member: &mut Member,
    clock: &mut C,
) -> Result<Oid, Refusal>
    requires linked { is_linked member.old ≡ true }
    ensures draw { TakesMemberDraw St.told result hub.old hub.new member.old member.new (C.stamps clock.old)
        (C.stamps clock.new) }
    ensures hub { ReadsLinked (St.told × MayBeThere hub.old member.old) St.lasts St.stands (outcome_of_result result)
        hub.old hub.new }
{
    match member {
        Member::Near(_) => unreachable!(),
        Member::Far(far) => draw_far(alloc, hub, far, clock),
    }
}

/// And so that of the client at a place.
fn draw_at<St: Store, R: Resolver, F: Refs, C: Clock>(
    alloc: Global,
    hub: &mut Hub<St, R, F>,
    clients: &mut Vec<Member>,
    at: usize,
    clock: &mut C,
) -> Result<Oid, Refusal>
    requires place { at < length clients.old.items }
    requires linked { (x : Member) → slice_get clients.old.items at ≡ Some x → is_linked x ≡ true }
    ensures draw { (x : Member) → slice_get clients.old.items at ≡ Some x → (y : Member)
        × (clients.new.items ≡ slice_set clients.old.items at y)
        × TakesMemberDraw St.told result hub.old hub.new x y (C.stamps clock.old) (C.stamps clock.new) }
    ensures hub { (x : Member) → slice_get clients.old.items at ≡ Some x →
        ReadsLinked (St.told × MayBeThere hub.old x) St.lasts St.stands (outcome_of_result result) hub.old hub.new }
    ensures kept { length clients.new.items ≡ length clients.old.items }
{
    draw_of(alloc, hub, &mut clients[at], clock)
}

impl<St: Store, R: Resolver, F: Refs> Clients<St, R, F> {
    /// What the transaction of the client at a place has of an object.
    fn see<C: Clock>(
        &mut self,
        alloc: Global,
        at: usize,
        oid: Oid,
        clock: &mut C,
    ) -> Result<Option<Seen>, Refusal>
        requires place { at < length self.old.clients }
        ensures sight { St.told → (m : Moment) → StandsForMoment self.old (C.stamps clock.old) m →
            MayReadAt m at → LeadsTo (IsSightOf m at oid result) self.new (C.stamps clock.new) }
        ensures hub { ReadsLinked (St.told × MayReadFor self.old (C.stamps clock.old) at) St.lasts
            St.stands (outcome_of_result result) self.old.hub self.new.hub }
        ensures kept { length self.new.clients ≡ length self.old.clients }
    {
        seen_read(self.get(alloc, at, oid, clock))
    }

    /// A number for a new object, which the session of the client at a place draws.
    fn draw<C: Clock>(&mut self, alloc: Global, at: usize, clock: &mut C) -> Result<Oid, Refusal>
        requires place { at < length self.old.clients }
        ensures draw { St.told → (m : Moment) → StandsForMoment self.old (C.stamps clock.old) m → MayReadAt m at →
            LeadsTo (IsDrawOf m at result) self.new (C.stamps clock.new) }
        ensures hub { ReadsLinked (St.told × MayReadFor self.old (C.stamps clock.old) at) St.lasts
            St.stands (outcome_of_result result) self.old.hub self.new.hub }
        ensures kept { length self.new.clients ≡ length self.old.clients }
    {
        if is_linked_at(self.clients.as_slice(), at) {
            return draw_at(alloc, &mut self.hub, &mut self.clients, at, clock);
        }
        number_in(self.step(alloc, at, Request::NewOids { count: 1 }, clock))
    }

    /// One more object is known, or the call has ended.
    fn learn<C: Clock>(
        &mut self,
        alloc: Global,
        at: usize,
        oid: Oid,
        known: &mut Known,
        clock: &mut C,
    ) -> Option<Result<Made, Refusal>>
        requires place { at < length self.old.clients }
        ensures advances { (root : ℕ) (op : TreeOperation) → St.told → (m : Moment)
            → StandsGathering self.old (C.stamps clock.old) m at root op known.old [] → IsAskedOf m at root op oid
            → AdvancesTo m at root op self.new (C.stamps clock.new) known.new [] result }
        ensures hub { ReadsLinked (St.told × MayLearn self.old (C.stamps clock.old) at known.old oid) St.lasts
            St.stands (outcome_of_advance result) self.old.hub self.new.hub }
        ensures filled { IfSome result (λ ended. IfOk ended IsFilled) }
        ensures learnt { result ≡ None → is_some (known_at known.new oid) ≡ true }
        ensures more { known_at known.old oid ≡ None → Gathers (length known.old) (length known.new) result }
        ensures grows { length known.old ≤ length known.new }
        ensures kept { length self.new.clients ≡ length self.old.clients }
    {
        match self.see(alloc, at, oid, clock) {
            Err(why) => Some(Err(why)),
            Ok(seen) => match known.learn(oid, seen) {
                Ok(()) => None,
                Err(_) => Some(Err(Refusal::Memory)),
            },
        }
    }

    /// An object is known, or the call has ended. It is read where it isn't known yet.
    fn learn_new<C: Clock>(
        &mut self,
        alloc: Global,
        at: usize,
        oid: Oid,
        known: &mut Known,
        clock: &mut C,
    ) -> Option<Result<Made, Refusal>>
        requires place { at < length self.old.clients }
        ensures advances { (root : ℕ) (op : TreeOperation) → St.told → (m : Moment)
            → StandsGathering self.old (C.stamps clock.old) m at root op known.old [] → IsAskedOf m at root op oid
            → AdvancesTo m at root op self.new (C.stamps clock.new) known.new [] result }
        ensures hub { ReadsLinked (St.told × MayLearn self.old (C.stamps clock.old) at known.old oid) St.lasts
            St.stands (outcome_of_advance result) self.old.hub self.new.hub }
        ensures filled { IfSome result (λ ended. IfOk ended IsFilled) }
        ensures learnt { result ≡ None → is_some (known_at known.new oid) ≡ true }
        ensures grows { length known.old ≤ length known.new }
        ensures kept { length self.new.clients ≡ length self.old.clients }
    {
        if known.find(oid).is_some() {
            return None;
        }
        self.learn(alloc, at, oid, known, clock)
    }

    /// Objects are known that a call asks for, up to the first that is missing, or the call has ended.
    fn learn_all<C: Clock>(
        &mut self,
        alloc: Global,
        at: usize,
        oids: &[Oid],
        known: &mut Known,
        clock: &mut C,
    ) -> Option<Result<Made, Refusal>>
        requires place { at < length self.old.clients }
        ensures advances { (root : ℕ) (op : TreeOperation) → St.told → (m : Moment)
            → StandsGathering self.old (C.stamps clock.old) m at root op known.old []
            → All (IsAskedOf m at root op) oids.now
            → AdvancesTo m at root op self.new (C.stamps clock.new) known.new [] result }
        ensures hub { ReadsLinked (St.told × MayLearnAll self.old (C.stamps clock.old) at known.old oids.now) St.lasts
            St.stands (outcome_of_advance result) self.old.hub self.new.hub }
        ensures filled { IfSome result (λ ended. IfOk ended IsFilled) }
        ensures grows { length known.old ≤ length known.new }
        ensures kept { length self.new.clients ≡ length self.old.clients }
    {
        for oid in oids {
            if let Some(ended) = self.learn_new(alloc, at, *oid, known, clock) {
                return Some(ended);
            }
            if is_missing(known, *oid) {
                return None;
            }
        }
        None
    }

    /// What a call over many objects is going to read is known too, or the call has ended.
    fn look_ahead<C: Clock>(
        &mut self,
        alloc: Global,
        at: usize,
        root: Oid,
        operation: &TreeOperation,
        known: &mut Known,
        clock: &mut C,
    ) -> Option<Result<Made, Refusal>>
        requires place { at < length self.old.clients }
        ensures advances { St.told → (m : Moment)
            → StandsGathering self.old (C.stamps clock.old) m at root operation.now known.old []
            → AdvancesTo m at root operation.now self.new (C.stamps clock.new) known.new [] result }
        ensures hub { ReadsLinked (St.told × MayGather self.old (C.stamps clock.old) at root operation.now known.old []) St.lasts
            St.stands (outcome_of_advance result) self.old.hub self.new.hub }
        ensures filled { IfSome result (λ ended. IfOk ended IsFilled) }
        ensures grows { length known.old ≤ length known.new }
        ensures kept { length self.new.clients ≡ length self.old.clients }
    {
        if is_lost_at(self.clients.as_slice(), at) {
            return Some(Err(Refusal::Memory));
        }
        match objects_ahead(alloc, known, root, operation) {
            Ok(oids) => self.learn_all(alloc, at, oids.as_slice(), known, clock),
            Err(_) => Some(Err(Refusal::Memory)),
        }
    }

    /// One more number is drawn, or the call has ended.
    fn draw_more<C: Clock>(
        &mut self,
        alloc: Global,
        at: usize,
        numbers: &mut Vec<Oid>,
        clock: &mut C,
    ) -> Option<Result<Made, Refusal>>
        requires place { at < length self.old.clients }
        ensures advances { (root : ℕ) (op : TreeOperation) (known : List (ℕ × Option Seen)) → St.told → (m : Moment)
            → (g : StandsGathering self.old (C.stamps clock.old) m at root op known numbers.old.items)
            → NeedsMore m.machine g.transaction root op numbers.old.items
            → AdvancesTo m at root op self.new (C.stamps clock.new) known numbers.new.items result }
        ensures hub { ReadsLinked (St.told × MayReadFor self.old (C.stamps clock.old) at) St.lasts
            St.stands (outcome_of_advance result) self.old.hub self.new.hub }
        ensures filled { IfSome result (λ ended. IfOk ended IsFilled) }
        ensures more { Gathers (length numbers.old.items) (length numbers.new.items) result }
        ensures kept { length self.new.clients ≡ length self.old.clients }
    {
        match self.draw(alloc, at, clock) {
            Err(why) => Some(Err(why)),
            Ok(oid) => match numbers.push(oid) {
                Ok(()) => None,
                Err(_) => Some(Err(Refusal::Memory)),
            },
        }
    }

    /// What follows an attempt: the call has ended, or more is known or drawn.
    fn go_on<C: Clock>(
        &mut self,
        alloc: Global,
        at: usize,
        attempt: Attempt,
        known: &mut Known,
        numbers: &mut Vec<Oid>,
        clock: &mut C,
    ) -> Option<Result<Made, Refusal>>
        requires place { at < length self.old.clients }
        requires attempted { (objects : ℕ → Option Seen) × (root : ℕ) × (op : TreeOperation)
            × IsAttempt objects root op numbers.old.items attempt }
        requires wanted { IsWanted known.old attempt }
        ensures advances { (objects : ℕ → Option Seen) (root : ℕ) (op : TreeOperation)
            → IsAttempt objects root op numbers.old.items attempt
            → HasRead known.old objects root op numbers.old.items attempt → Agrees known.old objects
            → St.told → (m : Moment)
            → (g : StandsGathering self.old (C.stamps clock.old) m at root op known.old numbers.old.items)
            → Sees m.machine g.transaction objects
            → AdvancesTo m at root op self.new (C.stamps clock.new) known.new numbers.new.items result }
        ensures hub { ReadsLinked (St.told × MayGo self.old (C.stamps clock.old) at known.old numbers.old.items
            (λ objects root op. IsAttempt objects root op numbers.old.items attempt)) St.lasts St.stands
            (outcome_of_advance result) self.old.hub self.new.hub }
        ensures filled { IfSome result (λ ended. IfOk ended IsFilled) }
        ensures more { Gathers (gathered known.old numbers.old.items) (gathered known.new numbers.new.items) result }
        ensures kept { length self.new.clients ≡ length self.old.clients }
    {
        match attempt {
            Attempt::Made(made) => Some(Ok(made)),
            Attempt::Refused(why) => Some(Err(why)),
            Attempt::WantsObject { oid } => self.learn(alloc, at, oid, known, clock),
            Attempt::WantsNumber => self.draw_more(alloc, at, numbers, clock),
        }
    }

    /// Attempts a call of the client at a place over what is known, and over what else its transaction has.
    fn attempt_at(
        &mut self,
        alloc: Global,
        at: usize,
        known: &Known,
        numbers: &[Oid],
        root: Oid,
        operation: &TreeOperation,
    ) -> Result<Attempt, AllocError>
        requires place { at < length self.old.clients }
        ensures attempt { IfOk result (λ attempt. (connection : Open)
            × ((x : Member) → slice_get self.old.clients at ≡ Some x → connection ≡ connection_of x)
            × IsAttempt (objects_over known.now self.old.hub.store.list (work_of connection)) root operation.now
            numbers.now attempt
            × HasRead known.now (objects_over known.now self.old.hub.store.list (work_of connection)) root operation.now
            numbers.now attempt) }
        ensures wants { IfOk result (IsWanted known.now) }
        ensures same { self.new ≡ self.old }
    {
        let attempt = attempt(
            alloc,
            &self.hub,
            connection_at(self.clients.as_slice(), at),
            known,
            &mut self.cache,
            numbers,
            root,
            operation,
        )?;
        Ok(attempt)
    }

    /// Attempts a call of the client at a place. `None` is answered where it is to be made again, with more known or
    /// drawn.
    fn attempt_once<C: Clock>(
        &mut self,
        alloc: Global,
        at: usize,
        root: Oid,
        operation: &TreeOperation,
        known: &mut Known,
        numbers: &mut Vec<Oid>,
        clock: &mut C,
    ) -> Option<Result<Made, Refusal>>
        requires place { at < length self.old.clients }
        ensures advances { St.told → (m : Moment)
            → StandsGathering self.old (C.stamps clock.old) m at root operation.now known.old numbers.old.items
            → AdvancesTo m at root operation.now self.new (C.stamps clock.new) known.new numbers.new.items result }
        ensures hub { ReadsLinked (St.told × MayGather self.old (C.stamps clock.old) at root operation.now known.old numbers.old.items) St.lasts
            St.stands (outcome_of_advance result) self.old.hub self.new.hub }
        ensures filled { IfSome result (λ ended. IfOk ended IsFilled) }
        ensures more { Gathers (gathered known.old numbers.old.items) (gathered known.new numbers.new.items) result }
        ensures kept { length self.new.clients ≡ length self.old.clients }
    {
        if is_lost_at(self.clients.as_slice(), at) {
            return Some(Err(Refusal::Memory));
        }
        let Ok(attempt) = self.attempt_at(alloc, at, known, numbers.as_slice(), root, operation)
        else {
            return Some(Err(Refusal::Memory));
        };
        self.go_on(alloc, at, attempt, known, numbers, clock)
    }

    /// The same, and what the call is going to read besides is known too. Nothing is read once numbers are drawn.
    fn advance<C: Clock>(
        &mut self,
        alloc: Global,
        at: usize,
        root: Oid,
        operation: &TreeOperation,
        known: &mut Known,
        numbers: &mut Vec<Oid>,
        clock: &mut C,
    ) -> Option<Result<Made, Refusal>>
        requires place { at < length self.old.clients }
        ensures advances { St.told → (m : Moment)
            → StandsGathering self.old (C.stamps clock.old) m at root operation.now known.old numbers.old.items
            → AdvancesTo m at root operation.now self.new (C.stamps clock.new) known.new numbers.new.items result }
        ensures hub { ReadsLinked (St.told × MayGather self.old (C.stamps clock.old) at root operation.now known.old numbers.old.items) St.lasts
            St.stands (outcome_of_advance result) self.old.hub self.new.hub }
        ensures filled { IfSome result (λ ended. IfOk ended IsFilled) }
        ensures more { Gathers (gathered known.old numbers.old.items) (gathered known.new numbers.new.items) result }
        ensures kept { length self.new.clients ≡ length self.old.clients }
    {
        if let Some(ended) = self.attempt_once(alloc, at, root, operation, known, numbers, clock) {
            return Some(ended);
        }
        if !numbers.as_slice().is_empty() {
            return None;
        }
        self.look_ahead(alloc, at, root, operation, known, clock)
    }

    /// A call of the client at a place on a tree.
    fn call<C: Clock>(
        &mut self,
        alloc: Global,
        at: usize,
        root: Oid,
        operation: &TreeOperation,
        clock: &mut C,
    ) -> Result<Made, Refusal>
        requires place { at < length self.old.clients }
        ensures ends { St.told → (m : Moment) → StandsForMoment self.old (C.stamps clock.old) m →
            MayReadAt m at → LeadsTo (IsCallOf m at root operation.now result) self.new (C.stamps clock.new) }
        ensures hub { ReadsLinked (St.told × MayReadFor self.old (C.stamps clock.old) at) St.lasts
            St.stands (outcome_of_result result) self.old.hub self.new.hub }
        ensures filled { IfOk result IsFilled }
        ensures kept { length self.new.clients ≡ length self.old.clients }
    {
        let mut known = Known::new(alloc);
        let mut numbers: Vec<Oid> = Vec::new(alloc);
        for _i in 0..u64::MAX {
            if let Some(ended) = self.advance(
                alloc,
                at,
                root,
                operation,
                &mut known,
                &mut numbers,
                clock,
            ) {
                return ended;
            }
        }
        Err(Refusal::Memory)
    }

    /// A line of a tree.
    pub(crate) fn tree<C: Clock>(
        &mut self,
        alloc: Global,
        at: usize,
        root: Oid,
        call: &TreeCall,
        clock: &mut C,
    ) -> Answer
        requires place { at < length self.old.clients }
        ensures line { St.told → (m : Moment) → StandsForMoment self.old (C.stamps clock.old) m →
            MayReadAt m at → LeadsTo (OrStarved (IsOwnOf m at (Line.Tree root call.now)) m result)
            self.new (C.stamps clock.new) }
        ensures hub { LeavesHub (St.told × MayReadFor self.old (C.stamps clock.old) at) St.lasts St.stands
            (rules_of R.rules F.named self.old.hub) (slice_get self.old.clients at) (Line.Tree root call.now)
            (outcome_of_answer result) self.old.hub self.new.hub }
        ensures kept { length self.new.clients ≡ length self.old.clients }
    {
        let Ok(operation) = operation_of(call) else {
            return Answer::Refused(Refusal::Memory);
        };
        match self.call(alloc, at, root, &operation, clock) {
            Err(why) => Answer::Refused(why),
            Ok(Made { answer, puts }) => {
                let Ok(stores) = stores_put(alloc, puts) else {
                    return Answer::Refused(Refusal::Memory);
                };
                put_all_at(&mut self.clients, at, answer_told(answer), stores)
            }
        }
    }

    /// A line of a tree, in whatever the connection has open.
    pub(crate) fn tree_line<C: Clock>(
        &mut self,
        alloc: Global,
        at: usize,
        root: Oid,
        call: &TreeCall,
        clock: &mut C,
    ) -> Answer
        requires place { at < length self.old.clients }
        ensures line { St.told → (m : Moment) → StandsForMoment self.old (C.stamps clock.old) m → MayAskAt m at →
            LeadsTo (IsOpenLineOf (rules_of R.rules F.named self.old.hub) m at (Line.Tree root call.now) result)
            self.new (C.stamps clock.new) }
        ensures hub { LeavesHub (St.told × MayAskFor self.old (C.stamps clock.old) at) St.lasts St.stands
            (rules_of R.rules F.named self.old.hub) (slice_get self.old.clients at) (Line.Tree root call.now)
            (outcome_of_answer result) self.old.hub self.new.hub }
    {
        if is_lost_at(self.clients.as_slice(), at) {
            return Answer::Refused(Refusal::Memory);
        }
        if !connection_at(self.clients.as_slice(), at).is_in_transaction() {
            return Answer::Refused(Refusal::NoTransaction);
        }
        self.tree(alloc, at, root, call, clock)
    }
}
