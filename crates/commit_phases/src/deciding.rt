//! What a vote decides.

ghost use Rattle.std.specs.Prelude.{◌≡◌, ℕ, ◌<◌, ◌≤◌, ◌^◌, ◌++◌, ◌∷◌, [], None, Ok, false, length, map, All, IfErr, IfOk, OnOk, IfSome, IfNone};
ghost use Rattle.std.specs.List.{sum_by};
ghost use Rattle.zb_model.specs.declared.new_transaction.NewContent.TheVariants as new_content;
ghost use Rattle.zb_model.specs.Database.{serial_of, IsRecord};
ghost use Rattle.zb_model.specs.Voting.{IsHeld};
ghost use Rattle.commit_phases.specs.Decision.{change_of_delete, change_of_store, change_or_conflict, changes_of_stores, current_record, excess_of, failed_check, goes_in, vote_decision};
ghost use Rattle.commit_phases.specs.Resolving.{held_count, length_of_new, record_count, refusal_as, unread_vote, HasCauseIn, IsResolved, ResolvingOnlyReads};
ghost use Rattle.commit_phases.specs.Voted.{AreCurrentRecords, HasVoteCause, IsDecision, IsFailedCheck, IsFailure, IsNewRecord, IsOneDecision, IsVoteRefusal, MayBeVoted, MayGoIn, VoteOnlyReads};

use crate::errors::VoteRefusal;
use crate::pending::{OBJECT_LIMIT, Pending, TRANSACTION_LIMIT};
use crate::resolving::{Unresolved, is_there, resolve};
use std::alloc::{AllocError, Global};
use zb_ids::{ListOf, Oid, Text8, Tid};
use zb_model::{
    Content, NewChange, NewContent, PendingCheck, PendingStore, Resolver, Store, StoreError, Why,
};

/// The bytes that go in for a store of these.
fn settle<St: Store, R: Resolver>(
    alloc: Global,
    store: &mut St,
    resolver: &R,
    oid: Oid,
    base: Tid,
    bytes: Text8,
) -> Result<Text8, Unresolved>
    requires whole { (St.state store.old).broken ≡ false }
    requires filled { 0 < length bytes }
    ensures settled { St.told
        → IsResolved (goes_in (R.rules resolver.now) (St.state store.old).list oid base bytes) result }
    ensures some { IfOk result (λ bytes. 0 < length bytes) }
    ensures read { ResolvingOnlyReads (St.state store.old) (St.state store.new) result }
    ensures unread { St.told → base ≡ serial_of oid (St.state store.old).list
        → St.state store.new ≡ St.state store.old }
{
    if store.serial_of(oid) == base {
        return Ok(bytes);
    }
    resolve(alloc, store, resolver, oid, base, bytes.as_slice())
}

/// The refusal that an answer without bytes becomes.
fn refuse<St: Store>(store: &St, oid: Oid, base: Tid, error: Unresolved) -> VoteRefusal
    requires whole { (St.state store.now).broken ≡ false }
    ensures refusal { St.told → result ≡ refusal_as (St.state store.now).list oid base error }
    ensures cause { (before now : ℕ) → HasCauseIn before now error → HasVoteCause before now result }
{
    match error {
        Unresolved::Refused(why) => VoteRefusal::Conflict {
            oid,
            base,
            current: store.serial_of(oid),
            why,
        },
        Unresolved::ReadFault => VoteRefusal::ReadFault,
        Unresolved::Memory => VoteRefusal::Memory,
    }
}

/// The change that a store of these bytes becomes.
fn change_of_bytes<St: Store, R: Resolver>(
    alloc: Global,
    store: &mut St,
    resolver: &R,
    oid: Oid,
    base: Tid,
    bytes: Text8,
) -> Result<NewChange, VoteRefusal>
    requires whole { (St.state store.old).broken ≡ false }
    requires filled { 0 < length bytes }
    ensures decided { St.told → IsOneDecision (St.state store.old).list (change_or_conflict
        (St.state store.old).list oid base
        (goes_in (R.rules resolver.now) (St.state store.old).list oid base bytes)) result }
    ensures oid { IfOk result (λ change. change.oid ≡ oid) }
    ensures filled { IfOk result (λ change. IsNewRecord change.content) }
    ensures read { VoteOnlyReads (St.state store.old) (St.state store.new) result }
    ensures unread { St.told → base ≡ serial_of oid (St.state store.old).list
        → St.state store.new ≡ St.state store.old }
{
    match settle(alloc, store, resolver, oid, base, bytes) {
        Ok(bytes) => Ok(NewChange {
            oid,
            content: NewContent::Bytes(bytes),
        }),
        Err(error) => Err(refuse(store, oid, base, error)),
    }
}

/// The refusal that a failed read becomes.
fn refuse_unread(error: StoreError) -> VoteRefusal
    ensures { result ≡ unread_vote error }
{
    match error {
        StoreError::Memory => VoteRefusal::Memory,
        StoreError::ReadFault => VoteRefusal::ReadFault,
        StoreError::StoreFault => VoteRefusal::ReadFault,
    }
}

/// The change that a delete becomes. Whether the object is there is found out by one read of it.
fn change_of_delete<St: Store>(
    alloc: Global,
    store: &mut St,
    oid: Oid,
    base: Tid,
) -> Result<NewChange, VoteRefusal>
    requires whole { (St.state store.old).broken ≡ false }
    ensures decided { St.told → IsOneDecision (St.state store.old).list (change_of_delete
        (St.state store.old).list oid base (current_record oid (St.state store.old).list)) result }
    ensures oid { IfOk result (λ change. change.oid ≡ oid) }
    ensures absent { IfOk result (λ change. change.content ≡ new_content.Absent) }
    ensures read { VoteOnlyReads (St.state store.old) (St.state store.new) result }
{
    let there = match is_there(alloc, store, oid) {
        Ok(there) => there,
        Err(error) => return Err(refuse_unread(error)),
    };
    let current = store.serial_of(oid);
    if !there {
        return Err(VoteRefusal::NothingToDelete { oid, current });
    }
    if base != current {
        return Err(VoteRefusal::Conflict {
            oid,
            base,
            current,
            why: Why::NoRule,
        });
    }
    Ok(NewChange {
        oid,
        content: NewContent::Absent,
    })
}

/// The change that a store or delete becomes.
fn change_of<St: Store, R: Resolver>(
    alloc: Global,
    store: &mut St,
    resolver: &R,
    pending: PendingStore,
) -> Result<NewChange, VoteRefusal>
    requires whole { (St.state store.old).broken ≡ false }
    requires filled { IsRecord pending.content }
    ensures decided { St.told → IsOneDecision (St.state store.old).list
        (change_of_store (R.rules resolver.now) (St.state store.old).list pending) result }
    ensures oid { IfOk result (λ change. change.oid ≡ pending.oid) }
    ensures filled { IfOk result (λ change. IsNewRecord change.content) }
    ensures few { IfOk result (λ change. record_count change.content ≤ held_count pending.content) }
    ensures read { VoteOnlyReads (St.state store.old) (St.state store.new) result }
    ensures unread { St.told → IsHeld pending.content
        → pending.base ≡ serial_of pending.oid (St.state store.old).list
        → St.state store.new ≡ St.state store.old }
{
    let PendingStore { oid, base, content } = pending;
    match content {
        Content::Held(bytes) => change_of_bytes(alloc, store, resolver, oid, base, bytes),
        Content::Absent => change_of_delete(alloc, store, oid, base),
    }
}

/// Puts a change behind the others.
fn keep(changes: &mut ListOf<NewChange>, change: NewChange) -> Result<(), AllocError>
    ensures { OnOk result (changes.new ≡ changes.old ++ change ∷ []) }
{
    changes.push(change)?;
    Ok(())
}

/// The changes that stores and deletes become, in their order. The first one that can't go in refuses them all.
fn changes_of<St: Store, R: Resolver>(
    alloc: Global,
    store: &mut St,
    resolver: &R,
    stores: ListOf<PendingStore>,
) -> Result<ListOf<NewChange>, VoteRefusal>
    requires whole { (St.state store.old).broken ≡ false }
    requires filled { All (λ p. IsRecord p.content) stores }
    ensures decided { St.told → IsDecision (St.state store.old).list
        (changes_of_stores (R.rules resolver.now) (St.state store.old).list stores) result }
    ensures oids { IfOk result (λ changes. map (λ c. c.oid) changes ≡ map (λ p. p.oid) stores) }
    ensures filled { IfOk result (λ changes. All (λ c. IsNewRecord c.content) changes) }
    ensures few { IfOk result (λ changes. sum_by (λ c. record_count c.content) changes
        ≤ sum_by (λ p. held_count p.content) stores) }
    ensures read { VoteOnlyReads (St.state store.old) (St.state store.new) result }
    ensures unread { St.told → AreCurrentRecords (St.state store.old).list stores
        → St.state store.new ≡ St.state store.old }
{
    let mut changes = ListOf::new(alloc);
    for pending in stores.into_vec() {
        let change = change_of(alloc, store, resolver, pending)?;
        keep(&mut changes, change)?;
    }
    Ok(changes)
}

/// The refusal of the first check whose serial isn't the object's.
fn refuse_checks<St: Store>(store: &St, checks: &[PendingCheck]) -> Option<VoteRefusal>
    requires whole { (St.state store.now).broken ≡ false }
    ensures none { St.told
        → IfNone result (failed_check (St.state store.now).list checks.now ≡ None) }
    ensures some { St.told
        → IfSome result (IsFailedCheck (failed_check (St.state store.now).list checks.now)) }
    ensures cause { IfSome result (λ why. (before now : ℕ) → now ≡ before → HasVoteCause before now why) }
{
    for check in checks {
        let current = store.serial_of(check.oid);
        if check.serial != current {
            return Some(VoteRefusal::ReadConflict {
                oid: check.oid,
                base: check.serial,
                current,
            });
        }
    }
    None
}

/// How many bytes a new change has.
fn length_of(change: &NewChange) -> u64
    ensures { result ≡ length_of_new change.now.content }
{
    match &change.content {
        NewContent::Bytes(bytes) => bytes.len() as u64,
        NewContent::Absent => 0,
        NewContent::AsOf(_) => 0,
    }
}

/// The length that passes a limit: that of the first change that passes the limit of an object, else that
/// of all where they pass the limit of a transaction.
#[tactic(auto, using(crate::proofs::Settling::room_more))]
fn excess(changes: &[NewChange]) -> Option<u64>
    requires few { sum_by (λ c. record_count c.content) changes.now ≤ 2 ^ 26 }
    ensures { result ≡ excess_of (map (λ c. length_of_new c.content) changes.now) }
{
    let mut sum = 0;
    for change in changes {
        let length = length_of(change);
        if length > OBJECT_LIMIT {
            return Some(length);
        }
        sum += length;
    }
    if sum > TRANSACTION_LIMIT {
        return Some(sum);
    }
    None
}

/// What a vote on pending changes will write over the list of a store, or why it is refused: for the
/// first store or delete that can't go in, else for the first check that fails, else for the lengths of
/// what would go in. A store whose base is the object's serial goes in with its bytes; any other is
/// merged by the resolver's rules, or is a conflict. A delete of an object that isn't there is refused
/// `NothingToDelete`; any other goes in where its base is the object's serial, and is a conflict
/// elsewhere. Contents are read for merging and of objects that are deleted alone. The bytes of the
/// pending changes are moved into the new ones, so a caller that wants them after a refusal copies them
/// first. With an error nothing is done but that a failed read is counted.
#[tactic(auto, unfolding(crate::specs::Decision::vote_decision))]
pub fn decide<St: Store, R: Resolver>(
    alloc: Global,
    store: &mut St,
    resolver: &R,
    pending: Pending,
) -> Result<ListOf<NewChange>, VoteRefusal>
    requires whole { (St.state store.old).broken ≡ false }
    ensures decided { St.told → IsDecision (St.state store.old).list
        (vote_decision (R.rules resolver.now) (St.state store.old).list pending) result }
    ensures votable { IfOk result (MayBeVoted (St.state store.old).list) }
    ensures read { VoteOnlyReads (St.state store.old) (St.state store.new) result }
    ensures unread { St.told → AreCurrentRecords (St.state store.old).list pending.stores
        → St.state store.new ≡ St.state store.old }
    ensures complete { St.told → MayGoIn (St.state store.old).list pending → IfErr result IsFailure }
{
    let (stores, checks) = pending.into_parts()?;
    let changes = changes_of(alloc, store, resolver, stores)?;
    match refuse_checks(store, checks.as_slice()) {
        Some(refusal) => Err(refusal),
        None => match excess(changes.as_slice()) {
            Some(length) => Err(VoteRefusal::TooLong { length }),
            None => Ok(changes),
        },
    }
}
