//! What waits in an open transaction.

ghost use Rattle.std.specs.Prelude.{◌≡◌, ◌<◌, ◌⊎◌, All, Err, IfErr, IfOk, IsOk, Ok, OnOk, length};
ghost use Rattle.std.specs.Option.{option_map};
ghost use Rattle.commit_phases.specs.Pending.{pending_of};
ghost use Rattle.zb_model.specs.declared.data.Content.TheVariants.{Held};
ghost use Rattle.zb_model.specs.Database.{IsRecord};
ghost use Rattle.zb_model.specs.declared.refusal.Refusal.TheVariants as refusal;
ghost use Rattle.connection_view.specs.Works.{Work};
ghost use Rattle.connection_view.specs.Connections.{KeepsSight, LeavesWork, followed_by, base_read, changeable, checked_in_work, deleted_in_work, open_work, rolled_back, saved, stored_in_work, stored_all, store_told, unmixed, unvoted_work};
ghost use Rattle.connection_view.specs.Loading.{AreVotable};

use crate::work::OpenWork;
use commit_phases::PendingError;
use savepoints::SavepointError;
use zb_ids::{ListOf, Oid, Text8, Tid};
use zb_model::{PendingCheck, PendingStore, Refusal};

/// What is answered of a store that waits, or doesn't.
fn store_told(stored: Result<(), PendingError>) -> Result<(), Refusal>
    ensures { result ≡ store_told stored }
{
    match stored {
        Ok(()) => Ok(()),
        Err(PendingError::TooLong { length }) => Err(Refusal::TooLong { length }),
        Err(PendingError::Memory) => Err(Refusal::Memory),
    }
}

/// An object's bytes wait for the vote of this transaction.
fn store(work: &mut OpenWork, oid: Oid, base: Tid, bytes: Text8) -> Result<(), Refusal>
    requires filled { 0 < length bytes }
    ensures leaves { LeavesWork (followed_by (changeable (Ok work.old)) (stored_in_work
        (record { oid = oid; base = base; content = Held bytes })))
        (Ok work.old) (Ok work.new) result }
{
    if work.is_voted {
        return Err(Refusal::Voted);
    }
    store_told(work.waiting.store(oid, base, bytes))
}

/// An object's delete waits for the vote of this transaction.
fn delete(work: &mut OpenWork, oid: Oid, base: Tid) -> Result<(), Refusal>
    ensures leaves { LeavesWork (followed_by (changeable (Ok work.old)) (deleted_in_work oid base))
        (Ok work.old) (Ok work.new) result }
{
    if work.is_voted {
        return Err(Refusal::Voted);
    }
    match work.waiting.delete(oid, base) {
        Ok(()) => Ok(()),
        Err(_) => Err(Refusal::Memory),
    }
}

/// Several stores and deletes wait for the vote of this transaction: all of them, or none.
fn store_all(work: &mut OpenWork, stores: ListOf<PendingStore>) -> Result<(), Refusal>
    requires filled { All (λ p. IsRecord p.content) stores }
    ensures leaves { LeavesWork (followed_by (changeable (Ok work.old)) (stored_all stores)) (Ok work.old)
        (Ok work.new) result }
{
    if work.is_voted {
        return Err(Refusal::Voted);
    }
    store_told(work.waiting.store_all(stores))
}

/// A check waits for the vote of this transaction.
fn check(work: &mut OpenWork, oid: Oid, serial: Tid) -> Result<(), Refusal>
    ensures leaves { LeavesWork (followed_by (changeable (Ok work.old)) (checked_in_work
        (record { oid = oid; serial = serial })))
        (Ok work.old) (Ok work.new) result }
{
    if work.is_voted {
        return Err(Refusal::Voted);
    }
    match work.waiting.check(oid, serial) {
        Ok(()) => Ok(()),
        Err(_) => Err(Refusal::Memory),
    }
}

/// What waits in this transaction is saved.
fn save(work: &mut OpenWork) -> Result<u64, Refusal>
    ensures leaves { LeavesWork (followed_by (changeable (Ok work.old)) saved) (Ok work.old) (Ok work.new) result }
    ensures number { IfOk result (λ number. number ≡ length work.old.savepoints) }
{
    if work.is_voted {
        return Err(Refusal::Voted);
    }
    match work.waiting.save() {
        Ok(number) => Ok(number),
        Err(_) => Err(Refusal::Memory),
    }
}

/// This transaction goes back to a savepoint.
fn roll_back(work: &mut OpenWork, number: u64) -> Result<(), Refusal>
    ensures leaves { LeavesWork (followed_by (changeable (Ok work.old)) (rolled_back number)) (Ok work.old)
        (Ok work.new) result }
{
    if work.is_voted {
        return Err(Refusal::Voted);
    }
    match work.waiting.rollback(number) {
        Ok(()) => Ok(()),
        Err(SavepointError::NoSavepoint { number }) => Err(Refusal::NoSavepoint { number }),
        Err(SavepointError::Memory) => Err(Refusal::Memory),
    }
}

/// An object's bytes wait for the vote of an open transaction.
pub(crate) fn store_in(
    is_open: bool,
    work: &mut Option<OpenWork>,
    oid: Oid,
    base: Tid,
    bytes: Text8,
) -> Result<(), Refusal>
    requires filled { 0 < length bytes }
    ensures leaves { LeavesWork (followed_by (changeable (open_work is_open work.old)) (stored_in_work
        (record { oid = oid; base = base; content = Held bytes })))
        (open_work is_open work.old) (open_work is_open work.new) result }
    ensures sight { KeepsSight work.old work.new }
{
    if !is_open {
        return Err(Refusal::NotOpen);
    }
    match work {
        Some(work) => store(work, oid, base, bytes),
        None => Err(Refusal::NoTransaction),
    }
}

/// An object's delete waits for the vote of an open transaction.
pub(crate) fn delete_in(
    is_open: bool,
    work: &mut Option<OpenWork>,
    oid: Oid,
    base: Tid,
) -> Result<(), Refusal>
    ensures leaves { LeavesWork (followed_by (changeable (open_work is_open work.old)) (deleted_in_work oid base))
        (open_work is_open work.old) (open_work is_open work.new) result }
    ensures sight { KeepsSight work.old work.new }
{
    if !is_open {
        return Err(Refusal::NotOpen);
    }
    match work {
        Some(work) => delete(work, oid, base),
        None => Err(Refusal::NoTransaction),
    }
}

/// Several stores and deletes wait for the vote of an open transaction: all of them, or none.
pub(crate) fn store_all_in(
    is_open: bool,
    work: &mut Option<OpenWork>,
    stores: ListOf<PendingStore>,
) -> Result<(), Refusal>
    requires filled { All (λ p. IsRecord p.content) stores }
    ensures leaves { LeavesWork (followed_by (changeable (open_work is_open work.old)) (stored_all stores))
        (open_work is_open work.old) (open_work is_open work.new) result }
    ensures sight { KeepsSight work.old work.new }
{
    if !is_open {
        return Err(Refusal::NotOpen);
    }
    match work {
        Some(work) => store_all(work, stores),
        None => Err(Refusal::NoTransaction),
    }
}

/// A check waits for the vote of an open transaction.
pub(crate) fn check_in(
    is_open: bool,
    work: &mut Option<OpenWork>,
    oid: Oid,
    serial: Tid,
) -> Result<(), Refusal>
    ensures leaves { LeavesWork (followed_by (changeable (open_work is_open work.old)) (checked_in_work
        (record { oid = oid; serial = serial })))
        (open_work is_open work.old) (open_work is_open work.new) result }
    ensures sight { KeepsSight work.old work.new }
{
    if !is_open {
        return Err(Refusal::NotOpen);
    }
    match work {
        Some(work) => check(work, oid, serial),
        None => Err(Refusal::NoTransaction),
    }
}

/// What waits in an open transaction is saved.
pub(crate) fn save_in(is_open: bool, work: &mut Option<OpenWork>) -> Result<u64, Refusal>
    ensures leaves { LeavesWork (followed_by (changeable (open_work is_open work.old)) saved)
        (open_work is_open work.old) (open_work is_open work.new) result }
    ensures number { IfOk result (λ number. (w : Work) → open_work is_open work.old ≡ Ok w
        → number ≡ length w.savepoints) }
    ensures sight { KeepsSight work.old work.new }
{
    if !is_open {
        return Err(Refusal::NotOpen);
    }
    match work {
        Some(work) => save(work),
        None => Err(Refusal::NoTransaction),
    }
}

/// An open transaction goes back to a savepoint.
pub(crate) fn roll_back_in(
    is_open: bool,
    work: &mut Option<OpenWork>,
    number: u64,
) -> Result<(), Refusal>
    ensures leaves { LeavesWork (followed_by (changeable (open_work is_open work.old)) (rolled_back number))
        (open_work is_open work.old) (open_work is_open work.new) result }
    ensures sight { KeepsSight work.old work.new }
{
    if !is_open {
        return Err(Refusal::NotOpen);
    }
    match work {
        Some(work) => roll_back(work, number),
        None => Err(Refusal::NoTransaction),
    }
}

/// The work of an open transaction.
pub(crate) fn opened(is_open: bool, work: &Option<OpenWork>) -> Result<&OpenWork, Refusal>
    ensures ok { IfOk result (λ opened. open_work is_open work.now ≡ Ok opened.now) }
    ensures err { IfErr result (λ r. open_work is_open work.now ≡ Err r) }
{
    if !is_open {
        return Err(Refusal::NotOpen);
    }
    match work {
        Some(work) => Ok(work),
        None => Err(Refusal::NoTransaction),
    }
}

/// The work of an open transaction that isn't voted.
fn unvoted(is_open: bool, work: &Option<OpenWork>) -> Result<&OpenWork, Refusal>
    ensures ok { IfOk result (λ unvoted. changeable (open_work is_open work.now) ≡ Ok unvoted.now) }
    ensures err { IfErr result (λ r. changeable (open_work is_open work.now) ≡ Err r) }
{
    let work = opened(is_open, work)?;
    if work.is_voted {
        return Err(Refusal::Voted);
    }
    Ok(work)
}

/// What waits for the vote in an open transaction that isn't voted: the stores and deletes, and the checks.
#[tactic(auto, using(crate::proofs::Votable::votable))]
pub(crate) fn parts_in(
    is_open: bool,
    work: &Option<OpenWork>,
) -> Result<(ListOf<PendingStore>, ListOf<PendingCheck>), Refusal>
    ensures ok { IfOk result (λ parts. (w : Work) × (changeable (open_work is_open work.now) ≡ Ok w)
        × (parts.0 ≡ w.pending.stores) × (parts.1 ≡ w.pending.checks)) }
    ensures votable { IfOk result (λ parts. AreVotable parts.0) }
    ensures err { IfErr result (λ r. (changeable (open_work is_open work.now) ≡ Err r)
        ⊎ ((w : Work) × (changeable (open_work is_open work.now) ≡ Ok w) × (r ≡ refusal.Memory))) }
{
    let work = unvoted(is_open, work)?;
    match work.waiting.parts() {
        Ok(parts) => Ok(parts),
        Err(_) => Err(Refusal::Memory),
    }
}

/// That an open transaction isn't voted, and that nothing waits in it.
pub(crate) fn unmixed_in(is_open: bool, work: &Option<OpenWork>) -> Result<(), Refusal>
    ensures ok { OnOk result (IsOk (followed_by (changeable (open_work is_open work.now)) unmixed)) }
    ensures err { IfErr result (λ r. followed_by (changeable (open_work is_open work.now)) unmixed ≡ Err r) }
{
    let work = unvoted(is_open, work)?;
    let stores = work.waiting.count();
    if stores == 0 {
        Ok(())
    } else {
        Err(Refusal::Mixed { stores })
    }
}

/// The base of what waits under an object in an open transaction that isn't voted, if something does.
pub(crate) fn base_in(
    is_open: bool,
    work: &Option<OpenWork>,
    oid: Oid,
) -> Result<Option<Tid>, Refusal>
    ensures ok { IfOk result (λ base. (w : Work) × (changeable (open_work is_open work.now) ≡ Ok w)
        × (base ≡ option_map (λ p. p.base) (pending_of w.pending.stores oid))) }
    ensures err { IfErr result (λ r. changeable (open_work is_open work.now) ≡ Err r) }
{
    let work = unvoted(is_open, work)?;
    Ok(work.waiting.base_of(oid))
}

/// What waits under an object in an open transaction, if something does.
pub(crate) fn waiting_in(
    is_open: bool,
    work: &Option<OpenWork>,
    oid: Oid,
) -> Result<Option<PendingStore>, Refusal>
    ensures ok { IfOk result (λ store. (w : Work) × (open_work is_open work.now ≡ Ok w)
        × (store ≡ pending_of w.pending.stores oid)) }
    ensures err { IfErr result (λ r. (open_work is_open work.now ≡ Err r)
        ⊎ ((w : Work) × (open_work is_open work.now ≡ Ok w) × (r ≡ refusal.Memory))) }
{
    let work = opened(is_open, work)?;
    match work.waiting.copy_of(oid) {
        Ok(store) => Ok(store),
        Err(_) => Err(Refusal::Memory),
    }
}

/// The base of what is put, by what is read.
pub(crate) fn base_read(read: Result<(Tid, Text8), Refusal>) -> Result<Tid, Refusal>
    ensures { result ≡ base_read read }
{
    match read {
        Ok(read) => Ok(read.0),
        Err(
            Refusal::Missing {
                oid: _,
                packed: false,
            },
        ) => Ok(Tid(0)),
        Err(why) => Err(why),
    }
}
