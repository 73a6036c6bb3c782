//! The requests of votes and undos, which take memory.

ghost use Rattle.std.specs.Prelude.{◌≡◌, [], IfOk};
ghost use Rattle.connection_view.specs.Loading.{AreVotable, IsShortText};
ghost use Rattle.zodb_core.specs.HubState.{IsFitting};

use commit_phases::Pending;
use std::alloc::{AllocError, Global};
use zb_ids::{ListOf, Text8, Tid};
use zb_model::{PendingCheck, PendingStore};
use zodb_core::Request;

/// Pending changes of these stores, without checks. Their bytes are moved, and none is copied. The
/// one error is want of memory: no length passes a limit.
fn stores_of(alloc: Global, stores: ListOf<PendingStore>) -> Result<Pending, AllocError>
    requires stores { AreVotable stores }
    ensures stores { IfOk result (λ pending. pending.stores ≡ stores) }
    ensures checks { IfOk result (λ pending. pending.checks ≡ []) }
{
    let mut pending = Pending::new(alloc);
    for store in stores.into_vec() {
        let Ok(()) = pending.put(store) else {
            return Err(AllocError);
        };
    }
    Ok(pending)
}

/// Pending changes with these checks beside, where there were none. The one error is want of memory.
fn with_checks(pending: Pending, checks: &[PendingCheck]) -> Result<Pending, AllocError>
    requires none { pending.checks ≡ [] }
    ensures stores { IfOk result (λ left. left.stores ≡ pending.stores) }
    ensures checks { IfOk result (λ left. left.checks ≡ checks.now) }
{
    let mut pending = pending;
    for check in checks {
        pending.check(check.oid, check.serial)?;
    }
    Ok(pending)
}

/// Pending changes of these stores and checks. The one error is want of memory.
fn pending_of(
    alloc: Global,
    stores: ListOf<PendingStore>,
    checks: ListOf<PendingCheck>,
) -> Result<Pending, AllocError>
    requires stores { AreVotable stores }
    ensures { IfOk result (λ pending. pending ≡ record { stores = stores; checks = checks }) }
{
    let pending = stores_of(alloc, stores)?;
    with_checks(pending, checks.as_slice())
}

/// The same tids once more. The one error is want of memory.
fn copy_of(alloc: Global, tids: &[Tid]) -> Result<ListOf<Tid>, AllocError>
    ensures { IfOk result (λ copy. copy ≡ tids.now) }
{
    let tids = Vec::from_slice(alloc, tids)?;
    Ok(ListOf::from_vec(tids))
}

/// The request of a vote, without an extension. The bytes of the stores are moved into it. The one
/// error is want of memory, and then they are dropped.
pub(crate) fn vote_request(
    alloc: Global,
    user: &Text8,
    description: &Text8,
    stores: ListOf<PendingStore>,
    checks: ListOf<PendingCheck>,
) -> Result<Request, AllocError>
    requires user { IsShortText user.now }
    requires description { IsShortText description.now }
    requires stores { AreVotable stores }
    ensures request { IfOk result (λ q. q ≡ Request.Vote user.now description.now []
        (record { stores = stores; checks = checks })) }
    ensures fitting { IfOk result IsFitting }
{
    let user = user.clone()?;
    let description = description.clone()?;
    let pending = pending_of(alloc, stores, checks)?;
    Ok(Request::Vote {
        user,
        description,
        extension: Text8::new(alloc),
        pending,
    })
}

/// The request of an undo. The one error is want of memory.
pub(crate) fn undo_request(
    alloc: Global,
    user: &Text8,
    description: &Text8,
    tids: &[Tid],
) -> Result<Request, AllocError>
    requires user { IsShortText user.now }
    requires description { IsShortText description.now }
    ensures request { IfOk result (λ q. q ≡ Request.Undo user.now description.now tids.now) }
    ensures fitting { IfOk result IsFitting }
{
    let user = user.clone()?;
    let description = description.clone()?;
    let tids = copy_of(alloc, tids)?;
    Ok(Request::Undo {
        user,
        description,
        tids,
    })
}
