//! The hub of a new database over a list in memory, and votes.

ghost use Rattle.std.specs.Prelude.{◌≡◌, [], IfOk};
ghost use Rattle.zodb_core.specs.HubState.{IsFitting, StandsForMachine};
ghost use Rattle.zodb_core.specs.Machine.{machine_over};

use commit_phases::Pending;
use mapping_store::MappingStore;
use std::alloc::{AllocError, Global};
use zb_ids::{Oid, Stamp, Text8, Tid};
use zb_model::{NoRefs, NoRules, first_transaction};
use zodb_core::{Hub, Request};

/// The hub of a new database over a list in memory, without rules of merging.
pub(crate) fn new_hub(
    alloc: Global,
    stamp: Stamp,
) -> Result<Hub<MappingStore, NoRules, NoRefs>, AllocError>
    ensures empty { IfOk result (λ hub. hub.sessions ≡ []) }
    ensures stands { IfOk result (λ hub. StandsForMachine hub (machine_over hub.store.list)) }
{
    let first = first_transaction(alloc, stamp)?;
    let store = MappingStore::new(alloc, first)?;
    Ok(Hub::new(alloc, store, NoRules, NoRefs))
}

/// A vote on one new object.
pub(crate) fn vote_on(alloc: Global, oid: Oid) -> Result<Request, AllocError>
    ensures { IfOk result (λ request. IsFitting request) }
{
    let mut pending = Pending::new(alloc);
    let bytes = Text8::from_slice(alloc, b"a record")?;
    let Ok(()) = pending.store(oid, Tid(0), bytes) else {
        return Err(AllocError);
    };
    Ok(Request::Vote {
        user: Text8::new(alloc),
        description: Text8::new(alloc),
        extension: Text8::new(alloc),
        pending,
    })
}
