//! The numbers in what is asked for are those that their types can hold.

ghost use Rattle.std.specs.Prelude.{map};
ghost use Rattle.zeo_client.specs.Asking.{check_call, store_call};
ghost use Rattle.zeo_values.specs.Values.{AreIds, IsId};
ghost use Rattle.remote_loads.specs.Making.{AreHeld};

use zb_ids::Tid;
use zb_model::{PendingCheck, PendingStore};

/// Two numbers of 64 bits.
pub(crate) fn are_ids(one: u64, other: u64)
    ensures one { IsId one }
    ensures other { IsId other }
{}

/// Each tid is a number of 64 bits.
#[tactic(auto, using(crate::proofs::Numbers::one_more_id))]
pub(crate) fn tids_are_held(tids: &[Tid])
    ensures { AreIds tids.now }
{
    for tid in tids {
        are_ids(tid.0, tid.0);
    }
}

/// The numbers in the calls of stores are those that their types can hold.
#[tactic(auto, using(crate::proofs::Numbers::one_more_store))]
pub(crate) fn stores_are_held(stores: &[PendingStore])
    ensures { AreHeld (map store_call stores.now) }
{
    for store in stores {
        are_ids(store.oid.0, store.base.0);
    }
}

/// The numbers in the calls of checks are those that their types can hold.
#[tactic(auto, using(crate::proofs::Numbers::one_more_check))]
pub(crate) fn checks_are_held(checks: &[PendingCheck])
    ensures { AreHeld (map check_call checks.now) }
{
    for check in checks {
        are_ids(check.oid.0, check.serial.0);
    }
}
