//! Going back to what was pending earlier.

ghost use Rattle.std.specs.Prelude.{◌≡◌, nat_eq, take};
ghost use Rattle.indexmap.specs.IndexMap.{get};
ghost use Rattle.commit_phases.specs.Earlier.{with_content, with_contents};
ghost use Rattle.commit_phases.specs.Kept.{stores_of};

use crate::pending::{Stored, stored_base};
use crate::several::exchange;
use indexmap::IndexMap;
use std::alloc::Global;
use std::mem;
use zb_ids::{ListOf, Oid};
use zb_model::{Content, PendingCheck};

/// Gives an object's store or delete this content, if it has one, which takes no memory.
#[tactic(auto, using(crate::proofs::Earlier::content_given, crate::proofs::Earlier::not_given, crate::proofs::Earlier::is_there))]
fn give_content(stores: &mut IndexMap<Oid, Stored>, given: (Oid, Content))
    ensures { stores_of stores.new.entries ≡ with_content (stores_of stores.old.entries) given.0 given.1 }
{
    let (oid, content) = given;
    match stored_base(stores, oid) {
        Some(base) => exchange(stores, oid, Stored { base, content }),
        None => {}
    }
}

/// Gives each of these objects its content, if it has a store or delete, the last one first.
fn give_all(stores: &mut IndexMap<Oid, Stored>, contents: Vec<(Oid, Content)>)
    ensures { stores_of stores.new.entries ≡ with_contents (stores_of stores.old.entries) contents.items }
{
    let mut contents = contents;
    while let Some(given) = contents.pop() {
        give_content(stores, given);
    }
}

/// Gives each of these objects its content, if it has a store or delete, the last one first, and keeps
/// the front of the table.
#[tactic(auto, using(crate::proofs::Earlier::front_of_stores))]
pub(crate) fn give_contents(
    stores: &mut IndexMap<Oid, Stored>,
    contents: Vec<(Oid, Content)>,
    count: usize,
)
    ensures { stores_of stores.new.entries
        ≡ take count (with_contents (stores_of stores.old.entries) contents.items) }
{
    give_all(stores, contents);
    stores.truncate(count);
}

/// Keeps the front of the checks.
pub(crate) fn keep_checks(alloc: Global, checks: &mut ListOf<PendingCheck>, count: usize)
    ensures { checks.new ≡ take count checks.old }
{
    let mut kept = mem::replace(checks, ListOf::new(alloc)).into_vec();
    kept.truncate(count);
    *checks = ListOf::from_vec(kept);
}
