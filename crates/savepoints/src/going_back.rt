//! The contents that objects had when something was saved.

ghost use Rattle.std.specs.Prelude.{◌≡◌, ◌≤◌, IfOk, OnOk, drop, length};
ghost use Rattle.std.specs.Option.{option_map};
ghost use Rattle.commit_phases.specs.Earlier.{with_contents};
ghost use Rattle.savepoints.specs.Log.{all_taken_back, content_in, pending_content, taken_back, undone};

use crate::replaced::{Replaced, undo};
use commit_phases::Pending;
use indexmap::IndexMap;
use std::alloc::{AllocError, Global};
use zb_ids::Oid;
use zb_model::Content;

/// The content that an object had before the one that is pending, if it has one.
fn pending_before(
    alloc: Global,
    pending: &Pending,
    replaced: &Replaced,
) -> Result<Option<Content>, AllocError>
    ensures { IfOk result (λ found. found
        ≡ option_map (undone replaced.now.earlier) (pending_content pending.now.stores replaced.now.oid)) }
{
    match pending.copy_of(replaced.oid)? {
        None => Ok(None),
        Some(store) => Ok(Some(undo(alloc, &replaced.earlier, &store.content)?)),
    }
}

/// The content that an object had before the one that the contents give it, or else before the one that is
/// pending, if it has one.
fn content_before(
    alloc: Global,
    pending: &Pending,
    contents: &IndexMap<Oid, Content>,
    replaced: &Replaced,
) -> Result<Option<Content>, AllocError>
    ensures { IfOk result (λ found. found ≡ option_map (undone replaced.now.earlier)
        (content_in pending.now.stores contents.now.entries replaced.now.oid)) }
{
    match contents.get(&replaced.oid) {
        Some(content) => Ok(Some(undo(alloc, &replaced.earlier, content)?)),
        None => pending_before(alloc, pending, replaced),
    }
}

/// Takes one change back in the contents.
#[tactic(auto, using(crate::proofs::Contents::one_given_back, crate::proofs::Contents::not_given_back))]
fn take_back(
    alloc: Global,
    pending: &Pending,
    contents: &mut IndexMap<Oid, Content>,
    replaced: &Replaced,
) -> Result<(), AllocError>
    ensures { OnOk result (with_contents pending.now.stores contents.new.entries
        ≡ taken_back (with_contents pending.now.stores contents.old.entries) replaced.now) }
{
    match content_before(alloc, pending, contents, replaced)? {
        None => Ok(()),
        Some(content) => {
            contents.insert(replaced.oid, content)?;
            Ok(())
        }
    }
}

/// The contents with which all changes are taken back that the log has from a place on.
pub(crate) fn contents_at(
    alloc: Global,
    pending: &Pending,
    log: &[Replaced],
    from: usize,
) -> Result<Vec<(Oid, Content)>, AllocError>
    requires { from ≤ length log.now }
    ensures { IfOk result (λ contents. with_contents pending.now.stores contents.items
        ≡ all_taken_back pending.now.stores (drop from log.now)) }
{
    let mut contents = IndexMap::new(alloc);
    let mut place = log.len();
    while place > from {
        place -= 1;
        take_back(alloc, pending, &mut contents, &log[place])?;
    }
    let contents: Vec<(Oid, Content)> = contents.into_iter().collect(alloc)?;
    Ok(contents)
}
