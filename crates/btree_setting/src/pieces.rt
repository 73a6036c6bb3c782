//! Pieces of what a set puts.

ghost use Rattle.std.specs.Prelude.{◌≡◌, ◌∷◌, [], slice_get, Some, IfOk};
ghost use Rattle.btree_family.specs.Buckets.{IsBucket};
ghost use Rattle.btree_putting.specs.Puts.{leaf_node};

use btree_family::{Bucket, Item, Key};
use btree_shapes::{Node, Shared};
use bucket_state::{Branch, Inner};
use std::alloc::{AllocError, Global};
use zb_ids::{ListOf, Oid};

/// The number at a place. Where there are too few, it is refused as want of memory.
pub(crate) fn number_at(oids: &[Oid], place: usize) -> Result<Oid, AllocError>
    ensures { IfOk result (λ oid. slice_get oids.now place ≡ Some oid) }
{
    match oids.get(place) {
        Some(oid) => Ok(*oid),
        None => Err(AllocError),
    }
}

/// A leaf of these items with this link.
pub(crate) fn leaf_node(
    alloc: Global,
    items: ListOf<Item>,
    next: Option<Oid>,
) -> Result<Node, AllocError>
    requires { IsBucket items }
    ensures { IfOk result (λ node. node ≡ leaf_node items next) }
{
    Ok(Node::Leaf(Shared::new(alloc, Bucket::new(items, next))?))
}

/// An object with others below it.
pub(crate) fn inner_node(alloc: Global, inner: Inner) -> Result<Node, AllocError>
    ensures { IfOk result (λ node. node ≡ Node.Inner inner) }
{
    Ok(Node::Inner(Shared::new(alloc, inner)?))
}

/// The branch to the second of two new objects, alone.
pub(crate) fn one_branch(alloc: Global, key: Key, child: Oid) -> Result<ListOf<Branch>, AllocError>
    ensures { IfOk result (λ branches. branches ≡ record { key = key; child = child } ∷ []) }
{
    let mut branches = ListOf::new(alloc);
    branches.push(Branch { key, child })?;
    Ok(branches)
}
