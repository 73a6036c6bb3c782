//! Where objects stand in a tree.

ghost use Rattle.std.specs.Prelude.{◌≡◌, IfOk};
ghost use Rattle.btree_checking.specs.Rules.{places_from};
ghost use Rattle.btree_checking.specs.Walks;

use btree_family::Key;
use bucket_state::Inner;
use std::alloc::{AllocError, Global};
use zb_ids::{ListOf, Oid};

/// Where an object stands in a tree.
#[derive(Debug, Drop)]
pub(crate) struct Place {
    /// The object.
    pub oid: Oid,
    /// The separator before it, if there is one: no key is below it.
    pub low: Option<Key>,
    /// The separator behind it, if there is one: each key is below it.
    pub high: Option<Key>,
    /// How many objects stand above it.
    pub level: u64,
}

/// The place of a root.
pub(crate) fn root_place(root: Oid) -> Place
    ensures { result ≡ Walks.root_place root }
{
    Place {
        oid: root,
        low: None,
        high: None,
        level: 0,
    }
}

/// A copy of a bound.
fn copied(bound: &Option<Key>) -> Result<Option<Key>, AllocError>
    ensures { IfOk result (λ copy. copy ≡ bound.now) }
{
    match bound {
        Some(key) => {
            let copy = key.clone()?;
            Ok(Some(copy))
        }
        None => Ok(None),
    }
}

/// Where the children of an object stand that stands at `place`, from left to right, each with
/// `level` objects above it.
pub(crate) fn places_below(
    alloc: Global,
    place: &Place,
    inner: &Inner,
    level: u64,
) -> Result<ListOf<Place>, AllocError>
    ensures { IfOk result (λ places. places
        ≡ places_from level place.now.low place.now.high inner.now.head inner.now.tail) }
{
    let mut places = ListOf::new(alloc);
    let mut low = copied(&place.low)?;
    let mut child = inner.head;
    for branch in inner.tail.as_slice() {
        let high = branch.key.clone()?;
        let next = branch.key.clone()?;
        places.push(Place {
            oid: child,
            low,
            high: Some(high),
            level,
        })?;
        low = Some(next);
        child = branch.child;
    }
    let high = copied(&place.high)?;
    places.push(Place {
        oid: child,
        low,
        high,
        level,
    })?;
    Ok(places)
}
